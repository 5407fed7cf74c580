//! Items of lists, by their numbers.
ghost use Rattle.std.specs.Prelude.{◌≡◌, option_copied, slice_get};

use ebc_base::Sequence;

/// The item of that number.
pub(crate) fn item_at<T>(items: &Sequence<T>, number: usize) -> Option<&T>
    ensures { option_copied result ≡ slice_get items.now number }
{
    items.as_slice().get(number)
}
