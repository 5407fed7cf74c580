//! Words of eight bytes, side by side in a region.

ghost use Rattle.std.specs.Prelude.{◌≡◌, ◌+◌, ◌*◌, ◌^◌, ◌<◌, ◌≤◌, length, slice_index};
ghost use Rattle.frame_stack.specs.Words.{words_at, SameApart};

use raw_region::Region;

/// The words from an offset on.
pub(crate) fn read_words<const N: usize>(region: &Region, offset: usize) -> [u64; N]
    requires within { offset + 8 * N ≤ length region.now }
    requires small { length region.now < 2 ^ 32 }
    ensures { result ≡ words_at (slice_index region.now) offset N }
{
    let mut words = [0; N];
    for k in 0..N {
        words[k] = region.load(offset + 8 * k, 8);
    }
    words
}

/// Writes words from an offset on.
pub(crate) fn write_words(region: &mut Region, offset: usize, words: &[u64])
    requires within { offset + 8 * length words.now ≤ length region.old }
    requires small { length region.old < 2 ^ 32 }
    ensures words { words_at (slice_index region.new) offset (length words.now) ≡ words.now }
    ensures apart { SameApart (slice_index region.old) (slice_index region.new) offset (8 * length words.now) }
    ensures len { length region.new ≡ length region.old }
{
    for k in 0..words.len() {
        region.store(offset + 8 * k, 8, words[k]);
    }
}
