//! How the host reads numbers (docs/HOST.md, "Readings").
ghost use Rattle.std.specs.Prelude.{◌≡◌, ℕ, ◌+◌, ◌-◌, ◌*◌, ◌<◌, ◌≤◌, ◌^◌, List, Option, length, nat_eq, nat_lt, if◌then◌else◌, Some};
ghost use Rattle.std.specs.Option.{option_map};
ghost use Rattle.ebc_width.specs.Width.{IsWidth};
ghost use Rattle.note_types.specs.declared.notes.Notes.{Notes};
ghost use Rattle.host_model.specs.declared.object.TypedObject.{TypedObject};
ghost use Rattle.host_model.specs.Values.{error_bit, word};
ghost use Rattle.host_model.specs.Readings.{instance_named, or_null, or_wild, pointer_from, reading_of, status_read, thing_at};
ghost use Rattle.native_host.specs.Kept.{IsOf, placement_of};
ghost use Rattle.native_host.specs.Sorts.{sort_of};

use crate::places::{AREA_STEP, HANDLES, Places};
use crate::sort::Sort;
use host_model::TypedObject;
use note_types::Value;

/// The error bit of a status.
pub(crate) fn error_bit<const W: usize>() -> u64
    requires { IsWidth W }
    ensures bit { result ≡ error_bit W }
    ensures small { result ≤ 2 ^ 63 }
{
    if W == 4 { 1 << 31 } else { 1 << 63 }
}

// Which of so many things, 16 bytes each from an address on, begins at `x`.
fn thing_at(first: u64, count: u32, x: u64) -> Option<u32>
    ensures { result ≡ thing_at first count x }
{
    if first <= x && x - first < AREA_STEP * u64::from(count) && (x - first) % AREA_STEP == 0 {
        Some(((x - first) / AREA_STEP) as u32)
    } else {
        None
    }
}

// Whether an offset lies within so many instances of a size.
fn is_within(offset: u64, count: u64, size: u64) -> bool
    ensures { result ≡ nat_lt offset (count * size) }
{
    match count.checked_mul(size) {
        Some(bytes) => offset < bytes,
        None => true,
    }
}

// Which of so many instances of a size, from a base on, begins at `x`.
fn instance_named(base: u64, size: u64, count: u64, x: u64) -> Option<u64>
    ensures { result ≡ instance_named base size count x }
{
    if x == base {
        return Some(0);
    }
    if base < x && is_within(x - base, count, size) && (x - base) % size == 0 {
        Some((x - base) / size)
    } else {
        None
    }
}

// A reading, or the number itself where it has none.
fn or_wild(x: u64, reading: Option<Value>) -> Value
    ensures { result ≡ or_wild x reading }
{
    match reading {
        Some(value) => value,
        None => Value::Wild(x),
    }
}

// Null, or another reading.
fn or_null(x: u64, reading: Option<Value>) -> Option<Value>
    ensures { result ≡ or_null x reading }
{
    if x == 0 { Some(Value::Null) } else { reading }
}

// The status that a number is.
fn status_read<const W: usize>(x: u64) -> Option<Value>
    requires { IsWidth W }
    ensures { result ≡ status_read W x }
{
    let error = error_bit::<W>();
    if x < 1 << 31 {
        Some(Value::StatusOk(x as u32))
    } else if error <= x && x - error < 1 << 31 {
        Some(Value::StatusError((x - error) as u32))
    } else {
        None
    }
}

/// The bytes of a pair of natural units and bytes.
#[tactic(auto, using(note_types::proofs::ShapeLaws::pair_is_small))]
pub(crate) fn pair_at<const W: usize>(n: u32, c: u32) -> u64
    requires { IsWidth W }
    ensures bytes { result ≡ n * W + c }
    ensures most { result < 2 ^ 36 }
{
    u64::from(n) * W as u64 + u64::from(c)
}

/// The number of a pair of natural units and bytes, modulo 2^64.
pub(crate) fn pair_number<const W: usize>(n: u32, c: u32) -> u64
    requires { IsWidth W }
    ensures { result ≡ word (n * W + c) }
{
    pair_at::<W>(n, c)
}

// A number as a size.
fn size_read<const W: usize>(n: u32, c: u32, x: u64) -> Value
    requires { IsWidth W }
    ensures { result ≡ (if nat_eq x (word (n * W + c)) then Value.Size n c else Value.Wild x) }
{
    if x == pair_number::<W>(n, c) {
        Value::Size { n, c }
    } else {
        Value::Wild(x)
    }
}

impl Places {
    // The method whose address is `x`.
    fn method_read(&self, x: u64) -> Option<Value>
        ensures { result ≡ option_map Value.Method (thing_at (self.now.native + 16) self.now.methods x) }
    {
        match thing_at(self.method_at(0), self.methods, x) {
            Some(method) => Some(Value::Method(method)),
            None => None,
        }
    }

    // The function whose thunk's address is `x`.
    fn entry_read(&self, x: u64) -> Option<Value>
        ensures { result ≡ option_map Value.Entry (thing_at (self.now.native + 16 * (1 + self.now.methods)) self.now.functions x) }
    {
        match thing_at(self.thunk_at(0), self.functions, x) {
            Some(function) => Some(Value::Entry(function)),
            None => None,
        }
    }

    // The handle whose address is `x`.
    fn handle_read(&self, x: u64) -> Option<Value>
        ensures { result ≡ option_map Value.Handle (thing_at (self.now.native + 16 * (1 + self.now.methods + self.now.functions)) 1024 x) }
    {
        match thing_at(self.handle_at(0), HANDLES, x) {
            Some(handle) => Some(Value::Handle(handle)),
            None => None,
        }
    }

    // The instance that begins at `x`, of the first typed object that has one there.
    fn pointer_read(&self, made: &[TypedObject], x: u64) -> Option<Value>
        ensures { (w : ℕ) (notes : Notes) → IsOf w notes self.now → result ≡ pointer_from w notes (placement_of self.now) 0 made.now x }
    {
        for (k, object) in made.iter().enumerate() {
            let base = self.object_base(k as u64);
            let size = self.instance_bytes(object.shape);
            if let Some(instance) = instance_named(base, size, object.count, x) {
                return Some(Value::Ptr {
                    object: k as u64,
                    instance,
                });
            }
        }
        None
    }

    /// The reading of a number of a sort, where these typed objects are made.
    pub fn reading<const W: usize>(&self, made: &[TypedObject], sort: Sort, x: u64) -> Value
        requires { IsWidth W }
        ensures { (notes : Notes) → IsOf W notes self.now → result ≡ reading_of W notes (placement_of self.now) made.now (sort_of sort) x }
    {
        match sort {
            Sort::Anything => Value::Any,
            Sort::Number => Value::Int(x),
            Sort::Size { n, c } => size_read::<W>(n, c, x),
            Sort::Pointer => or_wild(x, or_null(x, self.pointer_read(made, x))),
            Sort::Handle => or_wild(x, or_null(x, self.handle_read(x))),
            Sort::Entry => or_wild(x, or_null(x, self.entry_read(x))),
            Sort::Status => or_wild(x, status_read::<W>(x)),
            Sort::Method => or_wild(x, self.method_read(x)),
        }
    }
}
