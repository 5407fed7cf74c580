//! The parts of a block, and the reads and writes of its bytes. Each function here has a raw pointer, and a proof by hand.

ghost use Rattle.std.specs.Prelude.{◌≡◌, ℕ, ◌<◌, List, Option, Some, length, slice_set};
ghost use Rattle.std.specs.Borrow.{sem};
ghost use base.Fml.{ftrue};
ghost use denote.RawPtr.{Ptr};
ghost use Rattle.raw_region.specs.Slots.{written_bytes, AllWritten};
ghost use Rattle.raw_region.specs.Ownership.{cells_owns, cells_shares, deed_owns};

use std::alloc::Allocator;
use std::marker::{Model, PhantomData};
use std::slice;

/// Where a block begins. It owns nothing.
#[derive(Clone, Copy)]
pub(crate) struct Base {
    pub(crate) ptr: *mut u8,
}

/// The owner of a block's bytes, each written or not yet. It takes no space.
pub(crate) struct Cells {
    pub(crate) mark: PhantomData<*const u8>,
    ghost at: { Ptr },
    ghost slots: { List (Option ℕ) },
}

impl Model for Cells {
    ghost also_owns = { λ c. cells_owns c.at c.slots };

    ghost also_shares = { λ c _ κ. cells_shares c.at c.slots κ };
}

/// The right to give the block of `len` bytes at `at` back to `alloc`. It takes no space.
pub(crate) struct Deed<A: Allocator> {
    pub(crate) mark: PhantomData<*const A>,
    ghost at: { Ptr },
    ghost len: { ℕ },
    ghost alloc: { A },
}

impl<A: Allocator> Model for Deed<A> {
    ghost also_owns = { λ d. deed_owns (A.dealloc_token d.alloc) d.at d.len };

    ghost also_shares = { λ _ _ _. ftrue };
}

impl Cells {
    ghost use Rattle.raw_region.specs.Lends.{lends_cells};

    /// Writes one byte.
    pub(crate) fn write(&mut self, base: Base, index: usize, byte: u8)
        requires { (base.ptr ≡ self.old.at) × (index < length self.old.slots) }
        ensures { (self.new.at ≡ self.old.at) × (self.new.slots ≡ slice_set self.old.slots index (Some byte)) }
    {
        unsafe { base.ptr.add(index).write(byte) }
    }

    /// The bytes, all of which are written.
    pub(crate) fn as_slice(&self, base: Base, len: usize) -> &[u8]
        requires { (base.ptr ≡ self.now.at) × (length self.now.slots ≡ len) × AllWritten self.now.slots }
        ensures { result.now ≡ written_bytes self.now.slots }
    {
        unsafe { slice::from_raw_parts(base.ptr, len) }
    }

    /// The same bytes, to be written.
    pub(crate) fn as_mut_slice(&mut self, base: Base, len: usize) -> &mut [u8]
        requires { (base.ptr ≡ self.old.at) × (length self.old.slots ≡ len) × AllWritten self.old.slots }
        ensures* writes_back { sem 𝓛 (lends_cells self.entry result) }
        ensures value { result.now ≡ written_bytes self.old.slots }
    {
        unsafe { slice::from_raw_parts_mut(base.ptr, len) }
    }
}
