//! One block of memory, which contracts see as the list of its bytes. It stands on `ebc_base` and `ebc_width`; the
//! kit's `core` and `std_alloc` are listed for the proofs alone.
//!
//! Five functions have a raw pointer, each with a proof by hand that follows its statements: `allocate` and
//! `deallocate` of a block (src/block.rt), and `write`, `as_slice` and `as_mut_slice` of its bytes (src/parts.rt). All
//! others are safe code over these.
//!
//! Promises:
//!
//! - `Region::new`: as many zeros as asked for (no name). It fails only with `NoMemory`.
//! - `len`: how many bytes there are (no name).
//! - `load`: the number in 1, 2, 4 or 8 bytes, the lowest byte first (`number`), which is one of so many bytes
//!   (`below`).
//! - `store`: the low 1, 2, 4 or 8 bytes of a number are at these offsets, and each other byte is as it was (`bytes`);
//!   there are as many as before (`len`).
//! - `fill`: the same for a slice of any length (`bytes`, `len`).
//! - `bytes`: the bytes as a slice (no name).
//!
//! `load`, `store` and `fill` need bytes that lie in the region (`within`). A region gives its block back at its end.
//!
//! That a block is freed when its region ends has no clause: a body that leaks it would be proved too.
#![tactic(auto)]

ghost use Rattle.std.specs.Prelude.{◌≡◌, ℕ, ◌+◌, ◌^◌, ◌<◌, ◌≤◌, length, map, replicate, Option, Some, None, slice_index, IfOk};
ghost use Rattle.std.specs.Borrow.{sem};
ghost use Rattle.ebc_width.specs.Bytes.{IsAccess, little_endian, put, overlaid};

mod block;
mod number;
mod parts;

use block::{allocate, deallocate};
pub use ebc_base::NoMemory;
use number::{read_number, write_bytes, write_number};
use parts::{Base, Cells, Deed};
use std::alloc::Global;
use std::marker::Model;

/// One block of bytes, which contracts see as the list of these. It is freed at its end.
pub struct Region {
    base: Base,
    len: usize,
    cells: Cells,
    deed: Deed<Global>,
    alloc: Global,
}

impl Model for Region {
    ghost use Rattle.std.specs.Prelude.{ℕ, List};
    ghost use Rattle.raw_region.specs.Slots.{written_bytes};
    ghost use Rattle.raw_region.specs.Block.{IsFilled};

    ghost Value = { List ℕ };

    ghost view = { λ r. written_bytes r.cells.slots };

    ghost invariant = { λ r. IsFilled r.base r.len r.cells r.deed r.alloc };
}

impl Region {
    ghost use Rattle.raw_region.specs.Whole.{lends_bytes};

    /// A region of `len` zero bytes. It fails only where there is no memory for them.
    pub fn new(alloc: Global, len: usize) -> Result<Region, NoMemory>
        ensures { IfOk result (λ r. r ≡ replicate len 0) }
    {
        // No block is larger.
        if len > isize::MAX as usize {
            return Err(NoMemory);
        }
        let (base, mut cells, deed) = allocate(&alloc, len)?;
        zero(&mut cells, base, len);
        Ok(Region {
            base,
            len,
            cells,
            deed,
            alloc,
        })
    }

    /// How many bytes it has.
    pub fn len(&self) -> usize
        ensures { result ≡ length self.now }
    {
        self.len
    }

    /// The number in the `count` bytes from an offset on, the lowest byte first. `count` is 1, 2, 4
    /// or 8, and the bytes lie in the region.
    pub fn load(&self, offset: usize, count: usize) -> u64
        requires count { IsAccess count }
        requires within { offset + count ≤ length self.now }
        ensures number { result ≡ little_endian (slice_index self.now) offset count }
        ensures below { result < 256 ^ count }
    {
        read_number(self.bytes(), offset, count)
    }

    /// Stores the low `count` bytes of a number from an offset on, the lowest byte first, and
    /// changes no other byte. `count` is 1, 2, 4 or 8, and the bytes lie in the region.
    pub fn store(&mut self, offset: usize, count: usize, value: u64)
        requires count { IsAccess count }
        requires within { offset + count ≤ length self.old }
        ensures bytes { (i : ℕ) → slice_index self.new i ≡ put (slice_index self.old) offset count value i }
        ensures len { length self.new ≡ length self.old }
    {
        write_number(self.bytes_mut(), offset, count, value);
    }

    /// Writes bytes from an offset on, and changes no other byte. They lie in the region.
    pub fn fill(&mut self, offset: usize, bytes: &[u8])
        requires { offset + length bytes.now ≤ length self.old }
        ensures bytes { (i : ℕ) → slice_index self.new i ≡ overlaid (slice_index self.old) offset bytes.now i }
        ensures len { length self.new ≡ length self.old }
    {
        write_bytes(self.bytes_mut(), offset, bytes);
    }

    /// The bytes.
    pub fn bytes(&self) -> &[u8]
        ensures { result.now ≡ self.now }
    {
        self.cells.as_slice(self.base, self.len)
    }

    // The bytes, to be written.
    fn bytes_mut(&mut self) -> &mut [u8]
        ensures* writes_back { sem 𝓛 (lends_bytes self.entry result) }
        ensures value { result.now ≡ self.old }
    {
        let (base, len) = (self.base, self.len);
        self.cells.as_mut_slice(base, len)
    }
}

// Writes a zero into each byte of a block, none of which was written.
fn zero(cells: &mut Cells, base: Base, len: usize)
    requires { (base.ptr ≡ cells.old.at) × (cells.old.slots ≡ replicate len None) }
    ensures { (cells.new.at ≡ cells.old.at) × (cells.new.slots ≡ map Some (replicate len 0)) }
{
    for index in 0..len {
        cells.write(base, index, 0);
    }
}

impl Drop for Region {
    fn drop(self) {
        let Region {
            base,
            len,
            cells,
            deed,
            alloc,
        } = self;
        deallocate(&alloc, base, len, cells, deed);
    }
}
