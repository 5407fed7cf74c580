//! A block is allocated and given back. Each function here has a raw pointer, and a proof by hand.

ghost use Rattle.std.specs.Prelude.{◌<◌, ◌^◌, IfOk};
ghost use Rattle.raw_region.specs.Block.{IsBlock, IsNew};

use crate::parts::{Base, Cells, Deed};
use std::alloc::{AllocError, Allocator};
use std::marker::PhantomData;

/// A block of `len` bytes, none of which is written.
pub(crate) fn allocate<A: Allocator>(
    alloc: &A,
    len: usize,
) -> Result<(Base, Cells, Deed<A>), AllocError>
    requires { len < 2 ^ 63 }
    ensures { IfOk result (λ r. IsNew r.0 len r.1 r.2 alloc.now) }
{
    match alloc.allocate(len, 1) {
        Ok(ptr) => {
            let base = Base { ptr };
            Ok((
                base,
                Cells { mark: PhantomData },
                Deed { mark: PhantomData },
            ))
        }
        Err(error) => Err(error),
    }
}

/// Gives a block back, whatever its bytes hold.
pub(crate) fn deallocate<A: Allocator>(
    alloc: &A,
    base: Base,
    len: usize,
    cells: Cells,
    deed: Deed<A>,
)
    requires { IsBlock base len cells deed alloc.now }
{
    let Cells { mark: _ } = cells;
    let Deed { mark: _ } = deed;
    unsafe {
        alloc.deallocate(base.ptr, len, 1);
    }
}
