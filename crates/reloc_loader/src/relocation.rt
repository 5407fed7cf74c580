//! A base relocation (PE/COFF specification, "Base Relocation Types", IMAGE_REL_BASED_DIR64).

ghost use Rattle.std.specs.Prelude.{◌≡◌, ◌+◌, ◌%◌, ◌^◌, true};
ghost use Rattle.ebc_width.specs.Bytes.{little_endian, put};
ghost use Rattle.ebc_width.specs.Ranges.{holds};
ghost use Rattle.object_memory.specs.Memory.{IsMemory, ranges};
ghost use Rattle.reloc_loader.specs.Loads.{Becomes};

use object_memory::ObjMem;

/// Adds a distance, modulo 2^64, to the number in the eight bytes at an address.
pub(crate) fn relocate<const W: usize>(mem: &mut ObjMem<W>, at: u64, distance: u64)
    requires { holds (ranges mem.old) at 8 ≡ true }
    ensures becomes { Becomes mem.old mem.new (λ bytes. put bytes at 8 ((little_endian bytes at 8 + distance) % 2 ^ 64)) }
    ensures memory { IsMemory W mem.old → IsMemory W mem.new }
{
    if let Some(number) = mem.load(at, 8) {
        let _ = mem.store(at, 8, number.wrapping_add(distance));
    }
}
