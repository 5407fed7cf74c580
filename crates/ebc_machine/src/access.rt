//! Accesses of the machine to its memory, and to the bytes of its code.

ghost use Rattle.std.specs.Prelude.{◌≡◌, Some, None, IfSome, IfNone};
ghost use Rattle.std.specs.Bool.{OnTrue, OnFalse};
ghost use Rattle.ebc_width.specs.Bytes.{IsAccess, put};
ghost use Rattle.object_memory.specs.Memory.{byte_at, ranges};
ghost use Rattle.ebc_width.specs.Ranges.{holds};
ghost use Rattle.note_types.specs.Concrete.{loaded, rest_from};
ghost use Rattle.ebc_machine.specs.States.{KeepsObjects, concrete_of};

use crate::Machine;
use object_memory::ObjMem;

impl<const W: usize> Machine<W> {
    // The number in the `count` bytes from an address on: none unless one object holds them.
    pub(crate) fn load(&self, mem: &ObjMem<W>, addr: u64, count: usize) -> Option<u64>
        requires { IsAccess count }
        ensures { result ≡ loaded (concrete_of self.now mem.now) addr count }
    {
        mem.load(addr, count)
    }

    // The bytes from ip to the end of the object that holds it.
    pub(crate) fn code<'a>(&self, mem: &'a ObjMem<W>) -> Option<&'a [u8]>
        ensures found { IfSome result (λ bytes. rest_from (concrete_of self.now mem.now) self.now.ip ≡ Some bytes.now) }
        ensures none { IfNone result (rest_from (concrete_of self.now mem.now) self.now.ip ≡ None) }
    {
        mem.bytes_from(self.ip)
    }
}

// Whether one object holds the `count` bytes from an address on.
pub(crate) fn holds<const W: usize>(mem: &ObjMem<W>, addr: u64, count: usize) -> bool
    ensures { result ≡ holds (ranges mem.now) addr count }
{
    mem.holds(addr, count)
}

// Stores the low `count` bytes of a number, where one object holds the bytes from the address on.
pub(crate) fn store<const W: usize>(
    mem: &mut ObjMem<W>,
    addr: u64,
    count: usize,
    value: u64,
) -> bool
    requires { IsAccess count }
    ensures done { result ≡ holds (ranges mem.old) addr count }
    ensures objects { KeepsObjects mem.old mem.new }
    ensures bytes { OnTrue result (byte_at mem.new ≡ put (byte_at mem.old) addr count value) }
    ensures same { OnFalse result (mem.new ≡ mem.old) }
{
    mem.store(addr, count, value)
}
