//! Tests of the memory of objects.

use object_memory::{ObjId, ObjMem, PlaceFault};
use std::test::Fail;

#[test]
fn objects_of_a_machine_of_four_bytes(rt: HostRuntime) -> Result<(), Fail> {
    let mut memory = ObjMem::<4>::new(rt.alloc(), 64, 4)?;
    let first = memory.place(8, 1)?;
    assert!(rt;
        first
            == ObjId {
                number: 0,
                base: 0x0010_0000
            }
    );

    // 8 bytes took 32 of the 64, and 24 would take 48.
    assert!(rt; memory.place(24, 1) == Err(PlaceFault::Full));
    let second = memory.place(4, 4)?;
    assert!(rt;
        second
            == ObjId {
                number: 1,
                base: 0x0010_0020
            }
    );
    assert!(rt; memory.place(1, 1) == Err(PlaceFault::Full));

    // Past the end of the first, and from the first into the second.
    assert!(rt; memory.load(0x0010_0004, 8) == None);
    assert!(rt; !memory.holds(0x0010_0000, 48));
    assert!(rt; !memory.store(0x0010_0006, 4, 1));
    assert!(rt; memory.load(0x0010_0004, 4) == Some(0));

    assert!(rt; memory.store(0x0010_0020, 2, 0x0012_ABCD));
    assert!(rt; memory.load(0x0010_0020, 1) == Some(0xCD));
    assert!(rt; memory.load(0x0010_0020, 4) == Some(0xABCD));
    assert!(rt; memory.bytes_from(0x0010_0021).map(|bytes| bytes.len()) == Some(15));

    assert!(rt; memory.fill(0x0010_0022, &[7, 8, 9]));
    assert!(rt; memory.load(0x0010_0020, 8) == Some(0x0000_0009_0807_ABCD));
    assert!(rt; !memory.fill(0x0010_0006, &[1, 2, 3]));
    assert!(rt; memory.load(0x0010_0000, 8) == Some(0));

    assert!(rt; memory.owner(0x0010_0021) == Some((second, 1)));
    assert!(rt; memory.owner(0x0010_0030) == None);
    assert!(rt; memory.bytes_from(0x0010_0008).is_none());
    Ok(())
}

#[test]
fn objects_of_a_machine_of_eight_bytes(rt: HostRuntime) -> Result<(), Fail> {
    let mut memory = ObjMem::<8>::new(rt.alloc(), 112, 2)?;
    assert!(rt; memory.place(1, 1)?.base == 0x0000_0002_0000_0000);
    assert!(rt; memory.place(1, 17)?.base == 0x0000_0002_0000_0020);

    // The bytes of a third would fit, but not a third object.
    assert!(rt; memory.place(1, 1) == Err(PlaceFault::Full));
    assert!(rt; memory.load(u64::MAX, 2) == None);
    Ok(())
}

#[test]
fn a_memory_of_no_objects(rt: HostRuntime) -> Result<(), Fail> {
    let mut memory = ObjMem::<8>::new(rt.alloc(), 0, 0)?;
    assert!(rt; memory.place(1, 1) == Err(PlaceFault::Full));
    assert!(rt; !memory.holds(0x0000_0002_0000_0000, 1));
    assert!(rt; memory.load(0x0000_0002_0000_0000, 1) == None);
    assert!(rt; !memory.store(0x0000_0002_0000_0000, 1, 0));
    assert!(rt; !memory.fill(0x0000_0002_0000_0000, &[]));
    assert!(rt; memory.owner(0) == None);
    assert!(rt; memory.bytes_from(0).is_none());
    Ok(())
}

#[test]
fn objects_in_their_region(rt: HostRuntime) -> Result<(), Fail> {
    let mut memory = ObjMem::<4>::new(rt.alloc(), 64, 4)?;
    let _ = memory.place(8, 1)?;
    let _ = memory.place(16, 1)?;
    assert!(rt; memory.offset(0x0010_0004) == Some(4));
    assert!(rt; memory.offset(0x0010_0008) == None);
    assert!(rt; memory.offset(0x0010_0020) == Some(32));
    assert!(rt; memory.store(0x0010_0020, 2, 0xABCD));
    let region = memory.region();
    assert!(rt; region.len() == 64);
    assert!(rt; region.load(32, 2) == 0xABCD);
    Ok(())
}
