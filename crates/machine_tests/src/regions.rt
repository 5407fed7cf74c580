//! Tests of regions.

use raw_region::Region;
use std::test::Fail;

#[test]
fn numbers_in_a_region(rt: HostRuntime) -> Result<(), Fail> {
    let mut region = Region::new(rt.alloc(), 16)?;
    assert!(rt; region.len() == 16);
    assert!(rt; region.load(8, 8) == 0);
    region.store(3, 2, 0xABCD);
    assert!(rt; region.load(3, 1) == 0xCD);
    assert!(rt; region.load(4, 8) == 0xAB);
    assert!(rt; region.load(0, 4) == 0xCD00_0000);
    Ok(())
}

#[test]
fn bytes_in_a_region(rt: HostRuntime) -> Result<(), Fail> {
    let mut region = Region::new(rt.alloc(), 8)?;
    region.fill(4, &[1, 2, 3, 4]);
    assert!(rt; region.load(0, 8) == 0x0403_0201_0000_0000);
    assert!(rt; region.bytes() == [0, 0, 0, 0, 1, 2, 3, 4].as_slice());
    Ok(())
}

#[test]
fn a_region_of_no_bytes(rt: HostRuntime) -> Result<(), Fail> {
    let mut region = Region::new(rt.alloc(), 0)?;
    region.fill(0, &[]);
    assert!(rt; region.len() == 0);
    assert!(rt; region.bytes().len() == 0);
    Ok(())
}
