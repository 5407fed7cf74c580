//! Images that are written, and how large they are.

use crate::image_files::{driver_file, relocated_file};
use crate::images::{CODE, DATA, MOVE, driver, relocated};
use pe_image::{linked_size, write_image};
use std::test::Fail;

#[test]
fn writes_images(rt: HostRuntime) -> Result<(), Fail> {
    let file = write_image(rt.alloc(), &driver(rt.alloc())?)?;
    assert!(rt; file == driver_file(rt.alloc())?);
    let file = write_image(rt.alloc(), &relocated(rt.alloc())?)?;
    assert!(rt; file == relocated_file(rt.alloc())?);
    Ok(())
}

#[test]
fn tells_sizes(rt: HostRuntime) -> Result<(), Fail> {
    let image = driver(rt.alloc())?;
    assert!(rt; linked_size(CODE.len(), DATA.len(), image.relocs.as_slice()) == 0x3000);
    assert!(rt; linked_size(0, 0, image.relocs.as_slice()) == 0x1000);
    assert!(rt; linked_size(0x1000, 0x1001, image.relocs.as_slice()) == 0x4000);
    let image = relocated(rt.alloc())?;
    assert!(rt; linked_size(MOVE.len(), 0, image.relocs.as_slice()) == 0x3000);
    assert!(rt; linked_size(0x1000, 0x1001, image.relocs.as_slice()) == 0x5000);
    assert!(rt; linked_size(0x3F_E000, 0, image.relocs.as_slice()) == 0x40_0000);
    assert!(rt; linked_size(0x3F_E001, 0, image.relocs.as_slice()) == 0x40_1000);
    assert!(rt;
        linked_size(0xFF_FFFF_F000, 0xFF_FFFF_FFFF, image.relocs.as_slice()) == 0x200_0000_1000
    );
    Ok(())
}
