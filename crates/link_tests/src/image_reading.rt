//! Images that are read, and the first fault of files that are none.

use crate::image_files::{driver_file, fault, patched, relocated_file};
use crate::images::{driver, relocated};
use pe_image::{ImageFault, read_image};
use std::test::Fail;

#[test]
fn reads_images(rt: HostRuntime) -> Result<(), Fail> {
    let file = driver_file(rt.alloc())?;
    assert!(rt; read_image(rt.alloc(), &file) == Ok(driver(rt.alloc())?));
    let file = relocated_file(rt.alloc())?;
    assert!(rt; read_image(rt.alloc(), &file) == Ok(relocated(rt.alloc())?));
    Ok(())
}

#[test]
fn tells_where_a_file_ends(rt: HostRuntime) -> Result<(), Fail> {
    let file = driver_file(rt.alloc())?;
    for count in 0..file.len() {
        let end = read_image(rt.alloc(), &file[..count]).err();
        let wanted = match count {
            0..64 => fault(ImageFault::Short, 0),
            64..88 => fault(ImageFault::Short, 60),
            88..408 => fault(ImageFault::Short, 84),
            408..1024 => fault(ImageFault::Section, 328),
            _ => fault(ImageFault::Section, 368),
        };
        assert!(rt; end == wanted);
    }
    Ok(())
}

#[test]
fn reads_no_relocations(rt: HostRuntime) -> Result<(), Fail> {
    let file = relocated_file(rt.alloc())?;
    // A directory that isn't counted, or is empty, names nothing.
    for (at, with) in [(196, 5), (244, 0)] {
        let changed = patched(rt.alloc(), &file, at, &[with])?;
        let image = read_image(rt.alloc(), &changed)?;
        assert!(rt; image.relocs.is_empty());
    }
    Ok(())
}

#[test]
fn reads_the_largest_images(rt: HostRuntime) -> Result<(), Fail> {
    // The reader has no limit of its own for a file: what stands behind the sections doesn't count.
    let mut file = driver_file(rt.alloc())?;
    for length in [0x40_0000, 0x40_0001] {
        file.resize(length, 0)?;
        assert!(rt; read_image(rt.alloc(), &file) == Ok(driver(rt.alloc())?));
    }

    // An image may take 4 MiB.
    let file = driver_file(rt.alloc())?;
    let largest = patched(rt.alloc(), &file, 144, &[0, 0, 0x40, 0])?;
    assert!(rt; read_image(rt.alloc(), &largest)?.size == 0x40_0000);
    Ok(())
}
