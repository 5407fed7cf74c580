//! Images that are loaded, where addresses have four and eight bytes.

ghost use Rattle.ebc_width.specs.Width.{IsWidth};

use crate::image_files::{driver_file, relocated_file};
use crate::images::{CODE, DATA};
use object_memory::ObjMem;
use pe_image::read_image;
use reloc_loader::{LoadFault, load};
use std::alloc::Global;
use std::test::Fail;

// The image of a file, loaded into a memory of its own, and where it lies.
fn loaded<const W: usize>(alloc: Global, file: &[u8]) -> Result<(ObjMem<W>, u64), Fail>
    requires { IsWidth W }
{
    let image = read_image(alloc, file)?;
    let mut mem = ObjMem::<W>::new(alloc, 0x10000, 3)?;
    let id = mem.place(image.size, 1)?;
    load(&image, id.base, id, &mut mem)?;
    Ok((mem, id.base))
}

// Whether these bytes lie from an address on.
fn has<const W: usize>(mem: &ObjMem<W>, at: u64, bytes: &[u8]) -> bool {
    match mem.bytes_from(at) {
        Some(rest) => rest.starts_with(bytes),
        None => false,
    }
}

#[test]
fn relocates_where_addresses_have_four_bytes(rt: HostRuntime) -> Result<(), Fail> {
    let (mem, base) = loaded::<4>(rt.alloc(), &relocated_file(rt.alloc())?)?;
    assert!(rt; base == 0x0010_0000);
    assert!(rt; mem.load(0x0010_1002, 8) == Some(0x000F_5000));
    assert!(rt; mem.load(0x0010_1000, 2) == Some(0x34F7));
    assert!(rt; mem.load(0x0010_100A, 4) == Some(0x0004));
    assert!(rt; mem.load(0x0010_0000, 8) == Some(0));

    // The section of the relocations isn't there.
    assert!(rt; mem.load(0x0010_2000, 8) == Some(0));
    Ok(())
}

#[test]
fn relocates_where_addresses_have_eight_bytes(rt: HostRuntime) -> Result<(), Fail> {
    let (mem, base) = loaded::<8>(rt.alloc(), &relocated_file(rt.alloc())?)?;
    assert!(rt; base == 0x0000_0002_0000_0000);
    assert!(rt; mem.load(0x0000_0002_0000_1002, 8) == Some(0x0000_0001_FFFF_5000));
    Ok(())
}

#[test]
fn loads_a_driver(rt: HostRuntime) -> Result<(), Fail> {
    let file = driver_file(rt.alloc())?;
    let (mem, base) = loaded::<4>(rt.alloc(), &file)?;
    assert!(rt; base == 0x0010_0000);
    assert!(rt; has(&mem, 0x0010_1000, &CODE));
    assert!(rt; has(&mem, 0x0010_2000, &DATA));
    assert!(rt; mem.load(0x0010_104A, 8) == Some(0));

    let (mem, base) = loaded::<8>(rt.alloc(), &file)?;
    assert!(rt; base == 0x0000_0002_0000_0000);
    assert!(rt; has(&mem, 0x0000_0002_0000_1000, &CODE));
    assert!(rt; has(&mem, 0x0000_0002_0000_2000, &DATA));
    assert!(rt; mem.load(0x0000_0002_0000_2008, 8) == Some(0));
    Ok(())
}

#[test]
fn leaves_other_objects(rt: HostRuntime) -> Result<(), Fail> {
    let file = driver_file(rt.alloc())?;
    let image = read_image(rt.alloc(), &file)?;
    let mut mem = ObjMem::<4>::new(rt.alloc(), 0x10000, 3)?;
    let other = mem.place(8, 1)?;
    assert!(rt; mem.store(other.base, 8, 0x0102_0304_0506_0708));
    let id = mem.place(image.size, 1)?;
    load(&image, id.base, id, &mut mem)?;
    assert!(rt; id.base == 0x0010_0020);
    assert!(rt; has(&mem, 0x0010_1020, &CODE));
    assert!(rt; mem.load(other.base, 8) == Some(0x0102_0304_0506_0708));
    Ok(())
}

#[test]
fn refuses_an_odd_base(rt: HostRuntime) -> Result<(), Fail> {
    let file = relocated_file(rt.alloc())?;
    let image = read_image(rt.alloc(), &file)?;
    let mut mem = ObjMem::<4>::new(rt.alloc(), 0x10000, 3)?;
    let id = mem.place(0x3000, 1)?;
    assert!(rt; load(&image, 0x0010_0001, id, &mut mem) == Err(LoadFault::Base));
    assert!(rt; mem.load(0x0010_1000, 8) == Some(0));
    Ok(())
}
