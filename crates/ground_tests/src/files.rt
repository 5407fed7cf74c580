//! What the calls do once, where memory and the system allow it. A test removes the files that it makes.
use ebc_outside::{
    Folder, HostFolder, HostSink, MemFolder, MemSink, ReadEnd, Sink, SinkEnd, WriteEnd,
};
use std::alloc::Global;
use std::fs;
use std::fs::Permissions;
use std::os::unix::fs::{PermissionsExt, symlink};
use std::process::Abort;
use std::test::Fail;

// Reads the file `some`, of the bytes `12345`, and the missing file `none`.
fn read_at_limits<F: Folder>(rt: &impl Abort, alloc: Global, folder: &mut F) -> Result<(), Fail> {
    for (limit, want) in [
        (u64::MAX, "12345"),
        (5, "12345"),
        (4, "12345"),
        (2, "123"),
        (0, "1"),
    ] {
        let bytes = folder.read(alloc, "some", limit)?;
        assert!(rt; bytes.as_slice() == want.as_bytes(), "at limit {limit}");
    }
    assert!(rt; folder.read(alloc, "none", 5).err() == Some(ReadEnd::Missing));
    Ok(())
}

#[test]
fn files_in_memory_are_read_up_to_the_limit(rt: HostRuntime) -> Result<(), Fail> {
    let alloc = rt.alloc();
    let mut folder = MemFolder::new(alloc);
    folder.insert("some", b"old")?;
    folder.insert("other", b"")?;
    folder.insert("some", b"12345")?;
    read_at_limits(&rt, alloc, &mut folder)?;
    assert!(rt; folder.read(alloc, "other", 5)?.len() == 0);
    Ok(())
}

#[test]
fn only_the_listed_reads_fail(rt: HostRuntime) -> Result<(), Fail> {
    let alloc = rt.alloc();
    let mut folder = MemFolder::new(alloc);
    folder.insert("some", b"12345")?;
    folder.fail_reads(vec![in alloc; 2, 4]?);
    let wants = [None, Some(ReadEnd::Fault), None, Some(ReadEnd::Fault), None];
    for (index, want) in wants.into_iter().enumerate() {
        assert!(rt;
            folder.read(alloc, "some", 5).err() == want,
            "at index {index}"
        );
    }
    Ok(())
}

#[test]
fn only_the_listed_puts_fail(rt: HostRuntime) -> Result<(), Fail> {
    let alloc = rt.alloc();
    let mut sink = MemSink::new(alloc);
    sink.fail_puts(vec![in alloc; 2]?);
    sink.put(alloc, b"one ")?;
    assert!(rt; sink.put(alloc, b"two ") == Err(SinkEnd::Fault));
    sink.put(alloc, b"three")?;
    assert!(rt; sink.text() == b"one three".as_slice());
    Ok(())
}

// Writes two files and one of them again, and reads them back.
fn write_and_read<F: Folder>(rt: &impl Abort, alloc: Global, folder: &mut F) -> Result<(), Fail> {
    folder.write(alloc, "first", b"12345")?;
    folder.write(alloc, "second", b"")?;
    folder.write(alloc, "first", b"678")?;
    assert!(rt; folder.read(alloc, "first", 9)?.as_slice() == b"678".as_slice());
    assert!(rt; folder.read(alloc, "second", 9)?.len() == 0);
    Ok(())
}

#[test]
fn what_is_written_is_read_back(rt: HostRuntime) -> Result<(), Fail> {
    write_and_read(&rt, rt.alloc(), &mut MemFolder::new(rt.alloc()))?;
    write_and_read(&rt, rt.alloc(), &mut HostFolder::new(&rt))?;
    fs::remove_file(&rt, "first")?;
    fs::remove_file(&rt, "second")?;
    Ok(())
}

#[test]
fn only_the_listed_writes_fail(rt: HostRuntime) -> Result<(), Fail> {
    let alloc = rt.alloc();
    let mut folder = MemFolder::new(alloc);
    folder.fail_writes(vec![in alloc; 2]?);
    folder.write(alloc, "some", b"one")?;
    assert!(rt; folder.write(alloc, "some", b"two") == Err(WriteEnd::Fault));
    assert!(rt; folder.read(alloc, "some", 9)?.as_slice() == b"one".as_slice());
    folder.write(alloc, "some", b"three")?;
    assert!(rt; folder.read(alloc, "some", 9)?.as_slice() == b"three".as_slice());
    Ok(())
}

#[test]
fn a_file_is_replaced_and_a_link_written_through(rt: HostRuntime) -> Result<(), Fail> {
    let alloc = rt.alloc();
    fs::create_dir(&rt, "kept")?;
    fs::write(&rt, "kept/some", "12345")?;
    fs::set_permissions(&rt, "kept/some", Permissions::from_mode(0o640))?;
    fs::hard_link(&rt, "kept/some", "kept/other")?;
    symlink(&rt, "some", "kept/link")?;
    fs::write(&rt, "kept/ebc-0.tmp", "0")?;

    let mut folder = HostFolder::new(&rt);
    folder.write(alloc, "kept/some", b"67")?;
    let other = folder.read(alloc, "kept/other", 9)?;
    assert!(rt; other.as_slice() == b"12345".as_slice());
    let own = folder.read(alloc, "kept/ebc-0.tmp", 9)?;
    assert!(rt; own.as_slice() == b"0".as_slice());
    folder.write(alloc, "kept/link", b"89")?;
    let some = folder.read(alloc, "kept/some", 9)?;
    assert!(rt; some.as_slice() == b"89".as_slice());
    let mode = fs::metadata(&rt, "kept/some")?.permissions().mode();
    assert!(rt; mode & 0o777 == 0o640);
    assert!(rt; fs::symlink_metadata(&rt, "kept/link")?.is_symlink());

    for name in ["kept/some", "kept/other", "kept/link", "kept/ebc-0.tmp"] {
        fs::remove_file(&rt, name)?;
    }
    // (only an empty folder can be removed so)
    fs::remove_dir(&rt, "kept")?;
    Ok(())
}

#[test]
fn a_failed_write_leaves_what_was_there(rt: HostRuntime) -> Result<(), Fail> {
    let alloc = rt.alloc();
    let mut folder = HostFolder::new(&rt);
    // Folders have all the names that a new file could have.
    fs::create_dir(&rt, "taken")?;
    fs::write(&rt, "taken/some", "12345")?;
    for number in 0..100u32 {
        let name = format!(in alloc; "taken/ebc-{number}.tmp")?;
        fs::create_dir(&rt, name)?;
    }
    assert!(rt; folder.write(alloc, "taken/some", b"67") == Err(WriteEnd::Fault));
    let some = folder.read(alloc, "taken/some", 9)?;
    assert!(rt; some.as_slice() == b"12345".as_slice());
    fs::remove_dir_all(&rt, "taken")?;

    // No file can be made, none can take the name, the name is a folder's, and what is linked takes no bytes.
    fs::create_dir(&rt, "failed")?;
    symlink(&rt, "/dev/full", "failed/full")?;
    for name in ["failed/none/some", "failed/none/", "failed", "failed/full"] {
        assert!(rt;
            folder.write(alloc, name, b"1") == Err(WriteEnd::Fault),
            "{name}"
        );
    }
    assert!(rt; fs::symlink_metadata(&rt, "failed/full")?.is_symlink());
    fs::remove_file(&rt, "failed/full")?;
    fs::remove_dir(&rt, "failed")?;
    Ok(())
}

#[test]
fn files_of_the_system_are_read_up_to_the_limit(rt: HostRuntime) -> Result<(), Fail> {
    let alloc = rt.alloc();
    fs::write(&rt, "some", "12345")?;
    fs::create_dir(&rt, "folder")?;
    let long = vec![in alloc; b'x'; 9000]?;
    fs::write(&rt, "long", long.as_slice())?;

    let mut folder = HostFolder::new(&rt);
    read_at_limits(&rt, alloc, &mut folder)?;
    assert!(rt; folder.read(alloc, "folder", 5).err() == Some(ReadEnd::Fault));
    for (limit, want) in [
        (9000, 9000),
        (8999, 9000),
        (8998, 8999),
        (4096, 4097),
        (4095, 4096),
    ] {
        assert!(rt;
            folder.read(alloc, "long", limit)?.len() == want,
            "at limit {limit}"
        );
    }
    fs::remove_file(&rt, "some")?;
    fs::remove_file(&rt, "long")?;
    fs::remove_dir(&rt, "folder")?;
    Ok(())
}

#[test]
fn what_is_put_to_a_file_is_read_back(rt: HostRuntime) -> Result<(), Fail> {
    let alloc = rt.alloc();
    let mut sink = HostSink::new(fs::create(&rt, "text")?);
    sink.put(alloc, b"one ")?;
    sink.put(alloc, b"")?;
    sink.put(alloc, b"two")?;
    let bytes = HostFolder::new(&rt).read(alloc, "text", 100)?;
    assert!(rt; bytes.as_slice() == b"one two".as_slice());
    fs::remove_file(&rt, "text")?;
    Ok(())
}
