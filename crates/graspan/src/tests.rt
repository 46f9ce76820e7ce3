use crate::folder_lock::FolderLock;
use crate::fs_disk::FsDisk;
use crate::fs_inputs::FsInputs;
use crate::progress::{Progress, Shown};
use disk_model::Disk;
use io_edge::Inputs;
use std::fs;
use std::test::Fail;

// The end of a file, a place in its middle, and a file that isn't there.
#[test]
fn a_file_of_the_system_is_read(rt: HostRuntime) -> Result<(), Fail> {
    fs::write(&rt, "graspan_test_file", b"abc")?;
    let progress = Progress::new(&rt, Shown::Nowhere);
    let mut inputs = FsInputs::new(&rt, &progress);
    let mut buf = [0u8; 4];
    assert_eq!(rt; inputs.read("graspan_test_file", 0, &mut buf), Ok(3));
    assert_eq!(rt; inputs.read("graspan_test_file", 3, &mut buf), Ok(0));
    assert_eq!(rt; inputs.read("graspan_test_file", 1, &mut buf), Ok(2));
    assert_eq!(rt; buf[0], b'b');
    assert!(rt; inputs.read("graspan_no_such_file", 0, &mut buf).is_err());
    fs::remove_file(&rt, "graspan_test_file")?;
    Ok(())
}

// A disk in a folder that isn't there yet: what is written is read, a gap is filled with zeros, and a cut shortens.
#[test]
fn a_folder_is_a_disk(rt: HostRuntime) -> Result<(), Fail> {
    let progress = Progress::new(&rt, Shown::Nowhere);
    let mut disk = FsDisk::new(&rt, "graspan_test_store", &progress);
    let mut buf = [9u8; 4];
    assert_eq!(rt; disk.len(4), Ok(0));
    assert_eq!(rt; disk.read(4, 0, &mut buf), Ok(0));
    assert_eq!(rt; disk.cut(4, 0), Ok(()));
    assert!(rt; !fs::exists(&rt, "graspan_test_store/g0004")?);
    assert_eq!(rt; disk.write_at(4, 2, b"ab"), Ok(()));
    assert_eq!(rt; disk.len(4), Ok(4));
    assert_eq!(rt; disk.read(4, 1, &mut buf), Ok(3));
    assert_eq!(rt; buf, [0, b'a', b'b', 9]);
    assert_eq!(rt; disk.cut(4, 3), Ok(()));
    assert_eq!(rt; disk.cut(4, 5), Ok(()));
    assert_eq!(rt; disk.len(4), Ok(3));
    assert_eq!(rt; disk.sync(), Ok(()));
    fs::remove_file(&rt, "graspan_test_store/g0004")?;
    fs::remove_dir(&rt, "graspan_test_store")?;
    Ok(())
}

// A folder that can't be made: each call fails.
#[test]
fn a_disk_without_a_folder_fails(rt: HostRuntime) -> Result<(), Fail> {
    fs::write(&rt, "graspan_test_file2", b"abc")?;
    let progress = Progress::new(&rt, Shown::Nowhere);
    let mut disk = FsDisk::new(&rt, "graspan_test_file2", &progress);
    assert!(rt; disk.len(4).is_err());
    assert!(rt; disk.sync().is_err());
    fs::remove_file(&rt, "graspan_test_file2")?;
    Ok(())
}

// The first sync writes the slots again: their bytes stay, also where they fill more than one piece, and none is made.
#[test]
fn the_first_sync_keeps_the_slots(rt: HostRuntime) -> Result<(), Fail> {
    let mut bytes = [b'x'; 5000];
    bytes[0] = 1;
    bytes[4096] = b'y';
    bytes[4999] = b'z';
    fs::create_dir(&rt, "graspan_test_slots")?;
    fs::write(&rt, "graspan_test_slots/g0000", &bytes)?;
    let progress = Progress::new(&rt, Shown::Nowhere);
    let mut disk = FsDisk::new(&rt, "graspan_test_slots", &progress);
    assert_eq!(rt; disk.sync(), Ok(()));
    assert_eq!(rt; disk.sync(), Ok(()));
    assert_eq!(rt;
        fs::read(&rt, "graspan_test_slots/g0000")?.as_slice(),
        bytes.as_slice()
    );
    assert!(rt; !fs::exists(&rt, "graspan_test_slots/g0001")?);
    fs::remove_file(&rt, "graspan_test_slots/g0000")?;
    fs::remove_dir(&rt, "graspan_test_slots")?;
    Ok(())
}

// The first change locks the folder while its disk is there. Another disk of it is read, and refuses changes.
#[test]
fn a_folder_takes_one_run(rt: HostRuntime) -> Result<(), Fail> {
    let progress = Progress::new(&rt, Shown::Nowhere);
    let mut first = FsDisk::new(&rt, "graspan_test_lock", &progress);
    let mut second = FsDisk::new(&rt, "graspan_test_lock", &progress);
    assert_eq!(rt; first.len(4), Ok(0));
    assert!(rt; matches!(first.lock(), FolderLock::Unasked));
    assert_eq!(rt; first.write_at(4, 0, b"a"), Ok(()));
    assert!(rt; matches!(first.lock(), FolderLock::Held(_)));
    assert!(rt; second.sync().is_err());
    assert!(rt; matches!(second.lock(), FolderLock::Refused(_)));
    assert!(rt; second.write_at(4, 0, b"b").is_err());
    assert!(rt; second.cut(4, 0).is_err());
    assert_eq!(rt; second.len(4), Ok(1));
    drop(first);
    assert!(rt; second.sync().is_err());
    let mut third = FsDisk::new(&rt, "graspan_test_lock", &progress);
    assert_eq!(rt; third.sync(), Ok(()));
    fs::remove_file(&rt, "graspan_test_lock/g0004")?;
    fs::remove_dir(&rt, "graspan_test_lock")?;
    Ok(())
}
