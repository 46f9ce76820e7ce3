//! The disk in memory, and what a crash may leave of it.
use disk_model::{CrashChoice, Disk, MemDisk};
use std::alloc::Global;
use std::test::Fail;

/// The file that the tests write.
const FILE: u32 = 5;

// A disk whose file has these bytes, synced: two calls.
fn kept(alloc: Global, bytes: &[u8]) -> Result<MemDisk, Fail> {
    let mut disk = MemDisk::new(alloc)?;
    disk.write_at(FILE, 0, bytes)?;
    disk.sync()?;
    Ok(disk)
}

// The first bytes that a crash leaves of the file, and its length.
fn left_by(alloc: Global, disk: &MemDisk, choice: CrashChoice) -> Result<([u8; 4], usize), Fail> {
    let mut buf = [0; 4];
    let n = disk.crash(alloc, choice)?.read(FILE, 0, &mut buf)?;
    Ok((buf, n))
}

#[test]
fn a_torn_write_keeps_what_is_outside_its_range(rt: HostRuntime) -> Result<(), Fail> {
    let alloc = rt.alloc();
    let mut disk = kept(alloc, b"abc")?;
    disk.write_at(FILE, 1, b"x")?;
    assert_eq!(rt;
        left_by(alloc, &disk, CrashChoice::AsSynced)?,
        (*b"abc\0", 3)
    );
    assert_eq!(rt; left_by(alloc, &disk, CrashChoice::AsRead)?, (*b"axc\0", 3));
    let mut drawn_anew = false;
    for number in 0..20 {
        let ([a, b, c, _], n) = left_by(alloc, &disk, CrashChoice::Drawn(number))?;
        assert_eq!(rt; (a, c, n), (b'a', b'c', 3));
        drawn_anew = drawn_anew || (b != b'b' && b != b'x');
    }
    assert!(rt; drawn_anew);
    Ok(())
}

#[test]
fn a_write_that_failed_may_be_in_an_image(rt: HostRuntime) -> Result<(), Fail> {
    let alloc = rt.alloc();
    let mut disk = kept(alloc, b"abc")?;
    disk.fail_calls(vec![in alloc; 2]?);
    assert!(rt;
        disk.write_at(FILE, 1, b"xyz").is_err(),
        "the third call is listed"
    );
    assert_eq!(rt; disk.len(FILE)?, 3);
    let mut longer = false;
    for number in 0..20 {
        let (_, n) = left_by(alloc, &disk, CrashChoice::Drawn(number))?;
        longer = longer || n == 4;
    }
    assert!(rt; longer);
    Ok(())
}

#[test]
fn an_empty_piece_writes_nothing_and_a_gap_is_zeros(rt: HostRuntime) -> Result<(), Fail> {
    let mut disk = kept(rt.alloc(), b"a")?;
    disk.write_at(FILE, 9, b"")?;
    assert_eq!(rt; disk.len(FILE)?, 1);
    disk.write_at(FILE, 3, b"b")?;
    let mut buf = [7; 6];
    assert_eq!(rt; disk.read(FILE, 0, &mut buf)?, 4);
    assert_eq!(rt; &buf, &[b'a', 0, 0, b'b', 7, 7]);
    Ok(())
}
