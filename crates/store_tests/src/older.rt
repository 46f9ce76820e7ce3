//! Stores whose partition files are in format 1, all or some of them.
use crate::fixtures::{
    EDGES, FIRST_FRESH_PART, FIRST_PART, FRESH_SLOT, GRAMMAR, PART, PRINTED, RUN, SLOT, file,
    path_says,
};
use crate::stores::imported;
use disk_model::{Disk, MemDisk};
use partition_file::encode_first;
use std::alloc::Global;
use std::test::Fail;
use store::Store;

// A disk with these files, which are synced.
fn disk_of(alloc: Global, files: &[(u32, &[u8])]) -> Result<MemDisk, Fail> {
    let mut disk = MemDisk::new(alloc)?;
    for (number, bytes) in files {
        if *number < 1024 {
            disk.write_at(*number, 0, bytes)?;
        }
    }
    disk.sync()?;
    Ok(disk)
}

#[test]
fn a_store_of_format_1_is_closed_in_format_2(rt: HostRuntime) -> Result<(), Fail> {
    let alloc = rt.alloc();
    let mut disk = disk_of(
        alloc,
        &[
            (0, &FRESH_SLOT),
            (2, GRAMMAR),
            (3, EDGES),
            (4, &FIRST_FRESH_PART),
        ],
    )?;
    let (out, code) = path_says(alloc, &mut disk, &RUN)?;
    assert_eq!(rt; out.bytes(), PRINTED);
    assert_eq!(rt; code, 0);
    assert_eq!(rt; file(alloc, &mut disk, 5)?.as_slice(), PART.as_slice());
    assert_eq!(rt;
        file(alloc, &mut disk, 4)?.as_slice(),
        FIRST_FRESH_PART.as_slice()
    );
    Ok(())
}

#[test]
fn a_finished_store_of_format_1_is_printed_without_a_write(rt: HostRuntime) -> Result<(), Fail> {
    let alloc = rt.alloc();
    let mut disk = disk_of(
        alloc,
        &[(1, &SLOT), (2, GRAMMAR), (3, EDGES), (5, &FIRST_PART)],
    )?;
    let writes = disk.writes();
    let (out, code) = path_says(alloc, &mut disk, &RUN)?;
    assert_eq!(rt; out.bytes(), PRINTED);
    assert_eq!(rt; code, 0);
    assert_eq!(rt; disk.writes(), writes);
    assert_eq!(rt;
        file(alloc, &mut disk, 5)?.as_slice(),
        FIRST_PART.as_slice()
    );
    Ok(())
}

// Writes the second of two partitions in format 1, in the place of its file. Whether there are two.
fn put_first(alloc: Global, disk: &mut MemDisk, store: &Store) -> Result<bool, Fail> {
    if store.manifest().parts.as_slice().len() != 2 {
        return Ok(false);
    }
    let Ok(part) = store.load(alloc, disk, 1) else {
        return Ok(false);
    };
    let bytes = encode_first(alloc, &part)?;
    disk.cut(5, 0)?;
    disk.write_at(5, 0, &bytes)?;
    disk.sync()?;
    Ok(true)
}

#[test]
fn a_store_may_have_files_of_both_formats(rt: HostRuntime) -> Result<(), Fail> {
    let alloc = rt.alloc();
    let mut disk = MemDisk::new(alloc)?;
    let Some(store) = imported(alloc, &mut disk, 1)? else {
        panic!(rt; "no store");
    };
    assert!(rt; put_first(alloc, &mut disk, &store)?);
    let (out, code) = path_says(alloc, &mut disk, &RUN)?;
    assert_eq!(rt;
        out.bytes(),
        b"vertices 3\npart 0 0 1 2\npart 1 1 3 1\nlabel S 1\nlabel a 1\nlabel b 1\nanswer 0 2\ndone\n".as_slice()
    );
    assert_eq!(rt; code, 0);
    Ok(())
}
