//! What an import writes, and a store that is opened and loaded.
use crate::fixtures::{
    EDGES, FRESH_PART, FRESH_SLOT, GRAMMAR, PART, SLOT, file, path_prints, path_says, two_files,
};
use disk_model::{Disk, FormKind, MemDisk};
use grammar_norm::read_grammar;
use partition_file::Partition;
use std::alloc::Global;
use std::test::Fail;
use store::{OpenMode, Opened, Store, StoreFault, import, open};

// The path, imported to a blank disk in partitions of so many edges.
pub(crate) fn imported(
    alloc: Global,
    disk: &mut MemDisk,
    limit: u64,
) -> Result<Option<Store>, Fail> {
    let mut inputs = two_files(alloc, EDGES, GRAMMAR)?;
    let Ok(_read) = read_grammar(alloc, GRAMMAR) else {
        return Ok(None);
    };
    let Ok(Opened::Blank) = open(alloc, disk, OpenMode::Change) else {
        return Ok(None);
    };
    Ok(import(alloc, &mut inputs, "e", GRAMMAR, disk, limit).ok())
}

#[test]
fn an_import_writes_slot_0_and_a_partition(rt: HostRuntime) -> Result<(), Fail> {
    let mut disk = MemDisk::new(rt.alloc())?;
    assert!(rt; imported(rt.alloc(), &mut disk, 1_000_000)?.is_some());
    for (number, wanted) in [
        (0, FRESH_SLOT.as_slice()),
        (2, GRAMMAR),
        (3, EDGES),
        (4, &FRESH_PART),
    ] {
        let bytes = file(rt.alloc(), &mut disk, number)?;
        assert!(rt; bytes.as_slice() == wanted, "file {number}");
    }
    Ok(())
}

#[test]
fn a_store_with_work_left_says_so(rt: HostRuntime) -> Result<(), Fail> {
    let alloc = rt.alloc();
    for (limit, words, printed, status) in [
        (
            2,
            ["parts"].as_slice(),
            b"vertices 3\npart 0 0 3 2\nunfinished 0 0\n".as_slice(),
            0,
        ),
        (
            1,
            ["parts"].as_slice(),
            b"vertices 3\npart 0 0 1 1\npart 1 1 3 1\nunfinished 0 1\n",
            0,
        ),
        (1, ["dump"].as_slice(), b"fault unfinished 0 1\n", 10),
        (
            2,
            ["query", "S", "0"].as_slice(),
            b"fault unfinished 0 0\n",
            10,
        ),
    ] {
        let mut disk = MemDisk::new(alloc)?;
        assert!(rt; imported(alloc, &mut disk, limit)?.is_some());
        assert!(rt; path_prints(alloc, &mut disk, words, (printed, status))?);
    }
    Ok(())
}

#[test]
fn a_run_writes_the_other_slot_and_the_least_free_file(rt: HostRuntime) -> Result<(), Fail> {
    let alloc = rt.alloc();
    let mut disk = MemDisk::new(alloc)?;
    path_says(alloc, &mut disk, &["run", "e", "g"])?;
    assert_eq!(rt; file(alloc, &mut disk, 1)?.as_slice(), SLOT.as_slice());
    assert_eq!(rt; file(alloc, &mut disk, 5)?.as_slice(), PART.as_slice());
    assert_eq!(rt;
        file(alloc, &mut disk, 0)?.first(),
        Some(&0),
        "the gate is closed"
    );
    Ok(())
}

// The finished store.
fn finished(alloc: Global, disk: &mut MemDisk) -> Result<Option<Store>, Fail> {
    for (number, bytes) in [(1, SLOT.as_slice()), (2, GRAMMAR), (3, EDGES), (5, &PART)] {
        disk.write_at(number, 0, bytes)?;
    }
    match open(alloc, disk, OpenMode::Look) {
        Ok(Opened::Found(store)) => Ok(Some(store)),
        Ok(Opened::Blank) | Err(_) => Ok(None),
    }
}

// Its partition, and how many of its edges begin or end in it below a vertex.
fn loaded(alloc: Global, disk: &mut MemDisk, store: &Store) -> Option<(Partition, u64)> {
    if store.manifest().parts.as_slice().len() != 1 {
        return None;
    }
    let below = store.count_below(alloc, disk, 0, 0, 2).ok()?;
    let part = store.load(alloc, disk, 0).ok()?;
    Some((part, below))
}

#[test]
fn a_partition_is_loaded_and_its_edges_counted(rt: HostRuntime) -> Result<(), Fail> {
    let mut disk = MemDisk::new(rt.alloc())?;
    let Some(store) = finished(rt.alloc(), &mut disk)? else {
        panic!(rt; "no store");
    };
    assert_eq!(rt; store.intervals().len(), 1);
    let Some((part, below)) = loaded(rt.alloc(), &mut disk, &store) else {
        panic!(rt; "no partition");
    };
    assert_eq!(rt; part.edges().len(), 3);
    assert_eq!(rt; below, 1, "of three edges one ends below vertex 2");
    Ok(())
}

#[test]
fn a_fault_has_a_text(rt: HostRuntime) -> Result<(), Fail> {
    let fault = StoreFault::BadStore {
        file: 5,
        place: 78,
        kind: FormKind::Extra,
    };
    let text = format!(in rt.alloc(); "{fault}")?;
    assert_eq!(rt;
        text.as_str(),
        "file 5 of the store is broken at byte 78: Extra"
    );
    Ok(())
}
