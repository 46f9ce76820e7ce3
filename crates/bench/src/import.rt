//! Times the import of an edge file.
use crate::files::{FolderDisk, PathInputs};
use grammar_norm::read_grammar;
use std::rt::{Clock, Files};
use std::time::Instant;
use std::{fs, io};
use store::{OpenMode, Opened, Store, StoreFault, import, open};

// Imports to a folder without a store.
fn make<R: Files + AllocGlobal>(
    rt: &R,
    edges: &str,
    grammar: &[u8],
    folder: &str,
    limit: u64,
) -> Result<Store, StoreFault> {
    let alloc = rt.alloc();
    let Ok(_read) = read_grammar(alloc, grammar) else {
        return Err(StoreFault::NoMemory);
    };
    let mut disk = FolderDisk::new(rt, folder);
    match open(alloc, &mut disk, OpenMode::Change)? {
        Opened::Blank => import(
            alloc,
            &mut PathInputs::new(rt),
            edges,
            grammar,
            &mut disk,
            limit,
        ),
        Opened::Found(store) => Ok(store),
    }
}

// Times an import, and prints what it made.
fn time<R: Files + AllocGlobal + Clock + Print + Eprint>(
    rt: &R,
    edges: &str,
    grammar: &[u8],
    folder: &str,
    limit: u64,
) -> io::Result<()> {
    let start = Instant::now(rt)?;
    let made = make(rt, edges, grammar, folder, limit);
    let time = start.elapsed(rt)?.as_micros();
    match made {
        Ok(store) => {
            let manifest = store.manifest();
            let vertices = manifest.vertices;
            let labels = manifest.labels.len();
            let parts = manifest.parts.as_slice().len();
            eprintln!(rt; "import {time}")?;
            println!(rt; "{vertices} vertices, {labels} labels, {parts} partitions")
        }
        Err(fault) => println!(rt; "{fault}"),
    }
}

/// Imports an edge file as partitions of at most so many edge lines, to a folder that is there.
pub(crate) fn measure<R: Files + AllocGlobal + Clock + Print + Eprint>(
    rt: &R,
    edges: &str,
    grammar: &str,
    folder: &str,
    limit: &str,
) -> io::Result<()> {
    let Ok(limit) = limit.parse::<u64>() else {
        return println!(rt; "the limit is no number");
    };
    let grammar = fs::read(rt, grammar)?;
    time(rt, edges, &grammar, folder, limit)
}
