//! A path of two edges, the bytes of its stores, and commands over files and disks in memory.
ghost use Rattle.std.specs.Prelude.{◌<◌};

use disk_model::{Disk, MemDisk};
use graspan_top::{Status, graspan};
use io_edge::{MemInputs, MemSink, NamedBytes, WordList};
use std::alloc::{AllocError, Global};
use std::test::Fail;

/// A path of two edges, and a grammar that joins them.
pub(crate) const EDGES: &[u8] = b"0 1 a\n1 2 b\n";

pub(crate) const GRAMMAR: &[u8] = b"S a b\n";

/// The open slot of its finished store: generation 1, round 2, three vertices, labels `S`, `a` and `b`, and one
/// partition in file 5 with three edges.
pub(crate) const SLOT: [u8; 76] = [
    1, 0x47, 0x53, 0x4d, 0x31, 1, 2, 0, 0, 0, 0, 0, 0, 0, 3, 0, 0, 0, // to the vertices
    6, 0, 0, 0, 0, 0, 0, 0, 12, 0, 0, 0, 0, 0, 0, 0, // the lengths of the texts
    3, 0, 1, 0x53, 1, 0x61, 1, 0x62, // the labels
    1, 0, 3, 0, 0, 0, 5, 0, 0, 0, 1, 0, 0, 0, 0, 0, 0, 0, // the partition
    3, 0, 0, 0, 0, 0, 0, 0, 2, 0, 0, 0, 0, 0, 0, 0, // its count and its mark
];

/// Its partition: (0, S, 2) of birth 1, and (0, a, 1) and (1, b, 2) of birth 0.
pub(crate) const PART: [u8; 24] = [
    0x47, 0x53, 0x50, 0x32, 0, 0, 0, 0, 3, 0, 0, 0, // the bounds
    2, 0, 2, 1, 1, 1, 0, // the row of 0, with S and a
    1, 2, 2, 0, // the row of 1, with b
    0, // the row of 2
];

/// The same in format 1, as stores from before have it.
pub(crate) const FIRST_PART: [u8; 78] = [
    0x47, 0x53, 0x50, 0x31, 0, 0, 0, 0, 3, 0, 0, 0, // the bounds
    2, 0, 0, 0, 0, 0, 0, 0, // the row of 0
    0, 0, 2, 0, 0, 0, 1, 0, 0, 0, 0, 0, 0, 0, // S
    1, 0, 1, 0, 0, 0, 0, 0, 0, 0, 0, 0, 0, 0, // a
    1, 0, 0, 0, 0, 0, 0, 0, // the row of 1
    2, 0, 2, 0, 0, 0, 0, 0, 0, 0, 0, 0, 0, 0, // b
    0, 0, 0, 0, 0, 0, 0, 0, // the row of 2
];

/// The open slot of its store after the import alone: generation 0, round 1, and one partition in file 4 with two
/// edges.
pub(crate) const FRESH_SLOT: [u8; 76] = [
    1, 0x47, 0x53, 0x4d, 0x31, 0, 1, 0, 0, 0, 0, 0, 0, 0, 3, 0, 0, 0, // to the vertices
    6, 0, 0, 0, 0, 0, 0, 0, 12, 0, 0, 0, 0, 0, 0, 0, // the lengths of the texts
    3, 0, 1, 0x53, 1, 0x61, 1, 0x62, // the labels
    1, 0, 3, 0, 0, 0, 4, 0, 0, 0, 0, 0, 0, 0, 0, 0, 0, 0, // the partition
    2, 0, 0, 0, 0, 0, 0, 0, 0, 0, 0, 0, 0, 0, 0, 0, // its count and its mark
];

/// Its partition: (0, a, 1) and (1, b, 2) of birth 0.
pub(crate) const FRESH_PART: [u8; 21] = [
    0x47, 0x53, 0x50, 0x32, 0, 0, 0, 0, 3, 0, 0, 0, // the bounds
    1, 1, 1, 0, // the row of 0, with a
    1, 2, 2, 0, // the row of 1, with b
    0, // the row of 2
];

/// The same in format 1.
pub(crate) const FIRST_FRESH_PART: [u8; 64] = [
    0x47, 0x53, 0x50, 0x31, 0, 0, 0, 0, 3, 0, 0, 0, // the bounds
    1, 0, 0, 0, 0, 0, 0, 0, // the row of 0
    1, 0, 1, 0, 0, 0, 0, 0, 0, 0, 0, 0, 0, 0, // a
    1, 0, 0, 0, 0, 0, 0, 0, // the row of 1
    2, 0, 2, 0, 0, 0, 0, 0, 0, 0, 0, 0, 0, 0, // b
    0, 0, 0, 0, 0, 0, 0, 0, // the row of 2
];

/// The file `e` with these edges and the file `g` with this grammar.
pub(crate) fn two_files(
    alloc: Global,
    edges: &[u8],
    grammar: &[u8],
) -> Result<MemInputs, AllocError> {
    let mut files = Vec::new(alloc);
    for (name, bytes) in [("e", edges), ("g", grammar)] {
        let name = String::from_str(alloc, name)?;
        let bytes = bytes.to_vec(alloc)?;
        files.push(NamedBytes { name, bytes })?;
    }
    Ok(MemInputs::new(files))
}

/// The words of a command line.
pub(crate) fn word_list(alloc: Global, words: &[&str]) -> Result<WordList, AllocError> {
    let mut list = WordList::new(alloc);
    for word in words {
        list.push(word)?;
    }
    Ok(list)
}

/// How a command over files, a disk and a sink in memory ends.
pub(crate) fn end_of(
    alloc: Global,
    words: &WordList,
    inputs: &mut MemInputs,
    disk: &mut MemDisk,
    out: &mut MemSink,
) -> Status {
    graspan(alloc, words, inputs, disk, out)
}

/// What a command over two files and a disk prints, and its exit status.
pub(crate) fn says(
    alloc: Global,
    disk: &mut MemDisk,
    edges: &[u8],
    grammar: &[u8],
    words: &[&str],
) -> Result<(MemSink, u8), Fail> {
    let words = word_list(alloc, words)?;
    let mut inputs = two_files(alloc, edges, grammar)?;
    let mut out = MemSink::new(alloc);
    let status = end_of(alloc, &words, &mut inputs, disk, &mut out);
    Ok((out, status.code()))
}

/// Whether a command over two files and a disk prints this and has this exit status.
pub(crate) fn prints(
    alloc: Global,
    disk: &mut MemDisk,
    edges: &[u8],
    grammar: &[u8],
    words: &[&str],
    wanted: (&[u8], u8),
) -> Result<bool, Fail> {
    let (out, code) = says(alloc, disk, edges, grammar, words)?;
    Ok((out.bytes(), code) == wanted)
}

/// The run that shows the answers of `S`.
pub(crate) const RUN: [&str; 5] = ["run", "e", "g", "--show", "S"];

/// What it prints of the path.
pub(crate) const PRINTED: &[u8] =
    b"vertices 3\npart 0 0 3 3\nlabel S 1\nlabel a 1\nlabel b 1\nanswer 0 2\ndone\n";

/// What a command over the path prints, and its exit status.
pub(crate) fn path_says(
    alloc: Global,
    disk: &mut MemDisk,
    words: &[&str],
) -> Result<(MemSink, u8), Fail> {
    says(alloc, disk, EDGES, GRAMMAR, words)
}

/// Whether a command over the path prints this and has this exit status.
pub(crate) fn path_prints(
    alloc: Global,
    disk: &mut MemDisk,
    words: &[&str],
    wanted: (&[u8], u8),
) -> Result<bool, Fail> {
    prints(alloc, disk, EDGES, GRAMMAR, words, wanted)
}

/// The bytes of a file, up to 100.
pub(crate) fn file(alloc: Global, disk: &mut MemDisk, number: u32) -> Result<Vec<u8>, Fail>
    requires { number < 1024 }
{
    let mut bytes = vec![in alloc; 0; 100]?;
    let n = disk.read(number, 0, &mut bytes)?;
    bytes.truncate(n);
    Ok(bytes)
}
