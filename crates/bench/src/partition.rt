//! Times the codec of partition files on one million edges, in both formats.
ghost use Rattle.std.specs.Prelude.{◌+◌, ◌<◌, ◌≤◌, ◌^◌, length};
ghost use Rattle.partition_file.specs.Reader.{taken};

use graph_words::Born;
use partition_file::{Expect, Partition, RowReader, decode, encode, encode_first, read_piece};
use std::alloc::{AllocError, Global};
use std::io;
use std::rt::Clock;
use std::time::Instant;

const VERTICES: u32 = 100_000;

const ROW_LEN: u16 = 10;

const ROUNDS: usize = 5;

/// A file of 100,000 rows with ten edges each.
fn bytes_of(alloc: Global) -> Result<Vec<u8>, AllocError> {
    let mut bytes = Vec::new(alloc);
    bytes.extend_from_slice(b"GSP1")?;
    bytes.extend_from_slice(&0u32.to_le_bytes())?;
    bytes.extend_from_slice(&VERTICES.to_le_bytes())?;
    for source in 0..VERTICES {
        bytes.extend_from_slice(&u64::from(ROW_LEN).to_le_bytes())?;
        for label in 0..ROW_LEN {
            let destination = source.wrapping_mul(7919) % VERTICES;
            bytes.extend_from_slice(&label.to_le_bytes())?;
            bytes.extend_from_slice(&destination.to_le_bytes())?;
            bytes.extend_from_slice(&5u64.to_le_bytes())?;
        }
    }
    Ok(bytes)
}

/// How many edges the pieces of 65,536 bytes have, at most 1,000 of them.
fn read_in_pieces(alloc: Global, bytes: &[u8], expect: Expect) -> Result<u64, AllocError>
    requires { expect.lo < expect.hi }
{
    let mut reader = RowReader::new(expect);
    let mut edges: Vec<Born> = Vec::new(alloc);
    let mut count = 0u64;
    let mut rest = bytes;
    for i in 0..1000u64 {
        let (piece, behind) = rest.split_at(rest.len().min(65_536));
        let _fault = read_piece(&mut reader, &mut edges, piece)?;
        count = count.wrapping_add(edges.len() as u64);
        edges.clear();
        rest = behind;
    }
    Ok(count)
}

/// One round over a partition's bytes, with its times in microseconds. Answers how many edges its pieces have.
fn time_round(
    rt: &(impl Clock + Print + Eprint),
    alloc: Global,
    format: &str,
    bytes: &[u8],
    expect: Expect,
) -> io::Result<()>
    requires { expect.lo < expect.hi }
{
    let start = Instant::now(rt)?;
    let count = read_in_pieces(alloc, bytes, expect)?;
    let reader = start.elapsed(rt)?.as_micros();
    let start = Instant::now(rt)?;
    let decoded = decode(alloc, bytes, &expect);
    let decoder = start.elapsed(rt)?.as_micros();
    let Ok(part) = decoded else {
        return println!(rt; "not decoded");
    };
    let start = Instant::now(rt)?;
    let again = encoded(alloc, format, &part)?;
    let encoder = start.elapsed(rt)?.as_micros();
    eprintln!(rt; "{format} reader {reader} decode {decoder} encode {encoder}")?;
    let same = again.as_slice() == bytes;
    println!(rt; "{format}: {count} edges, the same bytes: {same}")
}

/// The bytes of a partition in the format that is named.
fn encoded(alloc: Global, format: &str, part: &Partition) -> Result<Vec<u8>, AllocError> {
    if format == "first" {
        encode_first(alloc, part)
    } else {
        encode(alloc, part)
    }
}

/// Times the codec, round by round.
pub(crate) fn measure<R: AllocGlobal + Clock + Print + Eprint>(rt: &R) -> io::Result<()> {
    let alloc = rt.alloc();
    let expect = Expect {
        lo: 0,
        hi: VERTICES,
        vertices: VERTICES,
        round: 7,
        named: ROW_LEN,
        fresh: 0,
    };
    let first = bytes_of(alloc)?;
    let Ok(part) = decode(alloc, &first, &expect) else {
        return println!(rt; "not decoded");
    };
    let second = encode(alloc, &part)?;
    for _ in 0..ROUNDS {
        time_round(rt, alloc, "first", &first, expect)?;
        time_round(rt, alloc, "second", &second, expect)?;
    }
    Ok(())
}
