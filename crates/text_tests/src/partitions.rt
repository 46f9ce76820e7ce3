//! The bytes of partition files, in both formats.
ghost use Rattle.std.specs.Prelude.{◌<◌};

use disk_model::FormKind;
use graph_words::{Born, Edge, LabelId, Vertex};
use partition_file::{
    Expect, PartError, PartFault, Partition, decode, encode, encode_first, read_pieces,
};
use std::alloc::{AllocError, Global};
use std::test::Fail;

fn born(src: u32, label: u16, dst: u32, birth: u64) -> Born {
    Born {
        edge: Edge {
            src: Vertex(src),
            label: LabelId(label),
            dst: Vertex(dst),
        },
        birth,
    }
}

/// The interval, the vertices and the labels of the files below.
const EXPECT: Expect = Expect {
    lo: 0,
    hi: 3,
    vertices: 3,
    round: 2,
    named: 3,
    fresh: 0,
};

/// The edges (0, 0, 2), (0, 1, 1) and (1, 2, 2), of which the first was born in round 1. Vertex 2 has none.
const BYTES: [u8; 24] = [
    0x47, 0x53, 0x50, 0x32, 0, 0, 0, 0, 3, 0, 0, 0, // the head
    2, 0, 2, 1, 1, 1, 0, // the row of vertex 0
    1, 2, 2, 0, // the row of vertex 1
    0, // the row of vertex 2
];

/// The same in format 1.
const FIRST_BYTES: [u8; 78] = [
    0x47, 0x53, 0x50, 0x31, 0, 0, 0, 0, 3, 0, 0, 0, // the head
    2, 0, 0, 0, 0, 0, 0, 0, // the row of vertex 0
    0, 0, 2, 0, 0, 0, 1, 0, 0, 0, 0, 0, 0, 0, //
    1, 0, 1, 0, 0, 0, 0, 0, 0, 0, 0, 0, 0, 0, //
    1, 0, 0, 0, 0, 0, 0, 0, // the row of vertex 1
    2, 0, 2, 0, 0, 0, 0, 0, 0, 0, 0, 0, 0, 0, //
    0, 0, 0, 0, 0, 0, 0, 0, // the row of vertex 2
];

fn decoded(alloc: Global, bytes: &[u8], expect: &Expect) -> Result<Partition, Fail>
    requires { expect.now.lo < expect.now.hi }
{
    Ok(
        decode(alloc, bytes, expect)
            .ok()
            .ok_or("the bytes are a partition")?,
    )
}

#[test]
fn a_file_is_decoded_and_encoded_again(rt: HostRuntime) -> Result<(), Fail> {
    let edges = [born(0, 0, 2, 1), born(0, 1, 1, 0), born(1, 2, 2, 0)];
    for bytes in [BYTES.as_slice(), FIRST_BYTES.as_slice()] {
        let part = decoded(rt.alloc(), bytes, &EXPECT)?;
        assert_eq!(rt; (part.lo(), part.hi()), (0, 3));
        assert_eq!(rt; part.edges(), edges.as_slice());
        assert_eq!(rt; encode(rt.alloc(), &part)?.as_slice(), BYTES.as_slice());
        let first = encode_first(rt.alloc(), &part)?;
        assert_eq!(rt; first.as_slice(), FIRST_BYTES.as_slice());
    }
    Ok(())
}

/// The bytes, of which the one at the place is another.
fn changed(alloc: Global, bytes: &[u8], place: usize, byte: u8) -> Result<Vec<u8>, AllocError> {
    let mut bytes = bytes.to_vec(alloc)?;
    if place < bytes.len() {
        bytes[place] = byte;
    } else {
        bytes.push(byte)?;
    }
    Ok(bytes)
}

fn fault_of(alloc: Global, bytes: &[u8]) -> Option<PartFault> {
    match decode(alloc, bytes, &EXPECT) {
        Err(PartError::Fault(fault)) => Some(fault),
        _ => None,
    }
}

#[test]
fn each_rule_of_format_1_has_its_fault(rt: HostRuntime) -> Result<(), Fail> {
    // the byte that is changed, and the fault
    for (at, byte, place, kind) in [
        (3, 0x33, 0, FormKind::BadMagic),
        (5, 1, 4, FormKind::BadBounds),
        (8, 4, 8, FormKind::BadBounds),
        (34, 3, 34, FormKind::BadLabel),
        (22, 3, 22, FormKind::BadVertex),
        (36, 3, 36, FormKind::BadVertex),
        (34, 0, 36, FormKind::BadOrder),
        (26, 2, 26, FormKind::BadBirth),
        (70, 1, 78, FormKind::Short),
        (78, 0, 78, FormKind::Extra),
    ] {
        let bytes = changed(rt.alloc(), &FIRST_BYTES, at, byte)?;
        let fault = fault_of(rt.alloc(), &bytes);
        assert_eq!(rt; fault, Some(PartFault { place, kind }), "byte {at}");
    }
    Ok(())
}

#[test]
fn each_rule_of_format_2_has_its_fault(rt: HostRuntime) -> Result<(), Fail> {
    // the byte that is changed, and the fault
    for (at, byte, place, kind) in [
        (3, 0x33, 0, FormKind::BadMagic),
        (3, 0x31, 20, FormKind::BadLabel), // read as format 1
        (5, 1, 4, FormKind::BadBounds),
        (8, 4, 8, FormKind::BadBounds),
        (12, 0x82, 12, FormKind::BadNumber), // a spare group
        (13, 3, 13, FormKind::BadLabel),
        (16, 3, 16, FormKind::BadLabel),
        (14, 3, 14, FormKind::BadVertex),
        (17, 3, 17, FormKind::BadVertex),
        (16, 0, 17, FormKind::BadVertex), // 2, and 1 behind it
        (15, 2, 15, FormKind::BadBirth),
        (23, 1, 24, FormKind::Short),
        (24, 0, 24, FormKind::Extra),
    ] {
        let bytes = changed(rt.alloc(), &BYTES, at, byte)?;
        let fault = fault_of(rt.alloc(), &bytes);
        assert_eq!(rt; fault, Some(PartFault { place, kind }), "byte {at}");
    }
    Ok(())
}

/// The fault of a file of format 2 whose rows are these bytes.
fn fault_of_rows(alloc: Global, rows: &[u8]) -> Result<Option<PartFault>, AllocError> {
    let (head, _) = BYTES.as_slice().split_at(12);
    let mut bytes = head.to_vec(alloc)?;
    bytes.extend_from_slice(rows)?;
    Ok(fault_of(alloc, &bytes))
}

#[test]
fn numbers_have_their_limits(rt: HostRuntime) -> Result<(), Fail> {
    let full = 0xff;
    for (rows, place, kind) in [
        // a number that is cut, 2^64, an eleventh byte, and 2^64 - 1 edges of which none is there
        ([0x80].as_slice(), 12, FormKind::Short),
        (
            &[0x80, 0x80, 0x80, 0x80, 0x80, 0x80, 0x80, 0x80, 0x80, 2],
            12,
            FormKind::BadNumber,
        ),
        (
            &[
                0x80, 0x80, 0x80, 0x80, 0x80, 0x80, 0x80, 0x80, 0x80, 0x81, 0,
            ],
            12,
            FormKind::BadNumber,
        ),
        (
            &[full, full, full, full, full, full, full, full, full, 1],
            22,
            FormKind::Short,
        ),
        // a label of 2^16 + 1, as a sum, and a sum past 2^64
        (&[2, 1, 0, 0, 0x80, 0x80, 4], 16, FormKind::BadLabel),
        (
            &[
                2, 1, 0, 0, full, full, full, full, full, full, full, full, full, 1,
            ],
            16,
            FormKind::BadLabel,
        ),
        // a destination of 2^32, as a sum
        (
            &[2, 0, 0, 0, 0, full, full, full, full, 15, 0],
            17,
            FormKind::BadVertex,
        ),
    ] {
        let fault = fault_of_rows(rt.alloc(), rows)?;
        assert_eq!(rt; fault, Some(PartFault { place, kind }), "at {place}");
    }
    Ok(())
}

/// Whether the file gives its three edges, cut into two pieces at the place, and names a byte behind it.
fn is_read_in_pieces(alloc: Global, bytes: &[u8], cut: usize) -> Result<bool, AllocError> {
    let (front, back) = bytes.split_at(cut.min(bytes.len()));
    let (edges, fault) = read_pieces(alloc, &[front, back], EXPECT)?;
    let (_, behind) = read_pieces(alloc, &[front, back, &[0]], EXPECT)?;
    let place = bytes.len() as u64;
    let kind = FormKind::Extra;
    Ok(edges.len() == 3 && fault.is_none() && behind == Some(PartFault { place, kind }))
}

#[test]
fn a_file_in_two_pieces_gives_the_same_edges(rt: HostRuntime) -> Result<(), Fail> {
    for cut in 0..79 {
        for bytes in [BYTES.as_slice(), FIRST_BYTES.as_slice()] {
            let same = is_read_in_pieces(rt.alloc(), bytes, cut)?;
            assert!(rt; same, "cut at {cut}");
        }
    }
    Ok(())
}

/// A partition of one vertex with many labels and destinations.
const WIDE: Expect = Expect {
    lo: 16_777_214,
    hi: 16_777_215,
    vertices: 16_777_216,
    round: u64::MAX,
    named: 20_000,
    fresh: 62_000,
};

const LABELS: [u16; 6] = [0, 127, 128, 16_383, 16_384, 62_999];

const VERTICES: [u32; 6] = [0, 127, 128, 16_383, 16_384, 16_777_215];

const BIRTHS: [u64; 6] = [0, 127, 128, 16_383, 16_384, u64::MAX - 1];

/// Its file in format 1: each of the labels with each of the destinations, and each birth in turn.
fn wide_bytes(alloc: Global) -> Result<Vec<u8>, AllocError> {
    let mut bytes = Vec::new(alloc);
    bytes.extend_from_slice(b"GSP1")?;
    bytes.extend_from_slice(&WIDE.lo.to_le_bytes())?;
    bytes.extend_from_slice(&WIDE.hi.to_le_bytes())?;
    bytes.extend_from_slice(&36u64.to_le_bytes())?;
    for label in &LABELS {
        for (dst, birth) in VERTICES.iter().zip(&BIRTHS) {
            bytes.extend_from_slice(&label.to_le_bytes())?;
            bytes.extend_from_slice(&dst.to_le_bytes())?;
            bytes.extend_from_slice(&birth.to_le_bytes())?;
        }
    }
    Ok(bytes)
}

#[test]
fn numbers_of_each_length_come_back_in_both_formats(rt: HostRuntime) -> Result<(), Fail> {
    let first = wide_bytes(rt.alloc())?;
    let part = decoded(rt.alloc(), &first, &WIDE)?;
    let second = encode(rt.alloc(), &part)?;
    let again = decoded(rt.alloc(), &second, &WIDE)?;
    assert_eq!(rt; again.edges(), part.edges());
    assert_eq!(rt;
        encode_first(rt.alloc(), &again)?.as_slice(),
        first.as_slice()
    );
    Ok(())
}
