//! The bytes of manifests.
use disk_model::FormKind;
use manifest_codec::{Manifest, ManifestError, PartEntry, decode, encode};
use std::alloc::{AllocError, Global};
use std::test::Fail;

/// The manifest of a finished store: three labels, one partition, three edges.
const BODY: [u8; 75] = [
    0x47, 0x53, 0x4d, 0x31, 1, 2, 0, 0, 0, 0, 0, 0, 0, 3, 0, 0, 0, // to the vertices
    6, 0, 0, 0, 0, 0, 0, 0, 12, 0, 0, 0, 0, 0, 0, 0, // the lengths of the texts
    3, 0, 1, 0x53, 1, 0x61, 1, 0x62, // the labels
    1, 0, 3, 0, 0, 0, 5, 0, 0, 0, 1, 0, 0, 0, 0, 0, 0, 0, // the partition
    3, 0, 0, 0, 0, 0, 0, 0, 2, 0, 0, 0, 0, 0, 0, 0, // its count and its mark
];

/// Two partitions, of 1 and 2 vertices, without labels and edges.
const TWO: [u8; 133] = [
    0x47, 0x53, 0x4d, 0x31, 0, 1, 0, 0, 0, 0, 0, 0, 0, 3, 0, 0, 0, // to the vertices
    0, 0, 0, 0, 0, 0, 0, 0, 0, 0, 0, 0, 0, 0, 0, 0, 0, 0, // the texts, and no label
    2, 0, 1, 0, 0, 0, 4, 0, 0, 0, 0, 0, 0, 0, 0, 0, 0, 0, // the first partition
    3, 0, 0, 0, 5, 0, 0, 0, 0, 0, 0, 0, 0, 0, 0, 0, // the second
    0, 0, 0, 0, 0, 0, 0, 0, 0, 0, 0, 0, 0, 0, 0, 0, 0, 0, 0, 0, 0, 0, 0, 0, 0, 0, 0, 0, 0, 0, 0, 0,
    0, 0, 0, 0, 0, 0, 0, 0, 0, 0, 0, 0, 0, 0, 0, 0, 0, 0, 0, 0, 0, 0, 0, 0, 0, 0, 0, 0, 0, 0, 0, 0,
];

/// Whether these are the fields of `BODY`.
fn is_the_body(m: &Manifest) -> bool {
    (m.generation, m.round, m.vertices) == (1, 2, 3)
        && (m.grammar_len, m.edges_len, m.first_len) == (6, 12, 12)
        && m.parts.as_slice() == [PartEntry { hi: 3, file: 5 }].as_slice()
        && m.map.counts() == [3].as_slice()
        && m.marks.joined_rows() == [2].as_slice()
        && m.marks.newest_rows() == [1].as_slice()
}

/// How many bytes a manifest at the front takes. There is none, too, where a copy of it is spelled by others.
fn spelled(alloc: Global, bytes: &[u8]) -> Option<usize> {
    let Ok((m, used)) = decode(alloc, bytes) else {
        return None;
    };
    let Ok(copy) = m.copy() else {
        return None;
    };
    let Ok(again) = encode(alloc, &copy) else {
        return None;
    };
    if bytes.starts_with(&again) && again.len() == used {
        return Some(used);
    }
    None
}

// Bytes behind a body are ignored.
#[test]
fn a_body_is_decoded_and_encoded_again(rt: HostRuntime) -> Result<(), Fail> {
    let mut bytes = BODY.to_vec(rt.alloc())?;
    bytes.push(0xFF)?;
    assert_eq!(rt; spelled(rt.alloc(), &bytes), Some(75));
    assert!(rt; decode(rt.alloc(), &bytes).is_ok_and(|(m, _)| is_the_body(&m)));
    assert_eq!(rt; spelled(rt.alloc(), &TWO), Some(133));
    Ok(())
}

/// Whether the bytes begin with no manifest, and this is the first field that breaks its rule.
fn breaks(alloc: Global, bytes: &[u8], place: u64, kind: FormKind) -> bool {
    match decode(alloc, bytes) {
        Err(ManifestError::Fault(fault)) => fault.place == place && fault.kind == kind,
        _ => false,
    }
}

/// Bytes of a body that are changed, one by one, and the fault.
const CHANGES: [(usize, u8, u64, FormKind); 24] = [
    (0, 0, 1, FormKind::BadMagic),
    (4, 3, 5, FormKind::BadNumber),
    (5, 0, 6, FormKind::BadNumber),
    (5, 5, 6, FormKind::BadNumber),
    (16, 1, 14, FormKind::BadNumber),
    (20, 1, 18, FormKind::BadNumber),
    (30, 1, 26, FormKind::BadNumber),
    (34, 4, 34, FormKind::BadNumber),
    (35, 0, 36, FormKind::BadLabel),
    (35, 40, 36, FormKind::Short),
    (35, 255, 36, FormKind::Short),
    (35, 39, 36, FormKind::BadLabel),
    (36, 0x20, 36, FormKind::BadLabel),
    (38, 0x53, 38, FormKind::RepeatedLabel),
    (41, 0, 42, FormKind::BadParts),
    (42, 1, 42, FormKind::BadParts),
    (13, 0, 42, FormKind::BadParts),
    (43, 2, 44, FormKind::BadParts),
    (43, 4, 44, FormKind::BadParts),
    (47, 3, 48, FormKind::BadFile),
    (48, 4, 48, FormKind::BadFile),
    (51, 2, 52, FormKind::BadMark),
    (62, 1, 60, FormKind::BadCount),
    (67, 3, 68, FormKind::BadMark),
];

/// The same for two partitions.
const CHANGES_OF_TWO: [(usize, u8, u64, FormKind); 7] = [
    (37, 3, 54, FormKind::BadParts),
    (53, 1, 54, FormKind::BadParts),
    (57, 4, 58, FormKind::BadFile),
    (61, 1, 62, FormKind::BadMark),
    (71, 1, 70, FormKind::BadCount),
    (79, 2, 78, FormKind::BadCount),
    (132, 1, 126, FormKind::BadMark),
];

/// Whether the bytes break these rules where a byte is changed. The byte of the first change that they don't is told.
fn unbroken(
    alloc: Global,
    body: &[u8],
    changes: &[(usize, u8, u64, FormKind)],
) -> Result<Option<usize>, AllocError> {
    for (at, byte, place, kind) in changes {
        let mut bytes = body.to_vec(alloc)?;
        if let Some(changed) = bytes.get_mut(*at) {
            *changed = *byte;
        }
        if !breaks(alloc, &bytes, *place, *kind) {
            return Ok(Some(*at));
        }
    }
    Ok(None)
}

#[test]
fn each_field_breaks_its_rule_at_its_first_byte(rt: HostRuntime) -> Result<(), Fail> {
    assert_eq!(rt; unbroken(rt.alloc(), &BODY, &CHANGES)?, None);
    assert_eq!(rt; unbroken(rt.alloc(), &TWO, &CHANGES_OF_TWO)?, None);
    assert!(rt; breaks(rt.alloc(), &BODY[..74], 68, FormKind::Short));
    assert!(rt; breaks(rt.alloc(), &[], 1, FormKind::Short));
    Ok(())
}

#[test]
fn without_vertices_there_are_no_partitions(rt: HostRuntime) {
    let mut bytes = TWO;
    bytes[13] = 0;
    assert!(rt; breaks(rt.alloc(), &bytes, 36, FormKind::BadParts));
    bytes[35] = 0;
    assert_eq!(rt; spelled(rt.alloc(), &bytes), Some(37));
}

/// A number as bytes, the lowest first.
fn put(out: &mut Vec<u8>, width: usize, number: u64) -> Result<(), AllocError> {
    let bytes = number.to_le_bytes();
    for byte in bytes.iter().take(width) {
        out.push(*byte)?;
    }
    Ok(())
}

/// 1,000 labels, each as long as a label can be.
fn put_labels(out: &mut Vec<u8>) -> Result<(), AllocError> {
    put(out, 2, 1000)?;
    for i in 0..1000u16 {
        put(out, 1, 255)?;
        put(out, 1, u64::from(0x21 + i / 90))?;
        put(out, 1, u64::from(0x21 + i % 90))?;
        out.extend_from_slice(&[0x7E; 253])?;
    }
    Ok(())
}

/// How many edges there can be from one of 256 partitions of 65,536 vertices into another.
const MOST: u64 = 65_536 * 65_536 * 63_000;

/// One more than how many edges there can be.
const LAST_ROUND: u64 = 1 + 65_536 * MOST;

/// 256 partitions, each number as great as it can be.
fn put_parts(out: &mut Vec<u8>) -> Result<(), AllocError> {
    put(out, 2, 256)?;
    for i in 0..256u64 {
        put(out, 4, 65_536 * (i + 1))?;
        put(out, 4, 768 + i)?;
        put(out, 8, LAST_ROUND - 1)?;
    }
    Ok(())
}

/// A number of eight bytes for each pair of 256 partitions.
fn put_pairs(out: &mut Vec<u8>, number: u64) -> Result<(), AllocError> {
    for _ in 0..65_536 {
        put(out, 8, number)?;
    }
    Ok(())
}

/// The longest body, each number as great as it can be.
fn longest(alloc: Global) -> Result<Vec<u8>, AllocError> {
    let mut out = Vec::new(alloc);
    out.extend_from_slice(b"GSM1\x02")?;
    put(&mut out, 8, LAST_ROUND)?;
    put(&mut out, 4, 16_777_216)?;
    put(&mut out, 8, 16_777_216)?;
    put(&mut out, 8, 1_099_511_627_776)?;
    put_labels(&mut out)?;
    put_parts(&mut out)?;
    put_pairs(&mut out, MOST)?;
    put_pairs(&mut out, LAST_ROUND)?;
    Ok(out)
}

#[test]
fn the_longest_body_is_decoded_and_encoded_again(rt: HostRuntime) -> Result<(), Fail> {
    let bytes = longest(rt.alloc())?;
    assert_eq!(rt; spelled(rt.alloc(), &bytes), Some(1_308_709));
    Ok(())
}
