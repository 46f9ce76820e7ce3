ghost use Rattle.std.specs.Prelude.{◌≡◌, ◌≤◌, ◌<◌, ◌+◌, ◌-◌, ◌*◌, ◌==◌, ℕ, List, [], length, nat_lt, if◌then◌else◌, Ok, Err, take, drop};
ghost use Rattle.byteorder.specs.Endian.{little_number};
ghost use Rattle.manifest_codec.specs.declared.types.FieldError.{FieldError};
ghost use Rattle.manifest_codec.specs.declared.types.Version.TheVariants.{First};
ghost use Rattle.manifest_codec.specs.Rules as place;
ghost use Rattle.manifest_codec.specs.Rules.{is_magic, magic_of, at_most};
ghost use Rattle.manifest_codec.specs.FieldsRead.{GivesField, Read, number_at, field_at, head_at, broken};

use crate::format::{FIRST_MAGIC, LABELS_PLACE};
use crate::types::{Broken, FieldError, Head, Version};
use byteorder::{ByteOrder, LittleEndian};
use disk_model::FormKind;
use graph_words::{LONGEST_EDGES, LONGEST_GRAMMAR, MOST_VERTICES};

/// Where a version has the number of labels, in bytes from the gate.
pub fn labels_place(version: Version) -> u64
    ensures { result ≡ place.labels_place version }
{
    match version {
        Version::First => LABELS_PLACE,
    }
}

/// The field that begins here breaks its rule.
pub(crate) fn broken_at(bytes: &[u8], kind: FormKind) -> FieldError
    ensures { result ≡ FieldError.Broken (broken bytes.now kind) }
{
    FieldError::Broken(Broken {
        left: bytes.len(),
        kind,
    })
}

/// A number of one byte, and the bytes behind it.
fn u8_at(bytes: &[u8]) -> Result<(u8, &[u8]), FieldError>
    ensures { GivesField (λ x. (x.0, x.1.now)) result (number_at 1 bytes.now) }
{
    if bytes.len() < 1 {
        return Err(broken_at(bytes, FormKind::Short));
    }
    let (front, rest) = bytes.split_at(1);
    Ok((front[0], rest))
}

/// A number of 2 bytes.
pub(crate) fn u16_at(bytes: &[u8]) -> Result<(u16, &[u8]), FieldError>
    ensures { GivesField (λ x. (x.0, x.1.now)) result (number_at 2 bytes.now) }
{
    if bytes.len() < 2 {
        return Err(broken_at(bytes, FormKind::Short));
    }
    Ok((LittleEndian::read_u16(bytes), bytes.split_at(2).1))
}

/// A number of 4 bytes.
pub(crate) fn u32_at(bytes: &[u8]) -> Result<(u32, &[u8]), FieldError>
    ensures { GivesField (λ x. (x.0, x.1.now)) result (number_at 4 bytes.now) }
{
    if bytes.len() < 4 {
        return Err(broken_at(bytes, FormKind::Short));
    }
    Ok((LittleEndian::read_u32(bytes), bytes.split_at(4).1))
}

/// A number of 8 bytes.
pub(crate) fn u64_at(bytes: &[u8]) -> Result<(u64, &[u8]), FieldError>
    ensures { GivesField (λ x. (x.0, x.1.now)) result (number_at 8 bytes.now) }
{
    if bytes.len() < 8 {
        return Err(broken_at(bytes, FormKind::Short));
    }
    Ok((LittleEndian::read_u64(bytes), bytes.split_at(8).1))
}

/// The magic of the first version, and the numbers behind it.
#[tactic(auto, unfolding(crate::specs::FieldsRead::head_at))]
pub(crate) fn head_of(bytes: &[u8]) -> Result<(Head, &[u8]), FieldError>
    ensures { GivesField (λ x. (x.0, x.1.now)) result (head_at First bytes.now) }
{
    let (magic, at_generation) = u32_at(bytes)?;
    if magic != FIRST_MAGIC {
        return Err(broken_at(bytes, FormKind::BadMagic));
    }
    let (generation, at_round) = u8_at(at_generation)?;
    if generation > 2 {
        return Err(broken_at(at_generation, FormKind::BadNumber));
    }
    let (round, at_vertices) = u64_at(at_round)?;
    if round == 0 {
        return Err(broken_at(at_round, FormKind::BadNumber));
    }
    let (vertices, at_grammar) = u32_at(at_vertices)?;
    if vertices as usize > MOST_VERTICES {
        return Err(broken_at(at_vertices, FormKind::BadNumber));
    }
    let (grammar_len, at_edges) = u64_at(at_grammar)?;
    if grammar_len > LONGEST_GRAMMAR as u64 {
        return Err(broken_at(at_grammar, FormKind::BadNumber));
    }
    let (edges_len, rest) = u64_at(at_edges)?;
    if edges_len > LONGEST_EDGES {
        return Err(broken_at(at_edges, FormKind::BadNumber));
    }
    let head = Head {
        generation,
        round,
        vertices,
        grammar_len,
        edges_len,
        first_len: edges_len,
    };
    Ok((head, rest))
}
