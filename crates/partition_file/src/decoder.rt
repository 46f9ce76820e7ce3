ghost use Rattle.std.specs.Prelude.{◌≡◌, ◌+◌, ◌-◌, ◌*◌, ◌/◌, ◌<◌, ◌≤◌, ◌^◌, length, sum_by, IfOk};
ghost use Rattle.partition_file.specs.FieldsRead.{reading};
ghost use Rattle.std.specs.List.{flat_map};
ghost use Rattle.partition_file.specs.Reader.{taken, ReadsPiece};
ghost use Rattle.partition_file.specs.Spelling.{Part, FitsPart, SpellsPart, DecodesPart, AnswersPart};

use crate::format::{COUNT_LEN, EDGE_LEN, FIRST_MAGIC, HEAD_LEN, LEAST_EDGE_LEN};
use crate::partition::Partition;
use crate::reader::RowReader;
use crate::types::{Expect, PartError, PartFault, RowStep};
use graph_words::Born;
use std::alloc::{AllocError, Global};

/// Reads a whole piece, and puts its edges behind those before. Answers the fault that ends them, where there is one.
///
/// At `AllocError` some of the piece's edges may stand behind those before.
pub fn read_piece(
    reader: &mut RowReader,
    edges: &mut Vec<Born>,
    piece: &[u8],
) -> Result<Option<PartFault>, AllocError>
    requires { taken reader.old + length piece.now < 2 ^ 64 }
    ensures reads { IfOk result (λ fault. ReadsPiece reader.old reader.new edges.old.items edges.new.items piece.now fault) }
    ensures taken { taken reader.new ≤ taken reader.old + length piece.now }
    ensures few { length edges.new.items ≤ length edges.old.items + length piece.now }
{
    let mut rest = piece;
    'edges: loop {
        let whole = reader.take_rows(rest, edges)?;
        let (_, left) = rest.split_at(whole);
        let (used, step) = reader.next(left);
        let (_, behind) = left.split_at(used);
        rest = behind;
        match step {
            RowStep::Edge(born) => edges.push(born)?,
            RowStep::Fault(fault) => return Ok(Some(fault)),
            RowStep::More | RowStep::End => return Ok(None),
        }
    }
}

/// The edges of a partition file that comes in these pieces, and the fault that ends them, where
/// there is one. They are those of the joined bytes, wherever these are cut.
pub fn read_pieces(
    alloc: Global,
    pieces: &[&[u8]],
    expect: Expect,
) -> Result<(Vec<Born>, Option<PartFault>), AllocError>
    requires bounds { expect.lo < expect.hi }
    requires small { sum_by (λ p. length p.now) pieces.now < 2 ^ 64 }
    ensures { IfOk result (λ x. reading expect (flat_map (λ p. p.now) pieces.now) ≡ record { edges = x.0.items; fault = x.1 }) }
{
    let mut reader = RowReader::new(expect);
    let mut edges = Vec::new(alloc);
    for piece in pieces {
        if let Some(fault) = read_piece(&mut reader, &mut edges, piece)? {
            return Ok((edges, Some(fault)));
        }
    }
    match reader.finish() {
        RowStep::Fault(fault) => Ok((edges, Some(fault))),
        _ => Ok((edges, None)),
    }
}

/// How many edges so many bytes of a partition file have at most, in either format, by their length
/// alone.
pub fn most_edges(len: usize, expect: &Expect) -> usize
    ensures { result ≡ (len - (HEAD_LEN + (expect.now.hi - expect.now.lo))) / LEAST_EDGE_LEN }
{
    let rows = expect.hi.saturating_sub(expect.lo) as usize;
    len.saturating_sub(HEAD_LEN + rows) / LEAST_EDGE_LEN
}

/// How many of the bytes are the last of a group number.
fn last_bytes(bytes: &[u8]) -> usize
    ensures { result ≤ length bytes.now }
{
    let mut count = 0;
    for byte in bytes {
        count += usize::from(*byte < 128);
    }
    count
}

/// Room for the edges of a file: exactly as many as it has where it keeps its rules, and never more than
/// its bytes can hold. In format 2 each number ends with a byte below 128, one number a row and three an
/// edge.
fn room_of(bytes: &[u8], expect: &Expect) -> usize
    ensures { LEAST_EDGE_LEN * result ≤ length bytes.now }
{
    let rows = expect.hi.saturating_sub(expect.lo) as usize;
    let behind = bytes.get(HEAD_LEN..).unwrap_or(&[]);
    if bytes.starts_with(&FIRST_MAGIC) {
        behind.len().saturating_sub(rows * COUNT_LEN) / EDGE_LEN
    } else {
        last_bytes(behind).saturating_sub(rows) / LEAST_EDGE_LEN
    }
}

/// The edges that the bytes give.
fn edges_of(alloc: Global, bytes: &[u8], expect: &Expect) -> Result<Vec<Born>, PartError>
    requires { expect.now.lo < expect.now.hi }
    ensures { DecodesPart (λ v. v.items) result (reading expect.now bytes.now) }
{
    let mut reader = RowReader::new(*expect);
    let mut edges = Vec::with_capacity(alloc, room_of(bytes, expect))?;
    if let Some(fault) = read_piece(&mut reader, &mut edges, bytes)? {
        return Err(PartError::Fault(fault));
    }
    match reader.finish() {
        RowStep::Fault(fault) => Err(PartError::Fault(fault)),
        _ => Ok(edges),
    }
}

/// The partition that the bytes spell, in the interval that is expected.
///
/// `Fault` names the first field that breaks its rule. The room for the edges is taken once, by the
/// length of the bytes and in format 2 by how many numbers end in them, and never by a number that
/// stands in them.
pub fn decode(alloc: Global, bytes: &[u8], expect: &Expect) -> Result<Partition, PartError>
    requires { expect.now.lo < expect.now.hi }
    // What is decoded keeps the rules, and is spelled so.
    ensures found { IfOk result (λ p. SpellsPart bytes.now p × FitsPart expect.now p) }
    // What keeps the rules and is spelled so is decoded, unless memory runs out.
    ensures only { (p : Part) → FitsPart expect.now p → SpellsPart bytes.now p → AnswersPart result p }
    // Which field breaks its rule first.
    ensures exact { DecodesPart (λ p. p.edges) result (reading expect.now bytes.now) }
{
    let lo = expect.lo;
    let hi = expect.hi;
    let _vertices = expect.vertices;
    let _round = expect.round;
    match edges_of(alloc, bytes, expect) {
        Ok(edges) => Ok(Partition::new(lo, hi, edges)),
        Err(fault) => Err(fault),
    }
}
