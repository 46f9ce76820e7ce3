//! The rules of an edge's fields.
ghost use Rattle.std.specs.Prelude.{◌≡◌, ℕ, List};
ghost use Rattle.partition_file.specs.FieldsRead as Rules;
ghost use Rattle.partition_file.specs.FieldsRead.{Behind, label_then, destination_then, birth_then};
ghost use Rattle.partition_file.specs.Reader.{rule_leads};

use crate::number::{destination_of, label_of};
use crate::types::{Expect, Format, PartFault};
use disk_model::FormKind;
use graph_words::Edge;

/// The label has a name, or is a fresh one.
#[inline(always)]
fn is_known(expect: &Expect, label: u64) -> bool
    ensures { result ≡ Rules.is_known expect.now label }
{
    label <= u64::from(u16::MAX)
        && (label < u64::from(expect.named)
            || (label >= 1000 && label < 1000 + u64::from(expect.fresh)))
}

/// Label and destination stand above those of the edge before in the row.
#[inline(always)]
fn is_above(before: Option<Edge>, label: u16, dst: u32) -> bool
    ensures { result ≡ Rules.is_above before label dst }
{
    match before {
        None => true,
        Some(edge) => edge.label.0 < label || (edge.label.0 == label && edge.dst.0 < dst),
    }
}

/// The label that a number at the place tells, where it has a name or is a fresh one.
#[inline(always)]
#[tactic(auto, unfolding(crate::specs::FieldsRead::label_then))]
pub(crate) fn known_label(
    expect: &Expect,
    format: Format,
    before: Option<Edge>,
    number: u64,
    place: u64,
) -> Result<u16, PartFault>
    ensures { (next : ℕ → Behind) (after : ℕ) (rest : List ℕ)
        → label_then expect.now format before place next number after rest ≡ rule_leads next result after rest }
{
    let label = label_of(format, before, number);
    if is_known(expect, label) {
        return Ok(label as u16);
    }
    Err(PartFault {
        place,
        kind: FormKind::BadLabel,
    })
}

/// The destination that a number at the place tells, where it is a vertex and stands above the edge
/// before.
#[inline(always)]
#[tactic(auto, unfolding(crate::specs::FieldsRead::destination_then))]
pub(crate) fn next_destination(
    expect: &Expect,
    format: Format,
    before: Option<Edge>,
    label: u16,
    number: u64,
    place: u64,
) -> Result<u32, PartFault>
    ensures { (next : ℕ → Behind) (after : ℕ) (rest : List ℕ)
        → destination_then expect.now format before label place next number after rest
        ≡ rule_leads next result after rest }
{
    let dst = destination_of(format, before, label, number);
    if dst >= u64::from(expect.vertices) {
        return Err(PartFault {
            place,
            kind: FormKind::BadVertex,
        });
    }
    if is_above(before, label, dst as u32) {
        return Ok(dst as u32);
    }
    Err(PartFault {
        place,
        kind: FormKind::BadOrder,
    })
}

/// The birth at the place, where it is below the round.
#[inline(always)]
#[tactic(auto, unfolding(crate::specs::FieldsRead::birth_then))]
pub(crate) fn earlier_birth(expect: &Expect, birth: u64, place: u64) -> Result<u64, PartFault>
    ensures { (next : ℕ → Behind) (after : ℕ) (rest : List ℕ)
        → birth_then expect.now place next birth after rest ≡ rule_leads next result after rest }
{
    if birth < expect.round {
        return Ok(birth);
    }
    Err(PartFault {
        place,
        kind: FormKind::BadBirth,
    })
}
