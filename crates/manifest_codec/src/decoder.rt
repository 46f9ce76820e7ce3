ghost use Rattle.std.specs.Prelude.{◌≡◌, ◌≤◌, ◌<◌, ◌-◌, ◌*◌, ◌++◌, ℕ, List, [], length, replicate, IfOk, Ok, drop};
ghost use Rattle.faults.specs.declared.form_kind.FormKind.TheVariants.{BadCount, BadMark};
ghost use Rattle.manifest_codec.specs.declared.types.Manifest.{Manifest as AManifest};
ghost use Rattle.manifest_codec.specs.Rules.{widths, count_limits};
ghost use Rattle.manifest_codec.specs.Spelling.{FitsManifest, spelling, SpellsManifest};
ghost use Rattle.manifest_codec.specs.FieldsRead.{GivesField, DecodesManifest, AnswersManifest, reading, body_at, front_at, table_at, cells_at};

use crate::cells::{cells_of, is_reached, limits_of, repeated, widths_of};
use crate::fields::{broken_at, head_of, u16_at};
use crate::labels::labels_of;
use crate::parts::parts_of;
use crate::types::{
    Broken, FieldError, Head, Manifest, ManifestError, ManifestFault, PartEntry, PartList,
};
use dest_map::DestMap;
use disk_model::FormKind;
use label_table::LabelTable;
use pair_sched::Marks;
use std::alloc::Global;

/// The head and the labels.
#[tactic(auto, unfolding(crate::specs::FieldsRead::front_at))]
fn front_of(alloc: Global, bytes: &[u8]) -> Result<((Head, LabelTable), &[u8]), FieldError>
    ensures { GivesField (λ x. (x.0, x.1.now)) result (front_at bytes.now) }
{
    let (head, at_count) = head_of(bytes)?;
    let (count, rest) = u16_at(at_count)?;
    if count > 1000 {
        return Err(broken_at(at_count, FormKind::BadNumber));
    }
    let (labels, rest) = labels_of(alloc, count, rest)?;
    Ok(((head, labels), rest))
}

/// The partitions and their newest births.
#[tactic(auto, unfolding(crate::specs::FieldsRead::table_at))]
fn table_of<'a>(
    alloc: Global,
    head: &Head,
    bytes: &'a [u8],
) -> Result<((PartList, Vec<u64>), &'a [u8]), FieldError>
    ensures { GivesField (λ x. ((x.0.0, x.0.1.items), x.1.now)) result (table_at head.now bytes.now) }
{
    let (count, rest) = u16_at(bytes)?;
    if count > 256 || u32::from(count) > head.vertices || (count == 0 && head.vertices != 0) {
        return Err(broken_at(bytes, FormKind::BadParts));
    }
    parts_of(alloc, head, count, rest)
}

/// The whole body.
#[tactic(auto, unfolding(crate::specs::FieldsRead::body_at))]
fn body_of(alloc: Global, bytes: &[u8]) -> Result<(Manifest, &[u8]), FieldError>
    ensures { GivesField (λ x. (x.0, x.1.now)) result (body_at bytes.now) }
{
    let ((head, labels), rest) = front_of(alloc, bytes)?;
    let ((parts, newest), rest) = table_of(alloc, &head, rest)?;
    let size = parts.as_slice().len();
    let widths = widths_of(alloc, parts.as_slice())?;
    let limits = limits_of(alloc, &widths)?;
    let (counts, rest) = cells_of(alloc, FormKind::BadCount, &limits, rest)?;
    let rounds = repeated(alloc, head.round, size * size)?;
    let (joined, rest) = cells_of(alloc, FormKind::BadMark, &rounds, rest)?;
    if !is_reached(head.round, &counts) {
        let left = bytes.len().saturating_sub(5);
        let kind = FormKind::BadNumber;
        return Err(FieldError::Broken(Broken { left, kind }));
    }
    let manifest = Manifest {
        generation: head.generation,
        round: head.round,
        vertices: head.vertices,
        grammar_len: head.grammar_len,
        edges_len: head.edges_len,
        first_len: head.first_len,
        labels,
        parts,
        map: DestMap::of_counts(size, counts),
        marks: Marks::of_rows(size, joined, newest),
    };
    Ok((manifest, rest))
}

/// The manifest that the bytes begin with, and how many bytes spell it. Bytes behind them are ignored.
///
/// The bytes are those of a slot behind its gate. The fault is the first field that breaks its rule, and it
/// comes exactly where the bytes begin with no spelling of a manifest that keeps the rules of the format.
pub fn decode(alloc: Global, bytes: &[u8]) -> Result<(Manifest, usize), ManifestError>
    // What is decoded keeps the rules, and the bytes begin with its spelling.
    ensures found { IfOk result (λ x. FitsManifest x.0 × SpellsManifest bytes.now x.0 x.1) }
    // What keeps the rules and is spelled so is decoded, unless memory runs out.
    ensures only { (m : AManifest) (n : ℕ) → FitsManifest m → SpellsManifest bytes.now m n → AnswersManifest result m n }
    // Which field breaks its rule first.
    ensures exact { DecodesManifest result (reading bytes.now) }
{
    match body_of(alloc, bytes) {
        Ok((manifest, rest)) => Ok((manifest, bytes.len() - rest.len())),
        Err(FieldError::Broken(broken)) => Err(ManifestError::Fault(ManifestFault {
            place: 1 + bytes.len().saturating_sub(broken.left) as u64,
            kind: broken.kind,
        })),
        Err(FieldError::NoMemory) => Err(ManifestError::NoMemory),
    }
}
