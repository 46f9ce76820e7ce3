ghost use Rattle.std.specs.Prelude.{◌≡◌, ◌≤◌, ◌<◌, ◌==◌, ℕ, List, [], length};
ghost use Rattle.std.specs.List.{list_any};
ghost use Rattle.manifest_codec.specs.Rules;
ghost use Rattle.manifest_codec.specs.FieldsRead.{GivesField, part_at, parts_at};

use crate::fields::{broken_at, u32_at, u64_at};
use crate::types::{FieldError, Head, PartEntry, PartList};
use disk_model::FormKind;
use std::alloc::Global;

/// Whether a partition among these has the file.
fn has_file(before: &[PartEntry], file: u32) -> bool
    ensures { result ≡ list_any (λ p. p.file == file) before.now }
{
    before.iter().any(|p| p.file == file)
}

/// A partition and its newest birth, with `left` more behind it, and these before it, which end at `low`.
#[tactic(auto, unfolding(crate::specs::FieldsRead::part_at))]
fn part_of<'a>(
    head: &Head,
    left: u16,
    low: u32,
    before: &[PartEntry],
    bytes: &'a [u8],
) -> Result<((PartEntry, u64), &'a [u8]), FieldError>
    ensures { GivesField (λ x. (x.0, x.1.now)) result (part_at head.now left low before.now bytes.now) }
{
    let (hi, at_file) = u32_at(bytes)?;
    if hi <= low || hi > head.vertices || (left == 0 && hi != head.vertices) {
        return Err(broken_at(bytes, FormKind::BadParts));
    }
    let (file, at_newest) = u32_at(at_file)?;
    if file < 4 || file > 1023 || has_file(before, file) {
        return Err(broken_at(at_file, FormKind::BadFile));
    }
    let (newest, rest) = u64_at(at_newest)?;
    if newest >= head.round {
        return Err(broken_at(at_newest, FormKind::BadMark));
    }
    Ok(((PartEntry { hi, file }, newest), rest))
}

/// As many partitions, and their newest births.
pub(crate) fn parts_of<'a>(
    alloc: Global,
    head: &Head,
    count: u16,
    bytes: &'a [u8],
) -> Result<((PartList, Vec<u64>), &'a [u8]), FieldError>
    ensures { GivesField (λ x. ((x.0.0, x.0.1.items), x.1.now)) result (parts_at head.now count 0 [] [] bytes.now) }
{
    let mut parts = PartList::new(alloc);
    let mut births = Vec::new(alloc);
    let mut rest = bytes;
    let mut low = 0;
    for i in 0..count {
        let ((part, newest), behind) = part_of(head, count - 1 - i, low, parts.as_slice(), rest)?;
        parts.push(part)?;
        births.push(newest)?;
        low = part.hi;
        rest = behind;
    }
    Ok(((parts, births), rest))
}
