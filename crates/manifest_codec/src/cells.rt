ghost use Rattle.std.specs.Prelude.{◌≡◌, ◌≤◌, ◌<◌, ◌-◌, ◌*◌, ◌++◌, ◌∷◌, ℕ, List, [], length, map, sum, replicate, All, IfOk, OnOk};
ghost use Rattle.std.specs.List.{flat_map};
ghost use Rattle.manifest_codec.specs.Rules;
ghost use Rattle.manifest_codec.specs.FieldsRead.{GivesField, cells_at};

use crate::fields::{broken_at, u64_at};
use crate::types::{FieldError, PartEntry};
use disk_model::FormKind;
use std::alloc::{AllocError, Global};

/// A number of 8 bytes for each limit.
pub(crate) fn cells_of<'a>(
    alloc: Global,
    kind: FormKind,
    limits: &[u64],
    bytes: &'a [u8],
) -> Result<(Vec<u64>, &'a [u8]), FieldError>
    ensures { GivesField (λ x. (x.0.items, x.1.now)) result (cells_at kind limits.now [] bytes.now) }
{
    let mut cells = Vec::new(alloc);
    let mut rest = bytes;
    for limit in limits {
        let (n, behind) = u64_at(rest)?;
        if n > *limit {
            return Err(broken_at(rest, kind));
        }
        cells.push(n)?;
        rest = behind;
    }
    Ok((cells, rest))
}

/// How many vertices each partition has.
pub(crate) fn widths_of(alloc: Global, parts: &[PartEntry]) -> Result<Vec<u64>, AllocError>
    ensures { IfOk result (λ v. v.items ≡ Rules.widths 0 parts.now) }
{
    let mut widths = Vec::new(alloc);
    let mut low = 0;
    for part in parts {
        widths.push(u64::from(part.hi.saturating_sub(low)))?;
        low = part.hi;
    }
    Ok(widths)
}

/// The limits of the edges from a partition of this width.
fn put_limits(limits: &mut Vec<u64>, a: u64, widths: &[u64]) -> Result<(), AllocError>
    requires a { a ≤ 16777216 }
    requires widths { All (λ b. b ≤ 16777216) widths.now }
    ensures { OnOk result (limits.new.items ≡ limits.old.items ++ map (λ b. a * b * 63000) widths.now) }
{
    for b in widths {
        limits.push(a * *b * 63000)?;
    }
    Ok(())
}

/// The limits of the counts of edges from one partition to another, row by row.
pub(crate) fn limits_of(alloc: Global, widths: &[u64]) -> Result<Vec<u64>, AllocError>
    requires { All (λ b. b ≤ 16777216) widths.now }
    ensures { IfOk result (λ v. v.items ≡ Rules.count_limits widths.now) }
{
    let mut limits = Vec::new(alloc);
    for a in widths {
        put_limits(&mut limits, *a, widths)?;
    }
    Ok(limits)
}

/// One limit, as often.
pub(crate) fn repeated(alloc: Global, n: u64, count: usize) -> Result<Vec<u64>, AllocError>
    ensures { IfOk result (λ v. v.items ≡ replicate count n) }
{
    let mut out = Vec::new(alloc);
    for _ in 0..count {
        out.push(n)?;
    }
    Ok(out)
}

/// Whether so many edges can have been born before the round.
pub(crate) fn is_reached(round: u64, counts: &[u64]) -> bool
    ensures { result ≡ Rules.is_reached round counts.now }
{
    let mut owed = round.saturating_sub(1);
    for n in counts {
        owed = owed.saturating_sub(*n);
    }
    owed == 0
}
