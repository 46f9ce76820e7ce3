ghost use Rattle.std.specs.Prelude.{◌≡◌, ◌+◌, ◌^◌, ◌<◌, ◌≤◌, ℕ, List, length, sum, IfOk};
ghost use Rattle.intervals.specs.DegreeCut.{IsLongest, IsCutByDegree};

use std::alloc::{AllocError, Global};

/// How many intervals there are at most.
const MOST_INTERVALS: usize = 256;

/// The vertex behind the longest interval from `low` on.
fn end_from(counts: &[u64], low: usize, limit: u64) -> usize
    requires low { low < length counts.now }
    requires sum { sum counts.now < 2 ^ 64 }
    ensures { IsLongest counts.now limit low result }
{
    let mut total = counts[low];
    let mut end = low + 1;
    while end < counts.len() && total + counts[end] <= limit {
        total += counts[end];
        end += 1;
    }
    end
}

/// The ends of the intervals into which the counts are cut.
pub(crate) fn ends_by_degrees(
    alloc: Global,
    counts: &[u64],
    limit: u64,
) -> Result<Vec<u32>, AllocError>
    requires vertices { length counts.now ≤ 16777216 }
    requires sum { sum counts.now < 2 ^ 64 }
    ensures { IfOk result (λ v. IsCutByDegree counts.now limit v.items) }
{
    let mut ends = Vec::new(alloc);
    let mut low = 0;
    while low < counts.len() {
        let high = if ends.len() + 1 < MOST_INTERVALS {
            end_from(counts, low, limit)
        } else {
            counts.len()
        };
        ends.push(high as u32)?;
        low = high;
    }
    Ok(ends)
}

/// Counts and a limit have one cut by degrees.
pub fn one_cut_by_degrees()
    ensures { (counts : List ℕ) (limit : ℕ) (xs ys : List ℕ) → IsCutByDegree counts limit xs → IsCutByDegree counts limit ys → xs ≡ ys }
{}
