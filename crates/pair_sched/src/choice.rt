ghost use Rattle.std.specs.Prelude.{◌≡◌, ◌+◌, ◌<◌, ℕ, IsTrue, IfSome, IfNone, ◌↔◌};
ghost use Rattle.closing_machine.specs.State.{IsDirtyBy, IsPick};
ghost use Rattle.dest_map.specs.Table.{counts_of};
ghost use Rattle.pair_sched.specs.Marks.{joined_of, newest_of};
ghost use Rattle.pair_sched.specs.Pick.{IsBest, IsClean, IsLeastDirty};

use crate::marks::Marks;
use dest_map::DestMap;

/// Whether the pair has work left: some edge of `i` leads to `j`, and one of the two partitions has an
/// edge that is not older than the pair's mark.
pub fn is_dirty(map: &DestMap, marks: &Marks, i: usize, j: usize) -> bool
    requires same { map.now.0 ≡ marks.now.0 }
    requires i { i < map.now.0 }
    requires j { j < map.now.0 }
    ensures { IsTrue result ↔ IsDirtyBy (counts_of map.now) (joined_of marks.now) (newest_of marks.now) i j }
{
    let mark = marks.joined(i, j);
    0 < map.count(i, j) && (mark <= marks.newest(i) || mark <= marks.newest(j))
}

/// The pair with work left of the greatest count, and of these the one of the least `i` and then the
/// least `j`. None where no pair has work left.
pub fn pick(map: &DestMap, marks: &Marks) -> Option<(usize, usize)>
    requires { map.now.0 ≡ marks.now.0 }
    ensures some { IfSome result (λ p. IsPick (counts_of map.now) (joined_of marks.now) (newest_of marks.now) map.now.0 p.0 p.1) }
    ensures none { IfNone result (IsClean (counts_of map.now) (joined_of marks.now) (newest_of marks.now) map.now.0) }
{
    let mut best = None;
    for i in 0..map.len() {
        best = best_in_row(map, marks, best, i);
    }
    best
}

/// The pair that goes first of the best one so far and those of a row.
fn best_in_row(
    map: &DestMap,
    marks: &Marks,
    best: Option<(usize, usize)>,
    i: usize,
) -> Option<(usize, usize)>
    requires same { map.now.0 ≡ marks.now.0 }
    requires i { i < map.now.0 }
    requires best { IsBest (counts_of map.now) (joined_of marks.now) (newest_of marks.now) map.now.0 i 0 best }
    ensures { IsBest (counts_of map.now) (joined_of marks.now) (newest_of marks.now) map.now.0 (i + 1) 0 result }
{
    let mut best = best;
    for j in 0..map.len() {
        best = better(map, marks, best, i, j);
    }
    best
}

/// The pair that goes first of the best one so far and this one.
fn better(
    map: &DestMap,
    marks: &Marks,
    best: Option<(usize, usize)>,
    i: usize,
    j: usize,
) -> Option<(usize, usize)>
    requires same { map.now.0 ≡ marks.now.0 }
    requires i { i < map.now.0 }
    requires j { j < map.now.0 }
    requires best { IsBest (counts_of map.now) (joined_of marks.now) (newest_of marks.now) map.now.0 i j best }
    ensures { IsBest (counts_of map.now) (joined_of marks.now) (newest_of marks.now) map.now.0 i (j + 1) result }
{
    if !is_dirty(map, marks, i, j) {
        return best;
    }
    match best {
        None => Some((i, j)),
        Some((a, b)) => {
            if map.count(a, b) < map.count(i, j) {
                Some((i, j))
            } else {
                Some((a, b))
            }
        }
    }
}

/// The pair with work left of the least `i` and then the least `j`. None where no pair has work left.
pub fn least_dirty(map: &DestMap, marks: &Marks) -> Option<(usize, usize)>
    requires { map.now.0 ≡ marks.now.0 }
    ensures some { IfSome result (λ p. IsLeastDirty (counts_of map.now) (joined_of marks.now) (newest_of marks.now) map.now.0 p.0 p.1) }
    ensures none { IfNone result (IsClean (counts_of map.now) (joined_of marks.now) (newest_of marks.now) map.now.0) }
{
    for i in 0..map.len() {
        if let Some(j) = least_in_row(map, marks, i) {
            return Some((i, j));
        }
    }
    None
}

/// The least `j` with which partition `i` has work left.
fn least_in_row(map: &DestMap, marks: &Marks, i: usize) -> Option<usize>
    requires same { map.now.0 ≡ marks.now.0 }
    requires i { i < map.now.0 }
    ensures below { IfSome result (λ j. j < map.now.0) }
    ensures dirty { IfSome result (λ j. IsDirtyBy (counts_of map.now) (joined_of marks.now) (newest_of marks.now) i j) }
    ensures least { IfSome result (λ j. (b : ℕ) → b < j → IsDirtyBy (counts_of map.now) (joined_of marks.now) (newest_of marks.now) i b → ⊥) }
    ensures none { IfNone result ((b : ℕ) → b < map.now.0 → IsDirtyBy (counts_of map.now) (joined_of marks.now) (newest_of marks.now) i b → ⊥) }
{
    for j in 0..map.len() {
        if is_dirty(map, marks, i, j) {
            return Some(j);
        }
    }
    None
}
