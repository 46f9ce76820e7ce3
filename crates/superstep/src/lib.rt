//! The rounds of one superstep: joining the edges of one or two loaded partitions until a round adds nothing.
#![tactic(auto)]

ghost use Rattle.std.specs.Prelude.{◌≡◌, ◌+◌, ◌-◌, ◌^◌, ◌<◌, ◌≤◌, ℕ, length, All, IfOk, OnOk, OnErr};
ghost use Rattle.normal_law.specs.NormalForm.{normal_form};
ghost use Rattle.closing_machine.specs.Rounds.{IsRound, Rounds};
ghost use Rattle.closing_machine.specs.PairRun.{IsPairRun};
ghost use Rattle.superstep.specs.Ends.{is_closed, rounds_of};
ghost use Rattle.superstep.specs.Joined.{AreJoined, AreJoinedBelow};
ghost use Rattle.superstep.specs.Room.{IsInFormat, capacity_of};

use graph_words::EdgeList;
use normal_form::Normal;
use row_table::Rows;
use std::alloc::{AllocError, Global};

/// How the rounds of a pair ended.
#[derive(Clone, Copy, PartialEq, Eq, Debug)]
pub enum PairEnd {
    /// A further round would add nothing. So many rounds added edges.
    Closed { rounds: u64 },
}

/// The edges that a round adds: each join of two loaded edges, at least one of them born at or after
/// `since`, that the rows lack. They ascend, so each stands once.
///
/// A round is a function of the rows as they stand: what it finds goes into no row until it ends.
pub fn run_round(
    alloc: Global,
    rows: &Rows,
    normal: &Normal,
    since: u64,
) -> Result<EdgeList, AllocError>
    ensures { IfOk result (IsRound (normal_form normal.now) rows.now.edges since) }
{
    rows.joins(alloc, normal, since)
}

/// Makes rounds on the loaded edges until one adds nothing: semi-naive evaluation, where each round after
/// the first one joins only what the round before it added with all edges.
///
/// The first round goes over joins since `since` and gives its edges the birth `birth`, and each later
/// round the next one. After `AllocError` the rows hold whole rounds.
pub fn run_pair(
    alloc: Global,
    rows: &mut Rows,
    normal: &Normal,
    since: u64,
    birth: u64,
) -> Result<PairEnd, AllocError>
    requires format { All IsInFormat rows.old.edges }
    requires room { birth + (capacity_of rows.old - length rows.old.edges) < 2 ^ 64 }
    ensures run { IfOk result (λ end. (budget : ℕ) → length rows.new.edges ≤ budget
        → IsPairRun (normal_form normal.now) rows.old.edges since birth budget (is_closed end)
        (rounds_of end) rows.new.edges) }
    ensures closed { OnOk result (AreJoinedBelow (normal_form normal.now) rows.old.edges since → AreJoined (normal_form normal.now) rows.new.edges) }
    ensures format { All IsInFormat rows.new.edges }
    ensures low { rows.new.low ≡ rows.old.low }
    ensures high { rows.new.high ≡ rows.old.high }
    ensures err { OnErr result ((k last : ℕ) × Rounds (normal_form normal.now) rows.old.edges since birth k rows.new.edges last) }
{
    normal.limits();
    rows.limits();
    let mut first = since;
    let mut next = birth;
    loop {
        let new = run_round(alloc, rows, normal, first)?;
        if new.as_slice().is_empty() {
            return Ok(PairEnd::Closed {
                rounds: next - birth,
            });
        }
        rows.absorb(&new, next)?;
        rows.limits();
        first = next;
        next += 1;
    }
}
