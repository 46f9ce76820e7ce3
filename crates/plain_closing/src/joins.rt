//! The joins of a list of edges that grows while it is walked.
ghost use Rattle.std.specs.Prelude.{◌≡◌, ◌<◌, ◌+◌, length, Contains, OnOk};
ghost use Rattle.normal_law.specs.NormalForm.{normal_form};
ghost use Rattle.plain_closing.specs.Joins.{HasJoins, HasJoinsWith, HasAllJoins, AddsMade};

use crate::edge_set::EdgeSet;
use graph_words::Edge;
use normal_form::Normal;
use std::alloc::AllocError;

/// Adds the joins of an edge and of one behind it.
// (u, A, w) :- A -> B C, (u, B, v), (v, C, w).
fn add_joins(
    normal: &Normal,
    first: Edge,
    second: Edge,
    edges: &mut EdgeSet,
) -> Result<(), AllocError>
    requires first { Contains edges.old first }
    requires second { Contains edges.old second }
    ensures made { OnOk result (AddsMade (normal_form normal.now) edges.old edges.new) }
    ensures joined { OnOk result (HasJoins (normal_form normal.now) edges.new first second) }
{
    if first.dst != second.src {
        return Ok(());
    }
    let labels = normal.pair(first.label, second.label);
    edges.add_each(first.src, labels, second.dst)
}

/// Adds the joins of two edges, whichever comes first.
fn add_joins_both(normal: &Normal, x: Edge, y: Edge, edges: &mut EdgeSet) -> Result<(), AllocError>
    requires first { Contains edges.old x }
    requires second { Contains edges.old y }
    ensures made { OnOk result (AddsMade (normal_form normal.now) edges.old edges.new) }
    ensures joined { OnOk result (HasJoins (normal_form normal.now) edges.new x y) }
    ensures turned { OnOk result (HasJoins (normal_form normal.now) edges.new y x) }
{
    add_joins(normal, x, y, edges)?;
    add_joins(normal, y, x, edges)
}

/// Adds the joins of the edge with number n with itself and with each edge before it.
fn join_edge(normal: &Normal, n: usize, edges: &mut EdgeSet) -> Result<(), AllocError>
    requires { n < length edges.old }
    ensures made { OnOk result (AddsMade (normal_form normal.now) edges.old edges.new) }
    ensures joined { OnOk result (HasJoinsWith (normal_form normal.now) edges.new n (n + 1)) }
{
    let edge = edges.at(n);
    for j in 0..n {
        let other = edges.at(j);
        add_joins_both(normal, edge, other, edges)?;
    }
    add_joins(normal, edge, edge, edges)
}

/// Adds joins until none is new. Each two edges are looked at once.
pub(crate) fn add_all_joins(normal: &Normal, edges: &mut EdgeSet) -> Result<(), AllocError>
    ensures made { OnOk result (AddsMade (normal_form normal.now) edges.old edges.new) }
    ensures closed { OnOk result (HasAllJoins (normal_form normal.now) edges.new) }
{
    let mut n = 0;
    while n < edges.len() {
        join_edge(normal, n, edges)?;
        n += 1;
    }
    Ok(())
}
