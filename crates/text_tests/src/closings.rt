//! Joins and rounds over loaded rows, and the plainest closing, which shares no code with them.
ghost use Rattle.std.specs.Prelude.{◌≡◌, ◌+◌, ◌^◌, ◌<◌, ◌≤◌, ℕ, All, IfOk, IsTrue, OnOk};
ghost use Rattle.row_table.specs.Loaded.{IsRow};
ghost use Rattle.superstep.specs.Room.{IsInFormat, capacity_of};

use crate::fixtures::{are_edges, edge_of, grammar_of, normal_of};
use graph_words::{Edge, EdgeList, Vertex};
use partition_file::Partition;
use plain_closing::closure;
use row_table::Rows;
use std::alloc::{AllocError, Global};
use std::process::Abort;
use std::test::Fail;
use superstep::{PairEnd, run_pair, run_round};

/// Rows of the vertices below `high`, cut at `cut` where that lies between them.
fn empty_rows(alloc: Global, cut: u32, high: u32) -> Result<Rows, AllocError>
    requires high { high ≤ 1000 }
    requires some { 0 < high }
    ensures capacity { IfOk result (λ rows. capacity_of rows < 2 ^ 60) }
    ensures covers { IfOk result (λ rows. (v : ℕ) → v < high → IsRow rows v) }
{
    if 0 < cut && cut < high {
        let low_part = Partition::new(0, cut, Vec::new(alloc));
        let high_part = Partition::new(cut, high, Vec::new(alloc));
        return Rows::of_two(alloc, low_part, Some(high_part));
    }
    Rows::of_two(alloc, Partition::new(0, high, Vec::new(alloc)), None)
}

/// The edges, of birth 0, as rows.
fn rows_of(
    rt: &impl Abort,
    alloc: Global,
    cut: u32,
    high: u32,
    edges: &[(u32, u16, u32)],
) -> Result<Rows, AllocError>
    requires high { high ≤ 1000 }
    requires some { 0 < high }
    ensures edges { IfOk result (λ rows. All IsInFormat rows.edges) }
    ensures capacity { IfOk result (λ rows. capacity_of rows < 2 ^ 60) }
{
    let mut rows = empty_rows(alloc, cut, high)?;
    for edge in edges {
        add(rt, alloc, &mut rows, high, edge_of(*edge))?;
    }
    let known = are_in_format(&rows);
    assert!(rt; known);
    Ok(rows)
}

/// Whether each edge is in the store's format.
fn are_in_format(rows: &Rows) -> bool
    ensures { IsTrue result → All IsInFormat rows.now.edges }
{
    rows.edges()
        .iter()
        .all(|b| b.edge.label.0 < 63_000 && b.edge.dst.0 < 16_777_216)
}

/// Adds an edge of birth 0 that isn't there.
fn add(
    rt: &impl Abort,
    alloc: Global,
    rows: &mut Rows,
    high: u32,
    edge: Edge,
) -> Result<(), AllocError>
    requires { (v : ℕ) → v < high → IsRow rows.old v }
    ensures low { OnOk result (rows.new.low ≡ rows.old.low) }
    ensures high { OnOk result (rows.new.high ≡ rows.old.high) }
{
    assert!(rt; edge.src.0 < high);
    let there = rows.has(edge);
    assert!(rt; !there);
    let mut one = EdgeList::new(alloc);
    one.push(edge)?;
    rows.absorb(&one, 0)?;
    Ok(())
}

/// How many edges have the birth.
fn born_at(rows: &Rows, birth: u64) -> usize {
    rows.edges().iter().filter(|b| b.birth == birth).count()
}

/// Whether so many edges have birth 0, birth 1 and so on.
fn have_births(rows: &Rows, counts: &[usize]) -> bool {
    counts
        .iter()
        .enumerate()
        .all(|(birth, n)| born_at(rows, birth as u64) == *n)
}

/// Whether the rows have just these edges.
fn have_edges(rows: &Rows, wanted: &[(u32, u16, u32)]) -> bool {
    let edges = rows.edges();
    edges.len() == wanted.len() && edges.iter().zip(wanted).all(|(b, w)| b.edge == edge_of(*w))
}

/// S is 0, an opening bracket is 1 and a closing one 2; S is empty or ( S ) S.
const BRACKET_RULES: [(u16, &[u16]); 2] = [(0, &[]), (0, &[1, 0, 2, 0])];

/// A loop that opens and a cycle that closes, with the loops of S at both vertices.
const LOOPED_BRACKETS: [(u32, u16, u32); 5] = [
    (0, 0, 0),
    (0, 1, 0),
    (0, 2, 1),
    (1, 0, 1),
    (1, 2, 0),
];

/// An opening bracket leads from 0 to 0 alone, so S leads from 0 to both vertices, and from 1 to 1 alone. The fresh
/// labels 1000 and 1001 stand for S ) S and ) S.
const CLOSED_BRACKETS: [(u32, u16, u32); 13] = [
    (0, 0, 0),
    (0, 0, 1),
    (0, 1, 0),
    (0, 2, 1),
    (0, 1000, 0),
    (0, 1000, 1),
    (0, 1001, 1),
    (1, 0, 1),
    (1, 2, 0),
    (1, 1000, 0),
    (1, 1000, 1),
    (1, 1001, 0),
    (1, 1001, 1),
];

/// Closes rows under rules. The first round joins what was born from birth 0 on, and its edges have birth 1.
fn close(
    rt: &impl Abort,
    alloc: Global,
    rules: &[(u16, &[u16])],
    rows: &mut Rows,
) -> Result<PairEnd, AllocError>
    requires edges { All IsInFormat rows.old.edges }
    requires capacity { capacity_of rows.old < 2 ^ 60 }
{
    let normal = normal_of(rt, alloc, rules)?;
    run_pair(alloc, rows, &normal, 0, 1)
}

#[test]
fn brackets_close_in_five_rounds_in_one_partition_or_two(rt: HostRuntime) -> Result<(), Fail> {
    let alloc = rt.alloc();
    for cut in 0..2 {
        let mut rows = rows_of(&rt, alloc, cut, 2, &LOOPED_BRACKETS)?;
        let end = close(&rt, alloc, &BRACKET_RULES, &mut rows)?;
        assert_eq!(rt; end, PairEnd::Closed { rounds: 5 });
        assert!(rt; have_births(&rows, &[5, 2, 2, 1, 2, 1]));
        assert!(rt; have_edges(&rows, &CLOSED_BRACKETS));
    }
    Ok(())
}

#[test]
fn the_plainest_closing_lists_the_named_labels(rt: HostRuntime) -> Result<(), Fail> {
    let alloc = rt.alloc();
    let mut graph = EdgeList::new(alloc);
    graph.push(edge_of((0, 1, 0)))?;
    graph.push(edge_of((0, 2, 1)))?;
    graph.push(edge_of((1, 2, 0)))?;
    let grammar = grammar_of(&rt, alloc, &BRACKET_RULES)?;
    let edges = closure(alloc, 2, &graph, &grammar)?;
    let wanted = [
        (0, 0, 0),
        (0, 0, 1),
        (0, 1, 0),
        (0, 2, 1),
        (1, 0, 1),
        (1, 2, 0),
    ];
    assert!(rt; are_edges(edges.as_slice(), &wanted));
    Ok(())
}

/// The rule `0 1 2`, and so the joins of a label 1 and a label 2.
const PATH_RULES: [(u16, &[u16]); 1] = [(0, &[1, 2])];

/// What a round finds on the edges 0 -> 1 -> 2 with the labels 1 and 2, which were born in round 0.
fn round_of_a_path(rt: &impl Abort, alloc: Global, since: u64) -> Result<EdgeList, AllocError> {
    let normal = normal_of(rt, alloc, &PATH_RULES)?;
    let rows = rows_of(rt, alloc, 0, 3, &[(0, 1, 1), (1, 2, 2)])?;
    run_round(alloc, &rows, &normal, since)
}

#[test]
fn old_edges_are_not_joined_again(rt: HostRuntime) -> Result<(), Fail> {
    let first = round_of_a_path(&rt, rt.alloc(), 0)?;
    assert!(rt; are_edges(first.as_slice(), &[(0, 0, 2)]));
    let later = round_of_a_path(&rt, rt.alloc(), 1)?;
    assert!(rt; later.as_slice().is_empty());
    Ok(())
}

/// What joins at vertex 2.
fn joined_at_2(rt: &impl Abort, alloc: Global, rows: &Rows) -> Result<EdgeList, AllocError> {
    let normal = normal_of(rt, alloc, &PATH_RULES)?;
    let mut out = EdgeList::new(alloc);
    rows.join_at(Vertex(2), &normal, 0, &mut out)?;
    Ok(out)
}

/// Whether edges join at vertex 2 alone.
fn join_only_at_2(rows: &Rows) -> Result<bool, AllocError> {
    Ok(rows.centres()?.as_slice() == [Vertex(2)].as_slice())
}

/// How many edges the first partition has, and whether there is a second.
fn parts_of(rows: Rows) -> Result<(usize, bool), AllocError> {
    let (low, high) = rows.into_parts()?;
    Ok((low.edges().len(), high.is_some()))
}

#[test]
fn a_centre_joins_over_two_partitions_which_come_back(rt: HostRuntime) -> Result<(), Fail> {
    let alloc = rt.alloc();
    let rows = rows_of(&rt, alloc, 2, 5, &[(2, 2, 4), (0, 1, 2), (1, 1, 2)])?;
    assert!(rt; join_only_at_2(&rows)?);
    let out = joined_at_2(&rt, alloc, &rows)?;
    assert!(rt; are_edges(out.as_slice(), &[(0, 0, 4), (1, 0, 4)]));
    assert_eq!(rt; parts_of(rows)?, (2, true));
    Ok(())
}

// A loop of label 1 at vertex 1, where S (0) is 1 1, and S again with what follows.
#[test]
fn new_edges_are_joined_with_new_ones(rt: HostRuntime) -> Result<(), Fail> {
    let alloc = rt.alloc();
    let rules: [(u16, &[u16]); 2] = [(0, &[1, 1]), (0, &[0, 1])];
    let mut rows = rows_of(&rt, alloc, 1, 3, &[(0, 1, 1), (1, 1, 1), (1, 1, 2)])?;
    close(&rt, alloc, &rules, &mut rows)?;
    let all = [
        (0, 0, 1),
        (0, 0, 2),
        (0, 1, 1),
        (1, 0, 1),
        (1, 0, 2),
        (1, 1, 1),
        (1, 1, 2),
    ];
    assert!(rt; have_edges(&rows, &all));
    assert!(rt; have_births(&rows, &[3, 4]));
    Ok(())
}
