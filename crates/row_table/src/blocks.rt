//! The blocks of a row: runs of second edges, each with a label that its edges join to behind a first edge.
ghost use Rattle.std.specs.Prelude.{◌≡◌, ◌↔◌, Contains, ◌+◌, ◌<◌, ◌≤◌, All, IsTrue, length, slice_range, slice_index_or, IfSome, OnOk};
ghost use Rattle.graph_words.specs.declared.types.Born.{Born as ABorn};
ghost use Rattle.graph_words.specs.declared.types.LabelId.{LabelId as ALabel};
ghost use Rattle.normal_law.specs.NormalForm.{normal_form};
ghost use Rattle.row_table.specs.Joined.{LabelsAscend, AddsJoins, AddsSecond, AddsFirst, AddsRows, AreSeconds};
ghost use Rattle.row_table.specs.Joined.{CountsBirth, GivesJoins, HasLabels, IsJoinOf, PartsLabels};
ghost use Rattle.row_table.specs.Sieve.{HasNumber};
ghost use Rattle.row_table.specs.Loaded.{newer_of};

use crate::number_set::NumberSet;
use crate::row_starts::part;
use crate::rows::Rows;
use graph_words::{Born, LabelId, Vertex};
use normal_form::Normal;
use std::alloc::AllocError;

/// Second edges of one label, behind one first edge, and a label that they join to.
#[derive(Clone, Copy)]
pub(crate) struct Block<'a> {
    pub(crate) label: LabelId,
    pub(crate) seconds: &'a [Born],
}

/// The place behind the run of one label that begins at a place. A binary search.
pub(crate) fn run_end(row: &[Born], start: usize, label: LabelId) -> usize
    requires row { LabelsAscend row.now }
    requires start { start < length row.now }
    requires label { (d : ABorn) → (slice_index_or row.now start d).edge.label ≡ label }
    ensures some { start < result }
    ensures within { result ≤ length row.now }
    ensures same { All (λ b. b.edge.label ≡ label) (slice_range row.now start result) }
{
    let mut low = start + 1;
    let mut high = row.len();
    while low < high {
        let middle = low + (high - low) / 2;
        if row[middle].edge.label.0 == label.0 {
            low = middle + 1;
        } else {
            high = middle;
        }
    }
    low
}

/// How many edges of a row have a label below a number. A binary search.
fn label_place(row: &[Born], from: u32) -> usize
    requires { LabelsAscend row.now }
    ensures { PartsLabels row.now from result }
{
    let mut low = 0;
    let mut high = row.len();
    while low < high {
        let middle = low + (high - low) / 2;
        if u32::from(row[middle].edge.label.0) < from {
            low = middle + 1;
        } else {
            high = middle;
        }
    }
    low
}

/// The edges of a row that have the label.
pub(crate) fn run_of(row: &[Born], label: LabelId) -> &[Born]
    requires { LabelsAscend row.now }
    ensures { (b : ABorn) → Contains result.now b ↔ (Contains row.now b × (b.edge.label ≡ label)) }
{
    let number = u32::from(label.0);
    let start = label_place(row, number);
    if start == row.len() {
        return &[];
    }
    if row[start].edge.label.0 != label.0 {
        return &[];
    }
    let end = label_place(row, number + 1);
    part(row, start, end)
}

/// Adds a block for each label that the first label joins to with the run's label.
fn add_run<'a>(
    normal: &Normal,
    first: LabelId,
    label: LabelId,
    run: &'a [Born],
    blocks: &mut Vec<Block<'a>>,
) -> Result<(), AllocError>
    requires { All (λ b. b.edge.label ≡ label) run.now }
    ensures { OnOk result (AddsJoins (normal_form normal.now) first run.now blocks.old.items blocks.new.items) }
{
    for joined in normal.pair(first, label) {
        blocks.push(Block {
            label: *joined,
            seconds: run,
        })?;
    }
    Ok(())
}

/// Adds the blocks of a first label and of those edges of a row that have a second label, if there are any.
fn add_second<'a>(
    normal: &Normal,
    first: LabelId,
    label: LabelId,
    row: &'a [Born],
    blocks: &mut Vec<Block<'a>>,
) -> Result<(), AllocError>
    requires { LabelsAscend row.now }
    ensures { OnOk result (AddsSecond (normal_form normal.now) first row.now label blocks.old.items blocks.new.items) }
{
    let run = run_of(row, label);
    if run.is_empty() {
        return Ok(());
    }
    add_run(normal, first, label, run, blocks)?;
    Ok(())
}

/// Adds the blocks of a first label and the row behind it. All labels of the row that join behind the first one are
/// given.
pub(crate) fn add_row<'a>(
    normal: &Normal,
    first: LabelId,
    labels: &[LabelId],
    row: &'a [Born],
    blocks: &mut Vec<Block<'a>>,
) -> Result<(), AllocError>
    requires row { LabelsAscend row.now }
    requires labels { AreSeconds (normal_form normal.now) first row.now labels.now }
    ensures { OnOk result (AddsJoins (normal_form normal.now) first row.now blocks.old.items blocks.new.items) }
{
    for label in labels {
        add_second(normal, first, *label, row, blocks)?;
    }
    Ok(())
}

/// What a search for joins needs of the first and the second edges.
#[derive(Clone, Copy)]
struct Seconds<'a> {
    normal: &'a Normal,
    rows: &'a Rows,
    /// The labels of the second edges, where it pays to leave others out.
    labels: Option<&'a NumberSet>,
    /// Whether every first edge counts, or those alone that are born before `since`.
    every: bool,
    since: u64,
}

/// Puts the labels of the edges into the set.
pub(crate) fn mark_labels(edges: &[Born], labels: &mut NumberSet) -> Result<(), AllocError>
    ensures { OnOk result (HasLabels edges.now labels.new) }
{
    for born in edges {
        labels.add(u32::from(born.edge.label.0))?;
    }
    Ok(())
}

/// Leaves out the labels that are not in the set.
fn keep_known(labels: &mut Vec<LabelId>, known: &NumberSet)
    ensures { (l : ALabel) → Contains labels.old.items l → HasNumber known.now l.0 → Contains labels.new.items l }
{
    labels.retain(|label| known.has(u32::from(label.0)));
}

/// Sets the labels to those that join behind a first label. Some that no second edge has may be left out.
fn set_labels(
    seconds: &Seconds<'_>,
    first: LabelId,
    labels: &mut Vec<LabelId>,
) -> Result<(), AllocError>
    requires { IfSome seconds.now.labels (λ known. HasLabels seconds.now.rows.now.edges known.now) }
    ensures { OnOk result (AreSeconds (normal_form seconds.now.normal.now) first seconds.now.rows.now.edges labels.new.items) }
{
    labels.clear();
    seconds.normal.seconds(first, labels)?;
    if let Some(known) = seconds.labels {
        keep_known(labels, known);
    }
    Ok(())
}

/// Whether a first edge counts: if every one does, or it is born before `since`.
fn counts(every: bool, first: Born, since: u64) -> bool
    ensures { IsTrue result ↔ CountsBirth every since first }
{
    every || first.birth < since
}

/// Adds the blocks of a first edge with the row of its end, if it counts.
fn add_first<'a>(
    seconds: &Seconds<'a>,
    first: Born,
    labels: &[LabelId],
    blocks: &mut Vec<Block<'a>>,
) -> Result<(), AllocError>
    requires { AreSeconds (normal_form seconds.now.normal.now) first.edge.label seconds.now.rows.now.edges labels.now }
    ensures { OnOk result (AddsFirst (normal_form seconds.now.normal.now) seconds.now.every seconds.now.since first
        seconds.now.rows.now.edges blocks.old.items blocks.new.items) }
{
    if !counts(seconds.every, first, seconds.since) {
        return Ok(());
    }
    let row = seconds.rows.row(first.edge.dst.0);
    if row.is_empty() {
        return Ok(());
    }
    add_row(seconds.normal, first.edge.label, labels, row, blocks)?;
    Ok(())
}

/// Adds the blocks of first edges of one label, each with the row of its end.
fn add_firsts<'a>(
    seconds: &Seconds<'a>,
    firsts: &[Born],
    label: LabelId,
    labels: &[LabelId],
    blocks: &mut Vec<Block<'a>>,
) -> Result<(), AllocError>
    requires run { All (λ b. b.edge.label ≡ label) firsts.now }
    requires labels { AreSeconds (normal_form seconds.now.normal.now) label seconds.now.rows.now.edges labels.now }
    ensures { OnOk result (AddsRows (normal_form seconds.now.normal.now) seconds.now.every seconds.now.since
        firsts.now seconds.now.rows.now.edges blocks.old.items blocks.new.items) }
{
    for born in firsts {
        add_first(seconds, *born, labels, blocks)?;
    }
    Ok(())
}

/// The same, or nothing where no label of the second edges joins behind the first edges' label.
fn add_firsts_if<'a>(
    seconds: &Seconds<'a>,
    firsts: &[Born],
    label: LabelId,
    labels: &[LabelId],
    blocks: &mut Vec<Block<'a>>,
) -> Result<(), AllocError>
    requires run { All (λ b. b.edge.label ≡ label) firsts.now }
    requires labels { AreSeconds (normal_form seconds.now.normal.now) label seconds.now.rows.now.edges labels.now }
    ensures { OnOk result (AddsRows (normal_form seconds.now.normal.now) seconds.now.every seconds.now.since
        firsts.now seconds.now.rows.now.edges blocks.old.items blocks.new.items) }
{
    if labels.is_empty() {
        return Ok(());
    }
    add_firsts(seconds, firsts, label, labels, blocks)?;
    Ok(())
}

/// Adds the blocks of first edges, each with the row of its end, run after run.
fn add_rows<'a>(
    seconds: &Seconds<'a>,
    firsts: &[Born],
    labels: &mut Vec<LabelId>,
    blocks: &mut Vec<Block<'a>>,
) -> Result<(), AllocError>
    requires firsts { LabelsAscend firsts.now }
    requires labels { IfSome seconds.now.labels (λ known. HasLabels seconds.now.rows.now.edges known.now) }
    ensures { OnOk result (AddsRows (normal_form seconds.now.normal.now) seconds.now.every seconds.now.since
        firsts.now seconds.now.rows.now.edges blocks.old.items blocks.new.items) }
{
    let mut start = 0;
    while start < firsts.len() {
        let label = firsts[start].edge.label;
        let end = run_end(firsts, start, label);
        set_labels(seconds, label, labels)?;
        add_firsts_if(seconds, part(firsts, start, end), label, labels, blocks)?;
        start = end;
    }
    Ok(())
}

/// The rows of a round, with those of them that are new for it.
#[derive(Clone, Copy)]
pub(crate) struct Snapshot<'a> {
    pub(crate) rows: &'a Rows,
    pub(crate) newer: &'a Rows,
    /// The labels of the new edges.
    pub(crate) newer_labels: &'a NumberSet,
    pub(crate) normal: &'a Normal,
    pub(crate) since: u64,
}

/// Sets the blocks to those of a vertex: each new edge from there with each edge behind, and each old one with each
/// new edge behind.
pub(crate) fn set_blocks<'a>(
    snapshot: &Snapshot<'a>,
    vertex: Vertex,
    labels: &mut Vec<LabelId>,
    blocks: &mut Vec<Block<'a>>,
) -> Result<(), AllocError>
    requires newer { snapshot.now.newer.now ≡ newer_of snapshot.now.since snapshot.now.rows.now }
    requires labels { HasLabels snapshot.now.newer.now.edges snapshot.now.newer_labels.now }
    ensures { OnOk result (GivesJoins (IsJoinOf (normal_form snapshot.now.normal.now) snapshot.now.rows.now.edges
        snapshot.now.since) vertex blocks.new.items) }
{
    blocks.clear();
    let with_all = Seconds {
        normal: snapshot.normal,
        rows: snapshot.rows,
        labels: None,
        every: true,
        since: snapshot.since,
    };
    add_rows(&with_all, snapshot.newer.row(vertex.0), labels, blocks)?;
    let with_newer = Seconds {
        normal: snapshot.normal,
        rows: snapshot.newer,
        labels: Some(snapshot.newer_labels),
        every: false,
        since: snapshot.since,
    };
    add_rows(&with_newer, snapshot.rows.row(vertex.0), labels, blocks)?;
    Ok(())
}
