//! The labels of the joins of two labels, by the first label and then the second.
ghost use Rattle.std.specs.Prelude.{◌≡◌, ◌↔◌, ◌+◌, ◌<◌, ◌≤◌, [], length, All, Contains, IsTrue, IfOk, OnOk, map};
ghost use Rattle.graph_words.specs.declared.types.LabelId.{LabelId as ALabel};
ghost use Rattle.normal_form.specs.Rows.{AreLabelsAscending, PartsLabelsAt};
ghost use Rattle.normal_form.specs.Joins.{second_of, HasJoin, HasJoinAt, AddsJoins, AddsAt, IsJoinTable};

use crate::label_row::LabelRow;
use graph_words::{LabelId, PairRule};
use std::alloc::{AllocError, Global};
use std::marker::Model;

/// The labels of the joins of a label and this second one.
#[derive(Drop)]
pub(crate) struct Join {
    pub(crate) second: LabelId,
    pub(crate) labels: LabelRow,
}

/// The joins of one label, ascending by the second label.
#[derive(Drop)]
pub(crate) struct JoinRow {
    joins: Vec<Join>,
}

impl Model for JoinRow {
    ghost use Rattle.std.specs.Prelude.{List, map};
    ghost use Rattle.normal_form.specs.declared.joins.Join.{Join};

    ghost Value = { List Join };

    ghost use Rattle.normal_form.specs.Rows.{AreLabelsAscending};
    ghost use Rattle.normal_form.specs.Joins.{second_of};

    ghost view = { λ r. r.joins.items };

    ghost invariant = { λ r. AreLabelsAscending (map second_of r.joins.items) };
}

/// How many of the ascending second labels are below this one.
fn place_of_second(joins: &[Join], second: LabelId) -> usize
    requires { AreLabelsAscending (map second_of joins.now) }
    ensures { PartsLabelsAt (map second_of joins.now) second result }
{
    let mut low = 0;
    let mut high = joins.len();
    while low < high {
        let middle = low + (high - low) / 2;
        if joins[middle].second.0 < second.0 {
            low = middle + 1;
        } else {
            high = middle;
        }
    }
    low
}

/// Whether the second label, whose place this is, stands there.
fn is_second_at(joins: &[Join], place: usize, second: LabelId) -> bool
    requires ascending { AreLabelsAscending (map second_of joins.now) }
    requires place { PartsLabelsAt (map second_of joins.now) second place }
    ensures { IsTrue result ↔ Contains (map second_of joins.now) second }
{
    place < joins.len() && joins[place].second == second
}

impl JoinRow {
    fn new(alloc: Global) -> Self
        ensures { result ≡ [] }
    {
        JoinRow {
            joins: Vec::new(alloc),
        }
    }

    /// The labels for this second label, ascending.
    fn labels_of(&self, second: LabelId) -> &[LabelId]
        ensures ascending { AreLabelsAscending result.now }
        ensures each { (a : ALabel) → Contains result.now a ↔ HasJoin self.now second a }
    {
        let place = place_of_second(&self.joins, second);
        if !is_second_at(&self.joins, place, second) {
            return &[];
        }
        self.joins[place].labels.as_slice()
    }

    /// Adds each second label to the list.
    fn seconds(&self, out: &mut Vec<LabelId>) -> Result<(), AllocError>
        ensures { OnOk result ((c a : ALabel) → HasJoin self.now c a → Contains out.new.items c) }
    {
        for join in &self.joins {
            out.push(join.second)?;
        }
        Ok(())
    }

    /// Adds the labels for this second label.
    fn add(&mut self, alloc: Global, second: LabelId, labels: &[LabelId]) -> Result<(), AllocError>
        ensures { OnOk result (AddsJoins self.old self.new second labels.now) }
    {
        let place = place_of_second(&self.joins, second);
        if is_second_at(&self.joins, place, second) {
            return self.joins[place].labels.add_all(labels);
        }
        let mut row = LabelRow::new(alloc);
        row.add_all(labels)?;
        let join = Join {
            second,
            labels: row,
        };
        self.joins.insert(place, join)?;
        Ok(())
    }
}

/// The joins of every two labels: a row for each named label, which is the first.
#[derive(Drop)]
pub(crate) struct JoinTable {
    rows: Vec<JoinRow>,
}

impl Model for JoinTable {
    ghost use Rattle.std.specs.Prelude.{List};
    ghost use Rattle.normal_form.specs.declared.joins.Join.{Join};

    ghost Value = { List (List Join) };

    ghost view = { λ t. t.rows.items };
}

impl JoinTable {
    /// A table of this many empty rows.
    fn new(alloc: Global, rows: usize) -> Result<Self, AllocError>
        ensures rows { IfOk result (λ t. length t ≡ rows) }
        ensures empty { IfOk result (All (λ r. r ≡ [])) }
    {
        Ok(JoinTable {
            rows: empty_rows(alloc, rows)?,
        })
    }

    /// The labels of the joins of the first label and the second, ascending.
    pub(crate) fn labels_of(&self, first: LabelId, second: LabelId) -> &[LabelId]
        ensures ascending { AreLabelsAscending result.now }
        ensures each { (a : ALabel) → Contains result.now a ↔ HasJoinAt self.now first second a }
    {
        if first.0 as usize >= self.rows.len() {
            return &[];
        }
        self.rows[first.0 as usize].labels_of(second)
    }

    /// Adds each second label of the first one to the list.
    pub(crate) fn seconds(&self, first: LabelId, out: &mut Vec<LabelId>) -> Result<(), AllocError>
        ensures { OnOk result ((c a : ALabel) → HasJoinAt self.now first c a → Contains out.new.items c) }
    {
        if first.0 as usize >= self.rows.len() {
            return Ok(());
        }
        self.rows[first.0 as usize].seconds(out)?;
        Ok(())
    }

    /// Adds labels for the pair's two labels on the right.
    fn add(&mut self, alloc: Global, pair: PairRule, labels: &[LabelId]) -> Result<(), AllocError>
        requires { pair.first.0 < length self.old }
        ensures { OnOk result (AddsAt self.old self.new pair.first pair.second labels.now) }
    {
        self.rows[pair.first.0 as usize].add(alloc, pair.second, labels)
    }
}

fn empty_rows(alloc: Global, rows: usize) -> Result<Vec<JoinRow>, AllocError>
    ensures rows { IfOk result (λ v. length v.items ≡ rows) }
    ensures empty { IfOk result (λ v. All (λ r. r ≡ []) v.items) }
{
    let mut empty = Vec::new(alloc);
    for _ in 0..rows {
        empty.push(JoinRow::new(alloc))?;
    }
    Ok(empty)
}

/// The table of these rules of two labels, with the labels above each left side.
pub(crate) fn table_of(
    alloc: Global,
    pairs: &[PairRule],
    above: &[LabelRow],
    rows: usize,
) -> Result<JoinTable, AllocError>
    requires first { All (λ p. p.first.0 < rows) pairs.now }
    requires left { All (λ p. p.left.0 < length above.now) pairs.now }
    ensures { IfOk result (IsJoinTable pairs.now above.now) }
{
    let mut table = JoinTable::new(alloc, rows)?;
    for pair in pairs {
        table.add(alloc, *pair, above[pair.left.0 as usize].as_slice())?;
    }
    Ok(table)
}
