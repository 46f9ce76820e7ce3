//! The labels that derive the empty word.
ghost use Rattle.std.specs.Prelude.{◌≡◌, ◌↔◌, ◌+◌, ◌<◌, ◌≤◌, length, All, Contains, IsTrue, MatchBool, OnOk, IfOk, IfSome, IfNone};
ghost use Rattle.graph_words.specs.declared.types.LabelId.{LabelId as ALabel};
ghost use Rattle.normal_law.specs.NormalForm.{fresh_label};
ghost use Rattle.normal_form.specs.Rows.{AddsLabel};
ghost use Rattle.normal_form.specs.Empty.{DerivesEmpty, HasLeft, IsDue, IsNewEmpty, HasFresh};

use crate::apart::FIRST_FRESH;
use crate::label_row::LabelRow;
use graph_words::{LabelId, Rule, Word};
use std::alloc::{AllocError, Global};

fn has_all(found: &LabelRow, word: &[LabelId]) -> bool
    ensures { IsTrue result ↔ All (Contains found.now) word.now }
{
    for label in word {
        if !found.has(*label) {
            return false;
        }
    }
    true
}

/// Whether the rule's left side is not found, and its right side is throughout.
fn adds_left(rule: &Rule, found: &LabelRow) -> bool
    ensures { MatchBool result (IsDue found.now rule.now) (HasLeft found.now rule.now) }
{
    if found.has(rule.left) {
        return false;
    }
    has_all(found, rule.right.as_slice())
}

/// A label that is not found yet, and whose rule has a right side that is.
fn new_empty(rules: &[Rule], found: &LabelRow) -> Option<LabelId>
    ensures some { IfSome result (IsNewEmpty rules.now found.now) }
    ensures none { IfNone result (All (HasLeft found.now) rules.now) }
{
    for rule in rules {
        if adds_left(rule, found) {
            return Some(rule.left);
        }
    }
    None
}

/// The named labels that derive the empty word.
pub(crate) fn named_empties(alloc: Global, rules: &[Rule]) -> Result<LabelRow, AllocError>
    ensures derive { IfOk result (λ found. All (DerivesEmpty rules.now) found) }
    ensures all { IfOk result (λ found. (a : ALabel) → DerivesEmpty rules.now a → Contains found a) }
{
    let mut found = LabelRow::new(alloc);
    while let Some(label) = new_empty(rules, &found) {
        found.add(label)?;
    }
    Ok(found)
}

/// Adds the fresh label with this number from 0, where the found labels are all that its word has.
fn add_fresh(
    row: &mut LabelRow,
    found: &LabelRow,
    fresh: &[Word],
    number: usize,
) -> Result<(), AllocError>
    requires within { number < length fresh.now }
    requires few { length fresh.now ≤ 62000 }
    requires row { HasFresh found.now fresh.now number row.old }
    ensures { OnOk result (HasFresh found.now fresh.now (number + 1) row.new) }
{
    if has_all(found, fresh[number].as_slice()) {
        row.add(LabelId(FIRST_FRESH + number as u16))?;
    }
    Ok(())
}

/// The found labels, and the fresh ones whose words have only these.
pub(crate) fn with_fresh(
    alloc: Global,
    found: &LabelRow,
    fresh: &[Word],
) -> Result<LabelRow, AllocError>
    requires { length fresh.now ≤ 62000 }
    ensures { IfOk result (HasFresh found.now fresh.now (length fresh.now)) }
{
    let mut row = LabelRow::new(alloc);
    row.add_all(found.as_slice())?;
    for number in 0..fresh.len() {
        add_fresh(&mut row, found, fresh, number)?;
    }
    Ok(row)
}
