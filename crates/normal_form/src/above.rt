//! The labels above a label by rules with one label on the right.
ghost use Rattle.std.specs.Prelude.{◌≡◌, ◌↔◌, ◌<◌, ◌^◌, [], ◌∷◌, length, Contains, IsTrue, OnOk, IfOk};
ghost use Rattle.normal_law.specs.Closure.{HasNamedLabels};
ghost use Rattle.normal_form.specs.Above.{AddsLeft, AddsAbove, IsUpRow};
ghost use Rattle.normal_form.specs.Parts.{AreAbove};

use crate::apart::FIRST_FRESH;
use crate::label_row::LabelRow;
use graph_words::{LabelId, Rule};
use std::alloc::{AllocError, Global};

fn is_found(found: &[LabelId], label: LabelId) -> bool
    ensures { IsTrue result ↔ Contains found.now label }
{
    found.contains(&label)
}

/// Whether the label stands alone on the rule's right.
fn is_alone(rule: &Rule, label: LabelId) -> bool
    ensures { IsTrue result ↔ (rule.now.right ≡ label ∷ []) }
{
    let right = rule.right.as_slice();
    right.len() == 1 && right[0] == label
}

/// Adds the rule's left side, where the label stands alone on its right.
fn add_left(found: &mut Vec<LabelId>, rule: &Rule, label: LabelId) -> Result<(), AllocError>
    ensures { OnOk result (AddsLeft rule.now label found.old.items found.new.items) }
{
    if !is_alone(rule, label) {
        return Ok(());
    }
    if is_found(found, rule.left) {
        return Ok(());
    }
    found.push(rule.left)?;
    Ok(())
}

/// Adds the left side of each rule on whose right the label stands alone.
fn add_above(found: &mut Vec<LabelId>, rules: &[Rule], label: LabelId) -> Result<(), AllocError>
    ensures { OnOk result (AddsAbove rules.now label found.old.items found.new.items) }
{
    for rule in rules {
        add_left(found, rule, label)?;
    }
    Ok(())
}

/// The labels above one, in the order in which they are found.
fn found_above(alloc: Global, rules: &[Rule], label: LabelId) -> Result<Vec<LabelId>, AllocError>
    ensures { IfOk result (λ found. IsUpRow rules.now label found.items) }
{
    let mut found = Vec::new(alloc);
    found.push(label)?;
    let mut at = 0;
    while at < found.len() {
        let next = found[at];
        add_above(&mut found, rules, next)?;
        at += 1;
    }
    Ok(found)
}

/// The labels above one by rules with one label on the right, itself among them.
pub(crate) fn up_row(alloc: Global, rules: &[Rule], label: LabelId) -> Result<LabelRow, AllocError>
    ensures { IfOk result (IsUpRow rules.now label) }
{
    let found = found_above(alloc, rules, label)?;
    let mut row = LabelRow::new(alloc);
    row.add_all(&found)?;
    Ok(row)
}

/// The labels above one, of which a fresh one is above no other and below none.
fn row_of(alloc: Global, rules: &[Rule], label: LabelId) -> Result<LabelRow, AllocError>
    requires { HasNamedLabels rules.now }
    ensures { IfOk result (IsUpRow rules.now label) }
{
    if label.0 < FIRST_FRESH {
        return up_row(alloc, rules, label);
    }
    let mut row = LabelRow::new(alloc);
    row.add(label)?;
    Ok(row)
}

/// For each of the first labels, by number, those above it.
pub(crate) fn above_rows(
    alloc: Global,
    rules: &[Rule],
    labels: usize,
) -> Result<Vec<LabelRow>, AllocError>
    requires named { HasNamedLabels rules.now }
    requires few { labels < 2 ^ 16 }
    ensures count { IfOk result (λ rows. length rows.items ≡ labels) }
    ensures above { IfOk result (λ rows. AreAbove rules.now rows.items) }
{
    let mut rows = Vec::new(alloc);
    for number in 0..labels {
        rows.push(row_of(alloc, rules, LabelId(number as u16))?)?;
    }
    Ok(rows)
}
