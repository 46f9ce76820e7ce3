//! Labels in ascending order.
ghost use Rattle.std.specs.Prelude.{◌≡◌, ◌↔◌, ◌<◌, ◌^◌, [], length, Contains, IsTrue, OnOk, OnErr};
ghost use Rattle.normal_form.specs.Rows.{AreLabelsAscending, PartsLabelsAt, AddsLabel, AddsLabels};

use graph_words::LabelId;
use smallvec::SmallVec;
use std::alloc::{AllocError, Global};
use std::marker::Model;

/// A row of so many labels takes no memory of its own. Most labels have few others above them.
const SHORT_ROW: usize = 4;

/// Labels in ascending order, each once.
#[derive(Drop)]
pub(crate) struct LabelRow {
    labels: SmallVec<LabelId, SHORT_ROW>,
}

impl Model for LabelRow {
    ghost use Rattle.std.specs.Prelude.{List};
    ghost use Rattle.graph_words.specs.declared.types.LabelId.{LabelId};
    ghost use Rattle.normal_form.specs.Rows.{AreLabelsAscending};

    ghost Value = { List LabelId };

    ghost view = { λ r. r.labels.items };

    ghost invariant = { λ r. AreLabelsAscending r.labels.items };
}

impl LabelRow {
    pub(crate) fn new(alloc: Global) -> Self
        ensures { result ≡ [] }
    {
        LabelRow {
            labels: SmallVec::new(alloc),
        }
    }

    pub(crate) fn as_slice(&self) -> &[LabelId]
        ensures value { result.now ≡ self.now }
        ensures ascending { AreLabelsAscending result.now }
    {
        self.labels.as_slice()
    }

    pub(crate) fn has(&self, label: LabelId) -> bool
        ensures { IsTrue result ↔ Contains self.now label }
    {
        has_label(self.as_slice(), label)
    }

    /// Adds a label, unless it is there.
    pub(crate) fn add(&mut self, label: LabelId) -> Result<(), AllocError>
        ensures ok { OnOk result (AddsLabel self.old self.new label) }
        ensures err { OnErr result (self.new ≡ self.old) }
        ensures small { length self.new < 2 ^ 64 }
    {
        let place = place_of(self.labels.as_slice(), label);
        if is_at(self.labels.as_slice(), place, label) {
            return Ok(());
        }
        self.labels.insert(place, label)?;
        Ok(())
    }

    /// Adds each of the labels that is not there.
    pub(crate) fn add_all(&mut self, labels: &[LabelId]) -> Result<(), AllocError>
        ensures { OnOk result (AddsLabels self.old self.new labels.now) }
    {
        for label in labels {
            self.add(*label)?;
        }
        Ok(())
    }
}

/// How many of the ascending labels are below this one.
pub(crate) fn place_of(labels: &[LabelId], label: LabelId) -> usize
    requires { AreLabelsAscending labels.now }
    ensures { PartsLabelsAt labels.now label result }
{
    let mut low = 0;
    let mut high = labels.len();
    while low < high {
        let middle = low + (high - low) / 2;
        if labels[middle].0 < label.0 {
            low = middle + 1;
        } else {
            high = middle;
        }
    }
    low
}

/// Whether the label, whose place this is, stands there.
pub(crate) fn is_at(labels: &[LabelId], place: usize, label: LabelId) -> bool
    requires ascending { AreLabelsAscending labels.now }
    requires place { PartsLabelsAt labels.now label place }
    ensures { IsTrue result ↔ Contains labels.now label }
{
    place < labels.len() && labels[place] == label
}

/// Whether the label is one of the ascending labels.
pub(crate) fn has_label(labels: &[LabelId], label: LabelId) -> bool
    requires { AreLabelsAscending labels.now }
    ensures { IsTrue result ↔ Contains labels.now label }
{
    is_at(labels, place_of(labels, label), label)
}
