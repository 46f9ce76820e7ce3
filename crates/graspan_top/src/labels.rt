//! A label's number is looked up.
ghost use Rattle.std.specs.Prelude.{◌≡◌, List, ℕ, Some, Contains, IfOk, IfErr, option_map, slice_get};
ghost use Rattle.graph_words.specs.declared.types.Born.{Born as ABorn};
ghost use Rattle.manifest_codec.specs.Spelling.{FitsManifest};
ghost use Rattle.graspan_top.specs.Run.{IsShownText};
ghost use Rattle.graspan_top.specs.Stages.{shown_text};
ghost use Rattle.graspan_top.specs.declared.status.Status.TheVariants.{NotKnown};

use crate::status::Status;
use graph_words::LabelId;
use manifest_codec::Manifest;

/// The number of a label.
pub(crate) fn number_of(manifest: &Manifest, label: &str) -> Result<LabelId, Status>
    ensures number { IfOk result (λ l. slice_get manifest.now.labels l.0 ≡ Some label.now) }
    ensures none { IfErr result (λ s. (s ≡ NotKnown) × (Contains manifest.now.labels label.now → ⊥)) }
{
    match manifest.labels.number_of(label.as_bytes()) {
        Some(number) => Ok(number),
        None => Err(Status::NotKnown),
    }
}

/// The number of the label that is shown, where one is.
pub(crate) fn shown_number(
    manifest: &Manifest,
    show: Option<&str>,
) -> Result<Option<LabelId>, Status>
    requires { FitsManifest manifest.now }
    ensures shown { IfOk result (λ l. (edges : List ABorn)
        → IsShownText manifest.now.labels edges (option_map (λ label. label.now) show.entry) (shown_text l edges)) }
    ensures only { IfOk result (λ l. (edges : List ABorn) (text : List ℕ)
        → IsShownText manifest.now.labels edges (option_map (λ label. label.now) show.entry) text
        → text ≡ shown_text l edges) }
    ensures none { IfErr result (λ s. (s ≡ NotKnown) × (label : List ℕ)
        × (option_map (λ l. l.now) show.entry ≡ Some label) × (Contains manifest.now.labels label → ⊥)) }
{
    match show {
        None => Ok(None),
        Some(label) => Ok(Some(number_of(manifest, label)?)),
    }
}
