ghost use Rattle.std.specs.Prelude.{◌≡◌, ◌≤◌, ◌<◌, ◌++◌, ◌∷◌, ℕ, List, [], length, not};
ghost use Rattle.graph_words.specs.Text.{is_label_word};
ghost use Rattle.label_table.specs.Names.{has_name};
ghost use Rattle.manifest_codec.specs.FieldsRead.{GivesField, label_at, labels_at};

use crate::fields::broken_at;
use crate::types::FieldError;
use disk_model::FormKind;
use graph_words::is_label;
use label_table::LabelTable;
use std::alloc::Global;

/// A label that doesn't stand in the table, which it joins. The bytes behind it are left.
#[tactic(auto, unfolding(crate::specs::FieldsRead::label_at))]
fn label_of<'a>(labels: &mut LabelTable, bytes: &'a [u8]) -> Result<&'a [u8], FieldError>
    requires { length labels.old < 1000 }
    ensures { GivesField (λ rest. (labels.new, rest.now)) result (label_at labels.old bytes.now) }
{
    let [len, rest @ ..] = bytes else {
        return Err(broken_at(bytes, FormKind::Short));
    };
    let len = usize::from(*len);
    if rest.len() < len {
        return Err(broken_at(bytes, FormKind::Short));
    }
    let (name, behind) = rest.split_at(len);
    if !is_label(name) {
        return Err(broken_at(bytes, FormKind::BadLabel));
    }
    if !labels.add_new(name)? {
        return Err(broken_at(bytes, FormKind::RepeatedLabel));
    }
    Ok(behind)
}

/// As many labels, at most 1,000.
pub(crate) fn labels_of(
    alloc: Global,
    count: u16,
    bytes: &[u8],
) -> Result<(LabelTable, &[u8]), FieldError>
    requires { count ≤ 1000 }
    ensures { GivesField (λ x. (x.0, x.1.now)) result (labels_at count [] bytes.now) }
{
    let mut labels = LabelTable::new(alloc);
    let mut rest = bytes;
    for _ in 0..count {
        rest = label_of(&mut labels, rest)?;
    }
    Ok((labels, rest))
}
