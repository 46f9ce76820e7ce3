//! The copy of the grammar's text.
ghost use Rattle.std.specs.Prelude.{◌≡◌, ◌≢◌, ◌↔◌, [], ◌<◌, ◌≤◌, ℕ, List, IsTrue, true, false, length, take, slice_index_or, IfOk};
ghost use Rattle.faults.specs.Reasons.{HasReason};
ghost use Rattle.store_fault.specs.Faults.{why_of};
ghost use Rattle.graph_words.specs.declared.types.Rule.{Rule as ARule};
ghost use Rattle.grammar_norm.specs.GrammarText.{ReadsGrammar};
ghost use Rattle.manifest_codec.specs.Spelling.{FitsManifest};
ghost use Rattle.manifest_switch.specs.Slots.{file_of};
ghost use Rattle.faults.specs.declared.form_kind.FormKind.TheVariants.{Short};
ghost use Rattle.disk_model.specs.View.{OnlyLooks, on_disk};
ghost use Rattle.store_fault.specs.declared.fault.StoreFault.TheVariants.{BadStore};
ghost use Rattle.open_store.specs.Copy.{IsBadCopy, IsCopyRead};

use disk_model::{Disk, FormKind};
use grammar_norm::{Grammar, GrammarFault, LabelTable, read_grammar};
use label_table::Name;
use manifest_codec::{GRAMMAR_FILE, Manifest, Version, labels_place};
use manifest_switch::Slot;
use std::alloc::Global;
use store_fault::StoreFault;

// The file is shorter than the manifest says.
fn short(len: u64) -> StoreFault
    ensures { result ≡ BadStore 2 len Short }
{
    StoreFault::BadStore {
        file: GRAMMAR_FILE,
        place: len,
        kind: FormKind::Short,
    }
}

// The bytes of the copy, as many as the manifest says.
fn copy_bytes<D: Disk>(alloc: Global, disk: &mut D, size: u64) -> Result<Vec<u8>, StoreFault>
    requires { size ≤ 16777216 }
    ensures bytes { IsTrue D.tells → IfOk result (λ v. (v.items ≡ take size (D.seen disk.old 2)) × (size ≤ length (D.seen disk.old 2))) }
    ensures looks { OnlyLooks D.Disk disk.old disk.new }
    ensures cause { HasReason why_of (on_disk D.Disk disk.old disk.new (λ file place kind. (file ≡ 2) × (kind ≡ Short)
        × (IsTrue D.tells → (place ≡ length (D.seen disk.old 2)) × (length (D.seen disk.old 2) < size)))) result }
{
    let len = disk.len(GRAMMAR_FILE)?;
    if len < size {
        return Err(short(len));
    }
    let mut bytes = vec![in alloc; 0; size as usize]?;
    let n = disk.read(GRAMMAR_FILE, 0, &mut bytes)?;
    if n < bytes.len() {
        return Err(short(n as u64));
    }
    Ok(bytes)
}

fn is_same(a: &[u8], b: &[u8]) -> bool
    ensures { IsTrue result ↔ (a.now ≡ b.now) }
{
    a == b
}

// Whether a name stands at a place among names.
fn has_at(names: &[Name], i: usize, name: &Name) -> bool
    ensures has { result ≡ true → (i < length names.now) × (slice_index_or names.now i [] ≡ name.now) }
    ensures not { result ≡ false → i < length names.now → slice_index_or names.now i [] ≢ name.now }
{
    i < names.len() && is_same(names[i].as_slice(), name.as_slice())
}

// Whether the names of a table begin with those of another.
fn begins_with(all: &LabelTable, front: &LabelTable) -> bool
    ensures begins { result ≡ true → take (length front.now) all.now ≡ front.now }
    ensures differs { result ≡ false → take (length front.now) all.now ≢ front.now }
{
    let names = all.names();
    for (i, name) in front.names().iter().enumerate() {
        if !has_at(names, i, name) {
            return false;
        }
    }
    true
}

/// The grammar that the copy of its text says, as the manifest of a slot tells of it.
pub(crate) fn grammar_of<D: Disk>(
    alloc: Global,
    disk: &mut D,
    slot: Slot,
    manifest: &Manifest,
) -> Result<Grammar, StoreFault>
    requires { FitsManifest manifest.now }
    ensures read { IsTrue D.tells → IfOk result (λ rules. IsCopyRead manifest.now (D.seen disk.old 2) rules) }
    ensures looks { OnlyLooks D.Disk disk.old disk.new }
    ensures cause { HasReason why_of (on_disk D.Disk disk.old disk.new
        (λ file place kind. IsTrue D.tells → IsBadCopy slot manifest.now (D.seen disk.old 2) file place kind)) result }
{
    let bytes = copy_bytes(alloc, disk, manifest.grammar_len)?;
    match read_grammar(alloc, &bytes) {
        Ok((grammar, table)) => {
            if begins_with(&manifest.labels, &table) {
                Ok(grammar)
            } else {
                Err(StoreFault::BadStore {
                    file: slot.file(),
                    place: labels_place(Version::First),
                    kind: FormKind::BadLabel,
                })
            }
        }
        Err(GrammarFault::Text { .. }) => Err(StoreFault::BadStore {
            file: GRAMMAR_FILE,
            place: 0,
            kind: FormKind::BadText,
        }),
        Err(GrammarFault::NoMemory) => Err(StoreFault::NoMemory),
    }
}
