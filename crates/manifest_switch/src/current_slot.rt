//! Which slot is current.
ghost use Rattle.std.specs.Prelude.{◌≡◌, ◌≢◌, ◌⊎◌, ◌+◌, ◌-◌, ◌<◌, ◌^◌, ◌==◌, slice_index, ℕ, Bool, IsTrue};
ghost use Rattle.std.specs.Prelude.{true, false, length, take, drop, Option, Some, None, Ok, Err, OnOk, IfOk};
ghost use Rattle.std.specs.Prelude.{IfSome, option_map};
ghost use Rattle.faults.specs.Counts.{HasCause};
ghost use Rattle.disk_model.specs.Disk.{Contents};
ghost use Rattle.disk_model.specs.View.{OnlyLooks, on_disk};
ghost use Rattle.faults.specs.Reasons.{HasReason, blames_any};
ghost use Rattle.manifest_codec.specs.FieldsRead.{reading};
ghost use Rattle.manifest_codec.specs.Spelling.{FitsManifest};
ghost use Rattle.manifest_switch.specs.declared.slot.Slot.{Slot};
ghost use Rattle.manifest_switch.specs.Slots.{file_of, is_open, value_of, open_body, body, chosen, later_of, next_generation, current_of};
ghost use Rattle.manifest_switch.specs.Answers.{HoldsFit, why_not_open, GivesUnblamed, IsCutShort, AnswersOpen, AnswersSlot, AnswersCurrent};

use crate::gates::OPEN;
use crate::slot::{Found, OpenFault, Slot};
use disk_model::{Disk, Failed, FormKind};
use manifest_codec::{Manifest, ManifestError, ManifestFault, decode, more_bytes_change_nothing};
use std::alloc::Global;

/// How many bytes of a body are read at first. They are enough for most manifests.
const FIRST_PIECE: u64 = 65536;

// The first bytes of a slot's body: as many as there are, and at most this many.
fn front_of<D: Disk>(
    alloc: Global,
    disk: &mut D,
    slot: Slot,
    size: u64,
) -> Result<Vec<u8>, OpenFault>
    requires { 1 + size < 2 ^ 64 }
    ensures front { IsTrue D.tells → GivesUnblamed result (λ v. v.items ≡ take size (drop 1 (D.seen disk.old (file_of slot)))) }
    ensures looks { OnlyLooks D.Disk disk.old disk.new }
    ensures cause { HasReason why_not_open (on_disk D.Disk disk.old disk.new blames_any) result }
{
    let mut bytes = vec![in alloc; 0; size as usize]?;
    let n = disk.read(slot.file(), 1, &mut bytes)?;
    bytes.truncate(n);
    Ok(bytes)
}

// What the first bytes of a slot's body say.
fn front_says<D: Disk>(
    alloc: Global,
    disk: &mut D,
    slot: Slot,
    size: u64,
) -> Result<Result<Manifest, ManifestFault>, OpenFault>
    requires { 1 + size < 2 ^ 64 }
    ensures fits { IfOk result (λ r. IfOk r FitsManifest) }
    ensures says { IsTrue D.tells → GivesUnblamed result (λ r. r ≡ value_of (reading (take size (drop 1 (D.seen disk.old (file_of slot)))))) }
    ensures looks { OnlyLooks D.Disk disk.old disk.new }
    ensures cause { HasReason why_not_open (on_disk D.Disk disk.old disk.new blames_any) result }
{
    let bytes = front_of(alloc, disk, slot, size)?;
    match decode(alloc, &bytes) {
        Ok((manifest, _)) => Ok(Ok(manifest)),
        Err(ManifestError::Fault(fault)) => Ok(Err(fault)),
        Err(ManifestError::NoMemory) => Err(OpenFault::NoMemory),
    }
}

// Whether bytes end within a field.
fn is_cut(said: &Result<Manifest, ManifestFault>) -> bool
    ensures cut { result ≡ true → IsCutShort said.now }
    ensures whole { result ≡ false → IsCutShort said.now → ⊥ }
{
    match said {
        Ok(_) => false,
        Err(fault) => matches!(fault.kind, FormKind::Short),
    }
}

// What the body of a slot says, whose file has so many bytes behind its gate.
//
// The first bytes are read alone, and four times as many each time that they end within a field.
// So no more is read than the first piece or four times what the manifest takes, however many bytes
// stand behind it.
fn body_of<D: Disk>(
    alloc: Global,
    disk: &mut D,
    slot: Slot,
    all: u64,
) -> Result<Result<Manifest, ManifestFault>, OpenFault>
    requires size { 1 + all < 2 ^ 64 }
    requires all { IsTrue D.tells → length (D.seen disk.old (file_of slot)) ≡ 1 + all }
    ensures fits { IfOk result (λ r. IfOk r FitsManifest) }
    ensures says { IsTrue D.tells → GivesUnblamed result (λ r. r ≡ body (D.seen disk.old (file_of slot))) }
    ensures looks { OnlyLooks D.Disk disk.old disk.new }
    ensures cause { HasReason why_not_open (on_disk D.Disk disk.old disk.new blames_any) result }
{
    more_bytes_change_nothing();
    let mut size = all.min(FIRST_PIECE);
    while size < all {
        let said = front_says(alloc, disk, slot, size)?;
        if !is_cut(&said) {
            return Ok(said);
        }
        size = all.min(size.saturating_mul(4));
    }
    front_says(alloc, disk, slot, all)
}

// Whether a slot's gate is 1.
fn has_open_gate<D: Disk>(disk: &mut D, slot: Slot) -> Result<bool, Failed>
    ensures gate { IsTrue D.tells → IfOk result (λ b. b ≡ (slice_index (D.seen disk.old (file_of slot)) 0 == 1)) }
    ensures looks { OnlyLooks D.Disk disk.old disk.new }
    ensures cause { HasCause (D.faults disk.old) (D.faults disk.new) result }
{
    let mut gate = [0];
    let n = disk.read(slot.file(), 0, &mut gate)?;
    Ok(n != 0 && gate[0] == OPEN)
}

// How many bytes stand behind a slot's gate, where the slot is open.
#[tactic(auto, unfolding(crate::specs::Slots::is_open))]
pub(crate) fn open_len<D: Disk>(disk: &mut D, slot: Slot) -> Result<Option<u64>, Failed>
    ensures open { IsTrue D.tells → IfOk result (AnswersOpen (D.seen disk.old (file_of slot))) }
    ensures small { IfOk result (λ len. IfSome len (λ n. 1 + n < 2 ^ 64)) }
    ensures looks { OnlyLooks D.Disk disk.old disk.new }
    ensures cause { HasCause (D.faults disk.old) (D.faults disk.new) result }
{
    let len = disk.len(slot.file())?;
    if len < 2 {
        return Ok(None);
    }
    if !has_open_gate(disk, slot)? {
        return Ok(None);
    }
    Ok(Some(len - 1))
}

// The manifest of a slot, where it is open.
#[tactic(auto, unfolding(crate::specs::Slots::open_body))]
fn slot_of<D: Disk>(alloc: Global, disk: &mut D, slot: Slot) -> Result<Option<Manifest>, OpenFault>
    ensures fits { IfOk result (λ m. IfSome m FitsManifest) }
    ensures slot { IsTrue D.tells → AnswersSlot slot (open_body (D.seen disk.old (file_of slot))) result }
    ensures looks { OnlyLooks D.Disk disk.old disk.new }
    ensures cause { HasReason why_not_open (on_disk D.Disk disk.old disk.new blames_any) result }
{
    let Some(all) = open_len(disk, slot)? else {
        return Ok(None);
    };
    match body_of(alloc, disk, slot, all)? {
        Ok(manifest) => Ok(Some(manifest)),
        Err(fault) => Err(OpenFault::BadStore {
            file: slot.file(),
            place: fault.place,
            kind: fault.kind,
        }),
    }
}

// The generation that follows.
fn next_generation(generation: u8) -> u8
    ensures { result ≡ next_generation generation }
{
    (generation % 3 + 1) % 3
}

// The later of two open slots.
#[tactic(auto, unfolding(crate::specs::Slots::later_of))]
fn later_of(first: Manifest, second: Manifest) -> Result<Found, OpenFault>
    requires first { FitsManifest first }
    requires second { FitsManifest second }
    ensures later { result ≡ later_of first second }
    ensures fits { IfOk result HoldsFit }
{
    if first.generation == second.generation {
        return Err(OpenFault::BadStore {
            file: 1,
            place: 5,
            kind: FormKind::Generations,
        });
    }
    if second.generation == next_generation(first.generation) {
        return Ok(Found::At(Slot::One, second));
    }
    Ok(Found::At(Slot::Zero, first))
}

// Which slot is current, by what the two say.
#[tactic(auto, unfolding(crate::specs::Slots::chosen))]
fn chosen(first: Option<Manifest>, second: Option<Manifest>) -> Result<Found, OpenFault>
    requires first { IfSome first FitsManifest }
    requires second { IfSome second FitsManifest }
    ensures chosen { result ≡ chosen (option_map Ok first) (option_map Ok second) }
    ensures fits { IfOk result HoldsFit }
{
    match (first, second) {
        (None, None) => Ok(Found::Blank),
        (Some(first), None) => Ok(Found::At(Slot::Zero, first)),
        (None, Some(second)) => Ok(Found::At(Slot::One, second)),
        (Some(first), Some(second)) => later_of(first, second),
    }
}

/// The current manifest and its slot, or that no slot is open.
///
/// With one open slot that one is current. Of two it is the one whose generation follows the
/// other's, and equal ones are `BadStore` at place 5 of file 1. Each open slot has to decode: else
/// the answer is `BadStore` with the first field that breaks its rule, slot 0 first. This holds
/// where the disk tells its contents. A manifest that is found keeps the rules of its format, on
/// any disk. `DiskFault` comes only where the disk's count rose. It
/// changes nothing, so that a crash at any moment leaves what it could before.
pub fn current<D: Disk>(alloc: Global, disk: &mut D) -> Result<Found, OpenFault>
    ensures fits { IfOk result HoldsFit }
    ensures found { IsTrue D.tells → AnswersCurrent (current_of (D.seen disk.old)) result }
    ensures looks { OnlyLooks D.Disk disk.old disk.new }
    ensures cause { HasReason why_not_open (on_disk D.Disk disk.old disk.new blames_any) result }
{
    let first = slot_of(alloc, disk, Slot::Zero)?;
    let second = slot_of(alloc, disk, Slot::One)?;
    chosen(first, second)
}
