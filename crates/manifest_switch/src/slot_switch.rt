//! The switch from one slot to the other.
ghost use Rattle.std.specs.Prelude.{◌≡◌, ◌≢◌, ◌⊎◌, ◌+◌, ◌%◌, ◌<◌, ◌≤◌, ◌∷◌, [], ℕ, Bool, IsTrue, true, false};
ghost use Rattle.std.specs.Prelude.{length, Option, Some, None, Ok, Err, OnOk, IfOk, IsErrOf};
ghost use Rattle.disk_model.specs.Disk.{Contents};
ghost use Rattle.disk_model.specs.Crash.{LeavesOnly};
ghost use Rattle.disk_model.specs.View.{IsDurable, on_disk};
ghost use Rattle.faults.specs.Reasons.{HasReason, blames_none};
ghost use Rattle.manifest_codec.specs.Spelling.{FitsManifest};
ghost use Rattle.manifest_codec.specs.declared.types.Manifest.{Manifest};
ghost use Rattle.manifest_switch.specs.declared.slot.Slot.{Slot};
ghost use Rattle.manifest_switch.specs.declared.slot.SwitchFault.TheVariants.{NoMemory};
ghost use Rattle.manifest_switch.specs.Slots.{file_of, other, is_open, IsBlank, HasOnly, next_generation};
ghost use Rattle.manifest_switch.specs.Steps.{Succeeds, IsAmid, IsPlaced, IsSwitched, target_of, why_not_switched};

use crate::gates::{close_gate, open_gate, write_body};
use crate::slot::{Slot, SwitchFault};
use disk_model::{Disk, Failed};
use manifest_codec::{Manifest, encode, spelling_is_read};
use std::alloc::Global;

// Puts a manifest into a slot that isn't open, and makes it the current one.
fn replace<D: Disk>(
    alloc: Global,
    disk: &mut D,
    slot: Slot,
    next: &Manifest,
) -> Result<(), SwitchFault>
    requires fits { FitsManifest next.now }
    requires closed { (c : Contents) → D.may_leave disk.old c → is_open (c (file_of slot)) ≡ false }
    requires follows { (c : Contents) → D.may_leave disk.old c → Succeeds slot next.now c }
    ensures any_moment { LeavesOnly D.moment D.left_since disk.old disk.new (IsAmid (D.may_leave disk.old) (D.seen disk.old) next.now) }
    ensures reads { IsTrue D.tells → OnOk result (IsPlaced slot next.now (D.seen disk.old) (D.seen disk.new)) }
    ensures synced { OnOk result (IsDurable D.Disk disk.new) }
    ensures memory { IsErrOf result NoMemory → disk.new ≡ disk.old }
    ensures later { D.faults disk.old ≤ D.faults disk.new }
    ensures cause { HasReason why_not_switched (on_disk D.Disk disk.old disk.new blames_none) result }
{
    spelling_is_read();
    // All memory is taken first, so that its want leaves the disk as it was.
    let body = encode(alloc, next)?;
    // The body is written only behind a gate that is closed for good: behind an open one a crash would leave half of it
    // as the current manifest.
    close_gate(disk, slot)?;
    // It is synced before the gate is written, since a crash may keep a later write and lose an earlier one.
    write_body(disk, slot, &body)?;
    // One byte makes it current: a crash leaves the old byte or the new one.
    open_gate(disk, slot)?;
    Ok(())
}

/// Puts a manifest in the place of the current one, and answers its slot.
///
/// It keeps the rules of its format. Where `from` is None its generation is 0, and no image has an
/// open slot. Where `from` is a slot, this is the only open one in every image, and the generation
/// follows that of its manifest. What is said of images is asked where the disk tells them.
///
/// It goes to the slot that isn't the current one, or to slot 0: the gate there is closed, the body
/// written behind it, and the gate opened, each with a sync, and then the gate of the old one is
/// closed. Whatever the answer, a crash at any moment leaves what was current, and all files but the
/// slots as they were in an image; or this manifest as the current one, and all files but the slots
/// as a read gave them, since a sync comes before it. After Ok it is the only open slot.
/// `DiskFault` comes only where the disk's count rose. At `NoMemory` no call of the disk was made.
///
/// The old version is valid until the new one is whole, as in shadow paging (Lorie, Physical
/// integrity in a large segmented database, 1977).
pub fn switch<D: Disk>(
    alloc: Global,
    disk: &mut D,
    from: Option<Slot>,
    next: &Manifest,
) -> Result<Slot, SwitchFault>
    requires fits { FitsManifest next.now }
    requires first { from ≡ None → next.now.generation ≡ 0 }
    requires blank { from ≡ None → (c : Contents) → D.may_leave disk.old c → IsBlank c }
    requires only { (s : Slot) → from ≡ Some s → (c : Contents) → D.may_leave disk.old c → (o : Manifest)
        × HasOnly s o c × (next.now.generation ≡ next_generation o.generation) }
    ensures any_moment { LeavesOnly D.moment D.left_since disk.old disk.new (IsAmid (D.may_leave disk.old) (D.seen disk.old) next.now) }
    ensures slot { IfOk result (λ s. s ≡ target_of from) }
    ensures done { IfOk result (λ s. (c : Contents) → D.may_leave disk.new c → HasOnly s next.now c) }
    ensures reads { IsTrue D.tells → IfOk result (λ s. IsSwitched s next.now (D.seen disk.old) (D.seen disk.new)) }
    ensures synced { IfOk result (λ _. IsDurable D.Disk disk.new) }
    ensures memory { IsErrOf result NoMemory → disk.new ≡ disk.old }
    ensures later { D.faults disk.old ≤ D.faults disk.new }
    ensures cause { HasReason why_not_switched (on_disk D.Disk disk.old disk.new blames_none) result }
{
    match from {
        None => {
            replace(alloc, disk, Slot::Zero, next)?;
            Ok(Slot::Zero)
        }
        Some(old) => {
            replace(alloc, disk, old.other(), next)?;
            // Last, since until then the old slot is what a crash falls back to; and at all, since the next switch
            // writes there, where no gate may be open.
            close_gate(disk, old)?;
            Ok(old.other())
        }
    }
}
