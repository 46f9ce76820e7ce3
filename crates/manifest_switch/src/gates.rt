//! The parts of a commit: a gate is closed, a body written behind it, and the gate opened. Each ends with a sync.
ghost use Rattle.std.specs.Prelude.{◌≡◌, ◌≢◌, ◌⊎◌, ◌+◌, ◌%◌, ◌<◌, ◌∷◌, [], ℕ, Bool, IsTrue, true, false, length};
ghost use Rattle.std.specs.Prelude.{slice_index, Option, Some, None, OnOk, IfOk};
ghost use Rattle.faults.specs.Counts.{HasCause};
ghost use Rattle.disk_model.specs.Disk.{Contents, Sets, written};
ghost use Rattle.disk_model.specs.View.{IsDurable, LeavesBy, OnlyLooks};
ghost use Rattle.manifest_switch.specs.Slots.{file_of, is_loose, with_closed_gate, IsClosedGate};
ghost use Rattle.manifest_switch.specs.Steps.{Keeps, MayClose, IsSlotReady, Opens};

use crate::slot::Slot;
use disk_model::{Disk, Failed};

/// The gate of an open slot.
pub(crate) const OPEN: u8 = 1;

/// The gate that is written to close a slot.
const CLOSED: u8 = 0;

// Whether a slot's gate has to be written to be closed: its file is empty, or its gate is 1.
#[tactic(auto, unfolding(crate::specs::Slots::is_loose))]
fn is_loose<D: Disk>(disk: &mut D, slot: Slot) -> Result<bool, Failed>
    ensures loose { IsTrue D.tells → IfOk result (λ b. b ≡ is_loose (D.seen disk.old (file_of slot))) }
    ensures looks { OnlyLooks D.Disk disk.old disk.new }
    ensures cause { HasCause (D.faults disk.old) (D.faults disk.new) result }
{
    let mut gate = [0];
    let n = disk.read(slot.file(), 0, &mut gate)?;
    Ok(n == 0 || gate[0] == OPEN)
}

// Writes a closed gate where it has to be.
fn shut<D: Disk>(disk: &mut D, slot: Slot) -> Result<(), Failed>
    requires { (c : Contents) → D.may_leave disk.old c → MayClose slot c }
    ensures any_moment { LeavesBy D.Disk disk.old disk.new (Keeps slot) }
    ensures reads { IsTrue D.tells → OnOk result
        (Sets (file_of slot) (with_closed_gate (D.seen disk.old (file_of slot))) (D.seen disk.old)
        (D.seen disk.new)) }
    ensures cause { HasCause (D.faults disk.old) (D.faults disk.new) result }
{
    if !is_loose(disk, slot)? {
        return Ok(());
    }
    disk.write_at(slot.file(), 0, &[CLOSED])
}

/// Closes the gate of a slot, where it isn't closed, and syncs.
///
/// In each image the slot isn't open, or the other one is the current one. This is asked where the
/// disk tells its images. Whatever it answers, a crash at any moment leaves what was current, and
/// all other files as they were. A gate that is neither 1 nor in an empty file is not written
/// again: a torn write could open it. `Failed` comes only where the disk's count rose.
pub fn close_gate<D: Disk>(disk: &mut D, slot: Slot) -> Result<(), Failed>
    requires { (c : Contents) → D.may_leave disk.old c → MayClose slot c }
    ensures any_moment { LeavesBy D.Disk disk.old disk.new (Keeps slot) }
    ensures reads { IsTrue D.tells → OnOk result
        (Sets (file_of slot) (with_closed_gate (D.seen disk.old (file_of slot))) (D.seen disk.old)
        (D.seen disk.new)) }
    ensures synced { OnOk result (IsDurable D.Disk disk.new) }
    ensures cause { HasCause (D.faults disk.old) (D.faults disk.new) result }
{
    shut(disk, slot)?;
    disk.sync()
}

/// Writes a body behind a closed gate, and syncs.
///
/// In each image the slot's file has a byte at place 0 that isn't 1. This is asked where the disk
/// tells its images. Whatever it answers, a crash at any moment leaves what was current, and all
/// other files as they were. `Failed` comes only where the disk's count rose.
pub fn write_body<D: Disk>(disk: &mut D, slot: Slot, body: &[u8]) -> Result<(), Failed>
    requires { (c : Contents) → D.may_leave disk.old c → IsClosedGate (c (file_of slot)) }
    ensures any_moment { LeavesBy D.Disk disk.old disk.new (Keeps slot) }
    ensures reads { IsTrue D.tells → OnOk result
        (Sets (file_of slot) (written (D.seen disk.old (file_of slot)) 1 body.now) (D.seen disk.old)
        (D.seen disk.new)) }
    ensures synced { OnOk result (IsDurable D.Disk disk.new) }
    ensures cause { HasCause (D.faults disk.old) (D.faults disk.new) result }
{
    disk.write_at(slot.file(), 1, body)?;
    disk.sync()
}

/// Opens a gate, which makes the manifest behind it the current one, and syncs.
///
/// In each image the slot isn't open, and its bytes from place 1 begin with the body of a manifest
/// whose generation follows that of the other slot, where that one is open. This is asked where
/// the disk tells its images. Whatever it answers, a crash at any moment leaves what was current or
/// makes this manifest current, and leaves all other files as they were. `Failed` comes only where
/// the disk's count rose.
pub fn open_gate<D: Disk>(disk: &mut D, slot: Slot) -> Result<(), Failed>
    requires { (c : Contents) → D.may_leave disk.old c → IsSlotReady slot c }
    ensures any_moment { LeavesBy D.Disk disk.old disk.new (Opens slot) }
    ensures reads { IsTrue D.tells → OnOk result
        (Sets (file_of slot) (written (D.seen disk.old (file_of slot)) 0 (1 ∷ [])) (D.seen disk.old)
        (D.seen disk.new)) }
    ensures synced { OnOk result (IsDurable D.Disk disk.new) }
    ensures cause { HasCause (D.faults disk.old) (D.faults disk.new) result }
{
    disk.write_at(slot.file(), 0, &[OPEN])?;
    disk.sync()
}
