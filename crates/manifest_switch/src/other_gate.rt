//! The slot beside the current one is closed, so that the current one is the only open one.
ghost use Rattle.std.specs.Prelude.{◌≡◌, ◌<◌, false, Bool, IsTrue, Ok, OnOk};
ghost use Rattle.faults.specs.Counts.{HasCause};
ghost use Rattle.disk_model.specs.Disk.{Contents};
ghost use Rattle.disk_model.specs.View.{IsDurable, LeavesBy, OnlyLooks};
ghost use Rattle.manifest_codec.specs.declared.types.Manifest.{Manifest};
ghost use Rattle.manifest_switch.specs.declared.slot.Found.TheVariants.{At};
ghost use Rattle.manifest_switch.specs.Slots.{file_of, other, is_open, current_of, HasOnly};
ghost use Rattle.manifest_switch.specs.Steps.{Keeps};

use crate::current_slot::open_len;
use crate::gates::close_gate;
use crate::slot::Slot;
use disk_model::{Disk, Failed};

/// Closes the gate of the slot that isn't current, where it is open, and syncs then.
///
/// In each image `slot` is current, and all images are what a read gives, as after a sync. This is
/// asked where the disk tells its images. After Ok `slot` is the only open one in each image, with
/// the manifest that it had. Where the other one isn't open nothing is written or synced. Whatever
/// it answers, a crash at any moment leaves what was current, and all files but the other slot's.
/// `Failed` comes only where the disk's count rose.
pub fn close_other<D: Disk>(disk: &mut D, slot: Slot) -> Result<(), Failed>
    requires current { (c : Contents) → D.may_leave disk.old c → (m : Manifest) × (current_of c ≡ Ok (At slot m)) }
    requires alike { IsDurable D.Disk disk.old }
    ensures any_moment { LeavesBy D.Disk disk.old disk.new (Keeps (other slot)) }
    ensures only { (m : Manifest) → current_of (D.seen disk.old) ≡ Ok (At slot m)
        → OnOk result ((c : Contents) → D.may_leave disk.new c → HasOnly slot m c) }
    ensures seen { IsTrue D.tells → OnOk result (Keeps (other slot) (D.seen disk.old) (D.seen disk.new)) }
    ensures synced { OnOk result (IsDurable D.Disk disk.new) }
    ensures looks { IsTrue D.tells → is_open (D.seen disk.old (file_of (other slot))) ≡ false → OnlyLooks D.Disk disk.old disk.new }
    ensures cause { HasCause (D.faults disk.old) (D.faults disk.new) result }
{
    let beside = slot.other();
    match open_len(disk, beside)? {
        None => Ok(()),
        Some(_) => {
            close_gate(disk, beside)?;
            Ok(())
        }
    }
}
