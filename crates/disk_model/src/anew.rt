//! A file that is written anew.

ghost use Rattle.std.specs.Prelude.{◌≡◌, ◌<◌, IsTrue, OnOk};
ghost use Rattle.faults.specs.Counts.{HasCause};
ghost use Rattle.disk_model.specs.Disk.{Sets};
ghost use Rattle.disk_model.specs.View.{LeavesBy};
ghost use Rattle.disk_model.specs.OneFile.{OnlyFile};

use crate::disk::{Disk, Failed};

/// Writes a file anew: it is cut to nothing, and gets these bytes.
///
/// Whatever it answers, a crash at any moment since the start leaves all other files as they were.
/// There is no sync. `Failed` comes only where the disk's count rose.
pub fn rewrite<D: Disk>(disk: &mut D, file: u32, bytes: &[u8]) -> Result<(), Failed>
    requires { file < 1024 }
    ensures any_moment { LeavesBy D.Disk disk.old disk.new (OnlyFile file) }
    ensures written { IsTrue D.tells → OnOk result (Sets file bytes.now (D.seen disk.old) (D.seen disk.new)) }
    ensures cause { HasCause (D.faults disk.old) (D.faults disk.new) result }
{
    disk.cut(file, 0)?;
    disk.write_at(file, 0, bytes)
}
