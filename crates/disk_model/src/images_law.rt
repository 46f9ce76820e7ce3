//! The images of a disk in words, and by the clauses of its calls.
ghost use Rattle.std.specs.Prelude.{List};
ghost use Rattle.disk_model.specs.Disk.{Contents};
ghost use Rattle.disk_model.specs.Calls.{Call};
ghost use Rattle.disk_model.specs.Allowed.{SameImages};

/// The clauses of [`Disk`](crate::Disk) allow a crash to leave just what the definition does.
///
/// By the definition a crash may leave any contents in which each file has a length from its least
/// to its greatest since the last sync that succeeded, and has the byte of that sync at each place
/// below the least length that lies in no range written since. By the clauses it may leave what
/// comes from the contents at the beginning by one torn write or stopped cut after another, but
/// just what a read gives after a sync.
pub fn same_images()
    ensures { (base : Contents) (calls : List Call) (c : Contents) → SameImages base calls c }
{}
