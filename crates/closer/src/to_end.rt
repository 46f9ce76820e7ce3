//! Steps of closing until no pair has work left.
ghost use Rattle.std.specs.Prelude.{◌≡◌, ◌≤◌, IfOk};
ghost use Rattle.faults.specs.Reasons.{HasReason};
ghost use Rattle.store_fault.specs.Faults.{why_of};
ghost use Rattle.disk_model.specs.Disk.{Contents};
ghost use Rattle.disk_model.specs.View.{LeavesBy, on_disk};
ghost use Rattle.store_law.specs.Kept.{EndsIn, KeepsStores};
ghost use Rattle.store_law.specs.Left.{HasNoWork, IsLeft};
ghost use Rattle.store_law.specs.Listed.{AreExact};
ghost use Rattle.store_law.specs.Texts.{Texts};
ghost use Rattle.open_store.specs.Store.{IsHeldAlone};
ghost use Rattle.closer.specs.Answers.{BlamesOnTheWay, IsClosedStore, Moves};

use crate::one_step::{Stepped, step};
use closing_options::RunOptions;
use disk_model::Disk;
use open_store::{Store, StoreFault};
use std::alloc::Global;

/// Steps until no pair of partitions has work left. So a stopped run is resumed, too.
///
/// The store was opened for a change, or came from an import, a commit or a step. It ends on every
/// disk, since `work_of` the manifest falls with each step. Where no pair has work left at first,
/// nothing is written. Whatever it answers, a crash at any moment leaves the store as it was, or one
/// that goes on from it by some steps; so stores are kept, whatever texts they are of, with each edge
/// that they list. After Ok what stopped runs of any texts left is exactly their closure. The faults
/// are those of [`step`](crate::step), of the store that it had come to; a file that is blamed is one
/// of the store from before, with its bytes from then.
pub fn run_to_end<D: Disk>(
    alloc: Global,
    disk: &mut D,
    store: Store,
    options: &RunOptions,
) -> Result<Store, StoreFault>
    requires held { (c : Contents) → D.may_leave disk.old c → IsHeldAlone store c }
    ensures closed { IfOk result (IsClosedStore D.tells (D.seen disk.old) (D.may_leave disk.old) store (D.seen disk.new) (D.may_leave disk.new)) }
    ensures rest { HasNoWork store.manifest → IfOk result (λ s. (s ≡ store) × (disk.new ≡ disk.old)) }
    ensures any_moment { LeavesBy D.Disk disk.old disk.new (Moves store (D.seen disk.old)) }
    ensures stores { KeepsStores D.Disk disk.old disk.new }
    ensures exact { IfOk result (λ _. (t : Texts) → EndsIn D.Disk disk.old disk.new (IsLeft t) (AreExact t)) }
    ensures later { D.faults disk.old ≤ D.faults disk.new }
    ensures cause { HasReason why_of (on_disk D.Disk disk.old disk.new
        (BlamesOnTheWay store D.tells (D.seen disk.old))) result }
{
    // The manifest keeps its rules, also where no step is made.
    let _manifest = store.manifest();
    let mut current = store;
    loop {
        match step(alloc, disk, current, options)? {
            Stepped::Again(next) => current = next,
            Stepped::Finished(last) => return Ok(last),
        }
    }
}
