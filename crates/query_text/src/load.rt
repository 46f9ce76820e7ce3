//! Partitions are loaded.
ghost use Rattle.std.specs.Prelude.{◌≡◌, ◌<◌, IsTrue, IfOk, length};
ghost use Rattle.faults.specs.Reasons.{HasReason};
ghost use Rattle.query_text.specs.Answered.{why_not_printed};
ghost use Rattle.disk_model.specs.View.{OnlyLooks, on_disk};
ghost use Rattle.store_law.specs.Listed.{part_file, part_of};
ghost use Rattle.open_store.specs.PartRead.{IsRead, IsRefused};

use crate::fault::AnswerFault;
use disk_model::Disk;
use open_store::{Store, StoreFault};
use partition_file::Partition;
use std::alloc::Global;

/// Loads partition `i`.
pub(crate) fn load<D: Disk>(
    alloc: Global,
    disk: &mut D,
    store: &Store,
    i: usize,
) -> Result<Partition, AnswerFault>
    requires { i < length store.now.manifest.parts }
    ensures read { IfOk result (λ p. IsRead store.now i D.tells (D.seen disk.old (part_file store.now.manifest i)) p.edges) }
    ensures looks { OnlyLooks D.Disk disk.old disk.new }
    ensures cause { HasReason why_not_printed (on_disk D.Disk disk.old disk.new
        (λ file place kind. (file ≡ part_file store.now.manifest i)
        × (IsTrue D.tells → IsRefused store.now i (D.seen disk.old file) place kind))) result }
{
    match store.load(alloc, disk, i) {
        Ok(part) => Ok(part),
        Err(StoreFault::DiskFault) => Err(AnswerFault::DiskFault),
        Err(StoreFault::BadStore { file, place, kind }) => {
            Err(AnswerFault::BadStore { file, place, kind })
        }
        Err(StoreFault::NoMemory) => Err(AnswerFault::NoMemory),
        Err(
            StoreFault::ReadFault | StoreFault::InputFault { .. } | StoreFault::OtherInput { .. },
        ) => unreachable!(),
    }
}
