//! Another manifest takes the place of the current one.
ghost use Rattle.std.specs.Prelude.{◌≡◌, ◌≤◌, ℕ, IsTrue, List, Contains, length, take, IfOk, IsErrOf};
ghost use Rattle.graph_words.specs.declared.types.Born.{Born as ABorn};
ghost use Rattle.faults.specs.Reasons.{HasReason, blames_none};
ghost use Rattle.store_fault.specs.Faults.{why_of};
ghost use Rattle.closing_machine.specs.Parts.{all_edges};
ghost use Rattle.disk_model.specs.Disk.{Contents};
ghost use Rattle.disk_model.specs.Crash.{LeavesOnly};
ghost use Rattle.disk_model.specs.View.{IsDurable, on_disk};
ghost use Rattle.manifest_codec.specs.Spelling.{FitsManifest};
ghost use Rattle.manifest_switch.specs.Slots.{next_generation, other};
ghost use Rattle.manifest_switch.specs.Steps.{IsAmid, IsSwitched};
ghost use Rattle.store_law.specs.Kept.{KeepsAmong};
ghost use Rattle.store_law.specs.Left.{IsStoreOf};
ghost use Rattle.store_law.specs.Listed.{ends_of};
ghost use Rattle.store_law.specs.Texts.{Texts};
ghost use Rattle.store_fault.specs.declared.fault.StoreFault.TheVariants.{NoMemory};
ghost use Rattle.open_store.specs.Store.{IsHeldAlone};

use crate::store::Store;
use disk_model::Disk;
use intervals::Intervals;
use manifest_codec::Manifest;
use manifest_switch::switch;
use std::alloc::{AllocError, Global};
use store_fault::StoreFault;

// The intervals of a manifest's partitions.
pub(crate) fn intervals_of(alloc: Global, manifest: &Manifest) -> Result<Intervals, AllocError>
    requires { FitsManifest manifest.now }
    ensures { IfOk result (λ v. v ≡ ends_of manifest.now) }
{
    let parts = manifest.parts.as_slice();
    let mut ends = Vec::with_capacity(alloc, parts.len())?;
    for part in parts {
        ends.push(part.hi)?;
    }
    Intervals::of_ends(alloc, &ends)
}

impl Store {
    /// Makes `next` the store's manifest, in the place of the one that it has.
    ///
    /// The store was opened for a change, or came from an import or a commit: in each image, which is
    /// asked where the disk tells them, its slot is the only open one. `next` keeps the rules of its
    /// format, its generation follows the store's, the grammar's text has the same length, and its
    /// labels begin with the store's.
    ///
    /// All memory is taken before any call of the disk. Whatever it answers, a crash at any moment
    /// leaves what was current with all files but the slots, or `next` as the current manifest with
    /// all other files as a read gave them at the start. So stores of the texts of which `next` is a
    /// store are kept, with each edge that the files of `next` list with the same birth. After Ok it is the only open slot.
    pub fn commit<D: Disk>(
        self,
        alloc: Global,
        disk: &mut D,
        next: Manifest,
    ) -> Result<Store, StoreFault>
        requires fits { FitsManifest next }
        requires held { (c : Contents) → D.may_leave disk.old c → IsHeldAlone self c }
        requires generation { next.generation ≡ next_generation self.manifest.generation }
        requires grammar { next.grammar_len ≡ self.manifest.grammar_len }
        requires labels { take (length self.manifest.labels) next.labels ≡ self.manifest.labels }
        ensures any_moment { LeavesOnly D.moment D.left_since disk.old disk.new (IsAmid (D.may_leave disk.old) (D.seen disk.old) next) }
        ensures stores { (t : Texts) (parts : List (List ABorn)) → IsStoreOf t (D.seen disk.old) next parts
            → KeepsAmong D.Disk disk.old disk.new t (Contains (all_edges parts)) }
        ensures store { IfOk result (λ s. s ≡ record { slot = other self.slot; manifest = next; rules = self.rules; ends = ends_of next }) }
        ensures held { IfOk result (λ s. (c : Contents) → D.may_leave disk.new c → IsHeldAlone s c) }
        ensures reads { IsTrue D.tells → IfOk result (λ s. IsSwitched s.slot next (D.seen disk.old) (D.seen disk.new)) }
        ensures synced { IfOk result (λ _. IsDurable D.Disk disk.new) }
        ensures memory { IsErrOf result NoMemory → disk.new ≡ disk.old }
        ensures later { D.faults disk.old ≤ D.faults disk.new }
        ensures cause { HasReason why_of (on_disk D.Disk disk.old disk.new blames_none) result }
    {
        let intervals = intervals_of(alloc, &next)?;
        let slot = switch(alloc, disk, Some(self.slot), &next)?;
        Ok(Store {
            slot,
            manifest: next,
            normal: self.normal,
            intervals,
        })
    }
}
