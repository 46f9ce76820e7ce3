//! A store is opened: its manifest is found, and its grammar read.
ghost use Rattle.std.specs.Prelude.{◌≡◌, ◌≤◌, ℕ, IsTrue, Ok, IfOk};
ghost use Rattle.faults.specs.Reasons.{HasReason};
ghost use Rattle.store_fault.specs.Faults.{why_of};
ghost use Rattle.disk_model.specs.Disk.{Contents};
ghost use Rattle.disk_model.specs.View.{IsDurable, LeavesBy, OnlyLooks, on_disk};
ghost use Rattle.manifest_codec.specs.Spelling.{FitsManifest};
ghost use Rattle.manifest_switch.specs.Steps.{Stays};
ghost use Rattle.store_law.specs.Kept.{KeepsStores};
ghost use Rattle.store_law.specs.Listed.{ends_of};
ghost use Rattle.open_store.specs.declared.opened.OpenMode.TheVariants.{Change, Look};
ghost use Rattle.open_store.specs.Copy.{IsBadCopy, IsCopyRead};
ghost use Rattle.open_store.specs.Opened.{IsBadStore, IsOpened, IsOpenedAlone};

use crate::commit::intervals_of;
use crate::grammar_copy::grammar_of;
use crate::store::Store;
use disk_model::Disk;
use grammar_norm::normalise;
use manifest_codec::Manifest;
use manifest_switch::{Found, Slot, close_other, current};
use std::alloc::Global;
use store_fault::StoreFault;

/// What a store is opened for.
#[derive(Clone, Copy, Debug, PartialEq, Eq)]
pub enum OpenMode {
    /// It may be changed: the disk is synced, and of two open slots the older one is closed.
    Change,
    /// It is only read: there is no sync and no write.
    Look,
}

/// What a store holds.
#[derive(Drop)]
pub enum Opened {
    /// No slot is open.
    Blank,
    /// A store.
    Found(Store),
}

// The store of a manifest.
fn store_of<D: Disk>(
    alloc: Global,
    disk: &mut D,
    slot: Slot,
    manifest: Manifest,
) -> Result<Store, StoreFault>
    requires { FitsManifest manifest }
    ensures store { IfOk result (λ s. (s.slot ≡ slot) × (s.manifest ≡ manifest) × (s.ends ≡ ends_of manifest)) }
    ensures copy { IsTrue D.tells → IfOk result (λ s. IsCopyRead manifest (D.seen disk.old 2) s.rules) }
    ensures looks { OnlyLooks D.Disk disk.old disk.new }
    ensures cause { HasReason why_of (on_disk D.Disk disk.old disk.new
        (λ file place kind. IsTrue D.tells → IsBadCopy slot manifest (D.seen disk.old 2) file place kind)) result }
{
    let grammar = grammar_of(alloc, disk, slot, &manifest)?;
    let normal = normalise(alloc, &grammar)?;
    let intervals = intervals_of(alloc, &manifest)?;
    Ok(Store {
        slot,
        manifest,
        normal,
        intervals,
    })
}

// What the store holds, which is only read.
fn look<D: Disk>(alloc: Global, disk: &mut D) -> Result<Opened, StoreFault>
    ensures opened { IsTrue D.tells → IfOk result (IsOpened (D.seen disk.old)) }
    ensures looks { OnlyLooks D.Disk disk.old disk.new }
    ensures cause { HasReason why_of (on_disk D.Disk disk.old disk.new
        (λ file place kind. IsTrue D.tells → IsBadStore (D.seen disk.old) file place kind)) result }
{
    match current(alloc, disk)? {
        Found::Blank => Ok(Opened::Blank),
        Found::At(slot, manifest) => Ok(Opened::Found(store_of(alloc, disk, slot, manifest)?)),
    }
}

// What the store holds, which may be changed. The disk was synced.
fn grasp<D: Disk>(alloc: Global, disk: &mut D) -> Result<Opened, StoreFault>
    requires { IsDurable D.Disk disk.old }
    ensures opened { IsTrue D.tells → IfOk result (IsOpened (D.seen disk.new)) }
    ensures alone { IfOk result (λ o. (c : Contents) → D.may_leave disk.new c → IsOpenedAlone c o) }
    ensures stays { IsTrue D.tells → IfOk result (λ _. Stays (D.seen disk.old) (D.seen disk.new)) }
    ensures synced { IfOk result (λ _. IsDurable D.Disk disk.new) }
    ensures any_moment { LeavesBy D.Disk disk.old disk.new Stays }
    ensures later { D.faults disk.old ≤ D.faults disk.new }
    ensures cause { HasReason why_of (on_disk D.Disk disk.old disk.new
        (λ file place kind. IsTrue D.tells → IsBadStore (D.seen disk.old) file place kind)) result }
{
    match current(alloc, disk)? {
        Found::Blank => Ok(Opened::Blank),
        Found::At(slot, manifest) => {
            close_other(disk, slot)?;
            Ok(Opened::Found(store_of(alloc, disk, slot, manifest)?))
        }
    }
}

/// Opens a store.
///
/// `Blank` comes exactly where no slot is open. A store has the current manifest, and the normal form
/// of the copy of the grammar's text. `BadStore` blames the slots as `current` does, or file 2, which
/// is shorter than the manifest says (Short, at its length) or has a fault (BadText, at place 0), or
/// the slot, whose labels don't begin with those of the grammar (BadLabel, at place 34). All this is
/// said where the disk tells its contents. `DiskFault` comes only where the disk's count rose.
///
/// With `Look` there is no sync and no write. With `Change` the disk is synced first, and of two open
/// slots the older one is closed; a crash at any moment leaves what was current, and all files but
/// the slots. So stores are kept, whatever texts they are of, with each edge that they list. After Ok the store's slot
/// is the only open one in each image, or none is.
pub fn open<D: Disk>(alloc: Global, disk: &mut D, mode: OpenMode) -> Result<Opened, StoreFault>
    ensures opened { IsTrue D.tells → IfOk result (IsOpened (D.seen disk.new)) }
    ensures alone { mode ≡ Change → IfOk result (λ o. (c : Contents) → D.may_leave disk.new c → IsOpenedAlone c o) }
    ensures stays { IsTrue D.tells → IfOk result (λ _. Stays (D.seen disk.old) (D.seen disk.new)) }
    ensures synced { mode ≡ Change → IfOk result (λ _. IsDurable D.Disk disk.new) }
    ensures any_moment { LeavesBy D.Disk disk.old disk.new Stays }
    ensures stores { KeepsStores D.Disk disk.old disk.new }
    ensures looks { mode ≡ Look → OnlyLooks D.Disk disk.old disk.new }
    ensures later { D.faults disk.old ≤ D.faults disk.new }
    ensures cause { HasReason why_of (on_disk D.Disk disk.old disk.new
        (λ file place kind. IsTrue D.tells → IsBadStore (D.seen disk.old) file place kind)) result }
{
    match mode {
        OpenMode::Look => look(alloc, disk),
        OpenMode::Change => {
            disk.sync()?;
            grasp(alloc, disk)
        }
    }
}
