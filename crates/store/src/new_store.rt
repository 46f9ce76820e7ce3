//! A store is made of two texts.
ghost use Rattle.std.specs.Prelude.{◌≡◌, ◌≤◌, ℕ, List, Some, None, IsTrue, IfOk};
ghost use Rattle.faults.specs.Reasons.{HasReason};
ghost use Rattle.io_edge.specs.View.{KeepsInputs, ReadRose};
ghost use Rattle.store_fault.specs.Faults.{why_of};
ghost use Rattle.disk_model.specs.Disk.{Contents};
ghost use Rattle.disk_model.specs.View.{DiskRose, IsDurable, LeavesBy};
ghost use Rattle.grammar_norm.specs.GrammarText.{grammar_fault};
ghost use Rattle.manifest_switch.specs.Slots.{IsBlank};
ghost use Rattle.store_law.specs.Kept.{Leads};
ghost use Rattle.store_law.specs.Left.{IsLeft};
ghost use Rattle.open_store.specs.Store.{IsHeldAlone};
ghost use Rattle.store.specs.Import.{import_causes, Imports, IsImportOf, IsNewStore, texts_of};

use crate::prepared::prepare;
use disk_model::Disk;
use io_edge::Inputs;
use manifest_switch::switch;
use open_store::{Store, StoreFault};
use std::alloc::Global;

/// Makes a store of a grammar's text and an edge file, on a disk on which no slot is open.
///
/// The grammar's text has no fault, and goes to file 2. The edge file is read once, in pieces of
/// 65,536 bytes, and goes to file 3. The vertices are cut into at most 256 intervals: each before the
/// 256th is as long as at most `limit` edge lines begin in it, and takes its first vertex anyway. Then
/// the copy is read once for each interval, and its partition goes to file 4 and those behind it: the
/// labels above each edge, and a loop at each vertex for each label that derives the empty word, each
/// edge once, with birth 0. One partition is in memory at a time. At last the manifest, with
/// generation 0 and round 1, goes to slot 0.
///
/// `InputFault` has the first fault of the edge file, behind the grammar's names, and `ReadFault`
/// comes only where the count of its name rose. `DiskFault` comes only where the disk's count rose,
/// and `BadStore` blames file 3 only where a disk that doesn't tell its contents gave back another
/// text than it was given. `NoMemory` comes for want of memory.
///
/// Whatever it answers, a crash at any moment leaves a store that is blank still, or the whole new
/// one.
pub fn import<I: Inputs, D: Disk>(
    alloc: Global,
    inputs: &mut I,
    edges: &str,
    grammar: &[u8],
    disk: &mut D,
    limit: u64,
) -> Result<Store, StoreFault>
    requires good { grammar_fault grammar.now ≡ None }
    requires blank { (c : Contents) → D.may_leave disk.old c → IsBlank c }

    // The store is in slot 0, by the grammar and a good edge file, and no other slot is open in any image.
    ensures store { IfOk result (IsNewStore grammar.now (I.told inputs.old edges.now)) }
    ensures held { IfOk result (λ s. (c : Contents) → D.may_leave disk.new c → IsHeldAlone s c) }

    // It is the fresh store of both texts.
    ensures imported { IsTrue D.tells → IfOk result (λ s. IsImportOf grammar.now (I.told inputs.old edges.now) limit (D.seen disk.new) s.manifest) }
    ensures synced { IfOk result (λ _. IsDurable D.Disk disk.new) }

    // At each moment of a crash it is there as a whole or not at all.
    ensures any_moment { LeavesBy D.Disk disk.old disk.new (Imports grammar.now (I.told inputs.old edges.now) limit) }

    // So whatever it answers, a crash leaves what stopped runs of both texts leave.
    ensures stops { (file : List ℕ) → I.told inputs.old edges.now ≡ Some file
        → Leads D.Disk disk.old disk.new IsBlank (IsLeft (texts_of grammar.now file)) }

    // Each fault has its cause.
    ensures cause { HasReason why_of (import_causes grammar.now (I.told inputs.old edges.now) (IsTrue D.tells)
        (ReadRose I.Inputs inputs.old inputs.new edges.now) (DiskRose D.Disk disk.old disk.new)) result }
    ensures keeps { KeepsInputs I.Inputs inputs.old inputs.new }
    ensures later { D.faults disk.old ≤ D.faults disk.new }
{
    let prepared = prepare(alloc, inputs, edges, grammar, disk, limit)?;
    let slot = switch(alloc, disk, None, &prepared.manifest)?;
    Ok(Store::new(slot, prepared.manifest, prepared.normal, prepared.intervals))
}
