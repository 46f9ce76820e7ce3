//! All that a new store has but the slot of its manifest.
ghost use Rattle.std.specs.Prelude.{◌≡◌, ◌≤◌, ℕ, List, None, IsTrue, IfOk};
ghost use Rattle.faults.specs.Reasons.{HasReason};
ghost use Rattle.io_edge.specs.View.{KeepsInputs, ReadRose};
ghost use Rattle.store_fault.specs.Faults.{why_of};
ghost use Rattle.disk_model.specs.View.{DiskRose, LeavesBy};
ghost use Rattle.grammar_norm.specs.GrammarText.{grammar_fault};
ghost use Rattle.store.specs.Import.{import_causes};
ghost use Rattle.store.specs.NewStore.{IsBeside, IsFirst, IsPrepared};

use crate::parts::put_parts;
use crate::source::{Source, copy_texts};
use crate::tables::Tables;
use disk_model::Disk;
use grammar_norm::Normal;
use import_text::copies_are_good;
use intervals::Intervals;
use io_edge::Inputs;
use manifest_codec::Manifest;
use open_store::StoreFault;
use pair_sched::Marks;
use std::alloc::{AllocError, Global};

/// A store whose manifest is in no slot yet.
#[derive(Drop)]
pub(crate) struct Prepared {
    pub manifest: Manifest,
    pub normal: Normal,
    pub intervals: Intervals,
}

// The manifest of a new store.
fn first_manifest(alloc: Global, source: &Source, tables: Tables) -> Result<Manifest, AllocError>
    ensures { IfOk result (IsFirst source.now tables) }
{
    let marks = Marks::zero(alloc, tables.map.len())?;
    Ok(Manifest {
        generation: 0,
        round: 1,
        vertices: source.copied.vertices,
        grammar_len: source.grammar_len,
        edges_len: source.copied.len,
        first_len: source.copied.len,
        labels: source.copied.labels.copy()?,
        parts: tables.parts,
        map: tables.map,
        marks,
    })
}

/// Writes both texts and each partition, and makes the manifest.
pub(crate) fn prepare<I: Inputs, D: Disk>(
    alloc: Global,
    inputs: &mut I,
    edges: &str,
    grammar: &[u8],
    disk: &mut D,
    limit: u64,
) -> Result<Prepared, StoreFault>
    requires { grammar_fault grammar.now ≡ None }
    ensures prepared { IfOk result (IsPrepared grammar.now (I.told inputs.old edges.now) limit (IsTrue D.tells) (D.seen disk.new)) }
    ensures any_moment { LeavesBy D.Disk disk.old disk.new IsBeside }
    ensures cause { HasReason why_of (import_causes grammar.now (I.told inputs.old edges.now) (IsTrue D.tells)
        (ReadRose I.Inputs inputs.old inputs.new edges.now) (DiskRose D.Disk disk.old disk.new)) result }
    ensures keeps { KeepsInputs I.Inputs inputs.old inputs.new }
    ensures later { D.faults disk.old ≤ D.faults disk.new }
{
    copies_are_good();
    let source = copy_texts(alloc, inputs, edges, grammar, disk)?;
    let intervals = Intervals::from_degrees(alloc, &source.copied.degrees, limit)?;
    let tables = put_parts(alloc, disk, &source, &intervals)?;
    let manifest = first_manifest(alloc, &source, tables)?;
    Ok(Prepared {
        manifest,
        normal: source.normal,
        intervals,
    })
}
