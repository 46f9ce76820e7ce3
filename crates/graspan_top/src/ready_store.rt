//! A store of two files is made, or found and compared with them.
ghost use Rattle.std.specs.Prelude.{◌≡◌, ◌≤◌, ℕ, List, Some, IfOk, IfErr, OnOk, IsTrue};
ghost use Rattle.disk_model.specs.View.{DiskRose, LeavesBy, OnlyLooks};
ghost use Rattle.manifest_switch.specs.Steps.{Stays};
ghost use Rattle.faults.specs.declared.kinds.InputFile.TheVariants.{Edges, Grammar};
ghost use Rattle.store_fault.specs.Faults.{why_of};
ghost use Rattle.io_edge.specs.View.{KeepsInputs, ReadRose};
ghost use Rattle.open_store.specs.Answers.{copy_of};
ghost use Rattle.graspan_top.specs.Given.{Given as AGiven};
ghost use Rattle.graspan_top.specs.Refusals.{FirstRefusal, Refuses, rises_in};
ghost use Rattle.graspan_top.specs.Run.{BeginsWith, IsGoodGrammar, ready_stages};
ghost use Rattle.graspan_top.specs.Stages.{IsCopied, IsGrammarFile, IsReady, compare_stages};
ghost use Rattle.graspan_top.specs.Stops.{IsNotBlank, KeepsWork};

use crate::grammar_file::read_grammar_file;
use crate::status::Status;
use disk_model::Disk;
use io_edge::{InputFile, Inputs};
use std::alloc::Global;
use store::{OpenMode, Opened, Store, StoreFault, import, open, same_input};

/// The names of the two files of a run.
#[derive(Clone, Copy)]
pub(crate) struct Files<'a> {
    pub(crate) edges: &'a str,
    pub(crate) grammar: &'a str,
}

/// Compares both files with the store's copies, the grammar first.
fn compare<I: Inputs, D: Disk>(
    alloc: Global,
    files: &Files<'_>,
    inputs: &mut I,
    disk: &mut D,
    store: &Store,
) -> Result<(), StoreFault>
    ensures same_grammar { OnOk result (IsCopied (I.told inputs.old files.now.grammar.now) D.tells
        (copy_of store.now.manifest Grammar (D.seen disk.old))) }
    ensures same_edges { OnOk result (IsCopied (I.told inputs.old files.now.edges.now) D.tells (copy_of store.now.manifest Edges (D.seen disk.old))) }
    ensures refused { IfErr result (λ fault. FirstRefusal (compare_stages (I.told inputs.old files.now.grammar.now)
        (I.told inputs.old files.now.edges.now) D.tells (D.seen disk.old) store.now.manifest
        (ReadRose I.Inputs inputs.old inputs.new files.now.grammar.now)
        (ReadRose I.Inputs inputs.old inputs.new files.now.edges.now) (DiskRose D.Disk disk.old disk.new)) (why_of fault)) }
    ensures looks { OnlyLooks D.Disk disk.old disk.new }
    ensures keeps { KeepsInputs I.Inputs inputs.old inputs.new }
{
    same_input(
        alloc,
        inputs,
        files.grammar,
        disk,
        store,
        InputFile::Grammar,
    )?;
    same_input(alloc, inputs, files.edges, disk, store, InputFile::Edges)
}

/// The store of the two files: the one that the disk holds, whose copies are compared with them, or a new one.
fn found_or_made<I: Inputs, D: Disk>(
    alloc: Global,
    files: &Files<'_>,
    grammar: &[u8],
    limit: u64,
    inputs: &mut I,
    disk: &mut D,
) -> Result<Store, StoreFault>
    requires { IsGrammarFile (I.told inputs.old files.now.grammar.now) grammar.now }
    ensures ready { IfOk result (IsReady (record
        { told = I.told inputs.old; tells = D.tells; before = D.seen disk.old }) files.now.edges.now
        files.now.grammar.now (D.seen disk.new) (D.may_leave disk.new)) }
    ensures begins { IfOk result (λ s. IsTrue D.tells
        → BeginsWith (record { told = I.told inputs.old; tells = D.tells; before = D.seen disk.old })
        (D.seen disk.new) s) }
    ensures refused { IfErr result (λ fault. FirstRefusal (ready_stages
        (record { told = I.told inputs.old; tells = D.tells; before = D.seen disk.old }) files.now.edges.now
        files.now.grammar.now (rises_in I.Inputs D.Disk inputs.old inputs.new disk.old disk.new)) (why_of fault)) }
    ensures stops { KeepsWork D.Disk (I.told inputs.old) files.now.edges.now files.now.grammar.now disk.old disk.new }
    ensures spares { IsNotBlank D.tells (D.seen disk.old) → LeavesBy D.Disk disk.old disk.new Stays }
    ensures keeps { KeepsInputs I.Inputs inputs.old inputs.new }
    ensures later { D.faults disk.old ≤ D.faults disk.new }
{
    match open(alloc, disk, OpenMode::Change)? {
        Opened::Blank => import(alloc, inputs, files.edges, grammar, disk, limit),
        Opened::Found(store) => {
            compare(alloc, files, inputs, disk, &store)?;
            Ok(store)
        }
    }
}

/// The store of the two files, ready to be closed.
pub(crate) fn ready_store<I: Inputs, D: Disk>(
    alloc: Global,
    files: &Files<'_>,
    limit: u64,
    inputs: &mut I,
    disk: &mut D,
) -> Result<Store, Status>
    ensures ready { IfOk result (IsReady (record
        { told = I.told inputs.old; tells = D.tells; before = D.seen disk.old }) files.now.edges.now
        files.now.grammar.now (D.seen disk.new) (D.may_leave disk.new)) }
    ensures begins { IfOk result (λ s. IsTrue D.tells
        → BeginsWith (record { told = I.told inputs.old; tells = D.tells; before = D.seen disk.old })
        (D.seen disk.new) s) }
    ensures refused { IfErr result (Refuses (ready_stages
        (record { told = I.told inputs.old; tells = D.tells; before = D.seen disk.old }) files.now.edges.now
        files.now.grammar.now (rises_in I.Inputs D.Disk inputs.old inputs.new disk.old disk.new))) }
    ensures stops { KeepsWork D.Disk (I.told inputs.old) files.now.edges.now files.now.grammar.now disk.old disk.new }
    ensures spares { IsNotBlank D.tells (D.seen disk.old) → LeavesBy D.Disk disk.old disk.new Stays }
    ensures faulty { (g : List ℕ) → I.told inputs.old files.now.grammar.now ≡ Some g → (IsGoodGrammar g → ⊥)
        → disk.new ≡ disk.old }
    ensures keeps { KeepsInputs I.Inputs inputs.old inputs.new }
    ensures later { D.faults disk.old ≤ D.faults disk.new }
{
    let grammar = read_grammar_file(alloc, inputs, files.grammar)?;
    Ok(found_or_made(alloc, files, &grammar, limit, inputs, disk)?)
}
