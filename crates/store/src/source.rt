//! The two texts of a store are read, checked and copied to the disk.
ghost use Rattle.std.specs.Prelude.{◌≡◌, ◌≤◌, ℕ, List, None, IsTrue, IfOk, IfErr};
ghost use Rattle.faults.specs.Reasons.{HasReason};
ghost use Rattle.io_edge.specs.View.{KeepsInputs, ReadRose};
ghost use Rattle.store_fault.specs.Faults.{why_of};
ghost use Rattle.disk_model.specs.View.{DiskRose, LeavesBy};
ghost use Rattle.grammar_norm.specs.GrammarText.{ReadsGrammar, grammar_fault};
ghost use Rattle.store_fault.specs.declared.fault.StoreFault.TheVariants.{NoMemory};
ghost use Rattle.store.specs.Import.{import_causes};
ghost use Rattle.store.specs.NewStore.{IsBeside, IsSource};

use disk_model::{Disk, rewrite};
use grammar_norm::{Grammar, LabelTable, Normal, normalise, read_grammar};
use import_text::{Copied, copy_edges};
use io_edge::Inputs;
use manifest_codec::{EDGES_FILE, GRAMMAR_FILE};
use open_store::StoreFault;
use std::alloc::Global;

/// Both texts, read and copied.
#[derive(Drop)]
pub(crate) struct Source {
    pub grammar_len: u64,
    pub normal: Normal,
    pub copied: Copied,
}

// The rules of a grammar's text without a fault, and its names.
fn read_good(alloc: Global, grammar: &[u8]) -> Result<(Grammar, LabelTable), StoreFault>
    requires { grammar_fault grammar.now ≡ None }
    ensures read { IfOk result (λ x. ReadsGrammar grammar.now x.0 x.1) }
    ensures memory { IfErr result (λ e. e ≡ NoMemory) }
{
    match read_grammar(alloc, grammar) {
        Ok(read) => Ok(read),
        // Such a text has no fault, so memory was wanted.
        Err(_) => Err(StoreFault::NoMemory),
    }
}

/// Reads both texts and copies them to files 2 and 3.
pub(crate) fn copy_texts<I: Inputs, D: Disk>(
    alloc: Global,
    inputs: &mut I,
    edges: &str,
    grammar: &[u8],
    disk: &mut D,
) -> Result<Source, StoreFault>
    requires { grammar_fault grammar.now ≡ None }
    ensures source { IfOk result (IsSource grammar.now (I.told inputs.old edges.now) (IsTrue D.tells) (D.seen disk.new)) }
    ensures any_moment { LeavesBy D.Disk disk.old disk.new IsBeside }
    ensures cause { HasReason why_of (import_causes grammar.now (I.told inputs.old edges.now) (IsTrue D.tells)
        (ReadRose I.Inputs inputs.old inputs.new edges.now) (DiskRose D.Disk disk.old disk.new)) result }
    ensures keeps { KeepsInputs I.Inputs inputs.old inputs.new }
    ensures later { D.faults disk.old ≤ D.faults disk.new }
{
    let (rules, names) = read_good(alloc, grammar)?;
    let normal = normalise(alloc, &rules)?;
    rewrite(disk, GRAMMAR_FILE, grammar)?;
    let copied = copy_edges(alloc, inputs, edges, names, disk, EDGES_FILE)?;
    Ok(Source {
        grammar_len: grammar.len() as u64,
        normal,
        copied,
    })
}
