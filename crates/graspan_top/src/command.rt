//! The command that words mean.
ghost use Rattle.std.specs.Prelude.{◌≡◌, ◌≢◌, true, false, ◌⊎◌, ◌≤◌, ℕ, List, Option, Some, IsTrue, OnOk};
ghost use Rattle.io_edge.specs.View.{KeepsInputs, WriteRose};
ghost use Rattle.disk_model.specs.Disk.{Contents};
ghost use Rattle.disk_model.specs.View.{OnlyLooks};
ghost use Rattle.store_law.specs.Left.{IsLeft};
ghost use Rattle.store_law.specs.Listed.{AreExact};
ghost use Rattle.store.specs.Import.{texts_of};
ghost use Rattle.closing_options.specs.declared.RunOptions.{RunOptions as TheOptions};
ghost use Rattle.command_words.specs.Command.{Reading, Said, run as runs, said};
ghost use Rattle.graspan_top.specs.declared.status.Status.TheVariants.{Done, NoMemory, Words, WriteFault};
ghost use Rattle.graspan_top.specs.Call.{AreUnread, IsExplained, IsPrinted, LeavesClosure, RefusesWords, the_call};
ghost use Rattle.graspan_top.specs.Stops.{KeepsWork, Spares};
ghost use Rattle.graspan_top.specs.Command.{IsBegunOf, IsLook, IsTextOf, knows};
ghost use Rattle.graspan_top.specs.Printed.{Begins, Ends as EndsAs, PrintsFirst, status_of as the_status};

use crate::emission::emit;
use crate::looks::{Ends, dump, parts, query};
use crate::print::print_fault;
use crate::ready_store::Files;
use crate::run::run;
use crate::status::Status;
use command_words::{Command, read_command};
use disk_model::Disk;
use io_edge::{Inputs, Sink, WordList};
use std::alloc::Global;

/// Carries a command out.
fn carry_out<I: Inputs, D: Disk, O: Sink>(
    alloc: Global,
    command: Command<'_>,
    inputs: &mut I,
    disk: &mut D,
    out: &mut O,
) -> Result<(), Status>
    ensures explained { IsExplained (the_call I.Inputs D.Disk O.Sink inputs.old inputs.new disk.old disk.new out.old out.new)
        (said command.entry) (the_status result) }
    ensures printed { PrintsFirst (knows D.tells (I.told inputs.old) (said command.entry))
        (IsTextOf (I.told inputs.old) (D.seen disk.new) (said command.entry)) (O.told out.old) (O.told out.new) (the_status result) }
    ensures begun { Begins (knows D.tells (I.told inputs.old) (said command.entry))
        (IsBegunOf (I.told inputs.old) (D.seen disk.new) (said command.entry)) (O.told out.old) (O.told out.new) (the_status result) }
    ensures exact { (edges grammar : List ℕ) (options : TheOptions) (show : Option (List ℕ))
        → said command.entry ≡ runs edges grammar options show → IsTrue D.tells → (g e : List ℕ)
        → I.told inputs.old grammar ≡ Some g → I.told inputs.old edges ≡ Some e
        → IsLeft (texts_of g e) (D.seen disk.old)
        → the_status result ≡ Done → AreExact (texts_of g e) (D.seen disk.new)
        × ((c : Contents) → D.may_leave disk.new c → AreExact (texts_of g e) c) }
    ensures stops { (edges grammar : List ℕ) (options : TheOptions) (show : Option (List ℕ))
        → said command.entry ≡ runs edges grammar options show
        → KeepsWork D.Disk (I.told inputs.old) edges grammar disk.old disk.new }
    ensures spares { (edges grammar : List ℕ) (options : TheOptions) (show : Option (List ℕ))
        → said command.entry ≡ runs edges grammar options show
        → Spares D.Disk (record { told = I.told inputs.old; tells = D.tells; before = D.seen disk.old }) edges grammar
        (the_status result) disk.old disk.new }
    ensures looks { IsLook (said command.entry) → OnlyLooks D.Disk disk.old disk.new }
    ensures keeps { KeepsInputs I.Inputs inputs.old inputs.new }
    ensures later { D.faults disk.old ≤ D.faults disk.new }
    ensures writes { O.faults out.old ≤ O.faults out.new }
{
    match command {
        Command::Run {
            edges,
            grammar,
            options,
            show,
        } => run(
            alloc,
            &Files { edges, grammar },
            &options,
            show,
            inputs,
            disk,
            out,
        ),
        Command::Query { label, from, to } => query(alloc, disk, label, Ends { from, to }, out),
        Command::Emit { kind, source } => emit(alloc, kind, source, inputs, out),
        Command::Dump => dump(alloc, disk, out),
        Command::Parts => parts(alloc, disk, out),
    }
}

/// How a command ended.
fn status_of(ended: Result<(), Status>) -> Status
    ensures { result ≡ the_status ended }
{
    match ended {
        Ok(()) => Status::Done,
        Err(status) => status,
    }
}

/// Whether a status has no line.
fn is_silent(status: Status) -> bool
    ensures silent { result ≡ true → (status ≡ Done) ⊎ (status ≡ WriteFault) }
    ensures told { result ≡ false → (status ≢ Done) × (status ≢ WriteFault) }
{
    status == Status::Done || status == Status::WriteFault
}

/// Prints the line of a fault, where it has one.
fn end<O: Sink>(out: &mut O, ended: Result<(), Status>) -> Status
    ensures status { result ≡ the_status ended }
    ensures ends { EndsAs (O.told out.old) (O.told out.new) (WriteRose O.Sink out.old out.new) result }
    ensures writes { O.faults out.old ≤ O.faults out.new }
{
    let status = status_of(ended);
    if is_silent(status) {
        return status;
    }
    print_fault(out, status);
    status
}

/// Carries out what words say: `run`, `query`, `dump` or `parts` on the store that the disk holds, or `emit`.
///
/// `run EDGES GRAMMAR` imports both files to a blank disk, or finds the store that a run of them has
/// left, closes the edge file's graph under the grammar file's rules, and prints the partitions, how
/// many edges each label has, and the edges of the label of `--show`. At Done the partition files list
/// each (u, A, v) such that some path from u to v spells a word that A derives, once, and no other.
/// `query LABEL U [V]` prints the vertices that a label reaches from a vertex, `dump` each edge, and
/// `parts` the partitions and the state. These three only read. `emit KIND SOURCE` prints the graph of a C file, and
/// makes no call of the disk.
///
/// All files come from outside and may hold any bytes. Refusals come in this order. `run`: the words;
/// the grammar file read, then checked; the slots of the store, and its copy of the grammar; on an open
/// store the grammar compared, then the edges; on a blank one the edge file read and checked; the
/// closing; the label of `--show`; the printing. `query` and `dump`: the words; the slots and the copy;
/// no store; work left; what is not known; the reading and printing. `parts` asks nothing of work left. `emit`: the
/// words; the file read; its length, its tokens, its program and its graph; the printing.
/// A fault that is found before the printing prints its one line alone.
pub fn graspan<I: Inputs, D: Disk, O: Sink>(
    alloc: Global,
    words: &WordList,
    inputs: &mut I,
    disk: &mut D,
    out: &mut O,
) -> Status
    // Words are refused exactly where they have no reading, and then nothing is looked at.
    ensures words { (result ≡ Words → AreUnread words.now)
        × (AreUnread words.now → (inputs.new ≡ inputs.old) × (disk.new ≡ disk.old)
        × RefusesWords (the_call I.Inputs D.Disk O.Sink inputs.old inputs.new disk.old disk.new out.old out.new) result) }

    // Else the first stage of the command that refuses explains the answer, and at Done every stage is passed.
    ensures explained { (c : Said) → Reading words.now c
        → IsExplained (the_call I.Inputs D.Disk O.Sink inputs.old inputs.new disk.old disk.new out.old out.new) c result }

    // The command's text is printed at Done, and a prefix of one that it has or nothing before the line of a fault.
    ensures printed { (c : Said) → Reading words.now c
        → IsPrinted (the_call I.Inputs D.Disk O.Sink inputs.old inputs.new disk.old disk.new out.old out.new) c result }

    // Where the disk held what stopped runs of these files leave, or nothing, a run that is done leaves exactly the closure.
    ensures exact { (edges grammar : List ℕ) (options : TheOptions) (show : Option (List ℕ))
        → Reading words.now (runs edges grammar options show) → result ≡ Done
        → LeavesClosure D.Disk (I.told inputs.old) edges grammar disk.old disk.new }

    // A run that is stopped at any moment, also within a write, leaves what a later run goes on from, and stores of
    // whatever texts are kept, with each edge that they list.
    ensures stops { (edges grammar : List ℕ) (options : TheOptions) (show : Option (List ℕ))
        → Reading words.now (runs edges grammar options show)
        → KeepsWork D.Disk (I.told inputs.old) edges grammar disk.old disk.new }

    // A run that refuses its files leaves a store as it was, and the disk where the grammar has a fault.
    ensures spares { (edges grammar : List ℕ) (options : TheOptions) (show : Option (List ℕ))
        → Reading words.now (runs edges grammar options show)
        → Spares D.Disk (record { told = I.told inputs.old; tells = D.tells; before = D.seen disk.old }) edges grammar
        result disk.old disk.new }

    // The other commands change nothing, and no file that is read changes.
    ensures looks { (c : Said) → Reading words.now c → IsLook c → OnlyLooks D.Disk disk.old disk.new }
    ensures kept { (I.told inputs.new ≡ I.told inputs.old) × (D.faults disk.old ≤ D.faults disk.new) }
{
    match read_command(alloc, words) {
        Ok(command) => {
            let ended = carry_out(alloc, command, inputs, disk, out);
            end(out, ended)
        }
        Err(fault) => end(out, Err(Status::from(fault))),
    }
}
