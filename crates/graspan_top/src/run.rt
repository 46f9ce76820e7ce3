//! The command `run`: imports or resumes, closes and prints.
ghost use Rattle.std.specs.Prelude.{◌≡◌, ◌≤◌, ◌++◌, ℕ, List, Option, Some, IsTrue, IfErr, IfOk, OnOk, OnErr, length, option_map};
ghost use Rattle.faults.specs.Reasons.{HasReason};
ghost use Rattle.graph_words.specs.declared.types.Born.{Born as ABorn};
ghost use Rattle.io_edge.specs.Devices.{AppendsPrefix, Takes};
ghost use Rattle.io_edge.specs.View.{KeepsInputs, WriteRose};
ghost use Rattle.closing_machine.specs.Parts.{all_edges};
ghost use Rattle.disk_model.specs.Disk.{Contents};
ghost use Rattle.disk_model.specs.View.{DiskRose, OnlyLooks};
ghost use Rattle.store_law.specs.Left.{HasNoWork, IsLeft};
ghost use Rattle.store_law.specs.Listed.{AreExact};
ghost use Rattle.open_store.specs.Store.{IsHeld};
ghost use Rattle.store.specs.Import.{texts_of};
ghost use Rattle.query_text.specs.Text.{head_text, tally_text};
ghost use Rattle.query_text.specs.Answered.{AreListedIn, IsBlamed, print_causes, why_not_printed};
ghost use Rattle.graspan_top.specs.declared.status.Status.TheVariants.{Done};
ghost use Rattle.graspan_top.specs.Given.{Given as AGiven};
ghost use Rattle.graspan_top.specs.Printed.{Begins, IsNothingOr, PrintsFirst, status_of};
ghost use Rattle.graspan_top.specs.Refusals.{Explained, Refuses, rises_in, rises_of};
ghost use Rattle.graspan_top.specs.Run.{AreTold, IsRunBegun, IsRunText, closed_stages, done_line, run_stages};
ghost use Rattle.graspan_top.specs.Stages.{IsReady, IsShowBegun, show_stages, shown_text};
ghost use Rattle.graspan_top.specs.Stops.{KeepsWork, Spares};

use crate::labels::shown_number;
use crate::ready_store::{Files, ready_store};
use crate::status::Status;
use closer::run_to_end;
use closing_options::RunOptions;
use disk_model::Disk;
use graph_words::LabelId;
use io_edge::{Inputs, Sink};
use query_text::{AnswerFault, answers, head, tally};
use std::alloc::Global;
use store::Store;

/// Prints the answers of the label that is shown, where one is.
fn print_shown<D: Disk, O: Sink>(
    alloc: Global,
    disk: &mut D,
    store: &Store,
    shown: Option<LabelId>,
    out: &mut O,
) -> Result<(), AnswerFault>
    ensures printed { IsTrue D.tells → (parts : List (List ABorn)) → AreListedIn store.now (D.seen disk.old) parts
        → Takes (O.told out.old) (O.told out.new) result (shown_text shown (all_edges parts)) }
    ensures looks { OnlyLooks D.Disk disk.old disk.new }
    ensures writes { O.faults out.old ≤ O.faults out.new }
    ensures cause { HasReason why_not_printed (print_causes (WriteRose O.Sink out.old out.new) (DiskRose D.Disk disk.old disk.new)
        (IsBlamed store.now D.tells (D.seen disk.old) 0 (length store.now.manifest.parts))) result }
{
    match shown {
        None => Ok(()),
        Some(label) => {
            answers(alloc, disk, store, label, None, None, out)?;
            Ok(())
        }
    }
}

/// Prints what a run prints of a store without work left.
fn print_run<D: Disk, O: Sink>(
    alloc: Global,
    disk: &mut D,
    store: &Store,
    shown: Option<LabelId>,
    out: &mut O,
) -> Result<(), AnswerFault>
    ensures printed { IsTrue D.tells → (parts : List (List ABorn)) → AreListedIn store.now (D.seen disk.old) parts
        → Takes (O.told out.old) (O.told out.new) result
        (head_text store.now.manifest ++ (tally_text store.now.manifest.labels (all_edges parts)
        ++ (shown_text shown (all_edges parts) ++ done_line))) }
    ensures begun { IsTrue D.tells → OnErr result
        ((text : List ℕ) × IsShowBegun store.now (D.seen disk.old) shown text
        × AppendsPrefix (O.told out.old) (O.told out.new) text) }
    ensures listed { IsTrue D.tells → OnOk result ((parts : List (List ABorn))
        × AreListedIn store.now (D.seen disk.old) parts × AreTold store.now.manifest parts) }
    ensures looks { OnlyLooks D.Disk disk.old disk.new }
    ensures writes { O.faults out.old ≤ O.faults out.new }
    ensures cause { HasReason why_not_printed (print_causes (WriteRose O.Sink out.old out.new) (DiskRose D.Disk disk.old disk.new)
        (IsBlamed store.now D.tells (D.seen disk.old) 0 (length store.now.manifest.parts))) result }
{
    head(store, out)?;
    tally(alloc, disk, store, out)?;
    print_shown(alloc, disk, store, shown, out)?;
    out.write(b"done\n")?;
    Ok(())
}

/// Looks for the label that is shown, and prints.
fn show_run<D: Disk, O: Sink>(
    alloc: Global,
    disk: &mut D,
    store: &Store,
    show: Option<&str>,
    out: &mut O,
) -> Result<(), Status>
    requires held { IsTrue D.tells → IsHeld store.now (D.seen disk.old) }
    requires done { HasNoWork store.now.manifest }
    ensures explained { Explained (show_stages store.now D.tells (D.seen disk.old) (option_map (λ l. l.now) show.entry)
        (DiskRose D.Disk disk.old disk.new) (WriteRose O.Sink out.old out.new)) (status_of result) }
    ensures printed { PrintsFirst D.tells (IsRunText (D.seen disk.old) (option_map (λ l. l.now) show.entry))
        (O.told out.old) (O.told out.new) (status_of result) }
    ensures begun { Begins D.tells (IsNothingOr (IsRunBegun (D.seen disk.old) (option_map (λ l. l.now) show.entry)))
        (O.told out.old) (O.told out.new) (status_of result) }
    ensures looks { OnlyLooks D.Disk disk.old disk.new }
    ensures writes { O.faults out.old ≤ O.faults out.new }
{
    let shown = shown_number(store.manifest(), show)?;
    Ok(print_run(alloc, disk, store, shown, out)?)
}

/// The store of the two files, closed.
fn closed_store<I: Inputs, D: Disk>(
    alloc: Global,
    files: &Files<'_>,
    options: &RunOptions,
    inputs: &mut I,
    disk: &mut D,
) -> Result<Store, Status>
    ensures ready { IfOk result (IsReady (record
        { told = I.told inputs.old; tells = D.tells; before = D.seen disk.old }) files.now.edges.now
        files.now.grammar.now (D.seen disk.new) (D.may_leave disk.new)) }
    ensures done { IfOk result (λ s. HasNoWork s.manifest) }
    ensures refused { IfErr result (Refuses (closed_stages
        (record { told = I.told inputs.old; tells = D.tells; before = D.seen disk.old }) files.now.edges.now
        files.now.grammar.now (D.seen disk.new) (rises_in I.Inputs D.Disk inputs.old inputs.new disk.old disk.new))) }
    ensures stops { KeepsWork D.Disk (I.told inputs.old) files.now.edges.now files.now.grammar.now disk.old disk.new }
    ensures spares { Spares D.Disk (record { told = I.told inputs.old; tells = D.tells; before = D.seen disk.old })
        files.now.edges.now files.now.grammar.now (status_of result) disk.old disk.new }
    ensures keeps { KeepsInputs I.Inputs inputs.old inputs.new }
    ensures later { D.faults disk.old ≤ D.faults disk.new }
{
    let store = ready_store(alloc, files, options.part_edges, inputs, disk)?;
    Ok(run_to_end(alloc, disk, store, options)?)
}

/// Makes or finds the store of the two files, closes it, and prints.
pub(crate) fn run<I: Inputs, D: Disk, O: Sink>(
    alloc: Global,
    files: &Files<'_>,
    options: &RunOptions,
    show: Option<&str>,
    inputs: &mut I,
    disk: &mut D,
    out: &mut O,
) -> Result<(), Status>
    ensures explained { Explained (run_stages (record { told = I.told inputs.old; tells = D.tells; before = D.seen disk.old })
        files.now.edges.now files.now.grammar.now (option_map (λ l. l.now) show.entry) (D.seen disk.new)
        (rises_of I.Inputs D.Disk O.Sink inputs.old inputs.new disk.old disk.new out.old out.new)) (status_of result) }
    ensures printed { PrintsFirst D.tells (IsRunText (D.seen disk.new) (option_map (λ l. l.now) show.entry))
        (O.told out.old) (O.told out.new) (status_of result) }
    ensures begun { Begins D.tells (IsNothingOr (IsRunBegun (D.seen disk.new) (option_map (λ l. l.now) show.entry)))
        (O.told out.old) (O.told out.new) (status_of result) }
    ensures exact { IsTrue D.tells → (g e : List ℕ) → I.told inputs.old files.now.grammar.now ≡ Some g
        → I.told inputs.old files.now.edges.now ≡ Some e → IsLeft (texts_of g e) (D.seen disk.old)
        → status_of result ≡ Done
        → AreExact (texts_of g e) (D.seen disk.new) × ((c : Contents) → D.may_leave disk.new c → AreExact (texts_of g e) c) }
    ensures stops { KeepsWork D.Disk (I.told inputs.old) files.now.edges.now files.now.grammar.now disk.old disk.new }
    ensures spares { Spares D.Disk (record { told = I.told inputs.old; tells = D.tells; before = D.seen disk.old })
        files.now.edges.now files.now.grammar.now (status_of result) disk.old disk.new }
    ensures keeps { KeepsInputs I.Inputs inputs.old inputs.new }
    ensures later { D.faults disk.old ≤ D.faults disk.new }
    ensures writes { O.faults out.old ≤ O.faults out.new }
{
    let store = closed_store(alloc, files, options, inputs, disk)?;
    show_run(alloc, disk, &store, show, out)
}
