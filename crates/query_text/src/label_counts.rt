//! How many edges each label has.
ghost use Rattle.std.specs.Prelude.{◌≡◌, ◌≢◌, ◌⊎◌, ◌<◌, ◌≤◌, ◌+◌, ◌++◌, ◌^◌, ◌∷◌, [], ℕ, IsTrue, List, length, slice_index_or};
ghost use Rattle.std.specs.Prelude.{IfErr, IfOk, OnOk, OnErr};
ghost use Rattle.faults.specs.Reasons.{HasReason, blames_none};
ghost use Rattle.io_edge.specs.View.{WriteRose};
ghost use Rattle.disk_model.specs.View.{DiskRose, OnlyLooks, on_disk};
ghost use Rattle.graph_words.specs.declared.types.Born.{Born as ABorn};
ghost use Rattle.faults.specs.Counts.{HasCause};
ghost use Rattle.io_edge.specs.Devices.{Takes};
ghost use Rattle.closing_machine.specs.Parts.{all_edges};
ghost use Rattle.label_table.specs.Names.{IsTable};
ghost use Rattle.open_store.specs.Store.{IsOpenStore};
ghost use Rattle.text_page.specs.Gathered.{Gathers};
ghost use Rattle.query_text.specs.Text.{tally_text};
ghost use Rattle.query_text.specs.Answered.{AreListedIn, AreRead, IsBlamed, ArePartsPrinted, print_causes, why_not_printed};
ghost use Rattle.query_text.specs.Shown.{AreTallied};
ghost use Rattle.query_text.specs.declared.fault.AnswerFault.TheVariants.{WriteFault};

use crate::fault::AnswerFault;
use crate::lines::label_line;
use crate::load::load;
use disk_model::Disk;
use graph_words::{Born, LabelId};
use io_edge::{Failed, Sink};
use label_table::{LabelTable, Name};
use open_store::Store;
use std::alloc::Global;
use text_page::Page;

// Counts one more at the number of a label, where it has a name.
fn count_label(counts: &mut Vec<u64>, label: LabelId)
    requires { (l : ℕ) → slice_index_or counts.old.items l 0 + 1 < 2 ^ 64 }
    ensures tallied { (named : ℕ) (edges : List ABorn) (b : ABorn) → b.edge.label ≡ label
        → AreTallied named edges counts.old.items → AreTallied named (edges ++ b ∷ []) counts.new.items }
    ensures little { (l : ℕ) → slice_index_or counts.new.items l 0 ≤ slice_index_or counts.old.items l 0 + 1 }
{
    let l = usize::from(label.0);
    if l < counts.len() {
        counts[l] += 1;
    }
}

// Counts each of the edges.
fn count_edges(counts: &mut Vec<u64>, edges: &[Born])
    requires { (l : ℕ) → slice_index_or counts.old.items l 0 + length edges.now < 2 ^ 64 }
    ensures { (named : ℕ) (before : List ABorn) → AreTallied named before counts.old.items → AreTallied named (before ++ edges.now) counts.new.items }
{
    for born in edges {
        count_label(counts, born.edge.label);
    }
}

// Counts the edges of partition `i`, those before it having been counted.
fn count_part<D: Disk>(
    alloc: Global,
    disk: &mut D,
    store: &Store,
    i: usize,
    counts: &mut Vec<u64>,
) -> Result<(), AnswerFault>
    requires open { IsOpenStore store.now }
    requires i { i < length store.now.manifest.parts }
    requires tallied { (read : List (List ABorn)) × AreRead store.now D.tells (D.seen disk.old) 0 read
        × (length read ≡ i) × AreTallied (length store.now.manifest.labels) (all_edges read) counts.old.items }
    ensures tallied { OnOk result ((read : List (List ABorn)) × AreRead store.now D.tells (D.seen disk.old) 0 read
        × (length read ≡ i + 1) × AreTallied (length store.now.manifest.labels) (all_edges read) counts.new.items) }
    ensures looks { OnlyLooks D.Disk disk.old disk.new }
    ensures cause { HasReason why_not_printed (on_disk D.Disk disk.old disk.new
        (IsBlamed store.now D.tells (D.seen disk.old) 0 (length store.now.manifest.parts))) result }
{
    let part = load(alloc, disk, store, i)?;
    count_edges(counts, part.edges());
    Ok(())
}

// How many edges each named label has.
fn count_labels<D: Disk>(
    alloc: Global,
    disk: &mut D,
    store: &Store,
) -> Result<Vec<u64>, AnswerFault>
    ensures tallied { IfOk result (λ v. (read : List (List ABorn))
        × AreRead store.now D.tells (D.seen disk.old) 0 read × (length read ≡ length store.now.manifest.parts)
        × AreTallied (length store.now.manifest.labels) (all_edges read) v.items) }
    ensures looks { OnlyLooks D.Disk disk.old disk.new }
    ensures cause { HasReason why_not_printed (on_disk D.Disk disk.old disk.new
        (IsBlamed store.now D.tells (D.seen disk.old) 0 (length store.now.manifest.parts))) result }
{
    let mut counts = vec![in alloc; 0; store.manifest().labels.len()]?;
    for i in 0..store.intervals().len() {
        count_part(alloc, disk, store, i, &mut counts)?;
    }
    Ok(counts)
}

// Puts the line of each name and its count.
fn put_lines<O: Sink>(
    page: &mut Page,
    sink: &mut O,
    names: &[Name],
    counts: &[u64],
) -> Result<(), Failed>
    requires table { IsTable names.now }
    requires counts { length counts.now ≡ length names.now }
    ensures gathered { (edges : List ABorn) → AreTallied (length names.now) edges counts.now
        → Gathers (O.told sink.old) page.old (O.told sink.new) page.new result (tally_text names.now edges) }
    ensures cause { HasCause (O.faults sink.old) (O.faults sink.new) result }
{
    for (l, name) in names.iter().enumerate() {
        page.put(sink, label_line(name.as_slice(), counts[l]).as_slice())?;
    }
    Ok(())
}

// Prints the line of each name and its count.
fn print_lines<O: Sink>(sink: &mut O, table: &LabelTable, counts: &[u64]) -> Result<(), AnswerFault>
    requires { length counts.now ≡ length table.now }
    ensures taken { (edges : List ABorn) → AreTallied (length table.now) edges counts.now
        → Takes (O.told sink.old) (O.told sink.new) result (tally_text table.now edges) }
    ensures alone { IfErr result (λ fault. fault ≡ WriteFault) }
    ensures writes { O.faults sink.old ≤ O.faults sink.new }
    ensures cause { HasReason why_not_printed (print_causes (WriteRose O.Sink sink.old sink.new) ⊥
        blames_none) result }
{
    let mut page = Page::new();
    put_lines(&mut page, sink, table.names(), counts)?;
    page.flush(sink)?;
    Ok(())
}

/// Prints for each named label, by its number, the line `label`, its name, and how many listed edges have it.
///
/// Each partition is read first, one at a time; then the lines go to the sink in pieces of up to 16,384
/// bytes. Faults come as those of `answers`. Where the disk failed or a partition was refused, nothing was
/// printed.
pub fn tally<D: Disk, O: Sink>(
    alloc: Global,
    disk: &mut D,
    store: &Store,
    sink: &mut O,
) -> Result<(), AnswerFault>
    // On any disk: the counts are those of partitions that were read, of all of them or nothing was printed.
    ensures printed { (read : List (List ABorn))
        × ArePartsPrinted store.now D.tells (D.seen disk.old) 0 (length store.now.manifest.parts)
        (tally_text store.now.manifest.labels) (O.told sink.old) (O.told sink.new) result read
        × ((length read ≡ length store.now.manifest.parts) ⊎ (sink.new ≡ sink.old)) }

    // Where the disk tells its contents, they are those of all partitions that it lists.
    ensures listed { IsTrue D.tells → (parts : List (List ABorn)) → AreListedIn store.now (D.seen disk.old) parts
        → Takes (O.told sink.old) (O.told sink.new) result
        (tally_text store.now.manifest.labels (all_edges parts)) }

    // Where it fails and no write did, nothing was printed.
    ensures nothing { IfErr result (λ fault. fault ≢ WriteFault → sink.new ≡ sink.old) }

    ensures looks { OnlyLooks D.Disk disk.old disk.new }
    ensures writes { O.faults sink.old ≤ O.faults sink.new }
    ensures cause { HasReason why_not_printed (print_causes (WriteRose O.Sink sink.old sink.new) (DiskRose D.Disk disk.old disk.new)
        (IsBlamed store.now D.tells (D.seen disk.old) 0 (length store.now.manifest.parts))) result }
{
    let counts = count_labels(alloc, disk, store)?;
    print_lines(sink, &store.manifest().labels, &counts)
}
