//! The answers of a label, and all edges.
ghost use Rattle.std.specs.Prelude.{◌≡◌, ◌+◌, ◌<◌, ◌≤◌, IsTrue, List, length, IfOk, IfSome};
ghost use Rattle.faults.specs.Reasons.{HasReason};
ghost use Rattle.io_edge.specs.View.{WriteRose};
ghost use Rattle.disk_model.specs.View.{DiskRose, OnlyLooks};
ghost use Rattle.graph_words.specs.declared.types.Born.{Born as ABorn};
ghost use Rattle.io_edge.specs.Devices.{Takes};
ghost use Rattle.closing_machine.specs.Parts.{all_edges};
ghost use Rattle.open_store.specs.Store.{IsOpenStore};
ghost use Rattle.query_text.specs.Text.{answers_in, answers_text, dump_text};
ghost use Rattle.query_text.specs.Answered.{AreListedIn, IsBlamed, ArePartsPrinted, first_asked, print_causes, wanted, why_not_printed};

use crate::fault::AnswerFault;
use crate::show::Show;
use crate::walk::Walk;
use disk_model::Disk;
use graph_words::LabelId;
use io_edge::Sink;
use open_store::Store;
use std::alloc::Global;

// The partitions that may have edges from the vertex that is asked for, from one number to before
// another: the one that holds it, or all.
fn partitions_of(store: &Store, from: Option<u32>) -> (usize, usize)
    requires { IfSome from (λ u. u < store.now.manifest.vertices) }
    ensures first { result.0 ≡ first_asked store.now from }
    ensures end { result.1 ≡ first_asked store.now from + wanted store.now from }
    ensures there { result.1 ≤ length store.now.manifest.parts }
    ensures open { IsOpenStore store.now }
{
    match from {
        None => (0, store.intervals().len()),
        Some(u) => {
            let i = store.intervals().find(u);
            (i, i + 1)
        }
    }
}

/// Prints a line for each listed edge with a label, and answers their number.
///
/// `from` asks for the edges from one vertex, and `to` for those to one. The line is `answer`, the
/// source and the destination, with single spaces; the lines come by source and then by destination.
/// With `from` only the partition that holds this vertex is loaded, and else each, one at a time. The
/// lines go to the sink in pieces of up to 16,384 bytes.
///
/// `BadStore` comes exactly where the file of such a partition is refused, the first one that is;
/// `DiskFault` comes only where the disk's count rose, `WriteFault` only where the sink's did, and
/// `NoMemory` for want of memory. Then a prefix of the lines was printed. The disk is only looked at.
pub fn answers<D: Disk, O: Sink>(
    alloc: Global,
    disk: &mut D,
    store: &Store,
    label: LabelId,
    from: Option<u32>,
    to: Option<u32>,
    sink: &mut O,
) -> Result<u64, AnswerFault>
    requires { IfSome from (λ u. u < store.now.manifest.vertices) }

    // On any disk: the lines are those of partitions that were read, and their number is told.
    ensures printed { (read : List (List ABorn))
        × ArePartsPrinted store.now D.tells (D.seen disk.old) (first_asked store.now from) (wanted store.now from)
        (answers_text label from to) (O.told sink.old) (O.told sink.new) result read
        × IfOk result (λ n. n ≡ length (answers_in label from to (all_edges read))) }

    // Where the disk tells its contents, they are those of all partitions that it lists, or a prefix.
    ensures listed { IsTrue D.tells → (parts : List (List ABorn)) → AreListedIn store.now (D.seen disk.old) parts
        → Takes (O.told sink.old) (O.told sink.new) result (answers_text label from to (all_edges parts)) }
    ensures number { IsTrue D.tells → (parts : List (List ABorn)) → AreListedIn store.now (D.seen disk.old) parts
        → IfOk result (λ n. n ≡ length (answers_in label from to (all_edges parts))) }

    ensures looks { OnlyLooks D.Disk disk.old disk.new }
    ensures writes { O.faults sink.old ≤ O.faults sink.new }
    ensures cause { HasReason why_not_printed (print_causes (WriteRose O.Sink sink.old sink.new) (DiskRose D.Disk disk.old disk.new)
        (IsBlamed store.now D.tells (D.seen disk.old) (first_asked store.now from) (wanted store.now from))) result }
{
    let (first, end) = partitions_of(store, from);
    let walk = Walk {
        store,
        first,
        end,
        show: Show::Label { label, from, to },
    };
    walk.show_parts(alloc, disk, sink)
}

/// Prints a line for each listed edge whose label has a name: source, destination and name, with single
/// spaces, by source, label number and destination.
///
/// Edges with a fresh label are left out. One partition is in memory at a time. Faults come as those of
/// `answers`, and so does a prefix of the lines.
pub fn dump<D: Disk, O: Sink>(
    alloc: Global,
    disk: &mut D,
    store: &Store,
    sink: &mut O,
) -> Result<(), AnswerFault>
    // On any disk: the lines are those of partitions that were read.
    ensures printed { (read : List (List ABorn))
        × ArePartsPrinted store.now D.tells (D.seen disk.old) 0 (length store.now.manifest.parts)
        (dump_text store.now.manifest.labels) (O.told sink.old) (O.told sink.new) result read }

    // Where the disk tells its contents, they are those of all partitions that it lists, or a prefix.
    ensures listed { IsTrue D.tells → (parts : List (List ABorn)) → AreListedIn store.now (D.seen disk.old) parts
        → Takes (O.told sink.old) (O.told sink.new) result (dump_text store.now.manifest.labels (all_edges parts)) }

    ensures looks { OnlyLooks D.Disk disk.old disk.new }
    ensures writes { O.faults sink.old ≤ O.faults sink.new }
    ensures cause { HasReason why_not_printed (print_causes (WriteRose O.Sink sink.old sink.new) (DiskRose D.Disk disk.old disk.new)
        (IsBlamed store.now D.tells (D.seen disk.old) 0 (length store.now.manifest.parts))) result }
{
    let end = store.intervals().len();
    let walk = Walk {
        store,
        first: 0,
        end,
        show: Show::Named,
    };
    walk.show_parts(alloc, disk, sink)?;
    Ok(())
}
