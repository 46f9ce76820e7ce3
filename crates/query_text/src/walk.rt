//! Partitions are loaded one after the other, and their edges shown.
ghost use Rattle.std.specs.Prelude.{◌≡◌, ◌<◌, ◌≤◌, ◌+◌, ◌-◌, ℕ, IsTrue, List, length, IfOk};
ghost use Rattle.faults.specs.Reasons.{HasReason};
ghost use Rattle.io_edge.specs.View.{WriteRose};
ghost use Rattle.disk_model.specs.View.{DiskRose, OnlyLooks};
ghost use Rattle.graph_words.specs.declared.types.Born.{Born as ABorn};
ghost use Rattle.closing_machine.specs.Parts.{all_edges};
ghost use Rattle.open_store.specs.Store.{IsOpenStore};
ghost use Rattle.query_text.specs.Answered.{IsBlamed, ArePartsPrinted, print_causes, why_not_printed};
ghost use Rattle.query_text.specs.Shown.{IsGathered, shown_in, shown_text};

use crate::fault::AnswerFault;
use crate::load::load;
use crate::show::Show;
use disk_model::Disk;
use io_edge::Sink;
use open_store::Store;
use std::alloc::Global;
use text_page::Page;

/// The partitions from number `first` on, up to before number `end`, and which of their edges are shown.
#[derive(Clone, Copy)]
pub(crate) struct Walk<'a> {
    pub(crate) store: &'a Store,
    pub(crate) first: usize,
    pub(crate) end: usize,
    pub(crate) show: Show,
}

impl Walk<'_> {
    // Loads a partition, and shows its edges.
    fn show_part<D: Disk, O: Sink>(
        &self,
        alloc: Global,
        disk: &mut D,
        i: usize,
        page: &mut Page,
        sink: &mut O,
    ) -> Result<u64, AnswerFault>
        requires { i < length self.now.store.now.manifest.parts }
        ensures gathered { (read : List (List ABorn))
            × IsGathered self.now.store.now D.tells (D.seen disk.old) i 1 self.now.show (O.told sink.old) page.old
            (O.told sink.new) page.new result read }
        ensures looks { OnlyLooks D.Disk disk.old disk.new }
        ensures writes { O.faults sink.old ≤ O.faults sink.new }
        ensures cause { HasReason why_not_printed (print_causes (WriteRose O.Sink sink.old sink.new) (DiskRose D.Disk disk.old disk.new)
            (IsBlamed self.now.store.now D.tells (D.seen disk.old) i 1)) result }
    {
        let part = load(alloc, disk, self.store, i)?;
        let shown = self
            .show
            .put_edges(page, sink, &self.store.manifest().labels, part.edges())?;
        Ok(shown)
    }

    // Shows the edges of each of the partitions.
    fn show_each<D: Disk, O: Sink>(
        &self,
        alloc: Global,
        disk: &mut D,
        page: &mut Page,
        sink: &mut O,
    ) -> Result<u64, AnswerFault>
        requires open { IsOpenStore self.now.store.now }
        requires order { self.now.first ≤ self.now.end }
        requires there { self.now.end ≤ length self.now.store.now.manifest.parts }
        ensures gathered { (read : List (List ABorn))
            × IsGathered self.now.store.now D.tells (D.seen disk.old) self.now.first (self.now.end - self.now.first)
            self.now.show (O.told sink.old) page.old (O.told sink.new) page.new result read }
        ensures looks { OnlyLooks D.Disk disk.old disk.new }
        ensures writes { O.faults sink.old ≤ O.faults sink.new }
        ensures cause { HasReason why_not_printed (print_causes (WriteRose O.Sink sink.old sink.new) (DiskRose D.Disk disk.old disk.new)
            (IsBlamed self.now.store.now D.tells (D.seen disk.old) self.now.first (self.now.end - self.now.first))) result }
    {
        let mut shown = 0;
        for i in self.first..self.end {
            shown += self.show_part(alloc, disk, i, page, sink)?;
        }
        Ok(shown)
    }

    /// Shows the edges of the partitions, and answers how many lines that are.
    ///
    /// One partition is in memory at a time, and the lines go to the sink in pieces of up to 16,384 bytes.
    pub(crate) fn show_parts<D: Disk, O: Sink>(
        &self,
        alloc: Global,
        disk: &mut D,
        sink: &mut O,
    ) -> Result<u64, AnswerFault>
        requires open { IsOpenStore self.now.store.now }
        requires order { self.now.first ≤ self.now.end }
        requires there { self.now.end ≤ length self.now.store.now.manifest.parts }
        ensures printed { (read : List (List ABorn))
            × ArePartsPrinted self.now.store.now D.tells (D.seen disk.old) self.now.first (self.now.end - self.now.first)
            (shown_text self.now.show self.now.store.now.manifest.labels) (O.told sink.old) (O.told sink.new) result read
            × IfOk result (λ n. n ≡ length (shown_in self.now.show self.now.store.now.manifest.labels (all_edges read))) }
        ensures looks { OnlyLooks D.Disk disk.old disk.new }
        ensures writes { O.faults sink.old ≤ O.faults sink.new }
        ensures cause { HasReason why_not_printed (print_causes (WriteRose O.Sink sink.old sink.new) (DiskRose D.Disk disk.old disk.new)
            (IsBlamed self.now.store.now D.tells (D.seen disk.old) self.now.first (self.now.end - self.now.first))) result }
    {
        let mut page = Page::new();
        let shown = self.show_each(alloc, disk, &mut page, sink)?;
        page.flush(sink)?;
        Ok(shown)
    }
}
