//! What is said of a store and its folder.
use crate::line::Line;
use disk_model::FormKind;

// What breaks in a file of the store.
fn kind_text(kind: FormKind) -> &'static str {
    match kind {
        FormKind::BadMagic => "it doesn't begin as a file of a store does, or is of a later format",
        FormKind::Short => "it ends too early",
        FormKind::Extra => "bytes stand behind its end",
        FormKind::BadNumber => "a number is out of its range",
        FormKind::BadLabel => "a label is none, or not that of the grammar",
        FormKind::RepeatedLabel => "a label stands twice",
        FormKind::BadParts => "its partitions don't cover the vertices in order",
        FormKind::BadFile => "a partition's file has a number that it can't have",
        FormKind::BadCount => "a count of edges is more than there can be",
        FormKind::BadMark => "a mark is above the round",
        FormKind::BadBounds => "it is of another interval of vertices",
        FormKind::BadOrder => "its edges don't ascend",
        FormKind::BadVertex => "a vertex is none of the graph's",
        FormKind::BadBirth => "an edge is of a round that hasn't been",
        FormKind::BadText => "the kept copy of a file isn't the one that was imported",
        FormKind::Counts => "it has other edges than the manifest counts",
        FormKind::Generations => "both slots are open and of one generation",
        FormKind::NoCause => "an edge follows from no others",
    }
}

// The name of a file of the store, with four digits.
fn file_name(line: &mut Line, file: u32) {
    line.text("/g");
    if file < 1000 {
        line.text("0");
    }
    if file < 100 {
        line.text("0");
    }
    if file < 10 {
        line.text("0");
    }
    line.number(u64::from(file));
}

/// A file of the store is damaged.
pub(crate) fn say_damage(line: &mut Line, folder: &str, file: u32, place: u64, kind: FormKind) {
    line.path(folder);
    file_name(line, file);
    line.text(" is damaged at byte ");
    line.number(place);
    line.text(": ");
    line.text(kind_text(kind));
    line.text("; no run mends it, take an empty folder");
}

/// There is no store in the folder.
pub(crate) fn say_no_store(line: &mut Line, folder: &str) {
    line.path(folder);
    line.text(": nothing was imported here, or not to its end; first close a graph: graspan ");
    line.path(folder);
    line.text(" run EDGES GRAMMAR");
}

/// The store isn't closed.
pub(crate) fn say_unfinished(line: &mut Line, folder: &str) {
    line.path(folder);
    line.text(
        ": a run was stopped here, or runs now; run it again with the same two files, and it goes on",
    );
}

/// Another process works in the store's folder.
pub(crate) fn say_locked(line: &mut Line, folder: &str, process: Option<u32>) {
    line.path(folder);
    line.text(": ");
    match process {
        Some(number) => {
            line.text("process ");
            line.number(u64::from(number));
        }
        None => line.text("another process"),
    }
    line.text(" runs here, and a store takes one run at a time; run again when it has ended");
}

/// Standard output couldn't be written.
pub(crate) fn say_output(line: &mut Line, folder: &str) {
    line.text("standard output couldn't be written to its end; the store in ");
    line.path(folder);
    line.text(" is as it should be, so call the command again to print");
}
