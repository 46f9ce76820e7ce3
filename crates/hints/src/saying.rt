//! The sentence of a fault.
use crate::fault::Fault;
use crate::line::Line;
use crate::reason::say_reason;
use crate::store::{say_damage, say_locked, say_no_store, say_output, say_unfinished};
use crate::text::{say_input, say_other};
use crate::words::{say_not_known, say_words};
use std::io::ErrorKind;

// A file couldn't be read.
fn say_read(line: &mut Line, name: &str, reason: Option<ErrorKind>) {
    line.text("cannot read ");
    if name.is_empty() {
        line.text("one of the two files");
    } else {
        line.path(name);
    }
    say_reason(line, reason);
}

// The folder couldn't be made.
fn say_folder(line: &mut Line, folder: &str, reason: Option<ErrorKind>) {
    line.text("cannot make the folder ");
    line.path(folder);
    match reason {
        Some(ErrorKind::NotFound) => line.text(": the folder above it isn't there"),
        Some(ErrorKind::AlreadyExists) => line.text(": a file has this name"),
        _ => say_reason(line, reason),
    }
}

// A call of the store's folder failed.
fn say_disk(line: &mut Line, folder: &str, reason: Option<ErrorKind>) {
    line.text("the folder ");
    line.path(folder);
    line.text(" can't be read or written");
    say_reason(line, reason);
    line.text("; once it can, run again, and it goes on");
}

fn say_memory(line: &mut Line) {
    line.text(
        "memory ran out; run again with more and it goes on, or with a smaller --part-edges in an empty folder",
    );
}

/// What is said of a fault: `graspan: ` and one sentence, with no line feed.
///
/// Every fault has one, and it takes no memory. Bytes of files and words that a terminal wouldn't show stand in it as
/// `\xNN`.
pub fn sentence(fault: Fault<'_>) -> Line {
    let mut line = Line::new();
    line.text("graspan: ");
    say(&mut line, fault);
    line
}

fn say(line: &mut Line, fault: Fault<'_>) {
    match fault {
        Fault::Words { folder, words } => say_words(line, folder, words),
        Fault::Input {
            file,
            name,
            line: number,
            kind,
            text,
        } => say_input(line, file, name, number, kind, text),
        Fault::Other {
            folder,
            file,
            name,
            place,
        } => say_other(line, folder, file, name, place),
        Fault::Read { name, reason } => say_read(line, name, reason),
        Fault::Folder { folder, reason } => say_folder(line, folder, reason),
        Fault::Disk { folder, reason } => say_disk(line, folder, reason),
        Fault::Locked { folder, process } => say_locked(line, folder, process),
        Fault::Output { folder } => say_output(line, folder),
        Fault::Memory => say_memory(line),
        Fault::Store {
            folder,
            file,
            place,
            kind,
        } => say_damage(line, folder, file, place, kind),
        Fault::NoStore { folder } => say_no_store(line, folder),
        Fault::Unfinished { folder } => say_unfinished(line, folder),
        Fault::NotKnown { folder, words } => say_not_known(line, folder, words),
    }
}
