//! The program `graspan`: hands its words, its files, the folder of its store and standard output to the command, and ends with its status.
#![tactic(auto)]

mod clear_sink;
mod failure;
mod folder_lock;
mod fs_disk;
mod fs_inputs;
mod heading;
mod help;
mod hint;
mod line_text;
mod progress;
#[cfg(test)]
mod sentences;
#[cfg(test)]
mod tests;
mod words;

use clear_sink::ClearSink;
use command_words::{Command, WordsFault, read_command};
use fs_disk::FsDisk;
use fs_inputs::FsInputs;
use graspan_top::{Status, graspan};
use help::{HELP, VERSION};
use hint::{budget_of, print_hint, tell};
use hints::Fault;
use io_edge::{OutSink, Sink, WordList};
use progress::{Progress, Shown};
use std::fs::{File, OpenFile as _};
use std::io;
use std::io::IsTerminal;
use std::process::ExitCode;
use std::rt::{Env, Files};
use std::time::Clock;
use words::{ProgramWords, program_words};

/// Prints a text of the program's own.
fn say<O: Sink>(out: &mut O, text: &str) -> Status {
    match out.write(text.as_bytes()) {
        Ok(()) => Status::Done,
        Err(_) => Status::WriteFault,
    }
}

/// Prints the line of a fault that main itself has met. Where it can't be written the status stays.
fn refuse<O: Sink>(out: &mut O, line: &str, status: Status) -> Status {
    let _ = out.write(line.as_bytes());
    status
}

/// The disk of a command. Where it asks for no store, or the words have no reading, no folder is made.
fn disk_of<'a, R: Files<File = File> + AllocGlobal + Clock + Eprint>(
    rt: &'a R,
    folder: &str,
    words: &WordList,
    progress: &'a Progress<'a, R>,
) -> FsDisk<'a, R> {
    match read_command(rt.alloc(), words) {
        Ok(Command::Emit { .. }) => FsDisk::without_folder(rt, progress),
        Err(WordsFault::Words) => FsDisk::without_folder(rt, progress),
        _ => FsDisk::new(rt, folder, progress),
    }
}

/// Carries out a command on the store in a folder, and tells a person what it ended with.
fn carry_out<R: Files<File = File> + AllocGlobal + Clock + Eprint, O: Sink>(
    rt: &R,
    folder: &str,
    words: &WordList,
    progress: &Progress<'_, R>,
    out: &mut O,
) -> Status {
    let mut inputs = FsInputs::new(rt, progress);
    let mut disk = disk_of(rt, folder, words, progress);
    let status = graspan(rt.alloc(), words, &mut inputs, &mut disk, out);
    progress.clear();
    tell(rt, folder, words, &mut inputs, &disk, status);
    if status == Status::Done {
        if let Some(budget) = budget_of(rt.alloc(), words) {
            progress.say_budget(budget);
        }
    }
    status
}

/// Carries out what the words say. The first one is the folder of the store, or the only one asks for help.
fn start<R: Files<File = File> + AllocGlobal + Clock + Eprint, O: Sink>(
    rt: &R,
    given: &ProgramWords,
    progress: &Progress<'_, R>,
    out: &mut O,
) -> Status {
    let store = match &given.store {
        Some(store) => store.as_str(),
        None => "",
    };
    let alone = given.command.len() == 0;
    match store {
        "" => {
            let status = refuse(out, "fault words\n", Status::Words);
            let words = &given.command;
            print_hint(rt, Fault::Words { folder: "", words });
            status
        }
        "--help" if alone => say(out, HELP),
        "--version" if alone => say(out, VERSION),
        _ => carry_out(rt, store, &given.command, progress, out),
    }
}

/// Where the line of progress is shown, as a value of GRASPAN_PROGRESS says, and else on a terminal alone.
fn place_of(value: &[u8], is_terminal: bool) -> Shown {
    match (value, is_terminal) {
        (b"0", _) => Shown::Nowhere,
        (_, true) => Shown::Terminal,
        (b"1", false) => Shown::Plain,
        _ => Shown::Nowhere,
    }
}

/// Where the line of progress is shown.
fn shown<R: Env>(rt: &R, is_terminal: bool) -> Shown {
    let mut buf = [0u8; 8];
    let len = match rt.var("GRASPAN_PROGRESS", &mut buf) {
        Ok(len) => len.min(buf.len()),
        Err(_) => 0,
    };
    place_of(&buf[..len], is_terminal)
}

/// A file of nothing, which is held so that no other file takes its number.
fn nothing<R: Files>(rt: &R) -> Option<R::File> {
    File::open(rt, "/dev/null").ok()
}

fn main(rt: HostRuntime) -> ExitCode {
    // Where the caller closed a standard stream, the next file that is opened would take its number, and what is printed
    // would go into a store. These take it instead, and a print to them fails.
    let _held = (nothing(&rt), nothing(&rt), nothing(&rt));
    let progress = Progress::new(&rt, shown(&rt, rt.stderr().is_terminal()));
    let mut out = ClearSink::new(OutSink::new(io::writer(&rt)), &progress);
    let status = match program_words(&rt) {
        Ok(given) => start(&rt, &given, &progress, &mut out),
        Err(_) => {
            let status = refuse(&mut out, "fault memory\n", Status::NoMemory);
            print_hint(&rt, Fault::Memory);
            status
        }
    };
    ExitCode::from(status.code())
}
