//! What a person is told of a fault, on standard error.
use crate::folder_lock::FolderLock;
use crate::fs_disk::FsDisk;
use crate::fs_inputs::FsInputs;
use crate::line_text::line_of;
use command_words::{Command, read_command};
use graspan_top::Status;
use hints::{Fault, sentence};
use io_edge::{InputFile, InputKind, WordList};
use std::alloc::Global;
use std::fs::File;
use std::rt::Files;
use std::time::Clock;

/// Prints one sentence of a fault. Where standard error can't be written the program goes on.
pub(crate) fn print_hint<R: Eprint>(rt: &R, fault: Fault<'_>) {
    let line = sentence(fault);
    let _ = rt.eprintln(line.as_str());
}

// The name that the words give a file of a run.
fn name_of<'a>(alloc: Global, words: &'a WordList, file: InputFile) -> &'a str {
    match (read_command(alloc, words), file) {
        (Ok(Command::Run { grammar, .. }), InputFile::Grammar) => grammar,
        (Ok(Command::Run { edges, .. }), InputFile::Edges) => edges,
        (Ok(Command::Emit { source, .. }), InputFile::Source) => source,
        _ => "an input file",
    }
}

// A line of a file has a fault. Its text is read again.
fn input_hint<R: Files + AllocGlobal + Clock + Eprint>(
    rt: &R,
    words: &WordList,
    inputs: &mut FsInputs<'_, R>,
    file: InputFile,
    line: u64,
    kind: InputKind,
) {
    let name = name_of(rt.alloc(), words, file);
    let text = line_of(rt.alloc(), inputs, name, line);
    let shown = match &text {
        Some(text) => text.as_slice(),
        None => &[],
    };
    let fault = Fault::Input {
        file,
        name,
        line,
        kind,
        text: shown,
    };
    print_hint(rt, fault);
}

// What the two objects say of a call that failed.
fn read_fault<'a, R: Files + AllocGlobal + Clock + Eprint>(
    inputs: &'a FsInputs<'_, R>,
) -> Fault<'a> {
    Fault::Read {
        name: inputs.failed_name(),
        reason: inputs.reason().kind(),
    }
}

fn disk_fault<'a, R: Files<File = File> + AllocGlobal + Clock + Eprint>(
    folder: &'a str,
    disk: &FsDisk<'_, R>,
) -> Fault<'a> {
    let reason = disk.reason().kind();
    if let FolderLock::Refused(process) = *disk.lock() {
        Fault::Locked { folder, process }
    } else if disk.is_there() {
        Fault::Disk { folder, reason }
    } else {
        Fault::Folder { folder, reason }
    }
}

/// Tells a person how a command ended. Where it is done nothing is said.
pub(crate) fn tell<'a, R: Files<File = File> + AllocGlobal + Clock + Eprint>(
    rt: &R,
    folder: &'a str,
    words: &'a WordList,
    inputs: &mut FsInputs<'_, R>,
    disk: &FsDisk<'_, R>,
    status: Status,
) {
    match status {
        Status::Done => {}
        Status::Words => print_hint(rt, Fault::Words { folder, words }),
        Status::InputFault { file, line, kind } => input_hint(rt, words, inputs, file, line, kind),
        Status::OtherInput { file, place } => {
            let name = name_of(rt.alloc(), words, file);
            print_hint(
                rt,
                Fault::Other {
                    folder,
                    file,
                    name,
                    place,
                },
            );
        }
        Status::ReadFault => print_hint(rt, read_fault(inputs)),
        Status::DiskFault => print_hint(rt, disk_fault(folder, disk)),
        Status::WriteFault => print_hint(rt, Fault::Output { folder }),
        Status::NoMemory => print_hint(rt, Fault::Memory),
        Status::BadStore { file, place, kind } => {
            print_hint(
                rt,
                Fault::Store {
                    folder,
                    file,
                    place,
                    kind,
                },
            );
        }
        Status::NoStore => print_hint(rt, Fault::NoStore { folder }),
        Status::Unfinished { .. } => print_hint(rt, Fault::Unfinished { folder }),
        Status::NotKnown => print_hint(rt, Fault::NotKnown { folder, words }),
    }
}

/// The edges in memory that the words of a run allow.
pub(crate) fn budget_of(alloc: Global, words: &WordList) -> Option<u64> {
    match read_command(alloc, words) {
        Ok(Command::Run { options, .. }) => Some(options.budget),
        _ => None,
    }
}
