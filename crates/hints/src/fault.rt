//! What is known of a fault.
use disk_model::FormKind;
use io_edge::{InputFile, InputKind, WordList};
use std::io::ErrorKind;

/// A fault, with what the program knows of its cause. Names are those that the user gave.
#[derive(Clone, Copy)]
pub enum Fault<'a> {
    /// The words have no reading: the folder of the store, empty where none is given, and those behind it.
    Words {
        folder: &'a str,
        words: &'a WordList,
    },
    /// A line of a file has a fault: the file and its name, the line counted from 1, and its text, empty where it
    /// couldn't be read again.
    Input {
        file: InputFile,
        name: &'a str,
        line: u64,
        kind: InputKind,
        text: &'a [u8],
    },
    /// A file is another one than the store was made of. They differ first at this place, counted from 0.
    Other {
        folder: &'a str,
        file: InputFile,
        name: &'a str,
        place: u64,
    },
    /// A file couldn't be read: its name, empty where it isn't known, and why, where that is known.
    Read {
        name: &'a str,
        reason: Option<ErrorKind>,
    },
    /// The folder couldn't be made, and why, where that is known.
    Folder {
        folder: &'a str,
        reason: Option<ErrorKind>,
    },
    /// A call of the store's folder failed, and why, where that is known.
    Disk {
        folder: &'a str,
        reason: Option<ErrorKind>,
    },
    /// Another process works in the store's folder: its number, where that is known.
    Locked {
        folder: &'a str,
        process: Option<u32>,
    },
    /// Standard output couldn't be written.
    Output {
        folder: &'a str,
    },
    /// Memory ran out.
    Memory,
    /// A file of the store is damaged at this place, counted from 0.
    Store {
        folder: &'a str,
        file: u32,
        place: u64,
        kind: FormKind,
    },
    /// There is no store in the folder.
    NoStore {
        folder: &'a str,
    },
    /// The store isn't closed.
    Unfinished {
        folder: &'a str,
    },
    /// The store has no such label or vertex. The words are those of the command.
    NotKnown {
        folder: &'a str,
        words: &'a WordList,
    },
}
