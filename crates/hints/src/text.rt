//! What is said of a line of a file.
ghost use Rattle.std.specs.Prelude.{◌<◌, length};

use crate::line::Line;
use edge_text::vertex_number;
use graph_words::{MOST_LABEL_BYTES, is_label, next_word};
use io_edge::{InputFile, InputKind};

// The word with this number, counted from 0.
fn word_at(text: &[u8], number: usize) -> Option<&[u8]> {
    let mut rest = text;
    for _ in 0..number {
        let (_, behind) = next_word(rest)?;
        rest = behind;
    }
    let (word, _) = next_word(rest)?;
    Some(word)
}

// The first word that is no label.
fn word_of_no_label(text: &[u8]) -> Option<&[u8]> {
    let mut rest = text;
    while let Some((word, behind)) = next_word(rest) {
        if !is_label(word) {
            return Some(word);
        }
        rest = behind;
    }
    None
}

// How many words there are.
fn count_words(text: &[u8]) -> u64 {
    let mut count: u64 = 0;
    let mut rest = text;
    while let Some((_, behind)) = next_word(rest) {
        count = count.saturating_add(1);
        rest = behind;
    }
    count
}

// A word in quotes, or what it is called where the line isn't there.
fn say_word(line: &mut Line, word: Option<&[u8]>, called: &str) {
    match word {
        Some(word) => line.quoted(word),
        None => line.text(called),
    }
}

/// A word that should be a vertex.
pub(crate) fn say_no_vertex(line: &mut Line, word: Option<&[u8]>, called: &str) {
    say_word(line, word, called);
    line.text(" is not a vertex (a number from 0 to 16777215)");
}

/// A word that should be a label.
pub(crate) fn say_no_label(line: &mut Line, word: Option<&[u8]>) {
    say_word(line, word, "a word");
    line.text(" is not a label (1 to ");
    line.number(MOST_LABEL_BYTES as u64);
    line.text(" letters, digits or signs of ASCII)");
}

// The line of an edge hasn't three words.
fn say_count(line: &mut Line, text: Option<&[u8]>) {
    if let Some(text) = text {
        line.quoted(text);
        line.text(" has ");
        let count = count_words(text);
        line.number(count);
        line.text(if count == 1 {
            " word, and an edge "
        } else {
            " words, and an edge "
        });
    } else {
        line.text("an edge ");
    }
    line.text("has three: SOURCE DESTINATION LABEL");
}

// What a word of a file's line is that can't be a vertex. The line may have changed since.
fn no_vertex_at(text: Option<&[u8]>, number: usize) -> Option<&[u8]> {
    let word = word_at(text?, number)?;
    if vertex_number(word).is_some() {
        return None;
    }
    Some(word)
}

// A text of an edge file is too long.
fn say_too_long(line: &mut Line, file: InputFile) {
    line.text("the file is too long: ");
    match file {
        InputFile::Grammar => line.text("a grammar has at most 16777216 bytes"),
        InputFile::Edges => line.text("an edge file has at most 1099511627776 bytes"),
        InputFile::Source | InputFile::Proof | InputFile::Questions => {
            line.text("it has more bytes than it may have");
        }
    }
}

// A line's text, where it could be read again: an empty line has no fault.
fn known(text: &[u8]) -> Option<&[u8]> {
    if text.is_empty() { None } else { Some(text) }
}

// What is wrong with edges or rules.
fn say_kind(line: &mut Line, file: InputFile, kind: InputKind, text: Option<&[u8]>) {
    match kind {
        InputKind::LineTooLong => line.text("the line has more than 4096 bytes"),
        InputKind::TooLong => say_too_long(line, file),
        InputKind::WrongCount => say_count(line, text),
        InputKind::BadSource => say_no_vertex(line, no_vertex_at(text, 0), "the first word"),
        InputKind::BadDestination => say_no_vertex(line, no_vertex_at(text, 1), "the second word"),
        InputKind::BadLabel => say_no_label(line, word_of_no_label(text.unwrap_or(&[]))),
        InputKind::RightTooLong => line.text("the rule has more than 64 labels on its right side"),
        InputKind::TooManyRules => line.text(
            "this is the 1001st rule, and a grammar has at most 1000",
        ),
        InputKind::TooManyLabels => line.text(
            "its label would be the 1001st; both files have at most 1000",
        ),
        _ => say_other_kind(line, kind),
    }
}

// What is wrong in files of other programs.
fn say_other_kind(line: &mut Line, kind: InputKind) {
    line.text(match kind {
        InputKind::BadByte => "a byte begins no token",
        InputKind::OpenComment => "a comment has no end",
        InputKind::NameTooLong => "a name has more than 255 bytes",
        InputKind::TooDeep => "too many levels are open",
        InputKind::Undeclared => "a name is used that wasn't declared",
        InputKind::Repeated => "a name is declared a second time",
        InputKind::WrongArguments => "a call has too few arguments or too many",
        InputKind::NoValue => "a function that gives no value is used for one, or returns one",
        InputKind::TooManyVertices => "there are more than 16777216 vertices",
        InputKind::BadNode => "the line is no node of a derivation",
        InputKind::BadStep => "the node doesn't follow from those before it",
        InputKind::NoNode => "the derivation has no node",
        InputKind::TooManyQuestions => "there are more than 10000 questions",
        _ => "this was not expected here",
    });
}

/// A line of a file has a fault.
pub(crate) fn say_input(
    line: &mut Line,
    file: InputFile,
    name: &str,
    number: u64,
    kind: InputKind,
    text: &[u8],
) {
    line.path(name);
    line.text(":");
    line.number(number);
    line.text(": ");
    say_kind(line, file, kind, known(text));
}

/// A file is another one than the store was made of.
pub(crate) fn say_other(line: &mut Line, folder: &str, file: InputFile, name: &str, place: u64) {
    line.path(name);
    line.text(": the store in ");
    line.path(folder);
    line.text(" was made of another ");
    line.text(match file {
        InputFile::Grammar => "grammar",
        InputFile::Edges => "edge",
        InputFile::Source | InputFile::Proof | InputFile::Questions => "input",
    });
    line.text(" file, which differs first at byte ");
    line.number(place);
    line.text("; take another folder, or the file that it was made of");
}
