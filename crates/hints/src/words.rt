//! What is wrong with the words of a command line.
ghost use Rattle.std.specs.Prelude.{◌≤◌, ◌<◌, length};

use crate::line::Line;
use crate::nearest::nearest;
use crate::text::{say_no_label, say_no_vertex};
use edge_text::vertex_number;
use graph_words::is_label;
use io_edge::WordList;

const COMMANDS: [&str; 5] = ["run", "query", "emit", "dump", "parts"];

const OPTIONS: [&str; 4] = ["workers", "part-edges", "budget", "show"];

/// What a word is at its place among the words of a command.
#[derive(Clone, Copy)]
enum Place<'a> {
    /// An option with its value, without the two '-'.
    Option(&'a str, &'a str),
    /// An option whose value isn't there.
    Bare(&'a str),
    /// A word with one '-', which is no option.
    Short(&'a str),
    /// The value of an option that stood before it.
    Value,
    /// The word `--`.
    Rest,
    /// Any other word.
    Plain(&'a str),
}

fn is_dashed(word: &str) -> bool {
    matches!(word.as_bytes(), [b'-', ..])
}

fn is_one_of(word: &str, known: &[&str]) -> bool {
    known.iter().any(|name| *name == word)
}

// The value behind an option, where one stands there.
fn value_behind<'a>(words: &'a WordList, at: usize) -> Option<&'a str>
    requires { at < length words.now }
{
    let next = at.checked_add(1)?;
    if next >= words.len() {
        return None;
    }
    let value = words.get(next);
    if is_dashed(value) { None } else { Some(value) }
}

// Whether a word is '--'.
fn is_rest(word: &str) -> bool {
    word == "--"
}

// Whether a word is an option whose value stands behind it.
fn waits(word: &str) -> bool {
    match word.strip_prefix("--") {
        Some(name) => !name.is_empty() && name.split_once('=').is_none(),
        None => false,
    }
}

// What a word that begins with '-' is.
fn dashed_place<'a>(words: &'a WordList, at: usize) -> Place<'a>
    requires { at < length words.now }
{
    let word = words.get(at);
    let Some(name) = word.strip_prefix("--") else {
        return Place::Short(word);
    };
    if let Some((name, value)) = name.split_once('=') {
        return Place::Option(name, value);
    }
    match value_behind(words, at) {
        Some(value) => Place::Option(name, value),
        None => Place::Bare(name),
    }
}

/// Where a walk over the words is: whether '--' was met, and whether the word is a value.
#[derive(Clone, Copy)]
struct Walk {
    is_plain: bool,
    is_value: bool,
}

impl Walk {
    fn new() -> Self {
        Walk {
            is_plain: false,
            is_value: false,
        }
    }

    // What the next word is.
    fn place<'a>(&self, words: &'a WordList, at: usize) -> Place<'a>
        requires { at < length words.now }
    {
        let word = words.get(at);
        if self.is_plain {
            Place::Plain(word)
        } else if is_rest(word) {
            Place::Rest
        } else if is_dashed(word) {
            dashed_place(words, at)
        } else if self.is_value {
            Place::Value
        } else {
            Place::Plain(word)
        }
    }

    // The walk behind a word.
    fn behind(&self, word: &str) -> Walk {
        Walk {
            is_plain: self.is_plain || is_rest(word),
            is_value: !self.is_plain && waits(word),
        }
    }
}

// Ends with the page that has more.
fn say_help(line: &mut Line) {
    line.text(" (graspan --help)");
}

// Proposes a known word.
fn say_nearest(line: &mut Line, found: Option<&str>, dashes: &str) {
    if let Some(found) = found {
        line.text("; did you mean ");
        line.text(dashes);
        line.text(found);
        line.text("?");
    }
    say_help(line);
}

fn say_no_option(line: &mut Line, name: &str) {
    line.text("there is no option --");
    line.path(name);
    say_nearest(line, nearest(name, &OPTIONS), "--");
}

fn say_no_value(line: &mut Line, name: &str) {
    line.text("--");
    line.path(name);
    line.text(" wants a value; one that begins with '-' is written --");
    line.path(name);
    line.text("=VALUE");
    say_help(line);
}

// Whether a number is in an option's range.
fn is_number_to(value: &str, most: u64) -> bool {
    let digits = value.as_bytes();
    !digits.is_empty()
        && digits.iter().all(|byte| b'0' <= *byte && *byte <= b'9')
        && matches!(value.parse::<u64>(), Ok(number) if 1 <= number && number <= most)
}

// The greatest value of an option that takes a number.
fn most_of(name: &str) -> Option<u64> {
    if name == "workers" {
        Some(64)
    } else if name == "part-edges" || name == "budget" {
        Some(4_294_967_295)
    } else {
        None
    }
}

// Says what is wrong with the value of a known option, where something is.
fn say_value(line: &mut Line, name: &str, value: &str) -> bool {
    let Some(most) = most_of(name) else {
        if is_label(value.as_bytes()) {
            return false;
        }
        line.text("--show: ");
        say_no_label(line, Some(value.as_bytes()));
        return true;
    };
    if is_number_to(value, most) {
        return false;
    }
    line.text("--");
    line.text(name);
    line.text(" wants a number from 1 to ");
    line.number(most);
    line.text(", and ");
    line.quoted(value.as_bytes());
    line.text(" is none");
    say_help(line);
    true
}

// Says what is wrong with a word of a run, where something is.
fn say_place(line: &mut Line, place: Place<'_>) -> bool {
    match place {
        Place::Option(name, value) if is_one_of(name, &OPTIONS) => say_value(line, name, value),
        Place::Option(name, _) => {
            say_no_option(line, name);
            true
        }
        Place::Bare(name) if is_one_of(name, &OPTIONS) => {
            say_no_value(line, name);
            true
        }
        Place::Bare(name) => {
            say_no_option(line, name);
            true
        }
        Place::Short(word) => {
            line.text("there is no option ");
            line.path(word);
            line.text("; behind -- each word is a plain one");
            say_help(line);
            true
        }
        Place::Value | Place::Rest | Place::Plain(_) => false,
    }
}

// Says what is wrong with the first option that can't stand.
fn say_options(line: &mut Line, words: &WordList) -> bool {
    let mut walk = Walk::new();
    for at in 1..words.len() {
        if say_place(line, walk.place(words, at)) {
            return true;
        }
        walk = walk.behind(words.get(at));
    }
    false
}

// The name of the option at a place.
fn option_name(place: Place<'_>) -> Option<&str> {
    match place {
        Place::Option(name, _) => Some(name),
        Place::Bare(name) => Some(name),
        Place::Short(_) | Place::Value | Place::Rest | Place::Plain(_) => None,
    }
}

// How often an option is given.
fn times(words: &WordList, wanted: &str) -> u64 {
    let mut walk = Walk::new();
    let mut count: u64 = 0;
    for at in 1..words.len() {
        if option_name(walk.place(words, at)) == Some(wanted) {
            count = count.saturating_add(1);
        }
        walk = walk.behind(words.get(at));
    }
    count
}

// Says which option is given twice.
fn say_repeated(line: &mut Line, words: &WordList) -> bool {
    for name in OPTIONS {
        if times(words, name) > 1 {
            line.text("--");
            line.text(name);
            line.text(" is given more than once");
            say_help(line);
            return true;
        }
    }
    false
}

/// The plain words behind the command: how many, and the first three.
#[derive(Clone, Copy)]
struct Plain<'a> {
    count: u64,
    first: [Option<&'a str>; 3],
}

// Counts one more plain word.
fn add_plain<'a>(plain: Plain<'a>, word: &'a str) -> Plain<'a> {
    let mut first = plain.first;
    if plain.count < 3 {
        first[plain.count as usize] = Some(word);
    }
    Plain {
        count: plain.count.saturating_add(1),
        first,
    }
}

// The plain words behind the command.
fn plain_words(words: &WordList) -> Plain<'_> {
    let mut walk = Walk::new();
    let mut plain = Plain {
        count: 0,
        first: [None; 3],
    };
    for at in 1..words.len() {
        if let Place::Plain(word) = walk.place(words, at) {
            plain = add_plain(plain, word);
        }
        walk = walk.behind(words.get(at));
    }
    plain
}

// Says how many words a command wants, and how many there are.
fn say_counts(line: &mut Line, wanted: &str, count: u64) {
    line.text(wanted);
    line.text("; ");
    line.number(count);
    line.text(if count == 1 {
        " such word stands there"
    } else {
        " such words stand there"
    });
    say_help(line);
}

fn say_run(line: &mut Line, words: &WordList) -> bool {
    if say_options(line, words) || say_repeated(line, words) {
        return true;
    }
    let count = plain_words(words).count;
    if count == 2 {
        return false;
    }
    say_counts(line, "run wants an edge file and a grammar file", count);
    true
}

// Says which word of a query names no vertex.
fn say_vertex(line: &mut Line, word: Option<&str>) -> bool {
    match word {
        Some(word) if vertex_number(word.as_bytes()).is_none() => {
            say_no_vertex(line, Some(word.as_bytes()), "");
            true
        }
        _ => false,
    }
}

// Says which word of a query names no label.
fn say_label(line: &mut Line, word: Option<&str>) -> bool {
    match word {
        Some(word) if !is_label(word.as_bytes()) => {
            say_no_label(line, Some(word.as_bytes()));
            true
        }
        _ => false,
    }
}

fn say_query(line: &mut Line, words: &WordList) -> bool {
    if say_dashed(line, words) {
        return true;
    }
    let plain = plain_words(words);
    if plain.count < 2 || plain.count > 3 {
        say_counts(line, "query wants LABEL U or LABEL U V", plain.count);
        return true;
    }
    let [label, from, to] = plain.first;
    say_label(line, label) || say_vertex(line, from) || say_vertex(line, to)
}

// Says of a command without options that one is given.
fn say_dashed(line: &mut Line, words: &WordList) -> bool {
    let mut walk = Walk::new();
    for at in 1..words.len() {
        match walk.place(words, at) {
            Place::Option(_, _) | Place::Bare(_) | Place::Short(_) => {
                say_not_an_option(line, words.get(0), words.get(at));
                return true;
            }
            Place::Value | Place::Rest | Place::Plain(_) => {}
        }
        walk = walk.behind(words.get(at));
    }
    false
}

fn say_not_an_option(line: &mut Line, command: &str, word: &str) {
    line.text(command);
    line.text(" has no options; a label that begins with '-' stands behind --, as in ");
    line.text("query -- ");
    line.path(word);
    line.text(" 0");
    say_help(line);
}

// The first word behind the command that isn't '--', which may stand behind any command.
fn first_behind(words: &WordList) -> Option<&str> {
    for at in 1..words.len() {
        let word = words.get(at);
        if !is_rest(word) {
            return Some(word);
        }
    }
    None
}

// Says of a command without words that one stands there.
fn say_bare(line: &mut Line, words: &WordList) -> bool
    requires { 1 ≤ length words.now }
{
    let Some(word) = first_behind(words) else {
        return false;
    };
    line.text(words.get(0));
    line.text(" takes nothing more, and ");
    line.quoted(word.as_bytes());
    line.text(" stands behind it");
    say_help(line);
    true
}

fn say_emit(line: &mut Line) {
    line.text(
        "emit takes a kind, alias or null, and a C file, as in: graspan STORE emit alias x.c",
    );
    say_help(line);
}

fn say_no_command(line: &mut Line, word: &str) {
    line.text("there is no command ");
    line.quoted(word.as_bytes());
    say_nearest(line, nearest(word, &COMMANDS), "");
}

// Whether a word is empty.
fn has_empty(words: &WordList) -> bool {
    for at in 0..words.len() {
        if words.get(at).is_empty() {
            return true;
        }
    }
    false
}

// Says what is wrong with a command, where something is.
fn say_command(line: &mut Line, words: &WordList) -> bool
    requires { 1 ≤ length words.now }
{
    let command = words.get(0);
    if command == "run" {
        say_run(line, words)
    } else if command == "query" {
        say_query(line, words)
    } else if command == "emit" {
        say_emit(line);
        true
    } else if command == "dump" || command == "parts" {
        say_bare(line, words)
    } else {
        say_no_command(line, command);
        true
    }
}

// The first word should be a folder.
fn say_no_folder(line: &mut Line) {
    line.text(
        "the folder of the store and a command are missing, as in: graspan STORE run EDGES GRAMMAR",
    );
    say_help(line);
}

// The folder stands there alone, or what looks like one.
fn say_alone(line: &mut Line, folder: &str) {
    if is_dashed(folder) {
        line.text("there is no option ");
        line.path(folder);
        say_help(line);
        return;
    }
    line.text("what to do with the store ");
    line.path(folder);
    line.text(" is missing: run, query, emit, dump or parts");
    say_help(line);
}

// The command stands first, where the folder should stand.
fn say_folder_first(line: &mut Line, command: &str) {
    line.text("the folder of the store stands first, as in: graspan STORE ");
    line.text(command);
    say_help(line);
}

/// The words have no reading.
pub(crate) fn say_words(line: &mut Line, folder: &str, words: &WordList) {
    if folder.is_empty() {
        say_no_folder(line);
    } else if words.len() == 0 {
        say_alone(line, folder);
    } else if is_dashed(folder) && !is_one_of(words.get(0), &COMMANDS) {
        say_alone(line, folder);
    } else if has_empty(words) {
        line.text("a word of the command is empty");
        say_help(line);
    } else if is_one_of(folder, &COMMANDS) && !is_one_of(words.get(0), &COMMANDS) {
        say_folder_first(line, folder);
    } else if !say_command(line, words) {
        line.text("these words mean no command");
        say_help(line);
    }
}

// The value of --show, where it is given.
fn shown<'a>(words: &'a WordList) -> Option<&'a str> {
    let mut walk = Walk::new();
    for at in 1..words.len() {
        if let Place::Option(name, value) = walk.place(words, at) {
            if name == "show" {
                return Some(value);
            }
        }
        walk = walk.behind(words.get(at));
    }
    None
}

/// The store has no such label or vertex.
pub(crate) fn say_not_known(line: &mut Line, folder: &str, words: &WordList) {
    if let Some(label) = shown(words) {
        line.text("no edge and no rule has the label ");
        line.quoted(label.as_bytes());
        line.text(" of --show; the store is finished");
        return;
    }
    let [label, from, to] = plain_words(words).first;
    line.path(folder);
    line.text(" has no label ");
    line.quoted(label.unwrap_or("").as_bytes());
    line.text(", or no vertex ");
    line.text(from.unwrap_or(""));
    if let Some(to) = to {
        line.text(" or ");
        line.text(to);
    }
    line.text("; parts prints how many vertices there are, and they count from 0");
}
