//! The words of a command line are read as a command.
ghost use Rattle.std.specs.Prelude.{◌≡◌, ◌≤◌, ◌↔◌, ℕ, List, [], Option, IsTrue, IfOk, IfErr, IfSome, IfNone, All, length, map, option_map, codes};
ghost use Rattle.graph_words.specs.Text.{IsLabel, IsVertexNumber};
ghost use Rattle.command_words.specs.declared.fault.WordsFault.TheVariants.{Words};
ghost use Rattle.command_words.specs.declared.command.GraphKind.{GraphKind as AKind};
ghost use Rattle.command_words.specs.Command.{IsDestination, Said, Says, Reading, RunsWithin, kind_word, said, value_of};
ghost use Rattle.command_words.specs.CutWords.{given_said};

use crate::command::{Command, GraphKind};
use crate::cut_words::{CutWords, Given, cut_words};
use crate::fault::WordsFault;
use crate::run_numbers::read_numbers;
use crate::run_options::{are_run_options, find_option};
use edge_text::vertex_number;
use graph_words::is_label;
use io_edge::WordList;
use std::alloc::Global;

/// The label that `--show` names, where it is given.
fn read_show<'a>(options: &[Given<'a>]) -> Result<Option<&'a str>, WordsFault>
    ensures show { IfOk result (λ s. (value_of (codes "show") (map given_said options.now) ≡ option_map (λ l. l.now) s) × IfSome s (λ l. IsLabel l.now)) }
    ensures words { IfErr result (λ e. (e ≡ Words) × (IfSome (value_of (codes "show") (map given_said options.now)) IsLabel → ⊥)) }
{
    let Some(label) = find_option("show", options) else {
        return Ok(None);
    };
    if !is_label(label.as_bytes()) {
        return Err(WordsFault::Words);
    }
    Ok(Some(label))
}

/// The command of `run`.
fn read_run<'a>(alloc: Global, cut: &CutWords<'a>) -> Result<Command<'a>, WordsFault>
    ensures says { IfOk result (λ c. Says (codes "run") cut.now.options cut.now.plain (said c)) }
    ensures words { IfErr result (λ e. e ≡ Words → (c : Said) → Says (codes "run") cut.now.options cut.now.plain c → ⊥) }
{
    let [edges, grammar] = cut.plain.as_slice() else {
        return Err(WordsFault::Words);
    };
    if !are_run_options(cut.options.as_slice()) {
        return Err(WordsFault::Words);
    }
    let show = read_show(cut.options.as_slice())?;
    let options = read_numbers(alloc, cut.options.as_slice())?;
    Ok(Command::Run {
        edges: *edges,
        grammar: *grammar,
        options,
        show,
    })
}

/// The source of a query for this label.
fn read_source(label: &str, from: &str) -> Option<u32>
    ensures source { IfSome result (λ n. IsLabel label.now × IsVertexNumber from.now n) }
    ensures none { IfNone result ((n : ℕ) → IsLabel label.now → IsVertexNumber from.now n → ⊥) }
{
    if !is_label(label.as_bytes()) {
        return None;
    }
    vertex_number(from.as_bytes())
}

/// The destination of a query, which may be left out.
fn read_destination(words: &[&str]) -> Option<Option<u32>>
    ensures destination { IfSome result (IsDestination (map (λ w. w.now) words.now)) }
    ensures none { IfNone result ((to : Option ℕ) → IsDestination (map (λ w. w.now) words.now) to → ⊥) }
{
    match words {
        [] => Some(None),
        [to] => Some(Some(vertex_number(to.as_bytes())?)),
        _ => None,
    }
}

/// The command of `query`, and none where the words have no reading.
fn read_query<'a>(cut: &CutWords<'a>) -> Option<Command<'a>>
    ensures says { IfSome result (λ c. Says (codes "query") cut.now.options cut.now.plain (said c)) }
    ensures none { IfNone result ((c : Said) → Says (codes "query") cut.now.options cut.now.plain c → ⊥) }
{
    if !cut.options.is_empty() {
        return None;
    }
    let [label, from, to @ ..] = cut.plain.as_slice() else {
        return None;
    };
    let source = read_source(*label, *from)?;
    let destination = read_destination(to)?;
    Some(Command::Query {
        label: *label,
        from: source,
        to: destination,
    })
}

/// The kind of graph that a word names.
fn read_kind(word: &str) -> Option<GraphKind>
    ensures kind { IfSome result (λ k. word.now ≡ kind_word k) }
    ensures none { IfNone result ((k : AKind) → word.now ≡ kind_word k → ⊥) }
{
    if word == "alias" {
        return Some(GraphKind::Alias);
    }
    if word == "null" {
        return Some(GraphKind::Null);
    }
    None
}

/// The command of `emit`, and none where the words have no reading.
fn read_emit<'a>(cut: &CutWords<'a>) -> Option<Command<'a>>
    ensures says { IfSome result (λ c. Says (codes "emit") cut.now.options cut.now.plain (said c)) }
    ensures none { IfNone result ((c : Said) → Says (codes "emit") cut.now.options cut.now.plain c → ⊥) }
{
    if !cut.options.is_empty() {
        return None;
    }
    let [kind, source] = cut.plain.as_slice() else {
        return None;
    };
    let kind = read_kind(*kind)?;
    Some(Command::Emit {
        kind,
        source: *source,
    })
}

/// Whether nothing is cut.
fn is_bare(cut: &CutWords<'_>) -> bool
    ensures { IsTrue result ↔ ((cut.now.options ≡ []) × (cut.now.plain ≡ [])) }
{
    cut.options.is_empty() && cut.plain.is_empty()
}

/// The command that this name says with these options and plain words.
fn read_named<'a>(alloc: Global, name: &str, cut: &CutWords<'a>) -> Result<Command<'a>, WordsFault>
    ensures says { IfOk result (λ c. Says name.now cut.now.options cut.now.plain (said c)) }
    ensures words { IfErr result (λ e. e ≡ Words → (c : Said) → Says name.now cut.now.options cut.now.plain c → ⊥) }
{
    if name == "run" {
        return read_run(alloc, cut);
    }
    if name == "query" {
        return read_query(cut).ok_or(WordsFault::Words);
    }
    if name == "emit" {
        return read_emit(cut).ok_or(WordsFault::Words);
    }
    if name == "dump" && is_bare(cut) {
        return Ok(Command::Dump);
    }
    if name == "parts" && is_bare(cut) {
        return Ok(Command::Parts);
    }
    Err(WordsFault::Words)
}

/// Whether each word has bytes.
fn are_full(words: &WordList) -> bool
    ensures { IsTrue result ↔ All (λ word. 1 ≤ length word) words.now }
{
    for i in 0..words.len() {
        if words.get(i).is_empty() {
            return false;
        }
    }
    true
}

/// Reads the words behind the store's folder as a command.
///
/// The first word names it; options and plain words follow, in any order. `Words` comes exactly where the words mean no
/// command, and `NoMemory` for want of memory. Any words may be handed in.
pub fn read_command<'a>(alloc: Global, words: &'a WordList) -> Result<Command<'a>, WordsFault>
    ensures reading { IfOk result (λ c. Reading words.now (said c)) }
    ensures within { IfOk result (λ c. RunsWithin (said c)) }
    ensures words { IfErr result (λ e. e ≡ Words → (c : Said) → Reading words.now c → ⊥) }
{
    if words.len() == 0 || !are_full(words) {
        return Err(WordsFault::Words);
    }
    let cut = cut_words(alloc, words)?;
    read_named(alloc, words.get(0), &cut)
}

/// Words mean at most one command.
pub fn one_reading()
    ensures { (words : List (List ℕ)) (c d : Said) → Reading words c → Reading words d → c ≡ d }
{}
