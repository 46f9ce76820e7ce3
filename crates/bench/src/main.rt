//! Measures parts of the engine: `bench NAME WORDS..`, where the name says which part.
//!
//! Standard output says what was made and checked, and standard error how long it took, in microseconds.
#![tactic(auto)]

mod counts;
mod files;
mod graph;
mod import;
mod pair;
mod partition;
mod rows;

use std::rt::{Clock, Env, Files};
use std::{env, io};

const WANTED: &str = "\
wanted: partition
    or: pair EDGES GRAMMAR
    or: import EDGES GRAMMAR FOLDER LIMIT
    or: all EDGES GRAMMAR FOLDER LIMIT
";

/// The words behind the program's name.
fn program_words<R: Env + AllocGlobal>(rt: &R) -> io::Result<Vec<String>> {
    let mut words = Vec::new(rt.alloc());
    for word in env::args(rt)?.skip(1) {
        words.push(word)?;
    }
    Ok(words)
}

/// Carries out the three benches, one behind another, over the same two files.
fn measure_all<R: Files + AllocGlobal + Clock + Print + Eprint>(
    rt: &R,
    edges: &str,
    grammar: &str,
    folder: &str,
    limit: &str,
) -> io::Result<()> {
    partition::measure(rt)?;
    pair::measure(rt, edges, grammar)?;
    import::measure(rt, edges, grammar, folder, limit)
}

/// Carries out the bench that the first word names.
fn measure<R: Files + AllocGlobal + Clock + Print + Eprint>(
    rt: &R,
    name: &str,
    words: &[String],
) -> io::Result<()> {
    match (name, words) {
        ("partition", []) => partition::measure(rt),
        ("pair", [edges, grammar]) => pair::measure(rt, edges.as_str(), grammar.as_str()),
        ("import", [edges, grammar, folder, limit]) => import::measure(
            rt,
            edges.as_str(),
            grammar.as_str(),
            folder.as_str(),
            limit.as_str(),
        ),
        ("all", [edges, grammar, folder, limit]) => measure_all(
            rt,
            edges.as_str(),
            grammar.as_str(),
            folder.as_str(),
            limit.as_str(),
        ),
        _ => print!(rt; "{WANTED}"),
    }
}

fn main(rt: HostRuntime) -> io::Result<()> {
    let words = program_words(&rt)?;
    match words.as_slice() {
        [name, rest @ ..] => measure(&rt, name.as_str(), rest),
        [] => print!(rt; "{WANTED}"),
    }
}
