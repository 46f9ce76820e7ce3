//! Edges, rules and files that several tests share.
ghost use Rattle.std.specs.Prelude.{◌≡◌};

use graph_words::{Edge, LabelId, Rule, Vertex, Word};
use io_edge::NamedBytes;
use normal_form::{Grammar, Normal, is_grammar, normalise};
use std::alloc::{AllocError, Global};
use std::process::Abort;

/// An edge by its source, its label and its destination.
pub(crate) fn edge_of(edge: (u32, u16, u32)) -> Edge
    ensures { result ≡ record { src = record { 0 = edge.0 }; label = record { 0 = edge.1 }; dst = record { 0 = edge.2 } } }
{
    Edge {
        src: Vertex(edge.0),
        label: LabelId(edge.1),
        dst: Vertex(edge.2),
    }
}

/// Whether these are the edges, in this order.
pub(crate) fn are_edges(edges: &[Edge], wanted: &[(u32, u16, u32)]) -> bool {
    edges.len() == wanted.len() && edges.iter().zip(wanted).all(|(e, w)| *e == edge_of(*w))
}

fn word_of(alloc: Global, labels: &[u16]) -> Result<Word, AllocError> {
    let mut word = Word::new(alloc);
    for label in labels {
        word.push(LabelId(*label))?;
    }
    Ok(word)
}

/// A grammar of rules by the numbers of their labels.
pub(crate) fn grammar_of(
    rt: &impl Abort,
    alloc: Global,
    rules: &[(u16, &[u16])],
) -> Result<Grammar, AllocError> {
    let mut list = Vec::new(alloc);
    for (left, right) in rules {
        list.push(Rule {
            left: LabelId(*left),
            right: word_of(alloc, right)?,
        })?;
    }
    let within = is_grammar(&list);
    assert!(rt; within);
    Ok(Grammar::from_rules(list))
}

/// The normal form of such a grammar.
pub(crate) fn normal_of(
    rt: &impl Abort,
    alloc: Global,
    rules: &[(u16, &[u16])],
) -> Result<Normal, AllocError> {
    let grammar = grammar_of(rt, alloc, rules)?;
    normalise(alloc, &grammar)
}

/// One file with its name.
pub(crate) fn named(alloc: Global, name: &str, bytes: &[u8]) -> Result<NamedBytes, AllocError> {
    Ok(NamedBytes {
        name: String::from_str(alloc, name)?,
        bytes: bytes.to_vec(alloc)?,
    })
}
