//! Edges, words and rules of labelled graphs, and what a grammar derives over a graph.
#![tactic(auto)]

mod laws;
mod limits;
mod line_words;
mod text;
mod types;

pub use laws::{closed_set_has_reach, derivation_splits, paths_append, reach_grows};
pub use limits::{LONGEST_EDGES, LONGEST_GRAMMAR, MOST_LABEL_BYTES, MOST_VERTICES};
pub use line_words::{is_skipped, next_word, words_of};
pub use text::{distinct_grows, is_label};
pub use types::{Born, Edge, EdgeList, LabelId, PairRule, Rule, Vertex, Word};
