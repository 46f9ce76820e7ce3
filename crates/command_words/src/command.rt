//! The commands.
use closing_options::RunOptions;

/// What the graph of a C program is made for.
#[derive(Clone, Copy, Debug, PartialEq, Eq)]
pub enum GraphKind {
    /// `alias`: what may point to the same.
    Alias,
    /// `null`: where `NULL` may flow to.
    Null,
}

/// A command, with the names that its words give.
#[derive(Clone, Copy, Debug, PartialEq, Eq)]
pub enum Command<'a> {
    /// `run EDGES GRAMMAR`: close the graph of the edge file under the grammar file's rules, and print the edges of a label.
    Run {
        /// The name of the edge file.
        edges: &'a str,
        /// The name of the grammar file.
        grammar: &'a str,
        /// The numbers that the options give.
        options: RunOptions,
        /// The label whose edges are printed.
        show: Option<&'a str>,
    },
    /// `query LABEL U`: print the vertices that the label reaches from U.
    Query {
        /// The label.
        label: &'a str,
        /// The source, at most 16,777,215.
        from: u32,
        /// The one destination that is asked for, at most 16,777,215.
        to: Option<u32>,
    },
    /// `emit KIND SOURCE`: print the edges of a C file.
    Emit {
        /// What they are made for.
        kind: GraphKind,
        /// The name of the file.
        source: &'a str,
    },
    /// `dump`: print every edge.
    Dump,
    /// `parts`: print the partitions.
    Parts,
}
