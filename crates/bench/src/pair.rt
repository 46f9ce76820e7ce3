//! Closes a graph in memory as one partition, and counts its edges.
use crate::counts::print_counts;
use crate::graph::{GraphText, read_graph};
use crate::rows::load;
use std::io;
use std::rt::Files;
use superstep::{PairEnd, run_pair};

/// Closes the graph of two files, and prints how many rounds that took and the edges of each label.
pub(crate) fn measure<R: Files + AllocGlobal + Print>(
    rt: &R,
    edges: &str,
    grammar: &str,
) -> io::Result<()> {
    let alloc = rt.alloc();
    let Some(text) = read_graph(rt, edges, grammar)? else {
        return println!(rt; "no graph, or no grammar");
    };
    let GraphText {
        table,
        normal,
        vertices,
        edges,
    } = text;
    let Some(mut rows) = load(alloc, vertices, edges)? else {
        return println!(rt; "the graph is not loaded");
    };
    let PairEnd::Closed { rounds } = run_pair(alloc, &mut rows, &normal, 0, 1)?;
    println!(rt; "{rounds} rounds")?;
    print_counts(rt, &table, rows.edges())
}
