//! How many edges of each label there are.
use graph_words::{Born, LabelId};
use label_table::LabelTable;
use std::io;

/// How many of the edges have the label.
fn count_of(edges: &[Born], label: u16) -> usize {
    edges
        .iter()
        .filter(|born| born.edge.label.0 == label)
        .count()
}

/// Prints a line for each label with a name, and one for all edges, those of fresh labels too.
pub(crate) fn print_counts(
    rt: &(impl Print + AllocGlobal),
    table: &LabelTable,
    edges: &[Born],
) -> io::Result<()> {
    for number in 0..1000u16 {
        if let Some(name) = table.name_of(LabelId(number)) {
            let count = count_of(edges, number);
            let name = str::from_utf8(name).unwrap_or("?");
            println!(rt; "label {name} {count}")?;
        }
    }
    println!(rt; "{} edges", edges.len())
}
