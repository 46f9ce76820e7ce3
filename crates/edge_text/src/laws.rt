//! What is true of edge files.
ghost use Rattle.std.specs.Prelude.{ℕ, List};
ghost use Rattle.graph_words.specs.declared.types.Edge.{Edge};
ghost use Rattle.edge_text.specs.EdgesText.{ReadsEdges};

/// A file without a fault reads the same again behind the names that it was found to have: no fault, the same edges,
/// and no new name.
pub fn files_read_again()
    ensures { (start : ℕ) (names : List (List ℕ)) (text : List ℕ) (edges : List Edge) (table : List (List ℕ))
        → ReadsEdges start names text edges table → ReadsEdges start table text edges table }
{}
