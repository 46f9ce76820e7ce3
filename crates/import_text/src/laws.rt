//! What was copied is a good copy.
ghost use Rattle.std.specs.Prelude.{ℕ, List, length};
ghost use Rattle.graph_words.specs.declared.types.Edge.{Edge};
ghost use Rattle.edge_text.specs.EdgesText.{ReadsEdges, vertex_count_of};
ghost use Rattle.import_text.specs.GivenPart.{IsGoodCopy};

/// The text that was copied is a good copy by the length, the labels and the count of vertices that the copying told,
/// so no reading of it answers `BadCopy` while the disk keeps it.
pub fn copies_are_good()
    ensures { (names : List (List ℕ)) (text : List ℕ) (edges : List Edge) (labels : List (List ℕ))
        → ReadsEdges 0 names text edges labels → IsGoodCopy labels (length text) (vertex_count_of edges) text }
{}
