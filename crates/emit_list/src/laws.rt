//! The text of a list read again.
ghost use Rattle.std.specs.Prelude.{◌≡◌, ℕ, List, All, map};
ghost use Rattle.edge_text.specs.EdgesText.{edges_of};
ghost use Rattle.emit_list.specs.Vertices.{Listed, IsListed};
ghost use Rattle.emit_list.specs.Printed.{list_bytes};
ghost use Rattle.emit_list.specs.ReadBack.{IsOneLine, edge_by};

use edge_text::edges_read_back;

/// The text of a list is an edge file that says the list's edges, where no name has a line feed.
pub fn list_reads_back()
    ensures { (names : List (List ℕ)) (list : Listed) → IsListed list.vertices list.edges
        → All IsOneLine list.vertices → edges_of names (list_bytes list) ≡ map (edge_by names) list.edges }
{
    edges_read_back();
}
