//! The centres of a round.
ghost use Rattle.std.specs.Prelude.{◌≡◌, ◌≤◌, Contains, IsTrue, IfSome, IfOk, OnOk};
ghost use Rattle.graph_words.specs.declared.types.Born.{Born as ABorn};
ghost use Rattle.row_table.specs.Loaded.{AreCentres, IsCentre, LiesInSpan, LiesInHigh};
ghost use Rattle.row_table.specs.Joined.{AppendsCentres, IsEndSet, vertex as vertex_of};

use crate::number_set::NumberSet;
use crate::rows::Rows;
use crate::sieve::mark_run;
use crate::span::Span;
use graph_words::Vertex;
use std::alloc::AllocError;

/// Whether an edge of the rows begins at the vertex, and one of them ends there.
fn is_centre(rows: &Rows, ends: &NumberSet, vertex: u32) -> bool
    requires { IsEndSet rows.now.edges ends.now }
    ensures yes { IsTrue result → IsCentre rows.now.edges (vertex_of vertex) }
    ensures all { (x y : ABorn) → Contains rows.now.edges x → Contains rows.now.edges y → x.edge.dst.0 ≡ vertex
        → y.edge.src.0 ≡ vertex → IsTrue result }
{
    ends.has(vertex) && !rows.row(vertex).is_empty()
}

/// Adds the centre, if the vertex is one.
fn add_centre(
    rows: &Rows,
    ends: &NumberSet,
    vertex: u32,
    centres: &mut Vec<Vertex>,
) -> Result<(), AllocError>
    requires { IsEndSet rows.now.edges ends.now }
    ensures { OnOk result (AppendsCentres rows.now.edges (λ v. v ≡ vertex) centres.old.items centres.new.items) }
{
    if !is_centre(rows, ends, vertex) {
        return Ok(());
    }
    centres.push(Vertex(vertex))?;
    Ok(())
}

/// Adds the centres of an interval.
fn add_centres(
    rows: &Rows,
    ends: &NumberSet,
    span: Span,
    centres: &mut Vec<Vertex>,
) -> Result<(), AllocError>
    requires ends { IsEndSet rows.now.edges ends.now }
    requires bounds { span.lo ≤ span.hi }
    ensures { OnOk result (AppendsCentres rows.now.edges (LiesInSpan span) centres.old.items centres.new.items) }
{
    for vertex in span.lo..span.hi {
        add_centre(rows, ends, vertex, centres)?;
    }
    Ok(())
}

/// Adds the centres of the second interval, where there is one.
fn add_high_centres(
    rows: &Rows,
    ends: &NumberSet,
    high: Option<Span>,
    centres: &mut Vec<Vertex>,
) -> Result<(), AllocError>
    requires ends { IsEndSet rows.now.edges ends.now }
    requires bounds { IfSome high (λ s. s.lo ≤ s.hi) }
    ensures { OnOk result (AppendsCentres rows.now.edges (LiesInHigh high) centres.old.items centres.new.items) }
{
    match high {
        None => Ok(()),
        Some(span) => {
            add_centres(rows, ends, span, centres)?;
            Ok(())
        }
    }
}

impl Rows {
    /// The vertices where an edge ends and an edge begins, in ascending order.
    pub fn centres(&self) -> Result<Vec<Vertex>, AllocError>
        ensures { IfOk result (λ v. AreCentres self.now.edges v.items) }
    {
        let alloc = self.alloc();
        let mut ends = NumberSet::new(alloc);
        mark_run(self.edges(), &mut ends)?;
        let mut centres = Vec::new(alloc);
        let (low, high) = self.spans();
        add_centres(self, &ends, low, &mut centres)?;
        add_high_centres(self, &ends, high, &mut centres)?;
        Ok(centres)
    }
}
