//! The text of a list.
ghost use Rattle.std.specs.Prelude.{◌≡◌, ◌<◌, ◌+◌, ◌++◌, ◌∷◌, [], length, decimal, Some, slice_get, IfSome, map};
ghost use Rattle.std.specs.List.{flat_map, range_with_len};
ghost use Rattle.faults.specs.Counts.{HasCause};
ghost use Rattle.io_edge.specs.Devices.{Takes};
ghost use Rattle.text_page.specs.Gathered.{Gathers};
ghost use Rattle.emit_list.specs.Printed.{text_of, base_text as text_of_base, vertex_line, edge_line_of, list_bytes};

use crate::edge::EmitEdge;
use crate::list::EmitList;
use crate::vertex::{Vertex, VertexForm};
use edge_text::edge_line;
use io_edge::{Failed, Sink};
use itoa::Buffer;
use text_page::Page;

/// Puts what stands before a vertex's name, and the name.
fn put_named<O: Sink>(
    before: &[u8],
    name: &[u8],
    page: &mut Page,
    sink: &mut O,
) -> Result<(), Failed>
    ensures gathered { Gathers (O.told sink.old) page.old (O.told sink.new) page.new result (before.now ++ name.now) }
    ensures cause { HasCause (O.faults sink.old) (O.faults sink.new) result }
{
    page.put(sink, before)?;
    page.put(sink, name)
}

/// Puts the text of a vertex; for a dereference or an address only its mark.
fn put_base<O: Sink>(vertex: &Vertex, page: &mut Page, sink: &mut O) -> Result<(), Failed>
    ensures gathered { Gathers (O.told sink.old) page.old (O.told sink.new) page.new result (text_of_base vertex.now) }
    ensures cause { HasCause (O.faults sink.old) (O.faults sink.new) result }
{
    match vertex.form {
        VertexForm::Variable => page.put(sink, vertex.name.as_slice()),
        VertexForm::Return => put_named(b"return ", vertex.name.as_slice(), page, sink),
        VertexForm::Deref(_) => page.put(sink, b"*"),
        VertexForm::Address(_) => page.put(sink, b"&"),
        VertexForm::Number => page.put(sink, b"number"),
        VertexForm::Null => page.put(sink, b"NULL"),
        VertexForm::Op => page.put(sink, b"op"),
        VertexForm::Call => put_named(b"call ", vertex.name.as_slice(), page, sink),
        VertexForm::Malloc => page.put(sink, b"malloc"),
    }
}

impl EmitList {
    /// Puts the text of a vertex.
    fn put_text<O: Sink>(&self, k: u32, page: &mut Page, sink: &mut O) -> Result<(), Failed>
        requires { k < length self.now.vertices }
        ensures gathered { Gathers (O.told sink.old) page.old (O.told sink.new) page.new result (text_of self.now.vertices k) }
        ensures cause { HasCause (O.faults sink.old) (O.faults sink.new) result }
    {
        let mut next = Some(k);
        while let Some(at) = next {
            let vertex = self.vertex(at);
            put_base(vertex, page, sink)?;
            next = vertex.form.made_for();
        }
        Ok(())
    }

    /// Prints the text of a vertex: `x`, `return f`, `*T` and `&T` with the text T of the vertex that it was made for,
    /// `number`, `NULL`, `op`, `call f` or `malloc`.
    ///
    /// `Failed` comes only where the sink failed, which has then taken a prefix of the text.
    pub fn print_text<O: Sink>(&self, k: u32, sink: &mut O) -> Result<(), Failed>
        requires { k < length self.now.vertices }
        ensures taken { Takes (O.told sink.old) (O.told sink.new) result (text_of self.now.vertices k) }
        ensures cause { HasCause (O.faults sink.old) (O.faults sink.new) result }
    {
        let mut page = Page::new();
        self.put_text(k, &mut page, sink)?;
        page.flush(sink)
    }
}

/// Puts the line of a vertex: `# K TEXT`.
fn put_vertex<O: Sink>(list: &EmitList, k: u32, page: &mut Page, sink: &mut O) -> Result<(), Failed>
    requires { k < length list.now.vertices }
    ensures gathered { Gathers (O.told sink.old) page.old (O.told sink.new) page.new result (vertex_line list.now.vertices k) }
    ensures cause { HasCause (O.faults sink.old) (O.faults sink.new) result }
{
    let mut buffer = Buffer::new();
    put_named(b"# ", buffer.format(k).as_bytes(), page, sink)?;
    page.put(sink, b" ")?;
    list.put_text(k, page, sink)?;
    page.put(sink, b"\n")
}

/// Puts the line of each vertex.
fn put_vertices<O: Sink>(list: &EmitList, page: &mut Page, sink: &mut O) -> Result<(), Failed>
    ensures gathered { Gathers (O.told sink.old) page.old (O.told sink.new) page.new result
        (flat_map (vertex_line list.now.vertices) (range_with_len 0 (length list.now.vertices))) }
    ensures cause { HasCause (O.faults sink.old) (O.faults sink.new) result }
{
    for k in 0..list.vertices() {
        put_vertex(list, k, page, sink)?;
    }
    Ok(())
}

/// Puts the line of an edge: `U V LABEL`.
fn put_edge<O: Sink>(edge: EmitEdge, page: &mut Page, sink: &mut O) -> Result<(), Failed>
    ensures gathered { Gathers (O.told sink.old) page.old (O.told sink.new) page.new result (edge_line_of edge) }
    ensures cause { HasCause (O.faults sink.old) (O.faults sink.new) result }
{
    let line = edge_line(edge.src, edge.dst, edge.label.text());
    page.put(sink, line.as_slice())
}

/// Puts the line of each edge.
fn put_edges<O: Sink>(edges: &[EmitEdge], page: &mut Page, sink: &mut O) -> Result<(), Failed>
    ensures gathered { Gathers (O.told sink.old) page.old (O.told sink.new) page.new result (flat_map edge_line_of edges.now) }
    ensures cause { HasCause (O.faults sink.old) (O.faults sink.new) result }
{
    for edge in edges {
        put_edge(*edge, page, sink)?;
    }
    Ok(())
}

/// Puts the lines of the vertices, and then those of the edges.
fn put_list<O: Sink>(list: &EmitList, page: &mut Page, sink: &mut O) -> Result<(), Failed>
    ensures gathered { Gathers (O.told sink.old) page.old (O.told sink.new) page.new result (list_bytes list.now) }
    ensures cause { HasCause (O.faults sink.old) (O.faults sink.new) result }
{
    put_vertices(list, page, sink)?;
    put_edges(list.edges(), page, sink)
}

/// Prints a list: for each vertex by its number the line `# K TEXT`, and then for each edge the line `U V LABEL`.
///
/// The text goes to the sink in pieces of up to 16,384 bytes. A reader of edge files skips the lines of the vertices,
/// so the text is an edge file. `Failed` comes only where the sink failed, which has then taken a prefix of the text.
pub fn print_edges<O: Sink>(list: &EmitList, sink: &mut O) -> Result<(), Failed>
    ensures taken { Takes (O.told sink.old) (O.told sink.new) result (list_bytes list.now) }
    ensures cause { HasCause (O.faults sink.old) (O.faults sink.new) result }
{
    let mut page = Page::new();
    put_list(list, &mut page, sink)?;
    page.flush(sink)
}
