//! What a store's manifest says of its vertices, its partitions and its state.
ghost use Rattle.std.specs.Prelude.{◌≡◌, ◌<◌, ◌≤◌, ◌++◌, ◌∷◌, [], ℕ, List, length, MatchOption, IfErr};
ghost use Rattle.faults.specs.Counts.{HasCause};
ghost use Rattle.io_edge.specs.Devices.{Takes};
ghost use Rattle.text_page.specs.Gathered.{Gathers};
ghost use Rattle.dest_map.specs.Table.{counts_of};
ghost use Rattle.manifest_codec.specs.Spelling.{FitsManifest};
ghost use Rattle.query_text.specs.Text.{IsStateLine, edges_in, head_text, part_lines};
ghost use Rattle.io_edge.specs.View.{WriteRose};
ghost use Rattle.query_text.specs.declared.fault.AnswerFault.TheVariants.{WriteFault};

use crate::fault::AnswerFault;
use crate::lines::{Line, finished_line, part_line, unfinished_line, vertices_line};
use io_edge::{Failed, Sink};
use manifest_codec::Manifest;
use open_store::Store;
use pair_sched::least_dirty;
use text_page::Page;

// How many edges partition `i` has.
fn edges_of(m: &Manifest, i: usize) -> u64
    requires fits { FitsManifest m.now }
    requires i { i < length m.now.parts }
    ensures { result ≡ edges_in m.now i }
{
    let mut edges = 0;
    for j in 0..m.map.len() {
        edges += m.map.count(i, j);
    }
    edges
}

// Puts the line of each partition.
fn put_parts<O: Sink>(m: &Manifest, page: &mut Page, sink: &mut O) -> Result<(), Failed>
    requires { FitsManifest m.now }
    ensures gathered { Gathers (O.told sink.old) page.old (O.told sink.new) page.new result (part_lines m.now 0 0 m.now.parts) }
    ensures cause { HasCause (O.faults sink.old) (O.faults sink.new) result }
{
    let mut lo = 0;
    for (i, part) in m.parts.as_slice().iter().enumerate() {
        page.put(sink, part_line(i, lo, part.hi, edges_of(m, i)).as_slice())?;
        lo = part.hi;
    }
    Ok(())
}

// Puts the lines of the vertices and of each partition.
fn put_head<O: Sink>(m: &Manifest, page: &mut Page, sink: &mut O) -> Result<(), Failed>
    requires { FitsManifest m.now }
    ensures gathered { Gathers (O.told sink.old) page.old (O.told sink.new) page.new result (head_text m.now) }
    ensures cause { HasCause (O.faults sink.old) (O.faults sink.new) result }
{
    page.put(sink, vertices_line(m.vertices).as_slice())?;
    put_parts(m, page, sink)
}

// Prints the head.
fn print_head<O: Sink>(m: &Manifest, sink: &mut O) -> Result<(), Failed>
    requires { FitsManifest m.now }
    ensures taken { Takes (O.told sink.old) (O.told sink.new) result (head_text m.now) }
    ensures cause { HasCause (O.faults sink.old) (O.faults sink.new) result }
{
    let mut page = Page::new();
    put_head(m, &mut page, sink)?;
    page.flush(sink)
}

// The line of the state.
fn state_line(m: &Manifest) -> Line
    requires { FitsManifest m.now }
    ensures { IsStateLine m.now result.items }
{
    match least_dirty(&m.map, &m.marks) {
        None => finished_line(),
        Some((i, j)) => unfinished_line(i, j),
    }
}

// Prints the head and the line of the state.
fn print_all<O: Sink>(m: &Manifest, sink: &mut O) -> Result<(), Failed>
    requires { FitsManifest m.now }
    ensures taken { (state : List ℕ) × IsStateLine m.now state × Takes (O.told sink.old) (O.told sink.new) result (head_text m.now ++ state) }
    ensures cause { HasCause (O.faults sink.old) (O.faults sink.new) result }
{
    let state = state_line(m);
    let mut page = Page::new();
    put_head(m, &mut page, sink)?;
    page.put(sink, state.as_slice())?;
    page.flush(sink)
}

/// Prints what the manifest says of vertices and partitions: `vertices` and their number, and for each
/// partition `part`, its number, its first vertex, the vertex behind its last one, and how many edges it has.
///
/// The lines go to the sink in pieces of up to 16,384 bytes, and take no memory. The only fault is `WriteFault`,
/// which comes only where the sink's count rose; then a prefix of the lines was printed.
pub fn head<O: Sink>(store: &Store, sink: &mut O) -> Result<(), AnswerFault>
    ensures taken { Takes (O.told sink.old) (O.told sink.new) result (head_text store.now.manifest) }
    ensures later { O.faults sink.old ≤ O.faults sink.new }
    ensures cause { IfErr result (λ e. (e ≡ WriteFault) × WriteRose O.Sink sink.old sink.new) }
{
    print_head(store.manifest(), sink)?;
    Ok(())
}

/// Prints the lines of `head`, and then `finished`, or `unfinished` and the least pair of partitions
/// with work left.
///
/// The only fault is `WriteFault`, which comes only where the sink's count rose; then a prefix of the
/// lines was printed.
pub fn parts<O: Sink>(store: &Store, sink: &mut O) -> Result<(), AnswerFault>
    ensures taken { (state : List ℕ) × IsStateLine store.now.manifest state
        × Takes (O.told sink.old) (O.told sink.new) result (head_text store.now.manifest ++ state) }
    ensures later { O.faults sink.old ≤ O.faults sink.new }
    ensures cause { IfErr result (λ e. (e ≡ WriteFault) × WriteRose O.Sink sink.old sink.new) }
{
    print_all(store.manifest(), sink)?;
    Ok(())
}
