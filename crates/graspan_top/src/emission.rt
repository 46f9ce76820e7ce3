//! The command `emit`: the graph of a C file.
ghost use Rattle.std.specs.Prelude.{◌≡◌, ◌≤◌, ℕ, List, [], ◌∷◌, IfErr, IfOk, is_some};
ghost use Rattle.io_edge.specs.View.{KeepsInputs, ReadRose, WriteRose};
ghost use Rattle.source_graph.specs.Sources.{IsSourceGraph};
ghost use Rattle.graspan_top.specs.declared.status.Status.TheVariants.{Done};
ghost use Rattle.graspan_top.specs.Emission.{IsEmitText, emit_stages, graph_kind as kind_of_graph, source_stage};
ghost use Rattle.graspan_top.specs.Refusals.{Explained, Refuses};
ghost use Rattle.graspan_top.specs.Given.{WhereTold};
ghost use Rattle.graspan_top.specs.Printed.{Begins, IsNothingOr, PrintsFirst, status_of};

use crate::status::Status;
use command_words::GraphKind;
use emit_list::{EmitList, print_edges};
use graph_emit::EmitKind;
use io_edge::{InputFile, Inputs, ReadFault, Sink, read_whole};
use source_graph::{SourceFault, source_graph, texts_have_one_graph};
use std::alloc::Global;

/// A C file has at most so many bytes. One that is read past them is longer.
const SOURCE_LIMIT: u64 = 16_777_216;

/// What the graph is made for.
fn graph_kind(kind: GraphKind) -> EmitKind
    ensures { result ≡ kind_of_graph kind }
{
    match kind {
        GraphKind::Alias => EmitKind::Alias,
        GraphKind::Null => EmitKind::Null,
    }
}

/// The graph of a C file.
fn graph_of_file<I: Inputs>(
    alloc: Global,
    kind: GraphKind,
    source: &str,
    inputs: &mut I,
) -> Result<EmitList, Status>
    ensures graph { IfOk result (λ list. WhereTold (I.told inputs.old source.now) (λ s. IsSourceGraph (kind_of_graph kind) s list)) }
    ensures refused { IfErr result (Refuses (source_stage (I.told inputs.old source.now) kind
        (ReadRose I.Inputs inputs.old inputs.new source.now) ∷ [])) }
    ensures keeps { KeepsInputs I.Inputs inputs.old inputs.new }
{
    let text = match read_whole(alloc, inputs, source, SOURCE_LIMIT) {
        Ok(text) => text,
        Err(ReadFault::ReadFailed) => return Err(Status::ReadFault),
        Err(ReadFault::NoMemory) => return Err(Status::NoMemory),
    };
    match source_graph(alloc, &text, graph_kind(kind)) {
        Ok(list) => Ok(list),
        Err(SourceFault::At { line, kind }) => Err(Status::InputFault {
            file: InputFile::Source,
            line,
            kind,
        }),
        Err(SourceFault::NoMemory) => Err(Status::NoMemory),
    }
}

/// Prints the graph of a C file: a line for each vertex, and one for each edge.
pub(crate) fn emit<I: Inputs, O: Sink>(
    alloc: Global,
    kind: GraphKind,
    source: &str,
    inputs: &mut I,
    out: &mut O,
) -> Result<(), Status>
    ensures explained { Explained (emit_stages (I.told inputs.old source.now) kind
        (ReadRose I.Inputs inputs.old inputs.new source.now) (WriteRose O.Sink out.old out.new)) (status_of result) }
    ensures printed { PrintsFirst (is_some (I.told inputs.old source.now)) (IsEmitText (I.told inputs.old source.now) kind)
        (O.told out.old) (O.told out.new) (status_of result) }
    ensures begun { Begins (is_some (I.told inputs.old source.now)) (IsNothingOr (IsEmitText (I.told inputs.old source.now) kind))
        (O.told out.old) (O.told out.new) (status_of result) }
    ensures keeps { KeepsInputs I.Inputs inputs.old inputs.new }
    ensures writes { O.faults out.old ≤ O.faults out.new }
{
    texts_have_one_graph();
    let list = graph_of_file(alloc, kind, source, inputs)?;
    match print_edges(&list, out) {
        Ok(()) => Ok(()),
        Err(_) => Err(Status::WriteFault),
    }
}
