//! The grammar file is read and checked.
ghost use Rattle.std.specs.Prelude.{◌≡◌, ◌≤◌, ℕ, List, [], ◌∷◌, IfOk, IfErr};
ghost use Rattle.io_edge.specs.View.{KeepsInputs, ReadRose};
ghost use Rattle.graspan_top.specs.Refusals.{Refuses};
ghost use Rattle.graspan_top.specs.Run.{grammar_stage};
ghost use Rattle.graspan_top.specs.Stages.{IsGrammarFile};

use crate::status::Status;
use grammar_norm::{GrammarFault, read_grammar};
use graph_words::LONGEST_GRAMMAR;
use io_edge::{InputFile, Inputs, ReadFault, read_whole};
use std::alloc::Global;

/// A grammar file has at most 16,777,216 bytes. A line's bytes more show which fault a longer one has.
const GRAMMAR_LIMIT: u64 = LONGEST_GRAMMAR as u64 + 4_096;

/// The text of the grammar file, which has no fault.
pub(crate) fn read_grammar_file<I: Inputs>(
    alloc: Global,
    inputs: &mut I,
    name: &str,
) -> Result<Vec<u8>, Status>
    ensures read { IfOk result (λ text. IsGrammarFile (I.told inputs.old name.now) text.items) }
    ensures refused { IfErr result (Refuses (grammar_stage (I.told inputs.old name.now)
        (ReadRose I.Inputs inputs.old inputs.new name.now) ∷ [])) }
    ensures keeps { KeepsInputs I.Inputs inputs.old inputs.new }
{
    let bytes = match read_whole(alloc, inputs, name, GRAMMAR_LIMIT) {
        Ok(bytes) => bytes,
        Err(ReadFault::ReadFailed) => return Err(Status::ReadFault),
        Err(ReadFault::NoMemory) => return Err(Status::NoMemory),
    };
    match read_grammar(alloc, &bytes) {
        Ok(_) => Ok(bytes),
        Err(GrammarFault::Text { line, kind }) => Err(Status::InputFault {
            file: InputFile::Grammar,
            line,
            kind,
        }),
        Err(GrammarFault::NoMemory) => Err(Status::NoMemory),
    }
}
