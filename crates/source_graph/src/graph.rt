//! The graph of a C text.
ghost use Rattle.std.specs.Prelude.{◌≡◌, IfErr, IfOk};
ghost use Rattle.source_graph.specs.Sources.{IsRefusal, IsSourceGraph, of_emit as emit_as, of_lex as lex_as, of_parse as parse_as};

use crate::lines::{line_at, token_line};
use c_lexer::{LexFault, Token, lex};
use c_parser::{ParseFault, parse};
use faults::InputKind;
use graph_emit::{EmitFault, EmitKind, EmitList, emit};
use std::alloc::Global;

/// A C text has at most so many bytes.
pub const LONGEST_SOURCE: usize = 16_777_216;

/// Why a C text has no graph.
#[derive(Clone, Copy, Debug, PartialEq, Eq)]
pub enum SourceFault {
    /// Its first refusal.
    At {
        /// The line, counted from 1.
        line: u64,
        /// What is wrong there.
        kind: InputKind,
    },
    /// Memory was wanted.
    NoMemory,
}

/// The fault of tokens as one of a text.
fn of_lex(fault: LexFault) -> SourceFault
    ensures { result ≡ lex_as fault }
{
    match fault {
        LexFault::At { line, kind, .. } => SourceFault::At { line, kind },
        LexFault::NoMemory => SourceFault::NoMemory,
    }
}

/// The fault of a program as one of a text with these tokens.
fn of_parse(tokens: &[Token], fault: ParseFault) -> SourceFault
    ensures { result ≡ parse_as tokens.now fault }
{
    match fault {
        ParseFault::At { token, kind } => SourceFault::At {
            line: token_line(tokens, token),
            kind,
        },
        ParseFault::NoMemory => SourceFault::NoMemory,
    }
}

/// The fault of a graph as one of a text.
fn of_emit(fault: EmitFault) -> SourceFault
    ensures { result ≡ emit_as fault }
{
    match fault {
        EmitFault::At { line, kind } => SourceFault::At { line, kind },
        EmitFault::NoMemory => SourceFault::NoMemory,
    }
}

/// The graph of a C text.
///
/// A text of more than 16,777,216 bytes is `TooLong`, at the line that holds the first byte past them. Else the first
/// refusal is that of its tokens, of its program or of its graph, in this order, with the line of the byte or token
/// that is refused; where the tokens end too early, that of the last one, and 1 where there is none. `NoMemory` comes
/// for want of memory.
pub fn source_graph(alloc: Global, text: &[u8], kind: EmitKind) -> Result<EmitList, SourceFault>
    ensures graph { IfOk result (λ list. IsSourceGraph kind text.now list) }
    ensures fault { IfErr result (IsRefusal kind text.now) }
{
    if text.len() > LONGEST_SOURCE {
        return Err(SourceFault::At {
            line: line_at(text, LONGEST_SOURCE),
            kind: InputKind::TooLong,
        });
    }
    let tokens = match lex(alloc, text) {
        Ok(tokens) => tokens,
        Err(fault) => return Err(of_lex(fault)),
    };
    let program = match parse(alloc, text, &tokens) {
        Ok(program) => program,
        Err(fault) => return Err(of_parse(&tokens, fault)),
    };
    match emit(alloc, &program, kind) {
        Ok(list) => Ok(list),
        Err(fault) => Err(of_emit(fault)),
    }
}
