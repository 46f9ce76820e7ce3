//! Programs.
ghost use Rattle.std.specs.Prelude.{◌≤◌, IfOk, IfErr};
ghost use Rattle.c_tree.specs.Tokens.{source};
ghost use Rattle.c_parser.specs.Program.{IsOnlyProgram, IsFaultOf, AnswersProgram};

use crate::fault::ParseFault;
use crate::item::read_item;
use c_lexer::Token;
use c_tree::{Item, Nodes, Program, ReadFault};
use std::alloc::Global;

/// How many levels a program may open inside one another.
const MAX_LEVELS: usize = 200;

/// The program of the tokens of a text.
///
/// A program opens at most 200 levels inside one another: brackets round an expression or behind the
/// name of a function in a call, blocks, stars, `if` and `while`. Refused is the first token such that
/// no program begins with the tokens up to and with it: as `TooDeep` where only the levels forbid it,
/// else as `Unexpected`; the end of the tokens counts as one.
///
/// It is read by recursive descent with two tokens of lookahead (Aho, Sethi and Ullman, *Compilers*,
/// 1986, section 4.4), and never goes back.
pub fn parse(alloc: Global, bytes: &[u8], tokens: &[Token]) -> Result<Program, ParseFault>
    ensures program { IfOk result (λ p. IsOnlyProgram (source bytes.now tokens.now) p) }
    ensures fault { IfErr result (λ e. IsFaultOf tokens.now e) }
{
    let items = read_program(alloc, bytes, tokens, MAX_LEVELS)?;
    Ok(Program { items })
}

/// Reads items up to the end.
fn read_program(
    alloc: Global,
    bytes: &[u8],
    tokens: &[Token],
    room: usize,
) -> Result<Nodes<Item>, ReadFault>
    requires { 1 ≤ room }
    ensures { AnswersProgram (source bytes.now tokens.now) room result }
{
    let mut items = Nodes::new(alloc);
    let mut next = 0;
    while next < tokens.len() {
        let (item, after) = read_item(alloc, bytes, tokens, next, room)?;
        items.push(item)?;
        next = after;
    }
    Ok(items)
}
