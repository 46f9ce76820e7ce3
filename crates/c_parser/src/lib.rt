//! The parser of the C subset: the program of a text's tokens, or the first token that none goes on with.
#![tactic(auto)]

mod branches;
mod declaration;
mod fault;
mod item;
mod params;
mod program;
mod simple;
mod stmt;

pub use c_tree::{
    AddOp, Added, Base, Call, CompareOp, Compared, Declaration, Expr, Function, Item, Name,
    NameBytes, Nodes, Param, Place, Pointer, Program, Stmt, Sum, Tok, Unary, Var,
};
pub use fault::ParseFault;
pub use program::parse;
