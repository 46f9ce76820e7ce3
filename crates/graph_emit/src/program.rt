//! The graph of a program.
ghost use Rattle.std.specs.Prelude.{◌≡◌, ◌⊎◌, ◌++◌, [], Err, OnOk, IfOk, MatchResult, map};
ghost use Rattle.emit_list.specs.Vertices.{IsListed, IsGraphOfProgram};
ghost use Rattle.graph_emit.specs.Answers.{Answers, made};
ghost use Rattle.graph_emit.specs.Settings.{seen};
ghost use Rattle.graph_emit.specs.Program.{item_walk, items_walk, graph_of, shown, IsProgramGraph};

use crate::emitter::{Emitter, Spot};
use crate::expr::Setting;
use crate::fault::{EmitFault, EmitKind};
use crate::functions::functions_made;
use crate::stmt::{walk_body, walk_vars};
use c_tree::{Item, Program};
use emit_list::{EmitEdge, EmitList};
use std::alloc::{AllocError, Global};

/// An item: variables, or the body of a function.
fn walk_item<'p>(
    set: &Setting<'_, 'p>,
    emitter: &mut Emitter<'p>,
    item: &'p Item,
) -> Result<(), EmitFault>
    ensures { Answers (item_walk (seen set.now) item.now) emitter.old result emitter.new }
{
    match item {
        Item::Declared(d) => walk_vars(set, emitter, d.vars.as_slice()),
        Item::Function(f) => {
            let target = set.functions.goes(&f.name)?;
            walk_body(set, emitter, &f.block, target)
        }
    }
}

/// The items in text order.
fn walk_items<'p>(
    set: &Setting<'_, 'p>,
    emitter: &mut Emitter<'p>,
    items: &'p [Item],
) -> Result<(), EmitFault>
    ensures { Answers (items_walk (seen set.now) items.now) emitter.old result emitter.new }
{
    for item in items {
        walk_item(set, emitter, item)?;
    }
    Ok(())
}

fn add_vertices(alloc: Global, list: &mut EmitList, spots: &[Spot<'_>]) -> Result<(), AllocError>
    requires { IsListed (list.old.vertices ++ map (λ spot. shown (made spot)) spots.now) [] }
    ensures { OnOk result (list.new ≡ record {
      vertices = list.old.vertices ++ map (λ spot. shown (made spot)) spots.now;
      edges = list.old.edges;
    }) }
{
    for spot in spots {
        list.add_vertex(alloc, spot.form, spot.name)?;
    }
    Ok(())
}

fn add_edges(list: &mut EmitList, edges: &[EmitEdge]) -> Result<(), AllocError>
    requires { IsListed list.old.vertices edges.now }
    ensures { OnOk result (list.new ≡ record {
      vertices = list.old.vertices;
      edges = list.old.edges ++ edges.now;
    }) }
{
    for edge in edges {
        list.add_edge(*edge)?;
    }
    Ok(())
}

/// The graph of a program: first the parameters and the results of its functions have vertices, and then the
/// program is walked in text order. The alias graph of C is after Zheng and Rugina (POPL 2008).
///
/// The first refusal is answered with its line: `Repeated` for a second function of one name, or a second variable
/// of one name in one scope; `Undeclared` for a name that is not visible; `WrongArguments` for a call with too few
/// or too many; `NoValue` for a call without a value that is used for one, and for `return` with a value in a
/// function without one; `TooManyVertices` where a vertex would have the number 16,777,216. The only other fault is
/// `NoMemory`, which also stands for a program of more than 2^32 functions.
pub fn emit(alloc: Global, program: &Program, kind: EmitKind) -> Result<EmitList, EmitFault>
    ensures graph { MatchResult result (λ list. IsProgramGraph kind program.now list)
        (λ fault. (fault ≡ EmitFault.NoMemory) ⊎ (graph_of kind program.now ≡ Err fault)) }
    ensures kept { IfOk result (λ list. IsGraphOfProgram list) }
{
    let mut emitter = Emitter::new(alloc);
    let items = program.items.as_slice();
    let functions = functions_made(alloc, &mut emitter, items)?;
    let set = Setting {
        kind,
        functions: &functions,
    };
    walk_items(&set, &mut emitter, items)?;
    let mut list = EmitList::new(alloc);
    add_vertices(alloc, &mut list, emitter.spots())?;
    add_edges(&mut list, emitter.edges())?;
    Ok(list)
}
