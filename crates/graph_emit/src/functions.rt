//! The functions of a program: the vertices of their parameters, and of what they give.
ghost use Rattle.std.specs.Prelude.{◌≡◌, ◌∷◌, ◌++◌, [], None, Some, OnOk, MatchResult, IfOk, is_some, map};
ghost use Rattle.faults.specs.declared.kinds.InputKind.TheVariants.{Undeclared};
ghost use Rattle.graph_emit.specs.Answers.{Answers, AnswersAs};
ghost use Rattle.graph_emit.specs.Functions.{bound as bound_of, target as target_of, known};
ghost use Rattle.graph_emit.specs.Program.{known_as, param_made as param_step, params_made as params_step, return_made as return_step, target_made as target_step, item_made as item_step, functions_made as functions_step, gives_nothing as is_nothing};

use crate::emitter::{Emitter, refusal};
use crate::fault::EmitFault;
use c_tree::{Base, Function, Item, Name};
use emit_list::VertexForm;
use io_edge::InputKind;
use std::alloc::{AllocError, Global};
use std::marker::Model;
use visible_names::VisibleNames;

/// A parameter: its name, and its vertex.
#[derive(Clone, Copy)]
pub(crate) struct Param<'p> {
    pub(crate) name: &'p [u8],
    pub(crate) vertex: u32,
}

/// Where a call of a name goes: the parameters with their vertices, and the vertex of what the function gives, if
/// anything.
#[derive(Drop)]
pub(crate) struct Target<'p> {
    pub(crate) name: &'p [u8],
    pub(crate) params: Vec<Param<'p>>,
    pub(crate) gives: Option<u32>,
}

/// The functions, found by their names. Contracts see them with the last one first.
#[derive(Drop)]
pub(crate) struct Functions<'p> {
    targets: Vec<Target<'p>>,
    numbers: VisibleNames<'p>,
}

impl<'p> Model for Functions<'p> {
    ghost use Rattle.std.specs.Prelude.{◌≡◌, List, ◌++◌};
    ghost use Rattle.graph_emit.specs.Program.{Known};
    ghost use Rattle.graph_emit.specs.Functions.{known_of, numbered};

    ghost Value = { List Known };

    ghost view = { λ f. known_of f.targets.items };

    ghost invariant = { λ f. f.numbers.inner ++ f.numbers.outer ≡ numbered (known_of f.targets.items) };
}

impl<'p> Functions<'p> {
    /// No functions.
    pub(crate) fn new(alloc: Global) -> Functions<'p>
        ensures { result ≡ [] }
    {
        Functions {
            targets: Vec::new(alloc),
            numbers: VisibleNames::new(alloc),
        }
    }

    /// Whether there is a function of this name.
    fn has(&self, name: &[u8]) -> bool
        ensures { result ≡ is_some (known_as name.now self.now) }
    {
        self.numbers.find(name).is_some()
    }

    /// Adds a function. After a refusal the functions are not used.
    fn add(&mut self, target: Target<'p>) -> Result<(), AllocError>
        ensures { OnOk result (self.new ≡ known target.entry ∷ self.old) }
    {
        let Ok(number) = u32::try_from(self.targets.len()) else {
            return Err(AllocError);
        };
        self.targets.reserve(1)?;
        self.numbers.bind(target.name, number)?;
        self.targets.push(target)?;
        Ok(())
    }

    /// Where a call goes.
    pub(crate) fn goes(&self, name: &Name) -> Result<&Target<'p>, EmitFault>
        ensures { MatchResult result (λ t. known_as name.now.bytes self.now ≡ Some (target_of t.now))
            (λ e. (known_as name.now.bytes self.now ≡ None) × (e ≡ EmitFault.At name.now.tok.line Undeclared)) }
    {
        match self.numbers.find(name.bytes.as_slice()) {
            Some(at) => Ok(&self.targets[at as usize]),
            None => Err(refusal(name.tok, InputKind::Undeclared)),
        }
    }
}

/// A parameter with a new vertex, behind those with these names.
fn param_made<'p>(
    emitter: &mut Emitter<'p>,
    names: &mut VisibleNames<'p>,
    param: &'p c_tree::Param,
) -> Result<Param<'p>, EmitFault>
    ensures made { AnswersAs (λ p. bound_of p ∷ names.old.inner) (param_step names.old.inner param.now)
        emitter.old result emitter.new }
    ensures names { IfOk result (λ p. names.new ≡ record {
      inner = bound_of p ∷ names.old.inner;
      outer = names.old.outer;
    }) }
{
    let name = param.name.bytes.as_slice();
    if names.is_inner(name) {
        return Err(refusal(param.name.tok, InputKind::Repeated));
    }
    let vertex = emitter.fresh(param.name.tok, VertexForm::Variable, name)?;
    names.bind(name, vertex)?;
    Ok(Param { name, vertex })
}

/// The parameters of a function, each with a new vertex.
fn params_made<'p>(
    alloc: Global,
    emitter: &mut Emitter<'p>,
    params: &'p [c_tree::Param],
) -> Result<Vec<Param<'p>>, EmitFault>
    ensures { AnswersAs (λ made. map bound_of made.items) (params_step [] params.now)
        emitter.old result emitter.new }
{
    let mut made = Vec::new(alloc);
    let mut names = VisibleNames::new(alloc);
    for param in params {
        let next = param_made(emitter, &mut names, param)?;
        push_param(&mut made, next)?;
    }
    Ok(made)
}

fn push_param<'p>(params: &mut Vec<Param<'p>>, param: Param<'p>) -> Result<(), AllocError>
    ensures { OnOk result (params.new.items ≡ params.old.items ++ param.entry ∷ []) }
{
    params.push(param)?;
    Ok(())
}

/// Whether a function gives nothing: it is `void` without a star.
fn gives_nothing(base: Base, stars: usize) -> bool
    ensures { result ≡ is_nothing base stars }
{
    matches!(base, Base::Void) && stars == 0
}

/// The vertex of what a function gives, if it gives anything.
fn return_made<'p>(emitter: &mut Emitter<'p>, f: &'p Function) -> Result<Option<u32>, EmitFault>
    ensures { Answers (return_step f.now) emitter.old result emitter.new }
{
    if gives_nothing(f.base, f.stars) {
        return Ok(None);
    }
    let t = emitter.fresh(f.name.tok, VertexForm::Return, f.name.bytes.as_slice())?;
    Ok(Some(t))
}

/// A function's parameters and the vertex of what it gives.
fn target_made<'p>(
    alloc: Global,
    emitter: &mut Emitter<'p>,
    f: &'p Function,
) -> Result<Target<'p>, EmitFault>
    ensures target { AnswersAs target_of (target_step f.now) emitter.old result emitter.new }
    ensures name { IfOk result (λ t. t.name.now ≡ f.now.name.bytes) }
{
    let params = params_made(alloc, emitter, f.params.as_slice())?;
    let gives = return_made(emitter, f)?;
    Ok(Target {
        name: f.name.bytes.as_slice(),
        params,
        gives,
    })
}

/// The function of an item, if it is one, behind those before it.
fn item_made<'p>(
    alloc: Global,
    emitter: &mut Emitter<'p>,
    functions: &mut Functions<'p>,
    item: &'p Item,
) -> Result<(), EmitFault>
    ensures { AnswersAs (λ _. functions.new) (item_step functions.old item.now) emitter.old result emitter.new }
{
    let Item::Function(f) = item else {
        return Ok(());
    };
    if functions.has(f.name.bytes.as_slice()) {
        return Err(refusal(f.name.tok, InputKind::Repeated));
    }
    let target = target_made(alloc, emitter, f)?;
    functions.add(target)?;
    Ok(())
}

/// The functions of a program.
pub(crate) fn functions_made<'p>(
    alloc: Global,
    emitter: &mut Emitter<'p>,
    items: &'p [Item],
) -> Result<Functions<'p>, EmitFault>
    ensures { Answers (functions_step [] items.now) emitter.old result emitter.new }
{
    let mut functions = Functions::new(alloc);
    for item in items {
        item_made(alloc, emitter, &mut functions, item)?;
    }
    Ok(functions)
}
