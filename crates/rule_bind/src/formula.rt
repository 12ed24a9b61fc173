ghost use Rattle.std.specs.Prelude.{◌≡◌, ◌<◌, length, map, Ok};
ghost use Rattle.bind_areas.specs.Meaning.{Answers};
ghost use Rattle.rule_laws.specs.declared.formula.Formula.TheVariants as formulas;
ghost use Rattle.rule_laws.specs.declared.formula.Truth.TheVariants as truths;
ghost use Rattle.bind_arguments.specs.Maps.{AreMapsIn};
ghost use Rattle.rule_bind.specs.Formulas.{alone, children, bracket, db, unary, choice, operator_value};
ghost use Rattle.rule_bind.specs.Formulas.{operator_truth, call_value, meant, value_of, truth_of};

use crate::boxes::boxed;
use crate::dimension_size::size_call;
use crate::function::{Function, function_of};
use crate::operator::{Operator, operator_of};
use crate::own_numbers::own_call;
use crate::reference::{children_of, db_of};
use crate::standing::Standing;
use crate::sureness::compare;
use crate::texts::texts_truth;
use bind_areas::{BindCause, bind_bracket};
use bind_arguments::BoundMaps;
use cube_space::Space;
use lists::ListOf;
use rule_laws::{Formula, Fun, Op, Truth};
use rule_tree::{SimpleText, Tree};
use sqlite_items::Boxed;
use std::alloc::Global;

// `STET` or `CONTINUE`, where it may stand.
fn alone(alloc: Global, formula: Formula, at: Standing) -> Result<Boxed<Formula>, BindCause>
    ensures { Answers (alone formula at) result }
{
    match at {
        Standing::Part | Standing::ConsolidatedPart => boxed(alloc, formula),
        Standing::Within => Err(BindCause::Unsupported),
    }
}

// `ConsolidateChildren`, where it may stand.
fn children(
    alloc: Global,
    space: &Space,
    cube: u32,
    at: Standing,
    tree: &Tree,
) -> Result<Boxed<Formula>, BindCause>
    requires cube { cube < length space.now.cubes }
    ensures { Answers (children space.now cube at tree.now) result }
{
    match at {
        Standing::ConsolidatedPart => {
            let dim = children_of(alloc, space, cube, tree)?;
            boxed(alloc, Formula::Children(dim))
        }
        Standing::Part | Standing::Within => Err(BindCause::Unsupported),
    }
}

// A reference to another cell of the cube.
fn bracket(
    alloc: Global,
    space: &Space,
    cube: u32,
    simples: &[SimpleText],
) -> Result<Boxed<Formula>, BindCause>
    requires cube { cube < length space.now.cubes }
    ensures { Answers (bracket space.now cube simples.now) result }
{
    let reference = bind_bracket(alloc, space, cube, simples)?;
    boxed(alloc, Formula::Ref(reference))
}

// A `DB`.
fn db(
    alloc: Global,
    space: &Space,
    maps: &mut BoundMaps,
    cube: u32,
    arguments: &[Tree],
) -> Result<Boxed<Formula>, BindCause>
    requires cube { cube < length space.now.cubes }
    requires maps { AreMapsIn space.now maps.old }
    ensures answers { Answers (db space.now cube arguments.now) result }
    ensures maps { AreMapsIn space.now maps.new }
{
    let reference = db_of(alloc, space, maps, cube, arguments)?;
    boxed(alloc, Formula::Ref(reference))
}

// A function of one value.
fn unary(alloc: Global, function: Fun, inner: Boxed<Formula>) -> Result<Boxed<Formula>, BindCause>
    ensures { Answers (Ok (formulas.Unary function inner)) result }
{
    boxed(alloc, Formula::Unary(function, inner))
}

// An operation on two values.
fn binary(
    alloc: Global,
    op: Op,
    left: Boxed<Formula>,
    right: Boxed<Formula>,
) -> Result<Boxed<Formula>, BindCause>
    ensures { Answers (Ok (formulas.Binary op left right)) result }
{
    boxed(alloc, Formula::Binary(op, left, right))
}

// An `IF`.
fn choice(
    alloc: Global,
    truth: Boxed<Truth>,
    left: Boxed<Formula>,
    right: Boxed<Formula>,
) -> Result<Boxed<Formula>, BindCause>
    ensures { Answers (Ok (formulas.If truth left right)) result }
{
    boxed(alloc, Formula::If(truth, left, right))
}

// A truth that must not hold.
fn negation(alloc: Global, inner: Boxed<Truth>) -> Result<Boxed<Truth>, BindCause>
    ensures { Answers (Ok (truths.Not inner)) result }
{
    boxed(alloc, Truth::Not(inner))
}

// Two truths of which both must hold.
fn both(alloc: Global, left: Boxed<Truth>, right: Boxed<Truth>) -> Result<Boxed<Truth>, BindCause>
    ensures { Answers (Ok (truths.And left right)) result }
{
    boxed(alloc, Truth::And(left, right))
}

// Two truths of which one must hold.
fn either(alloc: Global, left: Boxed<Truth>, right: Boxed<Truth>) -> Result<Boxed<Truth>, BindCause>
    ensures { Answers (Ok (truths.Or left right)) result }
{
    boxed(alloc, Truth::Or(left, right))
}

/// What a formula means as a value.
#[cycle(values)]
#[tactic(auto, using(crate::proofs::FormulaFacts::means))]
pub fn value_of(
    alloc: Global,
    space: &Space,
    maps: &mut BoundMaps,
    cube: u32,
    sets: &[Option<ListOf<u32>>],
    at: Standing,
    tree: &Tree,
) -> Result<Boxed<Formula>, BindCause>
    requires cube { cube < length space.now.cubes }
    requires maps { AreMapsIn space.now maps.old }
    ensures answers { Answers (value_of space.now cube sets.now at tree.now) result }
    ensures maps { AreMapsIn space.now maps.new }
{
    match tree {
        Tree::Number(number) => boxed(alloc, Formula::Number(*number)),
        Tree::Bracket(simples) => bracket(alloc, space, cube, simples.as_slice()),
        Tree::Stet => alone(alloc, Formula::Stet, at),
        Tree::Continue => alone(alloc, Formula::Continue, at),
        Tree::Call(word, arguments) => {
            let function = function_of(word.as_slice());
            let trees = arguments.as_slice();
            call_of(alloc, space, maps, cube, sets, at, function, trees)
        }
        Tree::Minus(inner) => one_of(alloc, space, maps, cube, sets, Fun::Minus, inner.get()),
        Tree::Binary(op, left, right) => {
            let operator = operator_of(*op);
            let left = left.get();
            let right = right.get();
            operation_of(alloc, space, maps, cube, sets, operator, left, right)
        }
        Tree::Text(_) => Err(BindCause::Unsupported),
        Tree::Current(_) => Err(BindCause::Unsupported),
        Tree::Not(_) => Err(BindCause::Unsupported),
    }
}

/// What a formula means as a truth.
#[cycle(values)]
#[tactic(auto, using(crate::proofs::FormulaFacts::means))]
pub fn truth_of(
    alloc: Global,
    space: &Space,
    maps: &mut BoundMaps,
    cube: u32,
    sets: &[Option<ListOf<u32>>],
    tree: &Tree,
) -> Result<Boxed<Truth>, BindCause>
    requires cube { cube < length space.now.cubes }
    requires maps { AreMapsIn space.now maps.old }
    ensures answers { Answers (truth_of space.now cube sets.now tree.now) result }
    ensures maps { AreMapsIn space.now maps.new }
{
    match tree {
        Tree::Not(inner) => {
            let inner = truth_of(alloc, space, maps, cube, sets, inner.get())?;
            negation(alloc, inner)
        }
        Tree::Binary(op, left, right) => {
            let operator = operator_of(*op);
            let left = left.get();
            let right = right.get();
            condition_of(alloc, space, maps, cube, sets, operator, left, right)
        }
        Tree::Number(_) => Err(BindCause::Unsupported),
        Tree::Text(_) => Err(BindCause::Unsupported),
        Tree::Current(_) => Err(BindCause::Unsupported),
        Tree::Bracket(_) => Err(BindCause::Unsupported),
        Tree::Stet => Err(BindCause::Unsupported),
        Tree::Continue => Err(BindCause::Unsupported),
        Tree::Call(_, _) => Err(BindCause::Unsupported),
        Tree::Minus(_) => Err(BindCause::Unsupported),
    }
}

// What an operator between two formulas means as a truth.
#[cycle(values)]
fn condition_of(
    alloc: Global,
    space: &Space,
    maps: &mut BoundMaps,
    cube: u32,
    sets: &[Option<ListOf<u32>>],
    operator: Operator,
    left: &Tree,
    right: &Tree,
) -> Result<Boxed<Truth>, BindCause>
    requires cube { cube < length space.now.cubes }
    requires maps { AreMapsIn space.now maps.old }
    ensures answers { Answers (operator_truth space.now cube sets.now operator
        (meant space.now cube sets.now left.now) (meant space.now cube sets.now right.now)) result }
    ensures maps { AreMapsIn space.now maps.new }
{
    match operator {
        Operator::Operation(_) => Err(BindCause::Unsupported),
        Operator::Comparison(rel) => {
            let left = value_of(alloc, space, maps, cube, sets, Standing::Within, left)?;
            let right = value_of(alloc, space, maps, cube, sets, Standing::Within, right)?;
            compare(alloc, space, cube, sets, rel, left, right)
        }
        Operator::Texts(rel) => texts_truth(alloc, space, maps, cube, sets, rel, left, right),
        Operator::And => {
            let left = truth_of(alloc, space, maps, cube, sets, left)?;
            let right = truth_of(alloc, space, maps, cube, sets, right)?;
            both(alloc, left, right)
        }
        Operator::Or => {
            let left = truth_of(alloc, space, maps, cube, sets, left)?;
            let right = truth_of(alloc, space, maps, cube, sets, right)?;
            either(alloc, left, right)
        }
    }
}

// What an operator between two formulas means as a value.
#[cycle(values)]
fn operation_of(
    alloc: Global,
    space: &Space,
    maps: &mut BoundMaps,
    cube: u32,
    sets: &[Option<ListOf<u32>>],
    operator: Operator,
    left: &Tree,
    right: &Tree,
) -> Result<Boxed<Formula>, BindCause>
    requires cube { cube < length space.now.cubes }
    requires maps { AreMapsIn space.now maps.old }
    ensures answers { Answers (operator_value operator
        (meant space.now cube sets.now left.now) (meant space.now cube sets.now right.now)) result }
    ensures maps { AreMapsIn space.now maps.new }
{
    match operator {
        Operator::Operation(op) => {
            let left = value_of(alloc, space, maps, cube, sets, Standing::Within, left)?;
            let right = value_of(alloc, space, maps, cube, sets, Standing::Within, right)?;
            binary(alloc, op, left, right)
        }
        _ => Err(BindCause::Unsupported),
    }
}

// What a function with these arguments means.
#[cycle(values)]
#[tactic(auto, using(crate::proofs::FormulaFacts::means))]
fn call_of(
    alloc: Global,
    space: &Space,
    maps: &mut BoundMaps,
    cube: u32,
    sets: &[Option<ListOf<u32>>],
    at: Standing,
    function: Function,
    arguments: &[Tree],
) -> Result<Boxed<Formula>, BindCause>
    requires cube { cube < length space.now.cubes }
    requires maps { AreMapsIn space.now maps.old }
    ensures answers { Answers (call_value space.now cube at function
        (map (meant space.now cube sets.now) arguments.now)) result }
    ensures maps { AreMapsIn space.now maps.new }
{
    match function {
        Function::If => match arguments {
            [condition, left, right] => {
                choice_of(alloc, space, maps, cube, sets, at, condition, left, right)
            }
            _ => Err(BindCause::WrongCount),
        },
        Function::One(function) => match arguments {
            [inner] => one_of(alloc, space, maps, cube, sets, function, inner),
            _ => Err(BindCause::WrongCount),
        },
        Function::Two(op) => match arguments {
            [left, right] => {
                let operator = Operator::Operation(op);
                operation_of(alloc, space, maps, cube, sets, operator, left, right)
            }
            _ => Err(BindCause::WrongCount),
        },
        Function::Db => db(alloc, space, maps, cube, arguments),
        Function::Children => match arguments {
            [dim] => children(alloc, space, cube, at, dim),
            _ => Err(BindCause::WrongCount),
        },
        Function::Own(function) => own_call(alloc, space, maps, cube, function, arguments),
        Function::Size => size_call(alloc, space, arguments),
        Function::Other => Err(BindCause::Unsupported),
    }
}

// What an `IF` means.
#[cycle(values)]
fn choice_of(
    alloc: Global,
    space: &Space,
    maps: &mut BoundMaps,
    cube: u32,
    sets: &[Option<ListOf<u32>>],
    at: Standing,
    condition: &Tree,
    left: &Tree,
    right: &Tree,
) -> Result<Boxed<Formula>, BindCause>
    requires cube { cube < length space.now.cubes }
    requires maps { AreMapsIn space.now maps.old }
    ensures answers { Answers (choice at (meant space.now cube sets.now condition.now)
        (meant space.now cube sets.now left.now) (meant space.now cube sets.now right.now)) result }
    ensures maps { AreMapsIn space.now maps.new }
{
    let truth = truth_of(alloc, space, maps, cube, sets, condition)?;
    let left = value_of(alloc, space, maps, cube, sets, at, left)?;
    let right = value_of(alloc, space, maps, cube, sets, at, right)?;
    choice(alloc, truth, left, right)
}

// What a function of one value means.
#[cycle(values)]
fn one_of(
    alloc: Global,
    space: &Space,
    maps: &mut BoundMaps,
    cube: u32,
    sets: &[Option<ListOf<u32>>],
    function: Fun,
    inner: &Tree,
) -> Result<Boxed<Formula>, BindCause>
    requires cube { cube < length space.now.cubes }
    requires maps { AreMapsIn space.now maps.old }
    ensures answers { Answers (unary function (meant space.now cube sets.now inner.now)) result }
    ensures maps { AreMapsIn space.now maps.new }
{
    let inner = value_of(alloc, space, maps, cube, sets, Standing::Within, inner)?;
    unary(alloc, function, inner)
}
