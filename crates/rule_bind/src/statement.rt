ghost use Rattle.std.specs.Prelude.{◌≡◌, ◌<◌, length};
ghost use Rattle.bind_areas.specs.Meaning.{Answers};
ghost use Rattle.bind_arguments.specs.Maps.{AreMapsIn};
ghost use Rattle.rule_bind.specs.Rules.{leaf_first, cons_first, parts_of, form_of, statement_of};

use crate::formula::value_of;
use crate::standing::Standing;
use bind_areas::{BindCause, bind_area};
use bind_arguments::BoundMaps;
use cube_space::Space;
use lists::ListOf;
use rule_laws::Formula;
use rule_model::{Form, Statement};
use rule_tree::{BodyText, StatementText, Tree};
use sqlite_items::Boxed;
use std::alloc::Global;

// The parts of a statement in their boxes, for leaf cells and for consolidated cells.
type Parts = (Option<Boxed<Formula>>, Option<Boxed<Formula>>);

// The part that stands first, or alone.
fn form_of(body: &BodyText) -> Form
    ensures { result ≡ form_of body.now }
{
    match body {
        BodyText::Both(_) => Form::Both,
        BodyText::Leaf(_) | BodyText::LeafCons(_, _) => Form::LeafFirst,
        BodyText::Cons(_) | BodyText::ConsLeaf(_, _) => Form::ConsFirst,
    }
}

// The part for leaf cells, and then the one for consolidated cells. What the area has in each dimension is told of leaf
// cells alone.
fn leaf_first(
    alloc: Global,
    space: &Space,
    maps: &mut BoundMaps,
    cube: u32,
    sets: &[Option<ListOf<u32>>],
    leaf: &Tree,
    at: Standing,
    cons: &Tree,
) -> Result<Parts, BindCause>
    requires cube { cube < length space.now.cubes }
    requires maps { AreMapsIn space.now maps.old }
    ensures answers { Answers (leaf_first space.now cube sets.now leaf.now at cons.now) result }
    ensures maps { AreMapsIn space.now maps.new }
{
    let leaf = value_of(alloc, space, maps, cube, sets, Standing::Part, leaf)?;
    let cons = value_of(alloc, space, maps, cube, &[], at, cons)?;
    Ok((Some(leaf), Some(cons)))
}

// The part for consolidated cells, and then the one for leaf cells.
fn cons_first(
    alloc: Global,
    space: &Space,
    maps: &mut BoundMaps,
    cube: u32,
    sets: &[Option<ListOf<u32>>],
    cons: &Tree,
    leaf: &Tree,
) -> Result<Parts, BindCause>
    requires cube { cube < length space.now.cubes }
    requires maps { AreMapsIn space.now maps.old }
    ensures answers { Answers (cons_first space.now cube sets.now cons.now leaf.now) result }
    ensures maps { AreMapsIn space.now maps.new }
{
    let cons = value_of(
        alloc,
        space,
        maps,
        cube,
        &[],
        Standing::ConsolidatedPart,
        cons,
    )?;
    let leaf = value_of(alloc, space, maps, cube, sets, Standing::Part, leaf)?;
    Ok((Some(leaf), Some(cons)))
}

// The parts of a statement, for leaf cells and for consolidated cells. A formula for both is bound once for each.
fn parts_of(
    alloc: Global,
    space: &Space,
    maps: &mut BoundMaps,
    cube: u32,
    sets: &[Option<ListOf<u32>>],
    body: &BodyText,
) -> Result<Parts, BindCause>
    requires cube { cube < length space.now.cubes }
    requires maps { AreMapsIn space.now maps.old }
    ensures answers { Answers (parts_of space.now cube sets.now body.now) result }
    ensures maps { AreMapsIn space.now maps.new }
{
    let at = Standing::ConsolidatedPart;
    match body {
        BodyText::Both(tree) => {
            leaf_first(alloc, space, maps, cube, sets, tree, Standing::Part, tree)
        }
        BodyText::Leaf(leaf) => {
            let leaf = value_of(alloc, space, maps, cube, sets, Standing::Part, leaf)?;
            Ok((Some(leaf), None))
        }
        BodyText::Cons(cons) => {
            let cons = value_of(alloc, space, maps, cube, &[], at, cons)?;
            Ok((None, Some(cons)))
        }
        BodyText::LeafCons(leaf, cons) => {
            leaf_first(alloc, space, maps, cube, sets, leaf, at, cons)
        }
        BodyText::ConsLeaf(cons, leaf) => { cons_first(alloc, space, maps, cube, sets, cons, leaf) }
    }
}

// A part out of its box.
fn part(formula: Option<Boxed<Formula>>) -> Option<Formula>
    ensures { result ≡ formula }
{
    match formula {
        Some(formula) => Some(formula.into_inner()),
        None => None,
    }
}

/// The statement that a text means.
#[tactic(auto, unfolding(crate::specs::Rules::statement_of))]
pub fn statement_of(
    alloc: Global,
    space: &Space,
    maps: &mut BoundMaps,
    cube: u32,
    text: &StatementText,
) -> Result<Statement, BindCause>
    requires cube { cube < length space.now.cubes }
    requires maps { AreMapsIn space.now maps.old }
    ensures answers { Answers (statement_of space.now cube text.now) result }
    ensures maps { AreMapsIn space.now maps.new }
{
    let area = bind_area(alloc, space, cube, text.area.as_slice())?;
    let sets = area.sets.as_slice();
    let (leaf, cons) = parts_of(alloc, space, maps, cube, sets, &text.body)?;
    let form = form_of(&text.body);
    Ok(Statement {
        area,
        leaf: part(leaf),
        cons: part(cons),
        form,
    })
}
