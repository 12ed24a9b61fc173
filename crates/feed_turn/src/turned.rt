ghost use Rattle.std.specs.Prelude.{◌≡◌, ◌<◌, length, option_map, IfOk, IfSome};
ghost use Rattle.cube_space.specs.Layout.{axes};
ghost use Rattle.rule_model.specs.Conditions.{IsFeeder};
ghost use Rattle.feed_turn.specs.Turning.{target_arg, target_args, turned_feeder};
ghost use Rattle.feed_turn.specs.Views.{turn_of, IsTurn};
ghost use Rattle.feed_turn.specs.Known.{AreTurns};

use crate::area::area_over;
use crate::back::first_way;
use crate::source::source_area;
use crate::turn_view::TurnView;
use crate::turns::Turns;
use cube_space::axis_count;
use lists::ListOf;
use rule_laws::{Arg, Reference};
use rule_model::{Feeder, SharedArea};
use std::alloc::{AllocError, Global};

// What the feeder's target names in a dimension of the statement's cube: the way back to it, or else the element over
// the leaves of the area.
fn target_arg<'a>(
    alloc: Global,
    view: TurnView<'a>,
    dim: u32,
    turns: &mut Turns<'a>,
) -> Result<Option<Arg>, AllocError>
    requires view { IsTurn view }
    requires dim { dim < length (axes view.model.now.space view.cube) }
    requires turns { AreTurns view.model.now view.cube turns.old }
    ensures arg { IfOk result (λ found. found ≡ target_arg (turn_of view.entry) dim) }
    ensures turns { AreTurns view.entry.model.now view.entry.cube turns.new }
{
    let way = first_way(alloc, view, dim, turns)?;
    if way.is_some() {
        return Ok(way);
    }
    match area_over(
        alloc,
        view.model,
        view.cube,
        view.area,
        dim,
        &mut turns.overs,
    )? {
        Some(over) => Ok(Some(Arg::Fixed(over))),
        None => Ok(None),
    }
}

// What it names in each dimension, unless there is nothing in one.
#[tactic(auto, unfolding(crate::specs::Turning::target_args))]
fn target_args<'a>(
    alloc: Global,
    view: TurnView<'a>,
    turns: &mut Turns<'a>,
) -> Result<Option<Vec<Arg>>, AllocError>
    requires view { IsTurn view }
    requires turns { AreTurns view.model.now view.cube turns.old }
    ensures args { IfOk result (λ found. option_map (λ args. args.items) found ≡ target_args (turn_of view.entry)) }
    ensures turns { AreTurns view.entry.model.now view.entry.cube turns.new }
{
    let mut args = Vec::new(alloc);
    'each: for dim in 0..axis_count(view.model.space(), view.cube) {
        match target_arg(alloc, view, dim, turns)? {
            Some(arg) => args.push(arg)?,
            None => return Ok(None),
        }
    }
    Ok(Some(args))
}

/// The one feeder that covers the reference, as one of the feeder statement of this number, or None where the reference
/// can't be turned round. What is remembered serves all references of the statements of a cube, and begins with
/// [`Turns::none`].
#[tactic(auto, unfolding(crate::specs::Turning::turned_feeder))]
pub fn turned_feeder<'a>(
    alloc: Global,
    view: TurnView<'a>,
    statement: u32,
    turns: &mut Turns<'a>,
) -> Result<Option<Feeder>, AllocError>
    requires view { IsTurn view }
    requires turns { AreTurns view.model.now view.cube turns.old }
    ensures found { IfOk result (λ found. found ≡ turned_feeder (turn_of view.entry) statement) }
    ensures valid { IfOk result (λ found. IfSome found
        (IsFeeder view.entry.model.now.space view.entry.reference.now.cube)) }
    ensures turns { AreTurns view.entry.model.now view.entry.cube turns.new }
{
    let Some(args) = target_args(alloc, view, turns)? else {
        return Ok(None);
    };
    let sources = source_area(alloc, view, turns)?;
    let area = SharedArea::new(alloc, sources)?;
    let target = Reference {
        cube: view.cube,
        args: ListOf::new(args),
    };
    Ok(Some(Feeder {
        area,
        target,
        statement,
    }))
}
