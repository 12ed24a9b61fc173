ghost use Rattle.std.specs.Prelude.{◌≡◌, ◌<◌, IfOk, IfSome, IsTrue, length};
ghost use Rattle.rule_model.specs.Conditions.{IsFeeder, IsReference};
ghost use Rattle.rule_printer.specs.Writable.{is_writable_target, is_writable_feeder};
ghost use Rattle.feed_print.specs.FeederTexts.{target_text, feeder_text};

use crate::area::entry_texts;
use crate::arguments::argument_texts;
use crate::names::name_text;
use cube_space::Space;
use lists::ListOf;
use rule_laws::Reference;
use rule_model::Feeder;
use rule_tree::{FeederText, TargetText};
use std::alloc::{AllocError, Global};

// The target of a feeder of a cube.
fn target_text(
    alloc: Global,
    space: &Space,
    cube: u32,
    target: &Reference,
) -> Result<Option<TargetText>, AllocError>
    requires cube { cube < length space.now.cubes }
    requires target { IsReference space.now cube target.now }
    ensures text { IfOk result (λ found. found ≡ target_text space.now cube target.now) }
    ensures writable { IfOk result (λ found. IfSome found (λ target. IsTrue (is_writable_target target))) }
{
    let Some(name) = name_text(alloc, &space.shape(target.cube).name)? else {
        return Ok(None);
    };
    let Some(mut more) = argument_texts(alloc, space, cube, target)? else {
        return Ok(None);
    };
    let mut arguments = Vec::new(alloc);
    arguments.push(name)?;
    arguments.append(&mut more)?;
    Ok(Some(TargetText::Db(ListOf::new(arguments))))
}

/// The text of a feeder of a cube. It has none where its area has no element in a dimension, where a name doesn't fit
/// in a token, and where an argument of its target neither is one element nor moves all elements of a dimension as far
/// within it.
#[tactic(auto, unfolding(crate::specs::FeederTexts::feeder_text))]
pub fn text_of(
    alloc: Global,
    space: &Space,
    cube: u32,
    feeder: &Feeder,
) -> Result<Option<FeederText>, AllocError>
    requires cube { cube < length space.now.cubes }
    requires feeder { IsFeeder space.now cube feeder.now }
    ensures text { IfOk result (λ found. found ≡ feeder_text space.now cube feeder.now) }
    ensures writable { IfOk result (λ found. IfSome found (λ text. IsTrue (is_writable_feeder text))) }
{
    let Some(area) = entry_texts(alloc, space, cube, feeder.area.get())? else {
        return Ok(None);
    };
    let Some(target) = target_text(alloc, space, cube, &feeder.target)? else {
        return Ok(None);
    };
    let mut targets = Vec::new(alloc);
    targets.push(target)?;
    Ok(Some(FeederText {
        area: ListOf::new(area),
        targets: ListOf::new(targets),
    }))
}
