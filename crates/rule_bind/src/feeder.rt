ghost use Rattle.std.specs.Prelude.{◌<◌, length};
ghost use Rattle.bind_areas.specs.Meaning.{Answers};
ghost use Rattle.bind_arguments.specs.Maps.{AreMapsIn};
ghost use Rattle.rule_bind.specs.Rules.{target_of, feeders_to, feeders_of};

use crate::reference::db_of;
use bind_areas::{BindCause, bind_area, bind_bracket};
use bind_arguments::BoundMaps;
use cube_space::Space;
use lists::ListOf;
use rule_laws::Reference;
use rule_model::{Feeder, SharedArea};
use rule_tree::{FeederText, TargetText};
use std::alloc::Global;

// A cell that a feeder feeds.
fn target_of(
    alloc: Global,
    space: &Space,
    maps: &mut BoundMaps,
    cube: u32,
    target: &TargetText,
) -> Result<Reference, BindCause>
    requires cube { cube < length space.now.cubes }
    requires maps { AreMapsIn space.now maps.old }
    ensures answers { Answers (target_of space.now cube target.now) result }
    ensures maps { AreMapsIn space.now maps.new }
{
    match target {
        TargetText::Bracket(simples) => bind_bracket(alloc, space, cube, simples.as_slice()),
        TargetText::Db(trees) => db_of(alloc, space, maps, cube, trees.as_slice()),
    }
}

// A feeder for each target, which all share the area.
fn feeders_to(
    alloc: Global,
    space: &Space,
    maps: &mut BoundMaps,
    cube: u32,
    statement: u32,
    area: &SharedArea,
    targets: &[TargetText],
) -> Result<ListOf<Feeder>, BindCause>
    requires cube { cube < length space.now.cubes }
    requires maps { AreMapsIn space.now maps.old }
    ensures answers { Answers (feeders_to space.now cube statement area.now targets.now) result }
    ensures maps { AreMapsIn space.now maps.new }
{
    let mut feeders = Vec::new(alloc);
    for target in targets {
        let target = target_of(alloc, space, maps, cube, target)?;
        let area = area.share()?;
        feeders.push(Feeder {
            area,
            target,
            statement,
        })?;
    }
    Ok(ListOf::new(feeders))
}

/// The feeders that a text means, which has this number among the feeder statements, from 0.
#[tactic(auto, unfolding(crate::specs::Rules::feeders_of))]
pub fn feeders_of(
    alloc: Global,
    space: &Space,
    maps: &mut BoundMaps,
    cube: u32,
    statement: u32,
    text: &FeederText,
) -> Result<ListOf<Feeder>, BindCause>
    requires cube { cube < length space.now.cubes }
    requires maps { AreMapsIn space.now maps.old }
    ensures answers { Answers (feeders_of space.now cube statement text.now) result }
    ensures maps { AreMapsIn space.now maps.new }
{
    let area = bind_area(alloc, space, cube, text.area.as_slice())?;
    let area = SharedArea::new(alloc, area)?;
    feeders_to(
        alloc,
        space,
        maps,
        cube,
        statement,
        &area,
        text.targets.as_slice(),
    )
}
