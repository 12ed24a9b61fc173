ghost use Rattle.std.specs.Prelude.{◌≡◌, ◌<◌, IfErr, OnOk, length};
ghost use Rattle.rule_laws.specs.Feeding.{is_dense, IsDenseCell};
ghost use Rattle.rule_model.specs.System.{system_of};
ghost use Rattle.feed_map.specs.Inside.Gains.{Gains, StopsBy};
ghost use Rattle.feed_map.specs.Inside.Leaves.{IsLeafCellOf};
ghost use Rattle.feed_map.specs.Inside.Follows.{IsDenseOf};

use crate::fault::FedFault;
use crate::growth::Growth;
use crate::leaves::{Below, add_product, leaves_of_cube};
use cube_space::MAX_DIMENSIONS;
use rule_model::Model;
use std::alloc::Global;

/// Finds the leaf cells of the dense cubes.
pub fn add_dense(alloc: Global, model: &Model, growth: &mut Growth) -> Result<(), FedFault>
    ensures gains { OnOk result (Gains (IsDenseCell (system_of model.now)) growth.old growth.new) }
    ensures stops { IfErr result (StopsBy (IsDenseCell (system_of model.now)) growth.old growth.new) }
{
    'each: for cube in 0..model.space().cubes() {
        add_if_dense(alloc, model, cube, growth)?;
    }
    Ok(())
}

// Finds the leaf cells of a cube, where it is dense.
fn add_if_dense(
    alloc: Global,
    model: &Model,
    cube: u32,
    growth: &mut Growth,
) -> Result<(), FedFault>
    requires { cube < length model.now.space.cubes }
    ensures gains { OnOk result (Gains (IsDenseOf model.now cube) growth.old growth.new) }
    ensures stops { IfErr result (StopsBy (IsDenseOf model.now cube) growth.old growth.new) }
{
    if !is_dense(model, cube) {
        return Ok(());
    }
    add_cube(alloc, model, cube, growth)
}

// Finds all leaf cells of a cube.
fn add_cube(alloc: Global, model: &Model, cube: u32, growth: &mut Growth) -> Result<(), FedFault>
    requires { cube < length model.now.space.cubes }
    ensures gains { OnOk result (Gains (IsLeafCellOf model.now.space cube) growth.old growth.new) }
    ensures stops { IfErr result (StopsBy (IsLeafCellOf model.now.space cube) growth.old growth.new) }
{
    let mut at = [0u32; MAX_DIMENSIONS];
    let leaves = leaves_of_cube(alloc, model, cube)?;
    let below = Below {
        model,
        cube,
        roots: &[],
        leaves: &leaves,
    };
    add_product(below, 0, &mut at, growth)
}

// Whether a cube has statements and doesn't say SKIPCHECK.
fn is_dense(model: &Model, cube: u32) -> bool
    requires { cube < length model.now.space.cubes }
    ensures { result ≡ is_dense (system_of model.now) cube }
{
    let rules = model.rules(cube);
    !rules.skipcheck && !rules.statements.as_slice().is_empty()
}
