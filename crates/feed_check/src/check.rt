ghost use Rattle.std.specs.Prelude.{◌≡◌, ◌<◌, true, length, Some, None, IfErr, OnErr, OnOk, All};
ghost use Rattle.rule_laws.specs.Feeding.{is_dense};
ghost use Rattle.rule_laws.specs.Cover.{IsCovered, IsCoveredRule};
ghost use Rattle.rule_model.specs.BoundModel.{rules_of};
ghost use Rattle.rule_model.specs.System.{system_of, cube_rules};
ghost use Rattle.feed_check.specs.Sizes.{AreSmall};
ghost use Rattle.feed_check.specs.Verdict.{IsFirstFault, IsFaultOf, IsFirstBlamed, IsSound};

use crate::fault::FeedCheckFault;
use crate::size::{MAX_DENSE, leaf_count};
use crate::statement::blamed_in;
use feed_cover::CoverAnswers;
use rule_model::Model;

/// Checks the statements of a cube that says `SKIPCHECK`.
fn check_statements(model: &Model, cube: u32) -> Result<(), FeedCheckFault>
    requires cube { cube < length model.now.space.cubes }
    requires skips { (rules_of model.now cube).skipcheck ≡ true }
    ensures sound { OnOk result (All (IsCoveredRule (system_of model.now)) (cube_rules model.now cube)) }
    ensures fault { IfErr result (IsFaultOf model.now cube) }
{
    let _space = model.space();
    let statements = model.rules(cube).statements.as_slice();
    let mut answers = CoverAnswers::none();
    'each: for n in 0..statements.len() {
        if let Some(operand) = blamed_in(model, cube, &statements[n], &mut answers) {
            let statement = n as u32 + 1;
            return Err(FeedCheckFault::NotFed {
                cube,
                statement,
                operand,
            });
        }
    }
    Ok(())
}

/// Checks a cube.
fn check_cube(model: &Model, cube: u32) -> Result<(), FeedCheckFault>
    requires { cube < length model.now.space.cubes }
    ensures sound { OnOk result (IsSound model.now cube) }
    ensures fault { IfErr result (IsFaultOf model.now cube) }
{
    let _space = model.space();
    let rules = model.rules(cube);
    if rules.skipcheck {
        return check_statements(model, cube);
    }
    if rules.statements.as_slice().is_empty() {
        return Ok(());
    }
    let count = leaf_count(model, cube);
    if count > MAX_DENSE {
        return Err(FeedCheckFault::DenseTooLarge { cube, count });
    }
    Ok(())
}

/// Checks the feeders of a model, cube by cube: a cube that has rules without `SKIPCHECK` is dense, so all its leaf
/// cells are fed, and may have at most [`MAX_DENSE`](crate::MAX_DENSE) of them; in a cube with `SKIPCHECK` the N part
/// of each statement has to pass the zero test, by the references that feeders cover.
pub fn check_feeders(model: &Model) -> Result<(), FeedCheckFault>
    ensures covered { OnOk result (IsCovered (system_of model.now)) }
    ensures small { OnOk result (AreSmall model.now) }
    ensures refused { OnErr result (IsCovered (system_of model.now) → AreSmall model.now → ⊥) }
    ensures fault { IfErr result (IsFirstFault model.now) }
{
    'each: for cube in 0..model.space().cubes() {
        check_cube(model, cube)?;
    }
    Ok(())
}
