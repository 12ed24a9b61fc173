ghost use Rattle.std.specs.Prelude.{◌≡◌, ℕ, ◌+◌, ◌*◌, ◌<◌, ◌≤◌, true, false, Ok, IfOk, IfErr, OnOk};
ghost use Rattle.std.specs.Prelude.{length, Contains};
ghost use Rattle.cube_space.specs.Cells.{IsCell, is_leaf_cell};
ghost use Rattle.rule_laws.specs.Feeding.{Feeds, FeedsBy};
ghost use Rattle.rule_model.specs.BoundModel.{rules_of};
ghost use Rattle.rule_model.specs.Conditions.{AreRules, IsFeeder};
ghost use Rattle.rule_model.specs.System.{system_of, feed_of};
ghost use Rattle.feed_sources.specs.Feeders.{FeedsByOne};

use crate::choices::choices_of;
use crate::feeds::feeds_by;
use crate::jumps::jump_from;
use crate::misses::misses;
use crate::source_model::SourceModel;
use cell_store::CellSet;
use rule_model::Feeder;

/// More steps were needed than were left.
#[derive(Clone, Copy, Debug, PartialEq, Eq)]
pub struct OutOfSteps;

/// Whether a cell of this set feeds this leaf cell. It takes a step for each feeder and for each cell of the set that
/// it looks at, so no more than one and the number of cells for each feeder, and answers `OutOfSteps` where it would
/// take more than are left.
pub fn is_fed_from<W: CellSet>(
    model: &SourceModel,
    live: &W,
    cell: u64,
    steps: &mut u64,
) -> Result<bool, OutOfSteps>
    requires cell { IsCell model.now.space cell }
    requires leaf { is_leaf_cell model.now.space cell ≡ true }
    ensures fed { result ≡ Ok true → (x : ℕ) × Contains (W.cells live.now) x × Feeds (system_of model.now) x cell }
    ensures none { result ≡ Ok false → (x : ℕ) → Contains (W.cells live.now) x
        → Feeds (system_of model.now) x cell → ⊥ }
    ensures steps { steps.new ≤ steps.old }
    ensures out { IfErr result (λ _. steps.new ≡ 0) }
    ensures enough { IfErr result (λ _.
        steps.old < length (system_of model.now).feeds * (1 + length (W.cells live.now))) }
{
    'each: for cube in 0..model.space().cubes() {
        if is_fed_from_cube(model, live, cube, cell, steps)? {
            return Ok(true);
        }
    }
    Ok(false)
}

// The same by the feeders of one cube.
fn is_fed_from_cube<W: CellSet>(
    model: &SourceModel,
    live: &W,
    cube: u32,
    cell: u64,
    steps: &mut u64,
) -> Result<bool, OutOfSteps>
    requires rules { AreRules model.now.space model.now.rules }
    requires cube { cube < length model.now.space.cubes }
    requires cell { IsCell model.now.space cell }
    requires leaf { is_leaf_cell model.now.space cell ≡ true }
    ensures fed { result ≡ Ok true → (x : ℕ) × Contains (W.cells live.now) x
        × FeedsByOne model.now cube (rules_of model.now cube).feeders x cell }
    ensures none { result ≡ Ok false → (x : ℕ) → Contains (W.cells live.now) x
        → FeedsByOne model.now cube (rules_of model.now cube).feeders x cell → ⊥ }
    ensures steps { steps.new ≤ steps.old }
    ensures out { IfErr result (λ _. steps.new ≡ 0) }
    ensures spent { IfOk result (λ _. steps.old
        ≤ steps.new + length (rules_of model.now cube).feeders * (1 + length (W.cells live.now))) }
    ensures enough { IfErr result (λ _.
        steps.old < length (rules_of model.now cube).feeders * (1 + length (W.cells live.now))) }
{
    let feeders = model.rules(cube).feeders.as_slice();
    'each: for n in 0..feeders.len() {
        if is_fed_by(model, live, cube, &feeders[n], cell, steps)? {
            return Ok(true);
        }
    }
    Ok(false)
}

// The same by one feeder. It goes up through the cells of the set, and jumps over those that haven't the elements of a
// source.
fn is_fed_by<W: CellSet>(
    model: &SourceModel,
    live: &W,
    cube: u32,
    feeder: &Feeder,
    cell: u64,
    steps: &mut u64,
) -> Result<bool, OutOfSteps>
    requires cube { cube < length model.now.space.cubes }
    requires feeder { IsFeeder model.now.space cube feeder.now }
    requires cell { IsCell model.now.space cell }
    requires leaf { is_leaf_cell model.now.space cell ≡ true }
    ensures fed { result ≡ Ok true → (x : ℕ) × Contains (W.cells live.now) x
        × FeedsBy (system_of model.now) (feed_of model.now.space cube feeder.now) x cell }
    ensures none { result ≡ Ok false → (x : ℕ) → Contains (W.cells live.now) x
        → FeedsBy (system_of model.now) (feed_of model.now.space cube feeder.now) x cell → ⊥ }
    ensures steps { steps.new ≤ steps.old }
    ensures out { IfErr result (λ _. steps.new ≡ 0) }
    ensures spent { IfOk result (λ _. steps.old ≤ steps.new + (1 + length (W.cells live.now))) }
    ensures enough { IfErr result (λ _. steps.old < 1 + length (W.cells live.now)) }
{
    take_step(steps)?;
    if misses(model, cube, &feeder.target, cell) {
        return Ok(false);
    }
    let choices = choices_of(model, cube, feeder, cell);
    let space = model.space();
    let dims = space.shape(cube).dims.as_slice();
    let (first, cells) = (space.first(cube), space.cells(cube));
    let mut from = first;
    'jumps: while let Some(next) = live.next_from(from) {
        if next - first >= cells {
            return Ok(false);
        }
        take_step(steps)?;
        match jump_from(space, dims, &choices, cells, next - first) {
            Some(later) => from = first.saturating_add(later),
            None => {
                if feeds_by(model, cube, feeder, next, cell) {
                    return Ok(true);
                }
                from = next + 1;
            }
        }
    }
    Ok(false)
}

// One step less is left.
fn take_step(steps: &mut u64) -> Result<(), OutOfSteps>
    ensures steps { steps.new ≤ steps.old }
    ensures out { IfErr result (λ _. steps.new ≡ 0) }
    ensures one { OnOk result (steps.old ≡ steps.new + 1) }
    ensures none { IfErr result (λ _. steps.old ≡ 0) }
{
    match steps.checked_sub(1) {
        Some(left) => {
            *steps = left;
            Ok(())
        }
        None => Err(OutOfSteps),
    }
}
