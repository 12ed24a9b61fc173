ghost use Rattle.std.specs.Prelude.{◌≡◌, ◌<◌, ◌≤◌, true, [], ◌∷◌, IfSome, Contains, length, slice_get};
ghost use Rattle.cube_space.specs.Cells.{IsCell, cube_of, elements_of, is_leaf_cell};
ghost use Rattle.rule_laws.specs.Feeding.{Feeds, FeedsBy};
ghost use Rattle.rule_model.specs.Conditions.{IsFeeder};
ghost use Rattle.rule_model.specs.System.{system_of, feed_of};
ghost use Rattle.feed_chains.specs.Led.{LeadsToAtMost};
ghost use Rattle.feed_chains.specs.Inside.LedCells.{Adds, most_led};

use cube_space::MAX_DIMENSIONS;
use feed_sources::{SourceModel, is_leaf_cell, is_source};
use rule_model::{Feeder, target};

// The most leaf cells that are counted from one cell.
const MAX_LED: usize = 64;

// The most feeders that are looked at for them.
const MAX_LOOKS: usize = 256;

/// At most how many leaf cells chains of feeds lead to from this cell. None where counting them may take long: where
/// they are more than 64, a chain reaches a feeder of a total, or the cubes on the way have more than 256 feeders.
pub fn count_led(model: &SourceModel, cell: u64) -> Option<usize>
    ensures { IfSome result (LeadsToAtMost (system_of model.now) cell) }
{
    let mut led = Led::new();
    follow(model, cell, &mut led)?;
    let mut place = 0;
    'each: while let Some(next) = led.at(place) {
        follow(model, next, &mut led)?;
        place += 1;
    }
    Some(place)
}

// Adds what a cell feeds. A number that is no leaf cell's feeds none.
fn follow(model: &SourceModel, cell: u64, led: &mut Led) -> Option<()>
    ensures { IfSome result (λ _. Adds (Feeds (system_of model.now) cell) led.old led.new) }
{
    if !is_leaf_cell(model.space(), cell) {
        return Some(());
    }
    let mut at = [0u32; MAX_DIMENSIONS];
    let (cube, len) = model.place_of(cell, &mut at);
    let feeders = model.rules(cube).feeders.as_slice();
    led.look(feeders.len())?;
    'each: for n in 0..feeders.len() {
        follow_by(model, &feeders[n], cube, &at[..len], cell, led)?;
    }
    Some(())
}

// Adds what a leaf cell of these elements feeds by one feeder of its cube.
fn follow_by(
    model: &SourceModel,
    feeder: &Feeder,
    cube: u32,
    elements: &[u32],
    cell: u64,
    led: &mut Led,
) -> Option<()>
    requires cell { IsCell model.now.space cell }
    requires leaf { is_leaf_cell model.now.space cell ≡ true }
    requires cube { cube_of model.now.space cell ≡ cube }
    requires elements { elements_of model.now.space cell ≡ elements.now }
    requires feeder { IsFeeder model.now.space cube feeder.now }
    ensures { IfSome result (λ _.
        Adds (FeedsBy (system_of model.now) (feed_of model.now.space cube feeder.now) cell) led.old led.new) }
{
    if !is_source(model, cube, feeder.area.get(), elements) {
        return Some(());
    }
    let Some(named) = target(model.model(), &feeder.target, cell) else {
        return Some(());
    };
    if !model.space().is_leaf(named) {
        return None;
    }
    led.add(named)
}

// Leaf cells to which chains of feeds lead, each once, in the order in which they were found.
#[derive(Drop)]
struct Led {
    cells: [u64; MAX_LED],
    count: usize,
    // How many more feeders may be looked at.
    looks: usize,
}

impl std::marker::Model for Led {
    ghost use Rattle.std.specs.Prelude.{◌≤◌, List, ℕ, take};
    ghost use Rattle.feed_chains.specs.Inside.LedCells.{most_led};

    ghost Value = { List ℕ };

    ghost view = { λ led. take led.count led.cells };

    ghost invariant = { λ led. led.count ≤ most_led };
}

impl Led {
    fn new() -> Led
        ensures { result ≡ [] }
    {
        Led {
            cells: [0; MAX_LED],
            count: 0,
            looks: MAX_LOOKS,
        }
    }

    // The cell at a place.
    fn at(&self, place: usize) -> Option<u64>
        ensures cell { result ≡ slice_get self.now place }
        ensures few { length self.now ≤ most_led }
    {
        self.cells[..self.count].get(place).copied()
    }

    // So many more feeders are looked at.
    fn look(&mut self, feeders: usize) -> Option<()>
        ensures { self.new ≡ self.old }
    {
        self.looks = self.looks.checked_sub(feeders)?;
        Some(())
    }

    // Adds a cell, if it isn't there.
    fn add(&mut self, cell: u64) -> Option<()>
        ensures { IfSome result (λ _. Adds (λ other. cell ≡ other) self.old self.new) }
    {
        if self.cells[..self.count].contains(&cell) {
            return Some(());
        }
        if self.count == MAX_LED {
            return None;
        }
        self.cells[self.count] = cell;
        self.count += 1;
        Some(())
    }
}
