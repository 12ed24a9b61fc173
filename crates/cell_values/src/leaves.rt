ghost use Rattle.std.specs.Prelude.{◌≡◌, true, false, ◌+◌, ◌≤◌, ◌^◌, length, All, None, IfSome, IsSome, MatchOption};
ghost use Rattle.cell_values.specs.Reading.{AreValuesOn, IsUngoverned, value_on};
ghost use Rattle.cell_values.specs.Inside.Frames.{leaves_left};
ghost use Rattle.cell_values.specs.Inside.Questions.{leaves_on};
ghost use Rattle.cell_values.specs.Inside.Sums.{IsSum, Stops, sum_on};
ghost use Rattle.cube_fixed.specs.Total.{value_of};
ghost use Rattle.cube_space.specs.Cells.{IsCell, is_leaf_cell};
ghost use Rattle.memo_cells.specs.Knowledge.{Grew};
ghost use Rattle.rule_evaluate.specs.declared.ask.Ask.TheVariants.{Base as of_base};
ghost use Rattle.stored_laws.specs.Stored.{stored_in};

use crate::frames::LeafSum;
use crate::keeping::remembered;
use crate::sound::is_sound;
use crate::told::governing;
use cell_versions::Version;
use cube_fixed::{Money, Value};
use memo_cells::Memory;
use sparse_sum::{Leaf, Walk, live_cells_are_few};

impl LeafSum {
    /// The sum over the leaf cells below a consolidated cell, of which none is added yet.
    pub(crate) fn new(version: &Version, cell: u64) -> LeafSum
        requires cell { IsCell version.now.model.space cell }
        requires consolidated { is_leaf_cell version.now.model.space cell ≡ false }
        ensures cell { result.walk.cell ≡ cell }
        ensures sum { IsSum version.now result.walk.total (leaves_left version.now result) (of_base cell) }
        ensures all { leaves_left version.now result ≡ leaves_on version.now cell }
    {
        is_sound(version);
        live_cells_are_few();
        LeafSum {
            walk: Walk::at(cell),
            weight: 0,
        }
    }

    /// Adds leaf cells, up to the first whose value has to be worked out.
    pub(crate) fn go_on<M: Memory>(&mut self, version: &Version, memory: &mut M) -> Option<u64>
        requires cell { IsCell version.now.model.space self.old.walk.cell }
        requires values { AreValuesOn version.now (M.values memory.old) }
        requires room { self.old.walk.total.terms + length (leaves_left version.now self.old) ≤ 2 ^ 32 }
        ensures stops { MatchOption result
            (value_of self.new.walk.total ≡ sum_on version.now self.old.walk.total (leaves_left version.now self.old))
            (Stops version.now self.old.walk.total (leaves_left version.now self.old)
            self.new.walk.total self.new.weight (leaves_left version.now self.new)) }
        ensures plain { All (λ pair. IsUngoverned version.now pair.0) (leaves_left version.now self.old)
            → result ≡ None }
        ensures cell { self.new.walk.cell ≡ self.old.walk.cell }
        ensures values { M.values memory.new ≡ M.values memory.old }
        ensures grew { Grew (M.known memory.old) (M.known memory.new) }
    {
        is_sound(version);
        let model = version.model();
        let (space, weights) = (model.space(), model.weights());
        let (store, fed) = (version.store(), version.fed());
        'leaves: while let Some(leaf) = self.walk.step(space, weights, store, fed) {
            match leaf_value(version, memory, &leaf) {
                Some(value) => self.walk.add(leaf.weight, value),
                None => {
                    self.weight = leaf.weight;
                    return Some(leaf.cell);
                }
            }
        }
        None
    }
}

// The value of a leaf cell with what is stored in it: None where it has to be worked out.
fn leaf_value<M: Memory>(version: &Version, memory: &mut M, leaf: &Leaf) -> Option<Value>
    requires cell { IsCell version.now.model.space leaf.now.cell }
    requires leaf { is_leaf_cell version.now.model.space leaf.now.cell ≡ true }
    requires stored { leaf.now.stored ≡ stored_in version.now.stored leaf.now.cell }
    requires values { AreValuesOn version.now (M.values memory.old) }
    ensures value { IfSome result (λ v. v ≡ value_on version.now leaf.now.cell) }
    ensures plain { IsUngoverned version.now leaf.now.cell → IsSome result }
    ensures values { M.values memory.new ≡ M.values memory.old }
    ensures grew { Grew (M.known memory.old) (M.known memory.new) }
{
    is_sound(version);
    if let Some(value) = remembered(version, memory, leaf.cell) {
        return Some(value);
    }
    match governing(version.model(), leaf.cell, true) {
        None => Some(Value::Num(leaf.stored.unwrap_or(Money::ZERO))),
        Some(_) => None,
    }
}
