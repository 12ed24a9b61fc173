ghost use Rattle.std.specs.Prelude.{◌≡◌, ◌+◌, ◌<◌, ◌≤◌, ◌^◌, length, MatchOption, IfSome};
ghost use Rattle.cell_values.specs.Reading.{AreValuesOn, value_on};
ghost use Rattle.cell_values.specs.Inside.Frames.{components_left};
ghost use Rattle.cell_values.specs.Inside.Questions.{components_on};
ghost use Rattle.cell_values.specs.Inside.Sums.{IsSum, Stops, sum_on};
ghost use Rattle.cube_fixed.specs.Total.{value_of};
ghost use Rattle.cube_space.specs.Cells.{IsCell};
ghost use Rattle.memo_cells.specs.Knowledge.{Grew};
ghost use Rattle.rule_evaluate.specs.declared.ask.Ask.TheVariants.{Children as of_children};
ghost use Rattle.rule_model.specs.Targets.{parts_at};

use crate::frames::ComponentSum;
use crate::keeping::remembered;
use crate::told::told;
use cell_versions::Version;
use cube_fixed::{Sum, Value};
use memo_cells::Memory;
use rule_dense::{parts_at, with_element_at};

impl ComponentSum {
    /// The sum over the components of a cell's element in a dimension, of which none is added yet.
    pub(crate) fn new(version: &Version, cell: u64, dim: u32) -> ComponentSum
        requires cell { IsCell version.now.model.space cell }
        requires some { 0 < length (parts_at version.now.model.space cell dim) }
        ensures cell { result.cell ≡ cell }
        ensures sum { IsSum version.now result.sum (components_left version.now result) (of_children cell dim) }
        ensures all { components_left version.now result ≡ components_on version.now cell dim 0 }
    {
        // there are so few components that their terms can be counted
        let _parts = parts_at(version.model().space(), cell, dim as usize);
        ComponentSum {
            cell,
            dim,
            sum: Sum::new(),
            next: 0,
            weight: 0,
        }
    }

    /// Adds components, up to the first whose value has to be worked out. One of weight 0 counts for nothing.
    pub(crate) fn go_on<M: Memory>(&mut self, version: &Version, memory: &mut M) -> Option<u64>
        requires cell { IsCell version.now.model.space self.old.cell }
        requires values { AreValuesOn version.now (M.values memory.old) }
        requires room { self.old.sum.terms + length (components_left version.now self.old) ≤ 2 ^ 32 }
        ensures stops { MatchOption result
            (value_of self.new.sum ≡ sum_on version.now self.old.sum (components_left version.now self.old))
            (Stops version.now self.old.sum (components_left version.now self.old)
            self.new.sum self.new.weight (components_left version.now self.new)) }
        ensures cell { self.new.cell ≡ self.old.cell }
        ensures dim { self.new.dim ≡ self.old.dim }
        ensures values { M.values memory.new ≡ M.values memory.old }
        ensures grew { Grew (M.known memory.old) (M.known memory.new) }
    {
        let space = version.model().space();
        let parts = parts_at(space, self.cell, self.dim as usize);
        'parts: while self.next < parts.len() {
            let (part, weight) = parts[self.next];
            self.next += 1;
            if weight == 0 {
                continue;
            }
            if let Some(component) = with_element_at(space, self.cell, self.dim as usize, part) {
                match cell_value(version, memory, component) {
                    Some(value) => self.sum.add(weight, value),
                    None => {
                        self.weight = weight;
                        return Some(component);
                    }
                }
            }
        }
        None
    }
}

// The value of a cell: None where it has to be worked out.
fn cell_value<M: Memory>(version: &Version, memory: &mut M, cell: u64) -> Option<Value>
    requires cell { IsCell version.now.model.space cell }
    requires values { AreValuesOn version.now (M.values memory.old) }
    ensures value { IfSome result (λ v. v ≡ value_on version.now cell) }
    ensures values { M.values memory.new ≡ M.values memory.old }
    ensures grew { Grew (M.known memory.old) (M.known memory.new) }
{
    match remembered(version, memory, cell) {
        Some(value) => Some(value),
        None => told(version, cell),
    }
}
