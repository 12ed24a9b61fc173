ghost use Rattle.std.specs.Prelude.{◌≡◌, true, false, None, is_some, IfOk, IfSome, MatchOption};
ghost use Rattle.cell_reader.specs.Snapshots.{version_of};
ghost use Rattle.cell_trace.specs.Inside.Chain.{IsNext};
ghost use Rattle.cell_trace.specs.Inside.Place.{has_components_at, own_at, stet_at, target_at};
ghost use Rattle.cell_trace.specs.Inside.Sums.{IsOwnSum, IsSumIn};
ghost use Rattle.cell_values.specs.Reading.{value_on};
ghost use Rattle.cube_space.specs.Cells.{IsCell, is_leaf_cell, cube_of, elements_of};
ghost use Rattle.rule_model.specs.Governing.{governing_from};
ghost use Rattle.stored_laws.specs.Stored.{stored_in};

use crate::next::{Next, first_number};
use crate::sums::{Summed, sum_of_components, sum_of_leaves};
use cell_reader::Snapshot;
use cell_store::CellSet;
use cube_fixed::Value;
use rule_laws::Reference;
use rule_model::{governing_in, has_components, part_of, target_from};
use std::alloc::{AllocError, Global};

/// The cell whose value is explained, on a version of the numbers.
#[derive(Drop)]
pub(crate) struct Here<'a> {
    alloc: Global,
    version: &'a Snapshot,
    cell: u64,
    cube: u32,
    elements: &'a [u32],
    is_leaf: bool,
}

impl<'a> std::marker::Model for Here<'a> {
    ghost use Rattle.cell_reader.specs.Snapshots.{version_of};
    ghost use Rattle.cell_trace.specs.Inside.Place.{Place, IsOf};
    ghost use Rattle.rule_laws.specs.contracts.formula.Formula as formula;
    ghost use Rattle.std.specs.Coded.{codes};

    ghost Value = { Place };

    ghost coded = { Prim.hlevel (codes, formula.the_row.coded) };

    ghost view = { λ here. record { version = version_of here.version.now; cell = here.cell } };

    ghost invariant = { λ here.
        IsOf (version_of here.version.now).model here.cell here.cube here.elements.now here.is_leaf };
}

impl<'a> Here<'a> {
    pub(crate) fn new(
        alloc: Global,
        version: &'a Snapshot,
        cell: u64,
        cube: u32,
        elements: &'a [u32],
    ) -> Here<'a>
        requires cell { IsCell (version_of version.now).model.space cell }
        requires cube { cube_of (version_of version.now).model.space cell ≡ cube }
        requires elements { elements_of (version_of version.now).model.space cell ≡ elements.now }
        ensures { result ≡ record { version = version_of version.now; cell = cell } }
    {
        let is_leaf = version.model().space().is_leaf(cell);
        Here {
            alloc,
            version,
            cell,
            cube,
            elements,
            is_leaf,
        }
    }

    pub(crate) fn alloc(&self) -> Global {
        self.alloc
    }

    pub(crate) fn is_leaf(&self) -> bool
        ensures { result ≡ is_leaf_cell self.now.version.model.space self.now.cell }
    {
        self.is_leaf
    }

    /// The cell that a reference names from here.
    #[tactic(auto, unfolding(crate::specs::Inside::Place::target_at, rule_model::specs::Targets::target))]
    pub(crate) fn target(&self, reference: &Reference) -> Option<u64>
        ensures value { result ≡ target_at self.now reference.now }
        ensures cell { IfSome result (IsCell self.now.version.model.space) }
    {
        target_from(self.version.model().space(), self.elements, reference)
    }

    /// The cell's element in the dimension at this place; 0 where the cube has no such place.
    pub(crate) fn own(&self, dim: u32) -> u32
        ensures { result ≡ own_at self.now dim }
    {
        match self.elements.get(dim as usize) {
            Some(element) => *element,
            None => 0,
        }
    }

    /// Whether the cell's element in the dimension at this place has components.
    #[tactic(auto, unfolding(crate::specs::Inside::Place::has_components_at))]
    pub(crate) fn has_components(&self, dim: u32) -> bool
        ensures { result ≡ has_components_at self.now dim }
    {
        has_components(self.version.model(), self.cube, self.elements, dim)
    }

    /// Whether a number is stored in the cell.
    pub(crate) fn has_number(&self) -> bool
        ensures { result ≡ is_some (stored_in self.now.version.stored self.now.cell) }
    {
        self.version.store().has(self.cell)
    }

    /// The number of a leaf cell.
    #[tactic(auto, unfolding(crate::specs::Inside::Place::stet_at))]
    pub(crate) fn number(&self) -> Value
        requires { is_leaf_cell self.now.version.model.space self.now.cell ≡ true }
        ensures { result ≡ stet_at self.now }
    {
        Value::Num(self.version.store().get(self.cell))
    }

    /// The sum of the leaf cells below a consolidated cell.
    pub(crate) fn sum_of_leaves(&self, reader: &mut Snapshot) -> Result<Summed, AllocError>
        requires consolidated { is_leaf_cell self.now.version.model.space self.now.cell ≡ false }
        requires version { version_of reader.old ≡ self.now.version }
        ensures sum { IfOk result (IsOwnSum self.now) }
        ensures version { version_of reader.new ≡ self.now.version }
    {
        sum_of_leaves(self.alloc, self.version, reader, self.cell)
    }

    /// The sum over the components of its element in a dimension.
    pub(crate) fn sum_of_components(
        &self,
        dim: u32,
        reader: &mut Snapshot,
    ) -> Result<Summed, AllocError>
        requires some { has_components_at self.now dim ≡ true }
        requires version { version_of reader.old ≡ self.now.version }
        ensures sum { IfOk result (IsSumIn self.now dim) }
        ensures version { version_of reader.new ≡ self.now.version }
    {
        sum_of_components(self.alloc, self.version, reader, self.cell, dim)
    }

    /// The value of a cell.
    pub(crate) fn value(&self, cell: u64, reader: &mut Snapshot) -> Result<Value, AllocError>
        requires cell { IsCell self.now.version.model.space cell }
        requires version { version_of reader.old ≡ self.now.version }
        ensures value { IfOk result (λ value. value ≡ value_on self.now.version cell) }
        ensures version { version_of reader.new ≡ self.now.version }
    {
        reader.value_at(self.alloc, cell)
    }

    /// The first statement from a place on that has a part for the cell.
    pub(crate) fn next(&self, from: usize) -> Option<Next<'a>>
        ensures { MatchOption result (governing_from self.now.version.model self.now.cell from ≡ None)
            (IsNext self.now from) }
    {
        let model = self.version.model();
        // the space says what its rules keep
        let _space = model.space();
        match governing_in(model, self.cube, self.elements, self.is_leaf, from) {
            Some(place) => match part_of(model, self.cube, place, self.is_leaf) {
                Some(formula) => {
                    let statement = &model.rules(self.cube).statements.as_slice()[place as usize];
                    let first = first_number(statement, self.is_leaf);
                    Some(Next {
                        place,
                        first,
                        formula,
                    })
                }
                None => None,
            },
            None => None,
        }
    }
}
