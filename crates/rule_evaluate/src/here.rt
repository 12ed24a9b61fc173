ghost use Rattle.std.specs.Prelude.{◌≡◌, None, true, is_some, MatchOption};
ghost use Rattle.cube_space.specs.Cells.{IsCell, is_place, cube_of, elements_of};
ghost use Rattle.rule_model.specs.Targets.{target, component_cells, element_at};
ghost use Rattle.rule_model.specs.Governing.{governing_from};
ghost use Rattle.rule_evaluate.specs.Inside.Scene.{IsGoverning};

use rule_laws::{Formula, Reference};
use rule_model::{Model, governing_in, has_components, part_of, target_from};

/// The cell that is evaluated, and its elements.
#[derive(Drop)]
pub(crate) struct Here<'a> {
    model: &'a Model,
    cell: u64,
    cube: u32,
    elements: &'a [u32],
    is_leaf: bool,
}

impl<'a> std::marker::Model for Here<'a> {
    ghost use Rattle.rule_evaluate.specs.Inside.Scene.{Scene, IsOf};
    ghost use Rattle.rule_laws.specs.contracts.formula.Formula as formula;
    ghost use Rattle.std.specs.Coded.{codes};

    ghost Value = { Scene };

    ghost coded = { Prim.hlevel (codes, formula.the_row.coded) };

    ghost view = { λ here. record { model = here.model.now; cell = here.cell } };

    ghost invariant = { λ here. IsOf here.model.now here.cell here.cube here.elements.now here.is_leaf };
}

impl<'a> Here<'a> {
    pub(crate) fn new(model: &'a Model, cell: u64, cube: u32, elements: &'a [u32]) -> Here<'a>
        requires cell { IsCell model.now.space cell }
        requires cube { cube_of model.now.space cell ≡ cube }
        requires elements { elements_of model.now.space cell ≡ elements.now }
        requires placed { is_place model.now.space cube elements.now ≡ true }
        ensures { result ≡ record { model = model.now; cell = cell } }
    {
        let is_leaf = model.space().is_leaf(cell);
        Here {
            model,
            cell,
            cube,
            elements,
            is_leaf,
        }
    }

    pub(crate) fn cell(&self) -> u64
        ensures { result ≡ self.now.cell }
    {
        self.cell
    }

    /// The cell that a reference names from here.
    #[tactic(auto, unfolding(rule_model::specs::Targets::target))]
    pub(crate) fn target(&self, reference: &Reference) -> Option<u64>
        ensures { result ≡ target self.now.model.space reference.now self.now.cell }
    {
        target_from(self.model.space(), self.elements, reference)
    }

    /// The cell's element in the dimension at this place; 0 where the cube has no such place.
    pub(crate) fn own(&self, dim: u32) -> u32
        ensures { result ≡ element_at self.now.model.space self.now.cell dim }
    {
        match self.elements.get(dim as usize) {
            Some(element) => *element,
            None => 0,
        }
    }

    /// Whether the cell's element in the dimension at this place has components.
    pub(crate) fn has_components(&self, dim: u32) -> bool
        ensures { result ≡ is_some (component_cells self.now.model.space self.now.cell dim) }
    {
        has_components(self.model, self.cube, self.elements, dim)
    }

    /// The first statement from this place on that has a part for the cell, by its place, and that part.
    pub(crate) fn next(&self, from: usize) -> Option<(u32, &'a Formula)>
        ensures { MatchOption result (governing_from self.now.model self.now.cell from ≡ None)
            (IsGoverning self.now from) }
    {
        match governing_in(self.model, self.cube, self.elements, self.is_leaf, from) {
            Some(place) => match part_of(self.model, self.cube, place, self.is_leaf) {
                Some(part) => Some((place, part)),
                None => None,
            },
            None => None,
        }
    }
}
