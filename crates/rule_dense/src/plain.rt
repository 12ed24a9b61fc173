ghost use Rattle.std.specs.Prelude.{◌≡◌, ◌<◌, ◌≤◌, length, All};
ghost use Rattle.dim_core.specs.Outline.{IsWeight, components_of, most_components};
ghost use Rattle.cube_space.specs.Cells.{IsCell, elements_of};
ghost use Rattle.rule_model.specs.Targets.{parts_at};
ghost use Rattle.rule_dense.specs.Limits.{HasSmallCubes};
ghost use Rattle.rule_dense.specs.Inside.Plain.{base_in, children_in};

use crate::place::place_of;
use crate::sums::{sum_below, sum_of_parts};
use cell_store::Store;
use cube_fixed::Value;
use cube_space::{MAX_DIMENSIONS, Space};
use dim_core::Dimension;
use rule_model::Model;

/// What doesn't come: nothing fails in a table.
#[derive(Clone, Copy)]
pub enum Never {}

/// A table of values, over what is stored, as what formulas read.
#[derive(Drop)]
pub struct Plain<'a> {
    model: &'a Model,
    store: &'a Store,
    values: &'a [Value],
}

impl<'a> std::marker::Model for Plain<'a> {
    ghost use Rattle.rule_dense.specs.Limits.{HasSmallCubes};
    ghost use Rattle.rule_dense.specs.Inside.Plain.{PlainTable};
    ghost use Rattle.rule_laws.specs.contracts.formula.Formula as formula;
    ghost use Rattle.std.specs.Coded.{codes};

    ghost Value = { PlainTable };

    ghost coded = { Prim.hlevel (codes, formula.the_row.coded) };

    ghost view = { λ p. record { model = p.model.now; entries = p.store.now; values = p.values.now } };

    ghost invariant = { λ p. HasSmallCubes p.model.now.space };
}

impl<'a> Plain<'a> {
    /// A table over what this store has.
    pub fn new(model: &'a Model, store: &'a Store, values: &'a [Value]) -> Plain<'a>
        requires { HasSmallCubes model.now.space }
        ensures { result ≡ record { model = model.now; entries = store.now; values = values.now } }
    {
        Plain {
            model,
            store,
            values,
        }
    }

    /// Its values.
    pub fn values(&self) -> &[Value]
        ensures { result.now ≡ self.now.values }
    {
        self.values
    }

    /// What a cell has where no statement governs it.
    #[tactic(auto, unfolding(rule_model::specs::System::system_of))]
    pub fn base_of(&self, cell: u64) -> Value
        requires { IsCell self.now.model.space cell }
        ensures { result ≡ base_in self.now cell }
    {
        if self.model.space().is_leaf(cell) {
            Value::Num(self.store.get(cell))
        } else {
            sum_below(self.model, self.values, cell)
        }
    }

    /// The weighted sum over the components of a cell's element, or what the cell has where no statement governs it.
    #[tactic(auto, unfolding(rule_model::specs::System::system_of, rule_model::specs::Targets::component_cells))]
    pub fn children_of(&self, cell: u64, dim: usize) -> Value
        requires { IsCell self.now.model.space cell }
        ensures { result ≡ children_in self.now cell dim }
    {
        let parts = parts_at(self.model.space(), cell, dim);
        if parts.is_empty() {
            return self.base_of(cell);
        }
        sum_of_parts(self.model.space(), self.values, cell, dim, parts)
    }
}

/// The components of a cell's element in the dimension at this place of its cube, each with its weight: none where it
/// is a leaf, or there is no such dimension.
pub fn parts_at<'a>(space: &'a Space, cell: u64, dim: usize) -> &'a [(u32, i64)]
    requires { IsCell space.now cell }
    ensures parts { result.now ≡ parts_at space.now cell dim }
    ensures weights { All (λ part. IsWeight part.1) result.now }
    ensures few { length result.now ≤ most_components }
    ensures within { 0 < length result.now → dim < length (elements_of space.now cell) }
{
    let mut at = [0u32; MAX_DIMENSIONS];
    let (_, dims) = place_of(space, cell, &mut at);
    if dim >= dims.len() {
        return &[];
    }
    parts_of(space.dimension(dims[dim]), at[dim])
}

// The components of an element.
fn parts_of(dimension: &Dimension, element: u32) -> &[(u32, i64)]
    requires { element < length dimension.now.elements }
    ensures parts { result.now ≡ components_of dimension.now element }
    ensures weights { All (λ part. IsWeight part.1) result.now }
    ensures few { length result.now ≤ most_components }
{
    // a dimension says of itself how many components it has at most, and how large weights are
    let _len = dimension.len();
    dimension.components(element)
}
