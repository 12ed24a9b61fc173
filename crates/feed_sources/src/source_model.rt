ghost use Rattle.std.specs.Prelude.{◌≡◌, ◌<◌, ◌≤◌, length, take, IfOk};
ghost use Rattle.std.specs.List.{AllZip};
ghost use Rattle.cube_space.specs.Layout.{most_dimensions};
ghost use Rattle.cube_space.specs.Cells.{IsCell, IsSpace, cube_of, elements_of};
ghost use Rattle.rule_model.specs.BoundModel.{rules_of};
ghost use Rattle.rule_model.specs.Conditions.{AreRules};
ghost use Rattle.rule_model.specs.Weights.{HasSmallProducts};
ghost use Rattle.feed_sources.specs.Spans.{IsSpan};
ghost use Rattle.feed_sources.specs.Inside.Above.{IsAboveOf};

use crate::above::Above;
use crate::spans::spans_of_cubes;
use cube_space::{MAX_DIMENSIONS, Space};
use lists::ListOf;
use rule_model::{CubeRules, Model, place_of};
use std::alloc::{AllocError, Global};

/// A model in which sources of feeders are found fast: with, of each leaf of its dimensions, the elements that the leaf
/// counts in, and feeders in a row that are known to have the same area.
#[derive(Drop)]
pub struct SourceModel {
    model: Model,
    above: Vec<Above>,
    // Of each cube, of each of its feeders, a place up to which those from it on have its area.
    ends: Vec<ListOf<usize>>,
}

impl std::marker::Model for SourceModel {
    ghost use Rattle.rule_model.specs.BoundModel.{BoundModel};
    ghost use Rattle.rule_laws.specs.contracts.formula.Formula as formula;
    ghost use Rattle.std.specs.Coded.{codes};
    ghost use Rattle.feed_sources.specs.Inside.Tables.{AreTables};

    ghost Value = { BoundModel };

    ghost coded = { Prim.hlevel (codes, formula.the_row.coded) };

    ghost view = { λ s. s.model };

    ghost invariant = { λ s. AreTables s.model s.above.items s.ends.items };
}

impl SourceModel {
    /// The model, with what finds the sources of its feeders.
    pub fn of(alloc: Global, model: Model) -> Result<SourceModel, AllocError>
        ensures { IfOk result (λ made. made ≡ model) }
    {
        let above = above_of(alloc, &model)?;
        let ends = spans_of_cubes(alloc, &model)?;
        Ok(SourceModel { model, above, ends })
    }

    /// The model.
    pub fn model(&self) -> &Model
        ensures { result.now ≡ self.now }
    {
        &self.model
    }

    /// Its dimensions and cubes, and the numbers of its cells.
    pub fn space(&self) -> &Space
        ensures space { result.now ≡ self.now.space }
        ensures valid { IsSpace self.now.space }
        ensures products { HasSmallProducts self.now.space }
        ensures rules { AreRules self.now.space self.now.rules }
    {
        self.model.space()
    }

    /// The rules of a cube.
    pub fn rules(&self, cube: u32) -> &CubeRules
        requires { cube < length self.now.space.cubes }
        ensures { result.now ≡ rules_of self.now cube }
    {
        self.model.rules(cube)
    }

    /// A place behind this one, up to which the feeders of a cube from this one on have the same area. It may come
    /// before the end of them: long lists of elements aren't compared.
    pub fn span_end(&self, cube: u32, place: usize) -> usize
        requires cube { cube < length self.now.space.cubes }
        requires place { place < length (rules_of self.now cube).feeders }
        ensures { IsSpan (rules_of self.now cube).feeders place result }
    {
        // a model says of itself that each cube has rules
        let _space = self.model.space();
        let ends = &self.ends[cube as usize];
        ends.as_slice()[place]
    }

    /// The cube of a cell, and how many elements the cell has; these are put in front of `at`.
    pub fn place_of(&self, cell: u64, at: &mut [u32; MAX_DIMENSIONS]) -> (u32, usize)
        requires { IsCell self.now.space cell }
        ensures cube { result.0 ≡ cube_of self.now.space cell }
        ensures few { result.1 ≤ most_dimensions }
        ensures elements { take result.1 at.new ≡ elements_of self.now.space cell }
    {
        place_of(&self.model, cell, at)
    }

    /// Of each dimension, of each leaf, the elements that the leaf counts in.
    pub(crate) fn above(&self) -> &[Above]
        ensures { AllZip IsAboveOf self.now.space.dimensions result.now }
    {
        &self.above
    }
}

fn above_of(alloc: Global, model: &Model) -> Result<Vec<Above>, AllocError>
    ensures { IfOk result (λ above. AllZip IsAboveOf model.now.space.dimensions above.items) }
{
    let space = model.space();
    let mut above = Vec::new(alloc);
    'each: for dim in 0..space.dimensions() {
        let weights = &model.weights()[dim as usize];
        above.push(Above::of(alloc, space.dimension(dim), weights)?)?;
    }
    Ok(above)
}
