ghost use Rattle.std.specs.Prelude.{◌≡◌, ◌<◌, length, map, IfOk};
ghost use Rattle.cube_space.specs.Cells.{IsSpace};
ghost use Rattle.rule_model.specs.BoundModel.{rules_of};
ghost use Rattle.rule_model.specs.Conditions.{AreRules};
ghost use Rattle.rule_model.specs.Filed.{filed_places};
ghost use Rattle.rule_model.specs.Weights.{AreWeightsOf, HasSmallProducts};
ghost use Rattle.rule_model.specs.Inside.Words.{rule_words};

use crate::filed::{FiledFeeder, FixedLeaf, file_number, files_of_cubes, of_number};
use crate::rules::CubeRules;
use crate::words::{Words, words_of_cubes};
use cube_space::Space;
use dim_weights::Weights;
use lists::ListOf;
use std::alloc::{AllocError, Global};

/// The greatest weight product that a cube may have: the product, over its dimensions, of the greatest size of a
/// coefficient.
pub const MAX_WEIGHT_PRODUCT: u64 = 1_000_000_000;

/// A model with every name bound: its dimensions and its cubes, how much each leaf counts in each element, and the
/// rules of each cube.
#[derive(Drop)]
pub struct Model {
    space: Space,
    weights: Vec<Weights>,
    rules: Vec<CubeRules>,
    words: Vec<ListOf<Words>>,
    files: Vec<ListOf<FiledFeeder>>,
}

impl std::marker::Model for Model {
    ghost use Rattle.rule_model.specs.BoundModel.{BoundModel};
    ghost use Rattle.rule_model.specs.Inside.Kept.{IsBound};
    ghost use Rattle.rule_laws.specs.contracts.formula.Formula as formula;
    ghost use Rattle.std.specs.Coded.{codes};

    ghost Value = { BoundModel };

    ghost coded = { Prim.hlevel (codes, formula.the_row.coded) };

    ghost view = { λ m. record { space = m.space; rules = m.rules.items } };

    ghost invariant = { λ m. IsBound m.space m.weights.items m.rules.items m.words.items m.files.items };
}

impl Model {
    /// The model over this space, with the coefficients of each of its dimensions and the rules of each of its cubes.
    pub fn of(
        alloc: Global,
        space: Space,
        weights: Vec<Weights>,
        rules: Vec<CubeRules>,
    ) -> Result<Model, AllocError>
        requires weights { AreWeightsOf space.dimensions weights.items }
        requires products { HasSmallProducts space }
        requires rules { AreRules space rules.items }
        ensures { IfOk result (λ model. model ≡ record { space = space; rules = rules.items }) }
    {
        // a space says of itself that it is one
        let _cells = space.size();
        let words = words_of_cubes(alloc, &rules)?;
        let files = files_of_cubes(alloc, &space, &rules)?;
        Ok(Model {
            space,
            weights,
            rules,
            words,
            files,
        })
    }

    /// What [`Model::of`] made it from: the space, the coefficients of each dimension and the rules of each cube.
    pub fn into_parts(self) -> (Space, Vec<Weights>, Vec<CubeRules>)
        ensures model { self ≡ record { space = result.0; rules = result.2.items } }
        ensures weights { AreWeightsOf self.space.dimensions result.1.items }
        ensures products { HasSmallProducts self.space }
        ensures rules { AreRules self.space self.rules }
    {
        let Model {
            space,
            weights,
            rules,
            ..
        } = self;
        (space, weights, rules)
    }

    /// Its dimensions and cubes, and the numbers of its cells.
    pub fn space(&self) -> &Space
        ensures space { result.now ≡ self.now.space }
        ensures valid { IsSpace self.now.space }
        ensures products { HasSmallProducts self.now.space }
        ensures rules { AreRules self.now.space self.now.rules }
    {
        &self.space
    }

    /// The coefficients of each dimension.
    pub fn weights(&self) -> &[Weights]
        ensures { AreWeightsOf self.now.space.dimensions result.now }
    {
        &self.weights
    }

    /// The rules of a cube.
    pub fn rules(&self, cube: u32) -> &CubeRules
        requires { cube < length self.now.space.cubes }
        ensures { result.now ≡ rules_of self.now cube }
    {
        &self.rules[cube as usize]
    }

    /// The words for what comes without a statement, in the N part of each statement of a cube.
    pub(crate) fn words(&self, cube: u32) -> &[Words]
        requires { cube < length self.now.space.cubes }
        ensures { result.now ≡ rule_words (rules_of self.now cube) }
    {
        self.words[cube as usize].as_slice()
    }

    /// The feeders of the cube `own` that feed `cube` and are filed by this leaf: their target names it from every
    /// cell, and no other leaf of a dimension with more elements, nor of an earlier one with as many. Without a leaf,
    /// those whose target names no leaf from every cell. They come in their order, and are found by binary search.
    pub fn feeders_filed(&self, own: u32, cube: u32, leaf: Option<FixedLeaf>) -> &[FiledFeeder]
        requires { own < length self.now.space.cubes }
        ensures { map (λ filed. filed.place) result.now
            ≡ filed_places self.now.space (rules_of self.now own).feeders cube leaf }
    {
        of_number(self.files[own as usize].as_slice(), file_number(cube, leaf))
    }
}
