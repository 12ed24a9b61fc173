ghost use Rattle.std.specs.Prelude.{◌≡◌, ◌≢◌, ℕ, ◌<◌, pos, length, IsTrue};
ghost use Rattle.dim_core.specs.Outline.{Outline, IsElement};
ghost use Rattle.dim_weights.specs.Coefficients.{coef};
ghost use Rattle.dim_weights.specs.Table.{IsWeightsOf};
ghost use Rattle.cube_space.specs.Cells.{IsCell};
ghost use Rattle.rule_laws.specs.declared.reference.Arg.TheVariants.{Fixed};
ghost use Rattle.rule_model.specs.Conditions.{IsReference};
ghost use Rattle.feed_sources.specs.Feeders.{StandsFor};

use crate::source_model::SourceModel;
use cube_space::MAX_DIMENSIONS;
use dim_weights::Weights;
use rule_laws::{Arg, Reference};

/// Whether it is clear at once that a reference from a cube reaches this leaf cell from no cell: it names cells of
/// another cube, or always names an element other than the cell's, in which that doesn't count.
pub fn misses(model: &SourceModel, cube: u32, reference: &Reference, cell: u64) -> bool
    requires reference { IsReference model.now.space cube reference.now }
    requires cell { IsCell model.now.space cell }
    ensures { IsTrue result → (x : ℕ) → StandsFor model.now reference.now x cell → ⊥ }
{
    let space = model.space();
    let mut at = [0u32; MAX_DIMENSIONS];
    let (into, _) = model.place_of(cell, &mut at);
    if reference.cube != into {
        return true;
    }
    let dims = space.shape(into).dims.as_slice();
    let args = reference.args.as_slice();
    'each: for place in 0..args.len() {
        let weights = &model.model().weights()[dims[place] as usize];
        if is_other(weights, &args[place], at[place]) {
            return true;
        }
    }
    false
}

// Whether an argument always names an element other than this leaf, in which the leaf doesn't count.
fn is_other(weights: &Weights, arg: &Arg, leaf: u32) -> bool
    requires { (element : ℕ) → arg.now ≡ Fixed element → element < length weights.now }
    ensures { IsTrue result → (element : ℕ) × (arg.now ≡ Fixed element) × (element ≢ leaf)
        × ((d : Outline) → IsWeightsOf d weights.now → IsElement d leaf → coef d element leaf ≡ pos 0) }
{
    match arg {
        Arg::Fixed(element) => *element != leaf && weights.coef(*element, leaf) == 0,
        Arg::Moved { .. } => false,
    }
}
