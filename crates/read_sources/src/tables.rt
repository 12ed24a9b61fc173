ghost use Rattle.std.specs.Prelude.{◌≡◌, ◌<◌, length, slice_index_or};
ghost use Rattle.dim_weights.specs.Table.{is_nonzero};
ghost use Rattle.cube_space.specs.Layout.{axes, sizes};
ghost use Rattle.order_laws.specs.Scales.{is_total, is_leaf_element};
ghost use Rattle.arrow_laws.specs.Nodes.{last_of, has_kinds};
ghost use Rattle.arrow_laws.specs.ByDimension.{has_part};
ghost use Rattle.read_sources.specs.Giving.{is_wanted};

use ref_order::{axis, axis_count};
use rule_model::Model;

/// The place of a cube's last dimension.
pub fn last_of(model: &Model, cube: u32) -> usize
    requires { cube < length model.now.space.cubes }
    ensures last { result ≡ last_of model.now.space cube }
    ensures within { result < length (axes model.now.space cube) }
{
    let _space = model.space();
    axis_count(model, cube) - 1
}

/// Whether an element of a dimension of a cube is consolidated.
pub fn is_total(model: &Model, cube: u32, dim: usize, element: u32) -> bool
    requires cube { cube < length model.now.space.cubes }
    requires dim { dim < length (axes model.now.space cube) }
    requires element { element < slice_index_or (sizes model.now.space cube) dim 0 }
    ensures { result ≡ is_total (axes model.now.space cube) dim element }
{
    !axis(model, cube, dim).is_leaf(element)
}

/// Which components of an element are wanted.
#[derive(Clone, Copy)]
pub enum Wanted {
    /// All.
    Any,
    /// Leaves.
    Leaf,
    /// Consolidated elements.
    Total,
}

// Whether a component is wanted, by whether it is a leaf.
fn is_wanted(wanted: Wanted, leaf: bool) -> bool
    ensures { result ≡ is_wanted wanted leaf }
{
    match wanted {
        Wanted::Any => true,
        Wanted::Leaf => leaf,
        Wanted::Total => !leaf,
    }
}

/// Whether an element of a dimension of a cube has a component that is wanted, of a weight other than 0.
pub fn has_part(model: &Model, cube: u32, dim: usize, element: u32, wanted: Wanted) -> bool
    requires cube { cube < length model.now.space.cubes }
    requires dim { dim < length (axes model.now.space cube) }
    requires element { element < slice_index_or (sizes model.now.space cube) dim 0 }
    ensures { result ≡ has_part (axes model.now.space cube)
        (λ part. is_wanted wanted (is_leaf_element (axes model.now.space cube) dim part)) dim element }
{
    let parts = axis(model, cube, dim).components(element);
    'each: for k in 0..parts.len() {
        let part = &parts[k];
        let leaf = !is_total(model, cube, dim, part.0);
        if is_wanted(wanted, leaf) && is_nonzero(part.1) {
            return true;
        }
    }
    false
}

/// Whether the cells of a cube have kinds: consolidated cells have positions of their own.
pub fn has_kinds(model: &Model, cube: u32) -> bool
    requires { cube < length model.now.space.cubes }
    ensures { result ≡ has_kinds model.now cube }
{
    model.rules(cube).order.totals.is_some()
}

/// Whether a weight isn't 0.
pub fn is_nonzero(weight: i64) -> bool
    ensures { result ≡ is_nonzero weight }
{
    weight != 0
}
