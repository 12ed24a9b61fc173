ghost use Rattle.std.specs.Prelude.{◌≡◌, ◌<◌, length, slice_get, slice_index_or, All, IsTrue};
ghost use Rattle.cube_space.specs.Layout.{axes, sizes};
ghost use Rattle.cover_laws.specs.Covered.{leaves_at, counts_in};

use ref_order::{axis, weights};
use rule_model::Model;

/// The leaves that count in an element of a dimension of a cube, each with how much.
pub fn leaves(model: &Model, cube: u32, dim: usize, element: u32) -> &[(u32, i64)]
    requires cube { cube < length model.now.space.cubes }
    requires dim { dim < length (axes model.now.space cube) }
    requires element { element < slice_index_or (sizes model.now.space cube) dim 0 }
    ensures leaves { result.now ≡ leaves_at (axes model.now.space cube) dim element }
    ensures within { All (λ pair. pair.0 < slice_index_or (sizes model.now.space cube) dim 0) result.now }
{
    let _axis = axis(model, cube, dim);
    weights(model, cube, dim).leaves(element)
}

/// Whether a leaf counts in an element.
pub fn counts_in(model: &Model, cube: u32, dim: usize, element: u32, leaf: u32) -> bool
    requires cube { cube < length model.now.space.cubes }
    requires dim { dim < length (axes model.now.space cube) }
    requires element { element < slice_index_or (sizes model.now.space cube) dim 0 }
    requires leaf { leaf < slice_index_or (sizes model.now.space cube) dim 0 }
    ensures { result ≡ counts_in (axes model.now.space cube) dim element leaf }
{
    let _axis = axis(model, cube, dim);
    weights(model, cube, dim).coef(element, leaf) != 0
}

// The number of a dimension of a cube among those of the model.
fn number(model: &Model, cube: u32, dim: usize) -> u32
    requires cube { cube < length model.now.space.cubes }
    requires dim { dim < length (axes model.now.space cube) }
    ensures { slice_get model.now.space.dimensions result ≡ slice_get (axes model.now.space cube) dim }
{
    model.space().shape(cube).dims.as_slice()[dim]
}

/// Whether a dimension of a cube is also one of another, at this place.
pub fn is_shared(model: &Model, cube: u32, dim: usize, other: u32, place: usize) -> bool
    requires cube { cube < length model.now.space.cubes }
    requires dim { dim < length (axes model.now.space cube) }
    requires other { other < length model.now.space.cubes }
    requires place { place < length (axes model.now.space other) }
    ensures { IsTrue result → slice_get (axes model.now.space cube) dim ≡ slice_get (axes model.now.space other) place }
{
    number(model, cube, dim) == number(model, other, place)
}
