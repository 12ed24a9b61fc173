ghost use Rattle.std.specs.Prelude.{◌≡◌, ◌<◌, IfSome, length, position};
ghost use Rattle.dim_name.specs.Name.{is_same_name};

use crate::CubeShape;
use dim_core::Dimension;
use dim_name::Name;

/// The first cube of this name.
pub fn cube_named(cubes: &[CubeShape], name: &Name) -> Option<usize>
    ensures place { result ≡ position (λ cube. is_same_name name.now cube.name) cubes.now }
    ensures within { IfSome result (λ place. place < length cubes.now) }
{
    cubes.iter().position(|cube| *name == cube.name)
}

/// The first dimension of this name.
pub fn dimension_named(dimensions: &[Dimension], name: &Name) -> Option<usize>
    ensures place { result ≡ position (λ dimension. is_same_name name.now dimension.name) dimensions.now }
    ensures within { IfSome result (λ place. place < length dimensions.now) }
{
    dimensions
        .iter()
        .position(|dimension| name == dimension.name())
}
