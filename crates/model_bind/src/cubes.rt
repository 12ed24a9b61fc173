ghost use Rattle.std.specs.Prelude.{◌≡◌, IfOk, map, slice_index_or};
ghost use Rattle.cube_lex.specs.Positions.{nowhere};
ghost use Rattle.cube_space.specs.Layout.{IsLayout};
ghost use Rattle.model_bind.specs.Foundation.{shape_of, cube_places, order_lines, space_refusal, IsAnsweredBy};

use crate::fault::{DeployCause, DeployFault};
use cube_lex::Position;
use cube_space::{CubeShape, Space, SpaceFault};
use dim_core::Dimension;
use dim_text::DimText;
use lists::ListOf;
use model_text::{CubeText, OrderLine};
use std::alloc::{AllocError, Global};

/// The place of each cube's `CUBE`.
pub fn places_of(alloc: Global, cubes: &[CubeText]) -> Result<Vec<Position>, AllocError>
    ensures { IfOk result (λ places. places.items ≡ cube_places cubes.now) }
{
    let mut places = Vec::with_capacity(alloc, cubes.len())?;
    for cube in cubes {
        places.push(cube.at)?;
    }
    Ok(places)
}

/// The place of a cube's `CUBE`, from those of all cubes.
pub fn place_of(places: &[Position], cube: u32) -> Position
    ensures { result ≡ slice_index_or places.now cube nowhere }
{
    match places.get(cube as usize) {
        Some(place) => *place,
        None => Position::nowhere(),
    }
}

/// The dimensions of their texts.
pub fn dimensions_of(alloc: Global, texts: Vec<DimText>) -> Result<Vec<Dimension>, AllocError>
    ensures { IfOk result (λ dimensions. dimensions.items ≡ map (λ text. text.dimension) texts.items) }
{
    let mut dimensions = Vec::with_capacity(alloc, texts.len())?;
    for text in texts {
        dimensions.push(text.into_dimension())?;
    }
    Ok(dimensions)
}

/// A cube's order line with the place of its `ORDER`, where the cube has one.
pub type OrderText = Option<(Position, OrderLine)>;

/// The shapes of the cubes, and their order lines.
#[derive(Drop)]
pub struct Cubes {
    pub shapes: Vec<CubeShape>,
    pub orders: ListOf<OrderText>,
}

/// The parts of the cubes' texts that aren't looked at yet.
pub fn cubes_of(alloc: Global, cubes: Vec<CubeText>) -> Result<Cubes, AllocError>
    ensures shapes { IfOk result (λ all. all.shapes.items ≡ map shape_of cubes.items) }
    ensures orders { IfOk result (λ all. all.orders ≡ order_lines cubes.items) }
{
    let mut shapes = Vec::with_capacity(alloc, cubes.len())?;
    let mut orders = Vec::with_capacity(alloc, cubes.len())?;
    for cube in cubes {
        let (shape, order) = parts_of(cube);
        shapes.push(shape)?;
        orders.push(order)?;
    }
    Ok(Cubes {
        shapes,
        orders: ListOf::new(orders),
    })
}

fn parts_of(cube: CubeText) -> (CubeShape, OrderText)
    ensures { result ≡ (shape_of cube, cube.order) }
{
    let shape = CubeShape {
        name: cube.name,
        dims: cube.dims,
    };
    (shape, cube.order)
}

/// The space of these dimensions and cubes, or what it is refused for.
pub fn space_of(
    alloc: Global,
    dims: Vec<Dimension>,
    cubes: Vec<CubeShape>,
    places: &[Position],
) -> Result<Space, DeployFault>
    requires { IsLayout (record { dimensions = dims.items; cubes = cubes.items }) }
    ensures made { IfOk result (λ space. space ≡ record { dimensions = dims.items; cubes = cubes.items }) }
    ensures answered { IsAnsweredBy
        (space_refusal places.now (record { dimensions = dims.items; cubes = cubes.items })) result }
{
    match Space::new(alloc, dims, cubes) {
        Ok(space) => Ok(space),
        Err(SpaceFault::DimensionCount(cube)) => Err(DeployFault::in_model(
            place_of(places, cube),
            DeployCause::DimensionCount,
        )),
        Err(SpaceFault::CubeTooLarge(cube)) => Err(DeployFault::in_model(
            place_of(places, cube),
            DeployCause::CubeTooLarge,
        )),
        Err(SpaceFault::ModelTooLarge(cube)) => Err(DeployFault::in_model(
            place_of(places, cube),
            DeployCause::ModelTooLarge,
        )),
        Err(SpaceFault::Memory) => Err(DeployFault::memory()),
    }
}
