ghost use Rattle.std.specs.Prelude.{◌≡◌, ◌<◌, length, slice_index_or, IfOk};
ghost use Rattle.cube_space.specs.Layout.{axes, sizes};
ghost use Rattle.rule_laws.specs.declared.reference.Arg.TheVariants.{Moved};
ghost use Rattle.rule_laws.specs.Maps.{identity};
ghost use Rattle.rule_notes.specs.Inside.Named.{own_reference};

use lists::ListOf;
use ref_order::{axis, axis_count};
use rule_laws::{Arg, ElementMap, Reference};
use rule_model::Model;
use std::alloc::{AllocError, Global};

/// The reference by which each cell of a cube names itself.
pub fn own_reference(alloc: Global, model: &Model, cube: u32) -> Result<Reference, AllocError>
    requires { cube < length model.now.space.cubes }
    ensures { IfOk result (λ own. own ≡ own_reference model.now.space cube) }
{
    let count = axis_count(model, cube);
    let mut args = Vec::with_capacity(alloc, count)?;
    'each: for place in 0..count {
        args.push(own_arg(model, cube, place as u32))?;
    }
    Ok(Reference {
        cube,
        args: ListOf::new(args),
    })
}

// Its argument for the dimension at a place.
fn own_arg(model: &Model, cube: u32, place: u32) -> Arg
    requires cube { cube < length model.now.space.cubes }
    requires place { place < length (axes model.now.space cube) }
    ensures { result ≡ Moved place (identity (slice_index_or (sizes model.now.space cube) place 0)) }
{
    Arg::Moved {
        from: place,
        to: ElementMap::identity(axis(model, cube, place as usize).len()),
    }
}
