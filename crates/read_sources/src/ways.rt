ghost use Rattle.std.specs.Prelude.{◌≡◌, ◌<◌, length, slice_index_or};
ghost use Rattle.cube_space.specs.Layout.{axes};
ghost use Rattle.rule_laws.specs.declared.reference.Arg.TheVariants.{Fixed};
ghost use Rattle.rule_model.specs.Conditions.{IsReference};
ghost use Rattle.ref_order.specs.Reads.{precedent_of};
ghost use Rattle.arrow_laws.specs.Nodes.{last_of};
ghost use Rattle.arrow_laws.specs.ByDimension.{read_cube};
ghost use Rattle.read_sources.specs.Ways.{width};
ghost use Rattle.read_sources.specs.Ways.{IsSource, Names, IsIn, follows_by, follows_of, way_of, cube_read};

use crate::follows::Way;
use crate::source::Source;
use crate::tables::last_of;
use ref_order::Read;
use rule_laws::{Arg, Reference};
use rule_model::Model;

/// How the node that a source reads follows from its node.
pub fn way<'a>(model: &Model, source: Source<'a>) -> Way<'a>
    requires { IsSource model.now source }
    ensures follows { follows_of result ≡ way_of model.now source.entry }
    ensures names { Names source.entry.cube (cube_read source.entry) (width model.now.space (cube_read source.entry))
        (follows_of result) }
    ensures dimension { IsIn (length (axes model.now.space source.entry.cube)) (follows_of result) }
    ensures cube { cube_read source.entry < length model.now.space.cubes }
{
    let _space = model.space();
    way_of(model, source)
}

fn way_of<'a>(model: &Model, source: Source<'a>) -> Way<'a>
    requires { IsSource model.now source }
    ensures { follows_of result ≡ way_of model.now source.entry }
{
    let last = last_of(model, source.cube);
    match source.read {
        Read::Cell(reference) => way_by(last, last_argument(model, source.cube, reference)),
        Read::Children(dim) => {
            if dim as usize == last {
                Way::Parts
            } else {
                Way::Itself
            }
        }
    }
}

/// The cube of the cells that are read from cells of this one.
pub fn read_cube(cube: u32, read: Read) -> u32
    ensures { result ≡ read_cube cube (precedent_of read.entry) }
{
    match read {
        Read::Cell(reference) => reference.cube,
        Read::Children(_) => cube,
    }
}

/// The cube of the node that a source reads.
pub fn cube_read(source: Source) -> u32
    ensures { result ≡ cube_read source.entry }
{
    read_cube(source.cube, source.read)
}

// The argument of a reference for the last dimension.
fn last_argument<'a>(model: &Model, cube: u32, reference: &'a Reference) -> &'a Arg
    requires { IsReference model.now.space cube reference.now }
    ensures { result.now ≡ slice_index_or reference.now.args (last_of model.now.space reference.now.cube) (Fixed 0) }
{
    let last = last_of(model, reference.cube);
    &reference.args.as_slice()[last]
}

// The same by that argument.
fn way_by(last: usize, arg: &Arg) -> Way<'_>
    ensures { follows_of result ≡ follows_by last arg.now }
{
    match arg {
        Arg::Fixed(target) => Way::To(*target),
        Arg::Moved { from, to } => {
            if *from as usize == last {
                Way::By(to)
            } else {
                Way::Over(*from, to)
            }
        }
    }
}
