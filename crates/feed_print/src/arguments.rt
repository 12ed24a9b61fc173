ghost use Rattle.std.specs.Prelude.{◌≡◌, ◌<◌, ◌==◌, ◌*◌, ◌∷◌, [], pos, codes, length, option_map, Some};
ghost use Rattle.std.specs.Prelude.{slice_get, slice_index_or, IfOk, IfSome, IsTrue};
ghost use Rattle.std.specs.List.{list_all};
ghost use Rattle.cube_fixed.specs.Range.{unit};
ghost use Rattle.cube_space.specs.Layout.{dims_of, sizes};
ghost use Rattle.rule_model.specs.Conditions.{IsArg, IsReference};
ghost use Rattle.rule_printer.specs.Writable.{is_quotable, is_writable};
ghost use Rattle.rule_tree.specs.declared.tree.Tree.TheVariants as trees;
ghost use Rattle.rule_tree.specs.declared.tree.TreeOp.TheVariants as ops;
ghost use Rattle.bind_arguments.specs.Bound.{dimension_at};
ghost use Rattle.feed_print.specs.FeederTexts.{index_text, shifted_text, moved_text, map_text};
ghost use Rattle.feed_print.specs.FeederTexts.{argument_text, argument_texts};

use crate::moves::{first_sent, moves_by};
use crate::names::{copy_of, fits, name_text, quoted_text};
use cube_fixed::Money;
use cube_space::Space;
use dim_name::Name;
use lists::ListOf;
use rule_laws::{Arg, ElementMap, Reference};
use rule_tree::{Tree, TreeOp};
use sqlite_items::{Boxed, Items};
use std::alloc::{AllocError, Global};

// A function of two arguments.
fn call(alloc: Global, function: &[u8], first: Tree, second: Tree) -> Result<Tree, AllocError>
    ensures { IfOk result (λ tree. tree ≡ trees.Call function.now (first ∷ second ∷ [])) }
{
    let function = Vec::from_slice(alloc, function)?;
    let mut arguments = Vec::new(alloc);
    arguments.push(first)?;
    arguments.push(second)?;
    Ok(Tree::Call(ListOf::new(function), Items::from_vec(arguments)))
}

// A whole number.
fn number(n: u32) -> Tree
    ensures number { result ≡ trees.Number (pos (n * unit)) }
    ensures writable { IsTrue (is_writable result) }
{
    Tree::Number(Money::of_units(n))
}

// The index of the cell's own element.
fn index_text(alloc: Global, dim: &Name) -> Result<Tree, AllocError>
    requires { IsTrue (is_quotable dim.now) }
    ensures text { IfOk result (λ tree. tree ≡ index_text dim.now) }
    ensures writable { IfOk result (λ tree. IsTrue (is_writable tree)) }
{
    let name = quoted_text(alloc, dim)?;
    let own = copy_of(alloc, dim)?;
    call(alloc, b"DIMIX", name, Tree::Current(own))
}

// The element so many places behind the cell's own one, or before it.
fn shifted_text(alloc: Global, dim: &Name, op: TreeOp, n: u32) -> Result<Tree, AllocError>
    requires { IsTrue (is_quotable dim.now) }
    ensures text { IfOk result (λ tree. tree ≡ shifted_text dim.now op n) }
    ensures writable { IfOk result (λ tree. IsTrue (is_writable tree)) }
{
    let name = quoted_text(alloc, dim)?;
    let index = Boxed::new(alloc, index_text(alloc, dim)?)?;
    let places = Boxed::new(alloc, number(n))?;
    call(alloc, b"DIMNM", name, Tree::Binary(op, index, places))
}

// The cell's own element, or the one as far from it as the one index is from the other.
fn moved_text(alloc: Global, dim: &Name, from: u32, to: u32) -> Result<Tree, AllocError>
    requires { IsTrue (is_quotable dim.now) }
    ensures text { IfOk result (λ tree. tree ≡ moved_text dim.now from to) }
    ensures writable { IfOk result (λ tree. IsTrue (is_writable tree)) }
{
    if from == to {
        let own = copy_of(alloc, dim)?;
        Ok(Tree::Current(own))
    } else if to < from {
        shifted_text(alloc, dim, TreeOp::Sub, from - to)
    } else {
        shifted_text(alloc, dim, TreeOp::Add, to - from)
    }
}

// A map within a dimension of this name, if it moves all elements as far.
fn map_text(
    alloc: Global,
    dim: &Name,
    to: &ElementMap,
    size: u32,
) -> Result<Option<Tree>, AllocError>
    requires quotable { IsTrue (is_quotable dim.now) }
    requires size { length to.now ≡ size }
    ensures text { IfOk result (λ found. found ≡ map_text dim.now to.now) }
    ensures writable { IfOk result (λ found. IfSome found (λ tree. IsTrue (is_writable tree))) }
{
    match first_sent(to, size) {
        Some((from, target)) if moves_by(to, size, from, target) => {
            let tree = moved_text(alloc, dim, from, target)?;
            Ok(Some(tree))
        }
        _ => Ok(None),
    }
}

// Whether the dimension of a cube at a place is the one of this number.
fn is_dimension_at(space: &Space, cube: u32, place: u32, dim: u32) -> bool
    requires cube { cube < length space.now.cubes }
    ensures { result ≡ (slice_index_or (dims_of space.now cube) place 0 == dim) }
{
    match space.shape(cube).dims.as_slice().get(place as usize) {
        Some(number) => *number == dim,
        None => dim == 0,
    }
}

// An argument of a feeder of a cube for this dimension of the target's cube.
#[tactic(auto, unfolding(crate::specs::FeederTexts::argument_text))]
fn argument_text(
    alloc: Global,
    space: &Space,
    cube: u32,
    dim: u32,
    arg: &Arg,
) -> Result<Option<Tree>, AllocError>
    requires cube { cube < length space.now.cubes }
    requires dim { dim < length space.now.dimensions }
    requires arg { IsArg (sizes space.now cube) (length (dimension_at space.now dim).elements) arg.now }
    ensures text { IfOk result (λ found. found ≡ argument_text space.now cube dim arg.now) }
    ensures writable { IfOk result (λ found. IfSome found (λ tree. IsTrue (is_writable tree))) }
{
    let _cells = space.size();
    let dimension = space.dimension(dim);
    match arg {
        Arg::Fixed(element) => name_text(alloc, dimension.name_of(*element)),
        Arg::Moved { from, to } => {
            if is_dimension_at(space, cube, *from, dim) && fits(dimension.name()) {
                map_text(alloc, dimension.name(), to, dimension.len())
            } else {
                Ok(None)
            }
        }
    }
}

// The number of the dimension of a cube at a place.
fn number_at(space: &Space, cube: u32, place: usize) -> u32
    requires cube { cube < length space.now.cubes }
    requires place { place < length (dims_of space.now cube) }
    ensures number { slice_get (dims_of space.now cube) place ≡ Some result }
    ensures within { result < length space.now.dimensions }
{
    // a space says of itself that it is one
    let _cells = space.size();
    space.shape(cube).dims.as_slice()[place]
}

/// The arguments of a feeder's target, unless one has no text.
pub fn argument_texts(
    alloc: Global,
    space: &Space,
    cube: u32,
    target: &Reference,
) -> Result<Option<Vec<Tree>>, AllocError>
    requires cube { cube < length space.now.cubes }
    requires target { IsReference space.now cube target.now }
    ensures text { IfOk result (λ found. option_map (λ arguments. arguments.items) found
        ≡ argument_texts space.now cube (dims_of space.now target.now.cube) target.now.args) }
    ensures writable { IfOk result (λ found.
        IfSome found (λ arguments. IsTrue (list_all is_writable arguments.items))) }
{
    let _cells = space.size();
    let mut arguments = Vec::new(alloc);
    let args = target.args.as_slice();
    'each: for place in 0..args.len() {
        let dim = number_at(space, target.cube, place);
        match argument_text(alloc, space, cube, dim, &args[place])? {
            Some(argument) => arguments.push(argument)?,
            None => return Ok(None),
        }
    }
    Ok(Some(arguments))
}
