ghost use Rattle.std.specs.Prelude.{◌≡◌, ◌<◌, ◌≤◌, ◌^◌, IfOk, IfSome, All, drop, length, filter, nat_le};
ghost use Rattle.std.specs.Prelude.{slice_index_or};
ghost use Rattle.std.specs.List.Sorted.{IsNonDecreasingBy};
ghost use Rattle.cube_space.specs.Cells.{IsSpace};
ghost use Rattle.cube_space.specs.Layout.{axes, sizes};
ghost use Rattle.rule_model.specs.Conditions.{AreRules};
ghost use Rattle.rule_model.specs.Filed.{is_leaf_at, wider, widest_leaf};
ghost use Rattle.rule_model.specs.Inside.Files.{NamesElements, IsFile, AreFiles, IsLow};
ghost use Rattle.rule_model.specs.Inside.Files.{file_number, filed_from, of_number};

use crate::rules::{CubeRules, Feeder};
use cube_space::Space;
use lists::ListOf;
use rule_laws::{Arg, Reference};
use std::alloc::{AllocError, Global};

// More than there are numbers of elements, and numbers of leaves.
const ELEMENT_NUMBERS: u128 = 1 << 32;

const LEAF_NUMBERS: u128 = 1 << 65;

/// A leaf of a cube, in the dimension at this place of the cube.
#[derive(Clone, Copy)]
pub struct FixedLeaf {
    pub dim: u32,
    pub element: u32,
}

/// A feeder of a cube, as it is filed.
#[derive(Clone, Copy)]
pub struct FiledFeeder {
    /// What it is filed by, as one number.
    pub(crate) key: u128,
    /// Its place among the feeders of its cube.
    pub place: u32,
}

/// The file of each cube's feeders.
pub fn files_of_cubes(
    alloc: Global,
    space: &Space,
    cubes: &[CubeRules],
) -> Result<Vec<ListOf<FiledFeeder>>, AllocError>
    requires { AreRules space.now cubes.now }
    ensures { IfOk result (λ files. AreFiles space.now cubes.now files.items) }
{
    // a space says of itself that it is one
    let _cells = space.size();
    let mut files = Vec::with_capacity(alloc, cubes.len())?;
    'each: for cube in 0..cubes.len() {
        let file = file_of(alloc, space, cubes[cube].feeders.as_slice())?;
        files.push(file)?;
    }
    Ok(files)
}

fn file_of(
    alloc: Global,
    space: &Space,
    feeders: &[Feeder],
) -> Result<ListOf<FiledFeeder>, AllocError>
    requires targets { All (λ feeder. NamesElements space.now feeder.target) feeders.now }
    requires few { length feeders.now < 2 ^ 32 }
    ensures { IfOk result (IsFile space.now feeders.now) }
{
    let mut file = filed_in_order(alloc, space, feeders)?;
    // a stable sort: the feeders of one number stay in their order
    file.sort_by_key(|filed| filed.key)?;
    Ok(ListOf::new(file))
}

// The feeders as they are filed, in their order.
fn filed_in_order(
    alloc: Global,
    space: &Space,
    feeders: &[Feeder],
) -> Result<Vec<FiledFeeder>, AllocError>
    requires targets { All (λ feeder. NamesElements space.now feeder.target) feeders.now }
    requires few { length feeders.now < 2 ^ 32 }
    ensures { IfOk result (λ filed. filed.items ≡ filed_from space.now 0 feeders.now) }
{
    let mut filed = Vec::with_capacity(alloc, feeders.len())?;
    'each: for place in 0..feeders.len() {
        let target = &feeders[place].target;
        let key = file_number(target.cube, widest_leaf(space, target, 0));
        filed.push(FiledFeeder {
            key,
            place: place as u32,
        })?;
    }
    Ok(filed)
}

// Of the leaves that arguments from this dimension on name from every cell, that of the dimension with the most
// elements.
#[cycle(widest_leaf)]
fn widest_leaf(space: &Space, target: &Reference, dim: u32) -> Option<FixedLeaf>
    requires target { NamesElements space.now target.now }
    requires dim { dim ≤ length target.now.args }
    ensures { result ≡ widest_leaf (axes space.now target.now.cube) dim (drop dim target.now.args) }
{
    let args = target.args.as_slice();
    if dim as usize == args.len() {
        return None;
    }
    let later = widest_leaf(space, target, dim + 1);
    match &args[dim as usize] {
        Arg::Fixed(element) if is_leaf_at(space, target.cube, dim as usize, *element) => {
            let leaf = FixedLeaf {
                dim,
                element: *element,
            };
            Some(wider(space, target.cube, leaf, later))
        }
        _ => later,
    }
}

// Of a leaf and another, if there is one, that of the dimension with more elements.
fn wider(space: &Space, cube: u32, leaf: FixedLeaf, other: Option<FixedLeaf>) -> FixedLeaf
    requires { cube < length space.now.cubes }
    ensures { result ≡ wider (sizes space.now cube) leaf other }
{
    match other {
        Some(other) if size_at(space, cube, leaf.dim) < size_at(space, cube, other.dim) => other,
        _ => leaf,
    }
}

// How many elements the dimension of a cube at this place has; none where there is no such place.
fn size_at(space: &Space, cube: u32, dim: u32) -> u32
    requires { cube < length space.now.cubes }
    ensures { result ≡ slice_index_or (sizes space.now cube) dim 0 }
{
    // a space says of itself that it is one
    let _cells = space.size();
    let dims = space.shape(cube).dims.as_slice();
    let place = dim as usize;
    if place >= dims.len() {
        return 0;
    }
    space.dimension(dims[place]).len()
}

// Whether an element of the dimension of a cube at this place is a leaf.
fn is_leaf_at(space: &Space, cube: u32, dim: usize, element: u32) -> bool
    requires cube { cube < length space.now.cubes }
    requires element { element < slice_index_or (sizes space.now cube) dim 0 }
    ensures { result ≡ is_leaf_at (axes space.now cube) dim element }
{
    // a space says of itself that it is one
    let _cells = space.size();
    let dims = space.shape(cube).dims.as_slice();
    space.dimension(dims[dim]).is_leaf(element)
}

/// What feeders are filed by, as one number.
pub fn file_number(cube: u32, leaf: Option<FixedLeaf>) -> u128
    ensures number { result ≡ file_number cube leaf }
    ensures low { IfSome leaf IsLow }
{
    let leaf_number = match leaf {
        Some(leaf) => (u128::from(leaf.dim) + 1) * ELEMENT_NUMBERS + u128::from(leaf.element),
        None => 0,
    };
    u128::from(cube) * LEAF_NUMBERS + leaf_number
}

/// Those that are filed by a number.
pub fn of_number(file: &[FiledFeeder], key: u128) -> &[FiledFeeder]
    requires { IsNonDecreasingBy (λ filed. filed.key) file.now }
    ensures { result.now ≡ of_number file.now key }
{
    at_least(at_most(file, key), key)
}

// Those at or below a number.
fn at_most(file: &[FiledFeeder], key: u128) -> &[FiledFeeder]
    requires { IsNonDecreasingBy (λ filed. filed.key) file.now }
    ensures those { result.now ≡ filter (λ filed. nat_le filed.key key) file.now }
    ensures rising { IsNonDecreasingBy (λ filed. filed.key) result.now }
{
    &file[..file.partition_point(|filed| filed.key <= key)]
}

// Those at or above a number.
fn at_least(file: &[FiledFeeder], key: u128) -> &[FiledFeeder]
    requires { IsNonDecreasingBy (λ filed. filed.key) file.now }
    ensures { result.now ≡ filter (λ filed. nat_le key filed.key) file.now }
{
    &file[file.partition_point(|filed| filed.key < key)..]
}
