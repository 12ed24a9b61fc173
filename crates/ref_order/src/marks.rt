ghost use Rattle.std.specs.Prelude.{◌<◌, length};
ghost use Rattle.cube_space.specs.Layout.{axes};

use crate::alike::map_by;
use crate::question::Question;
use crate::reads::Read;
use crate::scale::{axis, axis_count};
use rule_laws::{Arg, ElementMap, Reference};
use rule_model::Model;

const MAX_DIMENSIONS: usize = 16;

/// The marks of what a formula reads, one for each dimension of its cube: numbers by which the answers to questions
/// about it are found. Where two formulas name the same from the elements of a dimension, by maps that were made in the
/// same way, they have the same mark. What is found is compared, so no proof rests on them.
#[derive(Clone, Copy)]
pub struct Marks {
    of: [u64; MAX_DIMENSIONS],
}

impl Marks {
    /// The marks of what a formula of a cube reads.
    pub fn of_read(model: &Model, cube: u32, read: Read) -> Marks
        requires { cube < length model.now.space.cubes }
    {
        let mut of = [0; MAX_DIMENSIONS];
        'each: for dim in 0..axis_count(model, cube) {
            of[dim % MAX_DIMENSIONS] = mark_in(model, cube, read, dim);
        }
        Marks { of }
    }

    /// The mark of a dimension.
    pub fn at(&self, dim: usize) -> u64 {
        self.of[dim % MAX_DIMENSIONS]
    }
}

/// The number by which the answer to a question about what has this mark is found.
pub fn key_of(mark: u64, asked: Question) -> u64 {
    let kinds = u64::from(asked.own) * 2 + u64::from(asked.its);
    let place = u64::from(asked.place) * 4 + kinds;
    mixed(mixed(mark, asked.dim as u64), place)
}

// A number that depends on both. Where one of them stays, another number of the other gives another one.
fn mixed(mark: u64, more: u64) -> u64 {
    let product = (mark ^ more).wrapping_mul(0x9E37_79B9_7F4A_7C15);
    product ^ (product >> 32)
}

/// The mark of a dimension of what a formula of a cube reads.
pub fn mark_in(model: &Model, cube: u32, read: Read, dim: usize) -> u64
    requires cube { cube < length model.now.space.cubes }
    requires dim { dim < length (axes model.now.space cube) }
{
    match read {
        Read::Cell(reference) => reference_mark(axis(model, cube, dim).len(), dim, reference),
        Read::Children(of) => mixed(1, u64::from(of)),
    }
}

// By what a reference names from so many elements of a dimension.
fn reference_mark(len: u32, dim: usize, reference: &Reference) -> u64 {
    let args = reference.args.as_slice();
    let mut mark = mixed(2, u64::from(reference.cube));
    'each: for j in 0..args.len() {
        mark = mixed(mark, arg_mark(len, dim, &args[j]));
    }
    mark
}

fn arg_mark(len: u32, dim: usize, arg: &Arg) -> u64 {
    match map_by(dim, arg) {
        Some(to) => map_mark(len, to),
        None => 3,
    }
}

// A map that moves by so many places is known by them, without a look at the elements.
fn map_mark(len: u32, to: &ElementMap) -> u64 {
    if to.is_identity() {
        return 4;
    }
    if to.is_same(&ElementMap::nowhere(len)) {
        return 5;
    }
    if let Some(places) = behind_by(len, to) {
        return mixed(6, u64::from(places));
    }
    match before_by(len, to) {
        Some(places) => mixed(7, u64::from(places)),
        None => list_mark(len, to),
    }
}

// By how many places a map moves each of so many elements behind it, if it was made so.
fn behind_by(len: u32, to: &ElementMap) -> Option<u32> {
    let places = to.get(0)?;
    if to.is_same(&ElementMap::behind(len, places)) {
        Some(places)
    } else {
        None
    }
}

// The same before it.
fn before_by(len: u32, to: &ElementMap) -> Option<u32> {
    let last = len.saturating_sub(1);
    let target = to.get(last as usize)?;
    let places = last.saturating_sub(target);
    if to.is_same(&ElementMap::before(len, places)) {
        Some(places)
    } else {
        None
    }
}

// By where each element goes.
fn list_mark(len: u32, to: &ElementMap) -> u64 {
    let mut mark = 8;
    'each: for element in 0..len as usize {
        let target = match to.get(element) {
            Some(target) => u64::from(target) + 1,
            None => 0,
        };
        mark = mixed(mark, target);
    }
    mark
}
