ghost use Rattle.std.specs.Prelude.{◌≡◌, ◌<◌, ◌⊎◌, ◌++◌, ◌∷◌, [], Some, length, slice_get, IfOk, IfSome, IsTrue};
ghost use Rattle.feed_turn.specs.Known.{AreTurns, move_of};

use cube_space::axis_count;
use lists::ListOf;
use rule_laws::ElementMap;
use rule_model::Model;
use std::alloc::{AllocError, Global};

// How many maps are remembered at most. What comes of one beyond them is worked out each time.
const MAX_KNOWN: usize = 64;

/// How a reference moves the elements of a dimension.
#[derive(Clone, Copy)]
pub struct Moving<'a> {
    /// The cube of the reference.
    pub cube: u32,
    pub dim: u32,
    /// The place of the argument that moves them.
    pub place: u32,
    pub to: &'a ElementMap,
}

/// What comes of it.
#[derive(Drop)]
pub struct Known<'a, T> {
    pub moving: Moving<'a>,
    pub found: T,
}

/// What is remembered from reference to reference of a cube's statements. It is of dimensions of which an area has all
/// elements, so it serves for each such area.
#[derive(Drop)]
pub struct Turns<'a> {
    /// For each dimension the element over its leaves, once it was asked for.
    pub(crate) overs: Vec<Option<Option<u32>>>,
    /// The maps back.
    pub(crate) backs: Vec<Known<'a, Option<ElementMap>>>,
    /// The sets that are named.
    pub(crate) sets: Vec<Known<'a, Option<ListOf<u32>>>>,
}

impl<'a> Turns<'a> {
    /// Nothing yet of a cube.
    pub fn none(alloc: Global, model: &Model, cube: u32) -> Result<Turns<'a>, AllocError>
        requires { cube < length model.now.space.cubes }
        ensures { IfOk result (AreTurns model.now cube) }
    {
        let count = axis_count(model.space(), cube);
        Ok(Turns {
            overs: vec![in alloc; None; count as usize]?,
            backs: Vec::new(alloc),
            sets: Vec::new(alloc),
        })
    }
}

// Whether it is known that the elements are moved alike.
fn is_alike(one: Moving, other: Moving) -> bool
    ensures { IsTrue result → move_of one.entry ≡ move_of other.entry }
{
    if one.cube != other.cube {
        return false;
    }
    if one.dim != other.dim {
        return false;
    }
    if one.place != other.place {
        return false;
    }
    one.to.is_same(other.to)
}

/// The place of what is remembered of elements that are moved so.
pub fn recalled<T>(known: &[Known<T>], asked: Moving) -> Option<usize>
    ensures within { IfSome result (λ place. place < length known.now) }
    ensures alike { IfSome result (λ place. (one : Known T) → slice_get known.now place ≡ Some one
        → move_of one.moving ≡ move_of asked.entry) }
{
    'each: for place in 0..known.len() {
        if is_alike(known[place].moving, asked) {
            return Some(place);
        }
    }
    None
}

/// Remembers it, where there is room and memory for it.
pub fn remember<'a, T: Drop>(known: &mut Vec<Known<'a, T>>, one: Known<'a, T>)
    ensures { (known.new.items ≡ known.old.items) ⊎ (known.new.items ≡ known.old.items ++ one.entry ∷ []) }
{
    if known.len() < MAX_KNOWN {
        let _is_kept = known.push(one).is_ok();
    }
}
