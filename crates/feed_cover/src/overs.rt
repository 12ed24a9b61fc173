ghost use Rattle.std.specs.Prelude.{◌≡◌, ◌<◌, ◌⊎◌, ℕ, Bool, List, Option, Some, IfSome, IsTrue, length};
ghost use Rattle.std.specs.Prelude.{slice_get, slice_index_or};
ghost use Rattle.cube_space.specs.Layout.{axes, sizes};
ghost use Rattle.rule_model.specs.BoundModel.{BoundModel};
ghost use Rattle.cover_laws.specs.Looking.{sent};
ghost use Rattle.cover_laws.specs.Covered.{each_sent};
ghost use Rattle.feed_cover.specs.declared.overs.OneOver.{OneOver as AnyOver};
ghost use Rattle.feed_cover.specs.declared.reference_view.ReferenceView.{ReferenceView as AnyView};
ghost use Rattle.feed_cover.specs.Tests.{AreOvers};

use crate::table::leaves;
use rule_laws::ElementMap;
use rule_model::Model;

/// The one element to which each leaf that counts in another is sent.
#[derive(Clone, Copy)]
pub struct OneOver {
    pub target: u32,
    pub over: u32,
}

/// How many of them are remembered, by the last digits of the target.
pub const SLOTS: usize = 64;

/// Those that are remembered.
pub type Overs = [Option<OneOver>; SLOTS];

/// None.
pub fn no_overs() -> Overs
    ensures { (model : BoundModel) (view : AnyView) (dim place : ℕ) (to : List (Option ℕ))
        → AreOvers model view dim place to result }
{
    [None; SLOTS]
}

/// What is remembered of a target.
pub fn recalled(overs: &Overs, target: u32) -> Option<OneOver>
    ensures { IfSome result (λ known. (known.target ≡ target)
        × ((k : ℕ) × (slice_get overs.now k ≡ Some (Some known)))) }
{
    let slot = target as usize % SLOTS;
    match overs[slot] {
        Some(known) if known.target == target => Some(known),
        _ => None,
    }
}

/// Remembers one.
pub fn remember(overs: &mut Overs, known: OneOver)
    ensures { (k : ℕ) (other : AnyOver) → slice_get overs.new k ≡ Some (Some other)
        → (slice_get overs.old k ≡ Some (Some other)) ⊎ (other ≡ known) }
{
    let slot = known.target as usize % SLOTS;
    overs[slot] = Some(known);
}

/// The one element to which each leaf that counts in an element is sent, if there are leaves, and one such element.
pub fn one_over(model: &Model, cube: u32, place: usize, to: &ElementMap, target: u32) -> Option<u32>
    requires cube { cube < length model.now.space.cubes }
    requires place { place < length (axes model.now.space cube) }
    requires element { target < slice_index_or (sizes model.now.space cube) place 0 }
    ensures asked { IfSome result (λ over. (test : ℕ → Bool)
        → each_sent (axes model.now.space cube) place to.now test target ≡ test over) }
    ensures sent { IfSome result (λ over. (leaf : ℕ) × (sent to.now leaf ≡ Some over)) }
{
    let pairs = leaves(model, cube, place, target);
    if pairs.is_empty() {
        return None;
    }
    let over = to.get(pairs[0].0 as usize)?;
    'each: for k in 1..pairs.len() {
        if !is_sent(to, pairs[k].0, over) {
            return None;
        }
    }
    Some(over)
}

fn is_sent(to: &ElementMap, leaf: u32, over: u32) -> bool
    ensures { IsTrue result → sent to.now leaf ≡ Some over }
{
    match to.get(leaf as usize) {
        Some(other) => other == over,
        None => false,
    }
}
