ghost use Rattle.std.specs.Prelude.{◌≡◌, ℕ, ◌≤◌, Bool, IsTrue, Some, None, MatchOption, length, map, drop};
ghost use Rattle.rule_model.specs.declared.area.Area.{Area as AnyArea};
ghost use Rattle.rule_model.specs.Conditions.{IsReference, IsPrecedent};
ghost use Rattle.order_laws.specs.Earlier.{Kinds, number_by_kinds};
ghost use Rattle.ref_order.specs.declared.kinds.ByKinds.{ByKinds as AnyNumbers};
ghost use Rattle.ref_order.specs.Kinds.{AreByKinds};
ghost use Rattle.ref_order.specs.Reads.{precedent_of};
ghost use Rattle.ref_order.specs.Known.{followed_by, answer_of};

use crate::question::Question;
use crate::reads::Read;
use rule_laws::{Arg, ElementMap, Reference};
use rule_model::Model;

/// Whether it is known at once that two questions have the same answer, over each area: they ask for the same of two
/// references that name the same from the elements of the dimension.
pub fn ask_alike(model: &Model, cube: u32, one: Question, other: Question) -> bool
    requires one { IsPrecedent model.now.space cube (precedent_of one.read) }
    requires other { IsPrecedent model.now.space cube (precedent_of other.read) }
    ensures { IsTrue result → (area : AnyArea) (numbers : AnyNumbers)
        → AreByKinds numbers (answer_of model.now cube area one.entry)
        → AreByKinds numbers (answer_of model.now cube area other.entry) }
{
    if one.place != other.place {
        return false;
    }
    if one.dim != other.dim {
        return false;
    }
    if !same_kind(one.own, other.own) {
        return false;
    }
    if !same_kind(one.its, other.its) {
        return false;
    }
    read_alike(model, cube, one.dim, one.read, other.read)
}

fn same_kind(one: bool, other: bool) -> bool
    ensures { IsTrue result → one ≡ other }
{
    match (one, other) {
        (true, true) => true,
        (false, false) => true,
        _ => false,
    }
}

// Whether what two formulas read is the same as far as it comes from the elements of a dimension.
fn read_alike(model: &Model, cube: u32, dim: usize, one: Read, other: Read) -> bool
    requires one { IsPrecedent model.now.space cube (precedent_of one) }
    requires other { IsPrecedent model.now.space cube (precedent_of other) }
    ensures { IsTrue result → (kinds : Kinds) (place element : ℕ) (leaf : Bool)
        → number_by_kinds model.now cube kinds place (precedent_of one.entry) dim element leaf
        ≡ number_by_kinds model.now cube kinds place (precedent_of other.entry) dim element leaf }
{
    match (one, other) {
        (Read::Cell(one), Read::Cell(other)) => {
            one.cube == other.cube && name_alike(model, cube, dim, one, other, 0)
        }
        (Read::Children(one), Read::Children(other)) => one == other,
        _ => false,
    }
}

// Whether the arguments of two references to one cube, from this one on, name the same from the elements of a
// dimension.
#[cycle(name_alike)]
fn name_alike(
    model: &Model,
    cube: u32,
    dim: usize,
    one: &Reference,
    other: &Reference,
    from: usize,
) -> bool
    requires one { IsReference model.now.space cube one.now }
    requires other { IsReference model.now.space cube other.now }
    requires cube { one.now.cube ≡ other.now.cube }
    requires from { from ≤ length one.now.args }
    ensures { IsTrue result → map (followed_by dim) (drop from one.now.args)
        ≡ map (followed_by dim) (drop from other.now.args) }
{
    let own = one.args.as_slice();
    let its = other.args.as_slice();
    from == own.len()
        || (follow_alike(dim, &own[from], &its[from])
            && name_alike(model, cube, dim, one, other, from + 1))
}

// Whether two arguments follow a dimension by maps of which it is known that they are the same, or both don't.
fn follow_alike(dim: usize, one: &Arg, other: &Arg) -> bool
    ensures { IsTrue result → followed_by dim one.now ≡ followed_by dim other.now }
{
    match (map_by(dim, one), map_by(dim, other)) {
        (Some(to), Some(by)) => to.is_same(by),
        (None, None) => true,
        _ => false,
    }
}

/// The map of an argument that follows a dimension.
pub fn map_by(dim: usize, arg: &Arg) -> Option<&ElementMap>
    ensures { MatchOption result (followed_by dim arg.now ≡ None) (λ to. followed_by dim arg.now ≡ Some to.now) }
{
    match arg {
        Arg::Moved { from, to } if dim == *from as usize => Some(to),
        _ => None,
    }
}
