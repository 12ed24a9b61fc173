ghost use Rattle.std.specs.Prelude.{◌≡◌, ◌<◌, ◌≤◌, length, drop, slice_index_or, None};
ghost use Rattle.std.specs.List.{list_all};
ghost use Rattle.cube_space.specs.Layout.{axes, sizes};
ghost use Rattle.rule_model.specs.Areas.{in_set};
ghost use Rattle.rule_laws.specs.Meaning.{Named};
ghost use Rattle.rule_model.specs.Conditions.{IsSet, IsReference};
ghost use Rattle.order_laws.specs.Earlier.{moved_leaves};
ghost use Rattle.arrow_laws.specs.ByDimension.{names_from, serves, names_total, has_element};
ghost use Rattle.read_sources.specs.Ways.{width};
ghost use Rattle.read_sources.specs.Ways.{IsSource, precedent, reads_from, gives_total, serves_any, serves_with};
ghost use Rattle.read_sources.specs.Giving.{wanted_by};

use crate::given::{admits, suits};
use crate::source::Source;
use crate::tables::{Wanted, has_part, is_total, last_of};
use lists::ListOf;
use ref_order::{Read, axis};
use rule_laws::{Arg, Reference};
use rule_model::Model;

/// The elements that the area of a source has in a dimension.
pub fn set_of<'a>(model: &Model, source: Source<'a>, dim: usize) -> &'a Option<ListOf<u32>>
    requires source { IsSource model.now source }
    requires dim { dim < length (axes model.now.space source.cube) }
    ensures { result.now ≡ slice_index_or source.entry.area.now.sets dim None }
{
    let _space = model.space();
    &source.area.sets.as_slice()[dim]
}

// Whether an element is in a set of an area.
fn is_listed(set: &Option<ListOf<u32>>, size: u32, element: u32) -> bool
    requires { IsSet size set.now }
    ensures { result ≡ in_set set.now element }
{
    match set {
        Some(listed) => listed.as_slice().binary_search(&element).is_ok(),
        None => true,
    }
}

// Whether the area of a source has an element in a dimension.
fn has_element(model: &Model, source: Source, dim: usize, element: u32) -> bool
    requires source { IsSource model.now source }
    requires dim { dim < length (axes model.now.space source.cube) }
    ensures { result ≡ has_element model.now.space source.entry.cube source.entry.area.now dim element }
{
    let size = axis(model, source.cube, dim).len();
    element < size && is_listed(set_of(model, source, dim), size, element)
}

// Whether an argument names an element from this one of a dimension, where it follows that.
fn names_from(dim: usize, element: u32, arg: &Arg) -> bool
    ensures { result ≡ names_from dim element arg.now }
{
    match arg {
        Arg::Fixed(_) => true,
        Arg::Moved { from, to } => { dim != *from as usize || to.get(element as usize).is_some() }
    }
}

// Whether each of these arguments does.
fn name_each(args: &[Arg], dim: usize, element: u32) -> bool
    ensures { result ≡ list_all (names_from dim element) args.now }
{
    args.iter().all(|arg| names_from(dim, element, arg))
}

// Whether the arguments that follow a dimension name leaves alone from an element, from this argument on.
#[cycle(moved_leaves)]
fn moved_leaves(
    model: &Model,
    cube: u32,
    reference: &Reference,
    from: usize,
    dim: usize,
    element: u32,
) -> bool
    requires reference { IsReference model.now.space cube reference.now }
    requires from { from ≤ length reference.now.args }
    ensures { result ≡ moved_leaves (axes model.now.space reference.now.cube) from (drop from reference.now.args) dim
        element }
{
    let args = reference.args.as_slice();
    if from == args.len() {
        return true;
    }
    let rest = moved_leaves(model, cube, reference, from + 1, dim, element);
    match &args[from] {
        Arg::Fixed(_) => rest,
        Arg::Moved { from: followed, to } => {
            if dim != *followed as usize {
                return rest;
            }
            match to.get(element as usize) {
                Some(named) => !is_total(model, reference.cube, from, named) && rest,
                None => rest,
            }
        }
    }
}

// The components of which a cell that a source means may have one.
fn wanted_by(its: Option<bool>) -> Wanted
    ensures { result ≡ wanted_by its }
{
    match its {
        Some(true) => Wanted::Leaf,
        _ => Wanted::Any,
    }
}

// Whether each argument of a reference names an element that the cells may have that a source means.
fn serves_cell(
    model: &Model,
    source: Source,
    reference: &Reference,
    dim: usize,
    element: u32,
) -> bool
    requires reference { IsReference model.now.space source.cube reference.now }
    ensures { result ≡ serves model.now.space source.entry.cube (Named reference.now) source.entry.its dim element }
{
    if !name_each(reference.args.as_slice(), dim, element) {
        return false;
    }
    match source.its {
        Some(true) => moved_leaves(model, source.cube, reference, 0, dim, element),
        _ => true,
    }
}

// Whether a cell with this element in a dimension may have what a source reads.
fn serves(model: &Model, source: Source, dim: usize, element: u32) -> bool
    requires source { IsSource model.now source }
    requires dim { dim < length (axes model.now.space source.cube) }
    requires element { element < slice_index_or (sizes model.now.space source.cube) dim 0 }
    ensures { result ≡ serves model.now.space source.entry.cube (precedent source.entry) source.entry.its dim element }
{
    match source.read {
        Read::Cell(reference) => serves_cell(model, source, reference, dim, element),
        Read::Children(own) => {
            if dim == own as usize {
                has_part(model, source.cube, dim, element, wanted_by(source.its))
            } else {
                admits(source.its, !is_total(model, source.cube, dim, element))
            }
        }
    }
}

/// Whether cells from which a source reads may have this element in a dimension.
#[tactic(auto, unfolding(arrow_laws::specs::ByDimension::is_from))]
pub fn reads_from(model: &Model, source: Source, dim: usize, element: u32) -> bool
    requires source { IsSource model.now source }
    requires dim { dim < length (axes model.now.space source.cube) }
    ensures { result ≡ reads_from model.now source.entry dim element }
{
    has_element(model, source, dim, element)
        && (admits(
            Some(source.kind),
            !is_total(model, source.cube, dim, element),
        ) && serves(model, source, dim, element))
}

// Whether what is read may have a consolidated element that is named from this one.
fn names_total(model: &Model, source: Source, dim: usize, element: u32) -> bool
    requires source { IsSource model.now source }
    requires dim { dim < length (axes model.now.space source.cube) }
    requires element { element < slice_index_or (sizes model.now.space source.cube) dim 0 }
    ensures { result ≡ names_total model.now.space source.entry.cube (precedent source.entry) dim element }
{
    match source.read {
        Read::Cell(reference) => !moved_leaves(model, source.cube, reference, 0, dim, element),
        Read::Children(own) => {
            if dim == own as usize {
                has_part(model, source.cube, dim, element, Wanted::Total)
            } else {
                is_total(model, source.cube, dim, element)
            }
        }
    }
}

/// Whether a source asks for a consolidated element that is named, and from this one one is named.
pub fn gives_total(model: &Model, source: Source, dim: usize, element: u32) -> bool
    requires source { IsSource model.now source }
    requires dim { dim < length (axes model.now.space source.cube) }
    requires element { element < slice_index_or (sizes model.now.space source.cube) dim 0 }
    ensures { result ≡ gives_total model.now source.entry dim element }
{
    source.asks && names_total(model, source, dim, element)
}

/// Whether cells from which a source reads may have this element in the last dimension as far as their kinds say,
/// whatever their element is in the dimension by which the node that is read is found.
pub fn serves_any(model: &Model, source: Source, element: u32) -> bool
    requires source { IsSource model.now source }
    requires element { element < width model.now.space source.cube }
    ensures { result ≡ serves_any model.now source.entry element }
{
    let last = last_of(model, source.cube);
    suits(
        source,
        is_total(model, source.cube, last, element),
        gives_total(model, source, last, element),
    )
}

/// The same, where they have this other element in a dimension.
pub fn serves_with(model: &Model, source: Source, element: u32, dim: usize, other: u32) -> bool
    requires source { IsSource model.now source }
    requires element { element < width model.now.space source.cube }
    requires dim { dim < length (axes model.now.space source.cube) }
    requires other { other < slice_index_or (sizes model.now.space source.cube) dim 0 }
    ensures { result ≡ serves_with model.now source.entry element dim other }
{
    let last = last_of(model, source.cube);
    let own = is_total(model, source.cube, last, element)
        || is_total(model, source.cube, dim, other);
    let its = gives_total(model, source, last, element) || gives_total(model, source, dim, other);
    suits(source, own, its)
}
