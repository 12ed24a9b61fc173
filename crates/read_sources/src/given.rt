ghost use Rattle.std.specs.Prelude.{◌≡◌, ◌+◌, ◌<◌, ◌↔◌, IsTrue, false, length};
ghost use Rattle.cube_space.specs.Layout.{axes};
ghost use Rattle.arrow_laws.specs.ByDimension.{admits, HasEach};
ghost use Rattle.ref_order.specs.Known.{IsKnown};
ghost use Rattle.read_sources.specs.Ways.{IsSource, asked, choice, meets, reads_from, suits};
ghost use Rattle.read_sources.specs.Sources.{IsGiven};
ghost use Rattle.read_sources.specs.Giving.{AreKindsIn, has_admitted, given_by, has_one, merged, below};

use crate::source::{Given, Source};
use ref_order::{AreaCells, ByKinds, Known, Numbers, Question, axis_count, greatest_known};
use rule_model::Model;

/// Two dimensions, or places behind all of them.
#[derive(Clone, Copy)]
pub struct Beside {
    pub one: usize,
    pub other: usize,
}

/// Nothing.
pub fn gives_nothing() -> Given
    ensures { result ≡ record { own = false; its = false; both = false } }
{
    Given {
        own: false,
        its: false,
        both: false,
    }
}

// What is given by both together.
fn merged(one: Given, other: Given) -> Given
    ensures { result ≡ merged one other }
{
    let crossed = (one.own && other.its) || (one.its && other.own);
    Given {
        own: one.own || other.own,
        its: one.its || other.its,
        both: one.both || (other.both || crossed),
    }
}

// Whether this gives a consolidated element, and one from which a consolidated element is named, where that is wanted.
fn meets(given: Given, own: bool, its: bool) -> bool
    ensures { result ≡ meets given (record { own = own; its = its }) }
{
    match (own, its) {
        (true, true) => given.both,
        (true, false) => given.own,
        (false, true) => given.its,
        _ => true,
    }
}

/// Whether elements that give, or don't give, a consolidated element, and one from which one is named that is meant,
/// may be those of a cell from which a source reads.
pub fn suits(source: Source, own: bool, its: bool) -> bool
    ensures { result ≡ suits source.entry own its }
{
    meets(source.elsewhere, !source.kind && !own, source.asks && !its)
}

/// Whether what is named may be what the cells have that a source means: leaf cells have leaves alone.
pub fn admits(its: Option<bool>, leaves: bool) -> bool
    ensures { result ≡ admits its leaves }
{
    match its {
        Some(true) => leaves,
        _ => true,
    }
}

// The elements of a dimension from which is read, by their kind and that of what is named from them. What is asked was
// asked for the lag, so it is remembered.
fn kinds_in<'a>(model: &'a Model, known: &mut Known<'a>, source: Source<'a>, dim: usize) -> ByKinds
    requires source { IsSource model.now source }
    requires known { IsKnown model.now source.cube source.area.now known.old }
    requires dim { dim < length (axes model.now.space source.cube) }
    ensures kinds { AreKindsIn model.now source.entry dim result }
    ensures known { IsKnown model.now source.entry.cube source.entry.area.now known.new }
{
    let (cube, area) = (source.cube, source.area);
    let cells = AreaCells { model, cube, area };
    let asked = Question {
        read: source.read,
        place: 0,
        dim,
        own: source.kind,
        its: true,
    };
    greatest_known(cells, known, asked)
}

// Whether there is an element of one kind that names what the source means.
fn has_admitted(its: Option<bool>, numbers: Numbers) -> bool
    ensures { result ≡ has_admitted its numbers }
{
    numbers.leaf.is_some() || (admits(its, false) && numbers.total.is_some())
}

// What a dimension with these elements gives.
fn given_by(source: Source, kinds: ByKinds) -> Given
    ensures { result ≡ given_by source.entry kinds }
{
    let both = !source.kind && kinds.total.total.is_some();
    Given {
        own: !source.kind && has_admitted(source.its, kinds.total),
        its: source.asks && (kinds.leaf.total.is_some() || both),
        both: source.asks && both,
    }
}

// Whether a cell from which a source reads may have one of these elements.
fn has_one(source: Source, kinds: ByKinds) -> bool
    ensures { result ≡ has_one source.entry kinds }
{
    has_admitted(source.its, kinds.leaf) || (!source.kind && has_admitted(source.its, kinds.total))
}

// What the dimensions so far give, with one dimension more, unless it is one of these two.
fn given_with<'a>(
    model: &'a Model,
    known: &mut Known<'a>,
    source: Source<'a>,
    beside: Beside,
    dim: usize,
    given: Given,
) -> Given
    requires source { IsSource model.now source }
    requires known { IsKnown model.now source.cube source.area.now known.old }
    requires dim { dim < length (axes model.now.space source.cube) }
    requires given { IsGiven (below (choice model.now source) dim) beside.one beside.other (asked source) given }
    ensures given { IsGiven (below (choice model.now source.entry) (dim + 1)) beside.one beside.other
        (asked source.entry) result }
    ensures known { IsKnown model.now source.entry.cube source.entry.area.now known.new }
{
    if dim == beside.one {
        return given;
    }
    if dim == beside.other {
        return given;
    }
    let kinds = kinds_in(model, known, source, dim);
    merged(given, given_by(source, kinds))
}

/// What the dimensions other than these two give of what a source asks.
pub fn given_beside<'a>(
    model: &'a Model,
    known: &mut Known<'a>,
    source: Source<'a>,
    beside: Beside,
) -> Given
    requires source { IsSource model.now source }
    requires known { IsKnown model.now source.cube source.area.now known.old }
    ensures given { IsGiven (choice model.now source.entry) beside.one beside.other (asked source.entry) result }
    ensures known { IsKnown model.now source.entry.cube source.entry.area.now known.new }
{
    let mut given = gives_nothing();
    'each: for dim in 0..axis_count(model, source.cube) {
        given = given_with(model, known, source, beside, dim, given);
    }
    given
}

/// Whether each dimension has an element that a cell from which a source reads may have.
pub fn has_each<'a>(model: &'a Model, known: &mut Known<'a>, source: Source<'a>) -> bool
    requires source { IsSource model.now source }
    requires known { IsKnown model.now source.cube source.area.now known.old }
    ensures each { IsTrue result ↔ HasEach (reads_from model.now source.entry)
        (length (axes model.now.space source.entry.cube)) }
    ensures known { IsKnown model.now source.entry.cube source.entry.area.now known.new }
{
    'each: for dim in 0..axis_count(model, source.cube) {
        let kinds = kinds_in(model, known, source, dim);
        if !has_one(source, kinds) {
            return false;
        }
    }
    true
}
