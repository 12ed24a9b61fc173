ghost use Rattle.std.specs.Prelude.{◌≡◌, ◌<◌, ◌^◌, length, None, slice_index_or};
ghost use Rattle.cube_space.specs.Layout.{axes, sizes};
ghost use Rattle.rule_model.specs.declared.area.Area.{Area as AnyArea};
ghost use Rattle.rule_model.specs.Conditions.{IsPrecedent};
ghost use Rattle.order_laws.specs.Greatest.{larger, only};
ghost use Rattle.order_laws.specs.Scales.{is_leaf_element, set_count, set_element};
ghost use Rattle.order_laws.specs.Earlier.{is_same};
ghost use Rattle.ref_order.specs.Areas.{IsAreaCells};
ghost use Rattle.ref_order.specs.Kinds.{AreByKinds, AreAllWithin, number_of};
ghost use Rattle.ref_order.specs.Known.{AreReads, AreRight, IsKnown, answer_of, number_asked};
ghost use Rattle.ref_order.specs.Reads.{precedent_of};

use crate::area_cells::AreaCells;
use crate::excess::numbers_from;
use crate::kinds::{ByKinds, no_kinds, with_element};
use crate::known::{Kept, Known, recalled, remember};
use crate::marks::{key_of, mark_in};
use crate::question::{Answer, Question};
use crate::scale::{axis, is_leaf_element};
use lists::ListOf;

/// How many elements a set of an area has in a dimension of this size.
pub fn count(set: &Option<ListOf<u32>>, size: u32) -> usize
    ensures { result ≡ set_count size set.now }
{
    match set {
        Some(listed) => listed.as_slice().len(),
        None => size as usize,
    }
}

/// The element at a place of a set of an area in a dimension of this size.
pub fn element_at(set: &Option<ListOf<u32>>, size: u32, k: usize) -> u32
    requires { k < set_count size set.now }
    ensures { result ≡ set_element set.now k }
{
    match set {
        Some(listed) => listed.as_slice()[k],
        None => k as u32,
    }
}

// The greatest numbers, with those of one element more.
fn with_one(cells: AreaCells, asked: Question, element: u32, best: ByKinds) -> ByKinds
    requires cube { cells.cube < length cells.model.now.space.cubes }
    requires read { IsPrecedent cells.model.now.space cells.cube (precedent_of asked.read) }
    requires dim { asked.dim < length (axes cells.model.now.space cells.cube) }
    requires element { element < slice_index_or (sizes cells.model.now.space cells.cube) asked.dim 0 }
    requires best { AreAllWithin best (2 ^ 40) }
    ensures numbers { AreByKinds result (λ here. larger
        (only (is_same here.own (is_leaf_element (axes cells.entry.model.now.space cells.entry.cube) asked.entry.dim
        element)) (number_asked cells.entry.model.now cells.entry.cube asked.entry element here.its))
        (number_of best here)) }
    ensures size { AreAllWithin result (2 ^ 40) }
{
    let leaf = is_leaf_element(cells.model, cells.cube, asked.dim, element);
    with_element(
        best,
        leaf,
        numbers_from(cells.model, cells.cube, asked, element),
    )
}

// The greatest numbers of the elements of an area in a dimension, from all of them.
fn greatest_of(cells: AreaCells, asked: Question) -> ByKinds
    requires cells { IsAreaCells cells }
    requires read { IsPrecedent cells.model.now.space cells.cube (precedent_of asked.read) }
    requires dim { asked.dim < length (axes cells.model.now.space cells.cube) }
    ensures numbers { AreByKinds result (answer_of cells.entry.model.now cells.entry.cube cells.entry.area.now
        asked.entry) }
    ensures size { AreAllWithin result (2 ^ 40) }
{
    let dim = asked.dim;
    let size = axis(cells.model, cells.cube, dim).len();
    let set = &cells.area.sets.as_slice()[dim];
    let mut best = no_kinds();
    'each: for k in 0..count(set, size) {
        best = with_one(cells, asked, element_at(set, size, k), best);
    }
    best
}

// The same by what is remembered: of this area, or of one that has the same elements of the dimension.
fn answer<'a>(cells: AreaCells, kept: &mut Kept<'a>, mark: u64, asked: Question<'a>) -> ByKinds
    requires cells { IsAreaCells cells }
    requires read { IsPrecedent cells.model.now.space cells.cube (precedent_of asked.read) }
    requires dim { asked.dim < length (axes cells.model.now.space cells.cube) }
    requires reads { AreReads cells.model.now.space cells.cube kept.old.answers.items }
    ensures numbers { (area : AnyArea) → slice_index_or area.sets asked.entry.dim None
        ≡ slice_index_or cells.entry.area.now.sets asked.entry.dim None
        → AreRight cells.entry.model.now cells.entry.cube area kept.old.answers.items
        → AreByKinds result (answer_of cells.entry.model.now cells.entry.cube area asked.entry)
        × AreAllWithin result (2 ^ 40)
        × AreRight cells.entry.model.now cells.entry.cube area kept.new.answers.items }
    ensures reads { AreReads cells.entry.model.now.space cells.entry.cube kept.new.answers.items }
{
    let key = key_of(mark, asked);
    if let Some(numbers) = recalled(cells.model, cells.cube, kept, key, asked) {
        return numbers;
    }
    let numbers = greatest_of(cells, asked);
    remember(kept, key, Answer { asked, numbers });
    numbers
}

/// The greatest numbers of the elements of an area in a dimension, by their kind and that of what is named from them.
pub fn greatest_known<'a>(cells: AreaCells, known: &mut Known<'a>, asked: Question<'a>) -> ByKinds
    requires cells { IsAreaCells cells }
    requires known { IsKnown cells.model.now cells.cube cells.area.now known.old }
    requires read { IsPrecedent cells.model.now.space cells.cube (precedent_of asked.read) }
    requires dim { asked.dim < length (axes cells.model.now.space cells.cube) }
    ensures numbers { AreByKinds result (answer_of cells.entry.model.now cells.entry.cube cells.entry.area.now
        asked.entry) }
    ensures size { AreAllWithin result (2 ^ 40) }
    ensures known { IsKnown cells.entry.model.now cells.entry.cube cells.entry.area.now known.new }
{
    let mark = mark_in(cells.model, cells.cube, asked.read, asked.dim);
    greatest_marked(cells, known, mark, asked)
}

/// The same, where what is read has this mark there.
pub fn greatest_marked<'a>(
    cells: AreaCells,
    known: &mut Known<'a>,
    mark: u64,
    asked: Question<'a>,
) -> ByKinds
    requires cells { IsAreaCells cells }
    requires known { IsKnown cells.model.now cells.cube cells.area.now known.old }
    requires read { IsPrecedent cells.model.now.space cells.cube (precedent_of asked.read) }
    requires dim { asked.dim < length (axes cells.model.now.space cells.cube) }
    ensures numbers { AreByKinds result (answer_of cells.entry.model.now cells.entry.cube cells.entry.area.now
        asked.entry) }
    ensures size { AreAllWithin result (2 ^ 40) }
    ensures known { IsKnown cells.entry.model.now cells.entry.cube cells.entry.area.now known.new }
{
    let dim = asked.dim;
    let set = &cells.area.sets.as_slice()[dim];
    match set {
        None => answer(cells, &mut known.whole, mark, asked),
        Some(_) => answer(cells, &mut known.listed, mark, asked),
    }
}
