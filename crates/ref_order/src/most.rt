ghost use Rattle.std.specs.Prelude.{◌≡◌, ◌+◌, ◌*◌, ◌≤◌, ◌^◌, ◌<◌, true, false, length, IsTrue};
ghost use Rattle.cube_space.specs.Layout.{axes, most_dimensions};
ghost use Rattle.rule_model.specs.Conditions.{IsPrecedent};
ghost use Rattle.order_laws.specs.Earlier.{of_leaf, excess_of_kinds, most_excess};
ghost use Rattle.order_laws.specs.Scales.{HasOneScale};
ghost use Rattle.order_laws.specs.Excess.{read_cube};
ghost use Rattle.ref_order.specs.Areas.{IsAreaCells, numbers_reading, ending_reading};
ghost use Rattle.ref_order.specs.Kinds.{AreNumbers, AreByKinds, AreWithin, AreAllWithin};
ghost use Rattle.ref_order.specs.Known.{IsKnown, kinds_asked};
ghost use Rattle.ref_order.specs.Reads.{precedent_of};

use crate::area_cells::AreaCells;
use crate::excess::{names_leaves, start};
use crate::greatest::greatest_marked;
use crate::kinds::{ByKinds, Numbers, number_for, sum_of_none, sums_before};
use crate::known::Known;
use crate::marks::Marks;
use crate::number::{larger, plus};
use crate::question::Question;
use crate::reads::Read;
use crate::scale::{KindScale, axis_count, kind_alike};

/// Numbers by the kind of the cell that is read.
#[derive(Clone, Copy)]
struct Readings {
    /// Of leaf cells.
    leaf: ByKinds,
    /// Of consolidated cells.
    total: ByKinds,
}

// The cube of what is read.
fn read_cube(cube: u32, read: Read) -> u32
    ensures { result ≡ read_cube cube (precedent_of read.entry) }
{
    match read {
        Read::Cell(reference) => reference.cube,
        Read::Children(_) => cube,
    }
}

// Whether leaf cells that are read have the same numbers at a position as consolidated ones.
fn reads_alike(cells: AreaCells, asked: Question) -> bool
    requires cells { IsAreaCells cells }
    requires read { IsPrecedent cells.model.now.space cells.cube (precedent_of asked.read) }
    ensures { IsTrue result → HasOneScale cells.entry.model.now
        (read_cube cells.entry.cube (precedent_of asked.entry.read)) asked.entry.place }
{
    let cube = read_cube(cells.cube, asked.read);
    kind_alike(KindScale {
        model: cells.model,
        cube,
        kind: false,
        place: asked.place,
    })
}

// The greatest numbers in a dimension, by the kind of what is read.
fn both_readings<'a>(
    cells: AreaCells,
    known: &mut Known<'a>,
    mark: u64,
    asked: Question<'a>,
) -> Readings
    requires cells { IsAreaCells cells }
    requires known { IsKnown cells.model.now cells.cube cells.area.now known.old }
    requires read { IsPrecedent cells.model.now.space cells.cube (precedent_of asked.read) }
    requires dim { asked.dim < length (axes cells.model.now.space cells.cube) }
    ensures leaf { AreByKinds result.leaf (numbers_reading cells.entry asked.entry true asked.entry.dim) }
    ensures total { AreByKinds result.total (numbers_reading cells.entry asked.entry false asked.entry.dim) }
    ensures leaf_size { AreAllWithin result.leaf (2 ^ 40) }
    ensures total_size { AreAllWithin result.total (2 ^ 40) }
    ensures known { IsKnown cells.entry.model.now cells.entry.cube cells.entry.area.now known.new }
{
    let own = kind_alike(KindScale {
        model: cells.model,
        cube: cells.cube,
        kind: asked.own,
        place: asked.place,
    });
    let of_leaves = Question {
        read: asked.read,
        place: asked.place,
        dim: asked.dim,
        own,
        its: true,
    };
    let leaf = greatest_marked(cells, known, mark, of_leaves);
    if reads_alike(cells, asked) {
        return Readings { leaf, total: leaf };
    }
    let of_totals = Question {
        read: asked.read,
        place: asked.place,
        dim: asked.dim,
        own,
        its: false,
    };
    let total = greatest_marked(cells, known, mark, of_totals);
    Readings { leaf, total }
}

// The greatest sums over so many dimensions from this one on, by the kind of what is read.
#[cycle(endings_from)]
fn endings_from<'a>(
    cells: AreaCells,
    known: &mut Known<'a>,
    marks: &Marks,
    asked: Question<'a>,
    left: usize,
) -> Readings
    requires cells { IsAreaCells cells }
    requires known { IsKnown cells.model.now cells.cube cells.area.now known.old }
    requires read { IsPrecedent cells.model.now.space cells.cube (precedent_of asked.read) }
    requires few { length (axes cells.model.now.space cells.cube) ≤ most_dimensions }
    requires dim { asked.dim + left ≡ length (axes cells.model.now.space cells.cube) }
    ensures leaf { AreByKinds result.leaf (ending_reading cells.entry asked.entry true left) }
    ensures total { AreByKinds result.total (ending_reading cells.entry asked.entry false left) }
    ensures leaf_size { AreAllWithin result.leaf (left * 2 ^ 40) }
    ensures total_size { AreAllWithin result.total (left * 2 ^ 40) }
    ensures known { IsKnown cells.entry.model.now cells.entry.cube cells.entry.area.now known.new }
{
    if left == 0 {
        return Readings {
            leaf: sum_of_none(asked.own, true),
            total: sum_of_none(asked.own, false),
        };
    }
    let next = Question {
        read: asked.read,
        place: asked.place,
        dim: asked.dim + 1,
        own: asked.own,
        its: asked.its,
    };
    let rest = endings_from(cells, known, marks, next, left - 1);
    let here = both_readings(cells, known, marks.at(asked.dim), asked);
    Readings {
        leaf: sums_before(here.leaf, rest.leaf),
        total: sums_before(here.total, rest.total),
    }
}

// The most that a cell that is read has more than its cell, where both are of these kinds, by the greatest sums over
// all dimensions.
fn excess_reading(cells: AreaCells, asked: Question, sums: Numbers) -> Option<i64>
    requires cells { IsAreaCells cells }
    requires read { IsPrecedent cells.model.now.space cells.cube (precedent_of asked.read) }
    requires dim { asked.dim ≡ 0 }
    requires sums { AreNumbers sums (λ its. ending_reading cells asked asked.its
        (length (axes cells.model.now.space cells.cube)) (of_leaf its)) }
    requires size { AreWithin sums (2 ^ 50) }
    ensures { result ≡ excess_of_kinds cells.entry.model.now cells.entry.cube cells.entry.area.now
        (kinds_asked asked.entry) (precedent_of asked.entry.read) asked.entry.place }
{
    let start = start(cells.model, cells.cube, asked);
    let leaves = names_leaves(cells.model, cells.cube, asked.read);
    plus(start, number_for(sums, leaves))
}

/// The most that a cell that is read has more than its cell, over the cells of an area of this kind, at a position or
/// as their level.
pub fn most_excess<'a>(
    cells: AreaCells,
    known: &mut Known<'a>,
    kind: bool,
    read: Read<'a>,
    place: u32,
) -> Option<i64>
    requires cells { IsAreaCells cells }
    requires known { IsKnown cells.model.now cells.cube cells.area.now known.old }
    requires read { IsPrecedent cells.model.now.space cells.cube (precedent_of read) }
    ensures most { result ≡ most_excess cells.entry.model.now cells.entry.cube cells.entry.area.now kind
        (precedent_of read.entry) place }
    ensures known { IsKnown cells.entry.model.now cells.entry.cube cells.entry.area.now known.new }
{
    let marks = Marks::of_read(cells.model, cells.cube, read);
    marked_excess(cells, known, &marks, kind, read, place)
}

/// The same, where what is read has these marks.
#[tactic(auto, unfolding(order_laws::specs::Earlier::most_excess))]
pub fn marked_excess<'a>(
    cells: AreaCells,
    known: &mut Known<'a>,
    marks: &Marks,
    kind: bool,
    read: Read<'a>,
    place: u32,
) -> Option<i64>
    requires cells { IsAreaCells cells }
    requires known { IsKnown cells.model.now cells.cube cells.area.now known.old }
    requires read { IsPrecedent cells.model.now.space cells.cube (precedent_of read) }
    ensures most { result ≡ most_excess cells.entry.model.now cells.entry.cube cells.entry.area.now kind
        (precedent_of read.entry) place }
    ensures known { IsKnown cells.entry.model.now cells.entry.cube cells.entry.area.now known.new }
{
    let of_leaves = Question {
        read,
        place,
        dim: 0,
        own: kind,
        its: true,
    };
    let of_totals = Question {
        read,
        place,
        dim: 0,
        own: kind,
        its: false,
    };
    let count = axis_count(cells.model, cells.cube);
    let sums = endings_from(cells, known, marks, of_leaves, count);
    larger(
        excess_reading(cells, of_leaves, sums.leaf.leaf),
        excess_reading(cells, of_totals, sums.total.leaf),
    )
}
