ghost use Rattle.std.specs.Prelude.{◌≡◌, ◌-◌, ◌<◌, ◌≤◌, true, false, length, slice_index_or, IfOk};
ghost use Rattle.cube_space.specs.Layout.{axes, sizes};
ghost use Rattle.rule_model.specs.Conditions.{IsPrecedent};
ghost use Rattle.rule_model.specs.Order.{most_positions};
ghost use Rattle.order_laws.specs.Scales.{set_count};
ghost use Rattle.ref_order.specs.Areas.{IsAreaCells};
ghost use Rattle.ref_order.specs.Known.{IsKnown, IsKnownOf};
ghost use Rattle.ref_order.specs.Reads.{precedent_of};
ghost use Rattle.late_example.specs.Inside.Narrowing.{is_sought, narrowed, set_at, IsFirstPlace, IsWithFirst};
ghost use Rattle.late_example.specs.Inside.Narrowing.{IsNarrowed};

use crate::narrowing::{copy, narrowed};
use ref_order::{
    AreaCells, Known, MAX_POSITIONS, Read, axis, axis_count, count, is_below, is_within,
    most_excess,
};
use rule_model::Area;
use std::alloc::{AllocError, Global};

/// What is read for cells of a kind, and the position at which it comes late for one of them.
#[derive(Clone, Copy)]
pub struct Sought<'a> {
    pub kind: bool,
    pub read: Read<'a>,
    pub position: u32,
}

/// The area of the first cell alone for which what is read comes late.
pub fn first_late<'a>(
    alloc: Global,
    cells: AreaCells,
    sought: Sought<'a>,
) -> Result<Area, AllocError>
    requires cells { IsAreaCells cells }
    requires read { IsPrecedent cells.model.now.space cells.cube (precedent_of sought.read) }
    requires position { sought.position ≤ most_positions }
    requires late { is_sought cells.model.now cells.cube cells.area.now sought ≡ true }
    ensures { IfOk result (IsNarrowed cells.entry.model.now cells.entry.cube cells.entry.area.now sought.entry
        (length (axes cells.entry.model.now.space cells.entry.cube))) }
{
    let model = cells.model;
    let cube = cells.cube;
    // a model says of itself that it is one
    let _space = model.space();
    let mut known = Known::none(alloc);
    let mut narrow = copy(alloc, cells.area)?;
    'each: for dim in 0..axis_count(model, cube) {
        let within = AreaCells {
            model,
            cube,
            area: &narrow,
        };
        narrow = with_first(alloc, within, &mut known, sought, dim)?;
    }
    Ok(narrow)
}

// The same area with one element alone in a dimension: the first with which what is read still comes late.
fn with_first<'a>(
    alloc: Global,
    cells: AreaCells,
    known: &mut Known<'a>,
    sought: Sought<'a>,
    dim: usize,
) -> Result<Area, AllocError>
    requires cells { IsAreaCells cells }
    requires known { IsKnownOf cells.model.now cells.cube known.old }
    requires read { IsPrecedent cells.model.now.space cells.cube (precedent_of sought.read) }
    requires position { sought.position ≤ most_positions }
    requires dim { dim < length (axes cells.model.now.space cells.cube) }
    requires late { is_sought cells.model.now cells.cube cells.area.now sought ≡ true }
    ensures first { IfOk result (IsWithFirst cells.entry.model.now cells.entry.cube cells.entry.area.now sought.entry
        dim) }
    ensures known { IsKnownOf cells.entry.model.now cells.entry.cube known.new }
{
    let _space = cells.model.space();
    let size = axis(cells.model, cells.cube, dim).len();
    let end = count(&cells.area.sets.as_slice()[dim], size);
    let place = first_place(alloc, cells, known, sought, dim, 0, end)?;
    narrowed(alloc, cells.area, dim, size, place, place + 1)
}

// The place of that element: it stands from `low` on and before `high`.
#[cycle(first_place)]
fn first_place<'a>(
    alloc: Global,
    cells: AreaCells,
    known: &mut Known<'a>,
    sought: Sought<'a>,
    dim: usize,
    low: usize,
    high: usize,
) -> Result<usize, AllocError>
    requires cells { IsAreaCells cells }
    requires known { IsKnownOf cells.model.now cells.cube known.old }
    requires read { IsPrecedent cells.model.now.space cells.cube (precedent_of sought.read) }
    requires position { sought.position ≤ most_positions }
    requires dim { dim < length (axes cells.model.now.space cells.cube) }
    requires between { low < high }
    requires high { high ≤ set_count (slice_index_or (sizes cells.model.now.space cells.cube) dim 0)
        (set_at cells.area.now dim) }
    requires none { is_sought cells.model.now cells.cube (narrowed cells.area.now dim 0 low) sought ≡ false }
    requires some { is_sought cells.model.now cells.cube (narrowed cells.area.now dim 0 high) sought ≡ true }
    ensures first { IfOk result (IsFirstPlace cells.entry.model.now cells.entry.cube cells.entry.area.now sought.entry
        dim) }
    ensures known { IsKnownOf cells.entry.model.now cells.entry.cube known.new }
{
    let _space = cells.model.space();
    let width = high - low;
    if width == 1 {
        return Ok(low);
    }
    let middle = low + width / 2;
    if comes_late_before(alloc, cells, known, sought, dim, middle)? {
        first_place(alloc, cells, known, sought, dim, low, middle)
    } else {
        first_place(alloc, cells, known, sought, dim, middle, high)
    }
}

// Whether what is read comes late for a cell whose element stands before a place of the set.
fn comes_late_before<'a>(
    alloc: Global,
    cells: AreaCells,
    known: &mut Known<'a>,
    sought: Sought<'a>,
    dim: usize,
    end: usize,
) -> Result<bool, AllocError>
    requires cells { IsAreaCells cells }
    requires known { IsKnownOf cells.model.now cells.cube known.old }
    requires read { IsPrecedent cells.model.now.space cells.cube (precedent_of sought.read) }
    requires dim { dim < length (axes cells.model.now.space cells.cube) }
    requires end { end ≤ set_count (slice_index_or (sizes cells.model.now.space cells.cube) dim 0)
        (set_at cells.area.now dim) }
    ensures late { IfOk result (λ late. late ≡ is_sought cells.entry.model.now cells.entry.cube
        (narrowed cells.entry.area.now dim 0 end) sought.entry) }
    ensures known { IsKnownOf cells.entry.model.now cells.entry.cube known.new }
{
    let size = axis(cells.model, cells.cube, dim).len();
    let area = narrowed(alloc, cells.area, dim, size, 0, end)?;
    let narrow = AreaCells {
        model: cells.model,
        cube: cells.cube,
        area: &area,
    };
    known.begin();
    Ok(is_sought(narrow, known, sought))
}

// Whether what is read comes late for a cell of an area.
fn is_sought<'a>(cells: AreaCells, known: &mut Known<'a>, sought: Sought<'a>) -> bool
    requires cells { IsAreaCells cells }
    requires known { IsKnown cells.model.now cells.cube cells.area.now known.old }
    requires read { IsPrecedent cells.model.now.space cells.cube (precedent_of sought.read) }
    ensures late { result ≡ is_sought cells.entry.model.now cells.entry.cube cells.entry.area.now sought.entry }
    ensures known { IsKnown cells.entry.model.now cells.entry.cube cells.entry.area.now known.new }
{
    let most = most_excess(cells, known, sought.kind, sought.read, sought.position);
    if sought.position < MAX_POSITIONS {
        !is_within(most)
    } else {
        !is_below(most)
    }
}
