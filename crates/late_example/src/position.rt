ghost use Rattle.std.specs.Prelude.{◌≡◌, ◌-◌, ◌≤◌};
ghost use Rattle.rule_model.specs.Conditions.{IsPrecedent};
ghost use Rattle.rule_model.specs.Order.{most_positions};
ghost use Rattle.order_laws.specs.Earlier.{most_excess};
ghost use Rattle.ref_order.specs.Areas.{IsAreaCells};
ghost use Rattle.ref_order.specs.Known.{IsKnown};
ghost use Rattle.ref_order.specs.Reads.{precedent_of};
ghost use Rattle.late_example.specs.Inside.Narrowing.{late_from};

use ref_order::{AreaCells, Known, MAX_POSITIONS, Read, is_below, is_within, most_excess};

/// The first position, from this one on, at which what is read comes late for a cell of this kind in the area. None
/// where it is earlier.
#[cycle(late_from)]
pub fn late_from<'a>(
    cells: AreaCells,
    known: &mut Known<'a>,
    kind: bool,
    read: Read<'a>,
    place: u32,
) -> Option<u32>
    requires cells { IsAreaCells cells }
    requires known { IsKnown cells.model.now cells.cube cells.area.now known.old }
    requires read { IsPrecedent cells.model.now.space cells.cube (precedent_of read) }
    requires place { place ≤ most_positions }
    ensures late { result ≡ late_from
        (most_excess cells.entry.model.now cells.entry.cube cells.entry.area.now kind (precedent_of read.entry))
        place (most_positions - place) }
    ensures known { IsKnown cells.entry.model.now cells.entry.cube cells.entry.area.now known.new }
{
    let most = most_excess(cells, known, kind, read, place);
    if is_below(most) {
        return None;
    }
    if place < MAX_POSITIONS && is_within(most) {
        return late_from(cells, known, kind, read, place + 1);
    }
    Some(place)
}
