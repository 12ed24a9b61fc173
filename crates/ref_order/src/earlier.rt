ghost use Rattle.std.specs.Prelude.{◌≡◌, ◌-◌, ◌≤◌};
ghost use Rattle.rule_model.specs.Conditions.{IsPrecedent};
ghost use Rattle.rule_model.specs.Order.{most_positions};
ghost use Rattle.order_laws.specs.Earlier.{most_excess, earlier_from, is_earlier};
ghost use Rattle.ref_order.specs.Areas.{IsAreaCells};
ghost use Rattle.ref_order.specs.Known.{IsKnown};
ghost use Rattle.ref_order.specs.Reads.{precedent_of};

use crate::area_cells::AreaCells;
use crate::known::Known;
use crate::marks::Marks;
use crate::most::marked_excess;
use crate::number::{is_below, is_within};
use crate::reads::Read;
use crate::scale::MAX_POSITIONS;

/// Whether what is read stands before each cell of this kind in an area of a cube, `true` for leaf cells. What is known
/// is not worked out again.
#[tactic(auto, unfolding(order_laws::specs::Earlier::is_earlier))]
pub fn is_earlier<'a>(cells: AreaCells, known: &mut Known<'a>, kind: bool, read: Read<'a>) -> bool
    requires cells { IsAreaCells cells }
    requires known { IsKnown cells.model.now cells.cube cells.area.now known.old }
    requires read { IsPrecedent cells.model.now.space cells.cube (precedent_of read) }
    ensures earlier { result ≡ is_earlier cells.entry.model.now cells.entry.cube cells.entry.area.now kind
        (precedent_of read.entry) }
    ensures known { IsKnown cells.entry.model.now cells.entry.cube cells.entry.area.now known.new }
{
    let marks = Marks::of_read(cells.model, cells.cube, read);
    earlier_from(cells, known, &marks, kind, read, 0)
}

// The same by the positions from this one on.
#[cycle(earlier_from)]
fn earlier_from<'a>(
    cells: AreaCells,
    known: &mut Known<'a>,
    marks: &Marks,
    kind: bool,
    read: Read<'a>,
    place: u32,
) -> bool
    requires cells { IsAreaCells cells }
    requires known { IsKnown cells.model.now cells.cube cells.area.now known.old }
    requires read { IsPrecedent cells.model.now.space cells.cube (precedent_of read) }
    requires place { place ≤ most_positions }
    ensures earlier { result ≡ earlier_from
        (most_excess cells.entry.model.now cells.entry.cube cells.entry.area.now kind (precedent_of read.entry))
        (most_excess cells.entry.model.now cells.entry.cube cells.entry.area.now kind (precedent_of read.entry)
        most_positions) place (most_positions - place) }
    ensures known { IsKnown cells.entry.model.now cells.entry.cube cells.entry.area.now known.new }
{
    let most = marked_excess(cells, known, marks, kind, read, place);
    if place == MAX_POSITIONS {
        return is_below(most);
    }
    is_below(most) || (is_within(most) && earlier_from(cells, known, marks, kind, read, place + 1))
}
