ghost use Rattle.std.specs.Prelude.{◌≡◌, suc, ◌<◌, ◌≤◌, ◌^◌, ◌++◌, All, length, map, OnOk};
ghost use Rattle.rule_model.specs.Conditions.{IsArea};
ghost use Rattle.ref_order.specs.Areas.{IsAreaCells};
ghost use Rattle.ref_order.specs.Known.{IsKnown};
ghost use Rattle.rule_notes.specs.Inside.Named.{are_cells, nameless, nameless_among, counted_view, IsReadOf};
ghost use Rattle.rule_notes.specs.Inside.Views.{IsView};

use crate::counted::CountedRead;
use crate::cube_view::CubeView;
use crate::named::{HasCells, has_cells, names_nothing};
use crate::note::Note;
use ref_order::{AreaCells, Known};
use rule_model::Area;
use std::alloc::AllocError;

/// Adds the notes of these references of the statement at a place, which has this area.
pub fn add_nameless<'a>(
    view: CubeView<'a>,
    place: u32,
    area: &Area,
    reads: &[CountedRead<'a>],
    known: &mut Known<'a>,
    notes: &mut Vec<Note>,
) -> Result<(), AllocError>
    requires view { IsView view }
    requires place { suc place < 2 ^ 32 }
    requires area { IsArea view.model.now.space view.cube area.now }
    requires reads { All (IsReadOf view.model.now.space view.cube) (map counted_view reads.now) }
    requires few { length reads.now < 2 ^ 32 }
    requires known { IsKnown view.model.now view.cube area.now known.old }
    ensures notes { OnOk result (notes.new.items ≡ notes.old.items ++ nameless_among view.entry.model.now
        view.entry.cube place area.now (map counted_view reads.now)) }
    ensures known { OnOk result (IsKnown view.entry.model.now view.entry.cube area.now known.new) }
{
    let cells = AreaCells {
        model: view.model,
        cube: view.cube,
        area,
    };
    let has = has_cells(cells, known, view.own);
    'each: for k in 0..reads.len() {
        add_one(cells, has, place, k as u32, reads[k], known, notes)?;
    }
    Ok(())
}

// Adds the note of one, if it names nothing.
fn add_one<'a>(
    cells: AreaCells,
    has: HasCells,
    place: u32,
    k: u32,
    read: CountedRead<'a>,
    known: &mut Known<'a>,
    notes: &mut Vec<Note>,
) -> Result<(), AllocError>
    requires cells { IsAreaCells cells }
    requires has { has ≡ are_cells cells.model.now cells.cube cells.area.now }
    requires place { suc place < 2 ^ 32 }
    requires k { suc k < 2 ^ 32 }
    requires read { IsReadOf cells.model.now.space cells.cube (counted_view read) }
    requires known { IsKnown cells.model.now cells.cube cells.area.now known.old }
    ensures notes { OnOk result (notes.new.items ≡ notes.old.items ++ nameless cells.entry.model.now cells.entry.cube
        place cells.entry.area.now k (counted_view read.entry)) }
    ensures known { OnOk result (IsKnown cells.entry.model.now cells.entry.cube cells.entry.area.now known.new) }
{
    if names_nothing(cells, known, has, read) {
        notes.push(Note::NamesNothing {
            cube: cells.cube,
            statement: place + 1,
            reference: k + 1,
        })?;
    }
    Ok(())
}
