ghost use Rattle.std.specs.Prelude.{◌≡◌, option_map};
ghost use Rattle.rule_model.specs.Conditions.{IsPrecedent, IsReference};
ghost use Rattle.ref_order.specs.Areas.{IsAreaCells};
ghost use Rattle.ref_order.specs.Known.{IsKnown};
ghost use Rattle.ref_order.specs.Reads.{precedent_of};
ghost use Rattle.rule_notes.specs.Inside.Named.{own_reference, names_some, has_cells, are_cells, is_for, names};
ghost use Rattle.rule_notes.specs.Inside.Named.{names_nothing, counted_view, IsReadOf, IsReadFor};

use crate::counted::CountedRead;
use ref_order::{AreaCells, Known, MAX_POSITIONS, Read, most_excess};
use rule_laws::Reference;

/// Whether an area has cells, by their kind.
#[derive(Clone, Copy)]
pub struct HasCells {
    /// Leaf cells.
    pub leaf: bool,
    /// Consolidated cells.
    pub cons: bool,
}

// Whether a reference names a cell from some cell of this kind in an area.
fn names_some<'a>(
    cells: AreaCells,
    known: &mut Known<'a>,
    kind: bool,
    reference: &'a Reference,
) -> bool
    requires cells { IsAreaCells cells }
    requires known { IsKnown cells.model.now cells.cube cells.area.now known.old }
    requires reference { IsReference cells.model.now.space cells.cube reference.now }
    ensures names { result ≡ names_some cells.entry.model.now cells.entry.cube cells.entry.area.now kind
        reference.now }
    ensures known { IsKnown cells.entry.model.now cells.entry.cube cells.entry.area.now known.new }
{
    most_excess(cells, known, kind, Read::Cell(reference), MAX_POSITIONS).is_some()
}

/// Whether an area has cells of each kind, by the reference by which each cell of its cube names itself.
pub fn has_cells<'a>(cells: AreaCells, known: &mut Known<'a>, own: &'a Reference) -> HasCells
    requires cells { IsAreaCells cells }
    requires known { IsKnown cells.model.now cells.cube cells.area.now known.old }
    requires own { own.now ≡ own_reference cells.model.now.space cells.cube }
    ensures has { result ≡ are_cells cells.entry.model.now cells.entry.cube cells.entry.area.now }
    ensures known { IsKnown cells.entry.model.now cells.entry.cube cells.entry.area.now known.new }
{
    let leaf = names_some(cells, known, true, own);
    let cons = names_some(cells, known, false, own);
    HasCells { leaf, cons }
}

// Whether what is read for cells of a kind is by a reference, where there are such cells.
fn is_for(has: bool, read: Option<Read>) -> bool
    ensures { result ≡ is_for has (option_map precedent_of read.entry) }
{
    match read {
        Some(Read::Cell(_)) => has,
        Some(Read::Children(_)) => false,
        None => false,
    }
}

// Whether it names a cell from some of them.
fn names<'a>(cells: AreaCells, known: &mut Known<'a>, kind: bool, read: Option<Read<'a>>) -> bool
    requires cells { IsAreaCells cells }
    requires known { IsKnown cells.model.now cells.cube cells.area.now known.old }
    requires read { IsReadFor cells.model.now.space cells.cube (option_map precedent_of read) }
    ensures names { result ≡ names cells.entry.model.now cells.entry.cube cells.entry.area.now kind
        (option_map precedent_of read.entry) }
    ensures known { IsKnown cells.entry.model.now cells.entry.cube cells.entry.area.now known.new }
{
    match read {
        Some(Read::Cell(reference)) => names_some(cells, known, kind, reference),
        Some(Read::Children(_)) => false,
        None => false,
    }
}

/// Whether a reference is for some cells of an area, and names a cell from none of them.
pub fn names_nothing<'a>(
    cells: AreaCells,
    known: &mut Known<'a>,
    has: HasCells,
    read: CountedRead<'a>,
) -> bool
    requires cells { IsAreaCells cells }
    requires known { IsKnown cells.model.now cells.cube cells.area.now known.old }
    requires has { has ≡ are_cells cells.model.now cells.cube cells.area.now }
    requires read { IsReadOf cells.model.now.space cells.cube (counted_view read) }
    ensures nothing { result ≡ names_nothing cells.entry.model.now cells.entry.cube cells.entry.area.now
        (counted_view read.entry) }
    ensures known { IsKnown cells.entry.model.now cells.entry.cube cells.entry.area.now known.new }
{
    let asked = is_for(has.leaf, read.leaf) || is_for(has.cons, read.cons);
    if !asked {
        return false;
    }
    if names(cells, known, true, read.leaf) {
        return false;
    }
    !names(cells, known, false, read.cons)
}
