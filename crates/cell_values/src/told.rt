ghost use Rattle.std.specs.Prelude.{◌≡◌, None, Some, IfSome, MatchOption};
ghost use Rattle.cell_values.specs.Reading.{value_on};
ghost use Rattle.cell_values.specs.Inside.Origins.{IsOrigin};
ghost use Rattle.cell_store.specs.Entries.{cells_of};
ghost use Rattle.cube_space.specs.Cells.{IsCell, is_leaf_cell};
ghost use Rattle.dim_order.specs.Members.{is_among};
ghost use Rattle.rule_model.specs.Governing.{formula_at, governing_from};
ghost use Rattle.sparse_sum.specs.Live.{is_live};

use crate::origin::Origin;
use crate::sound::is_sound;
use cell_store::CellSet;
use cell_versions::Version;
use cube_fixed::Value;
use cube_space::MAX_DIMENSIONS;
use rule_laws::Formula;
use rule_model::{Model, governing_in, part_of, place_of};

/// Where the value of a cell comes from.
pub(crate) fn origin_of(version: &Version, cell: u64) -> Origin
    requires { IsCell version.now.model.space cell }
    ensures { IsOrigin version.now cell result }
{
    is_sound(version);
    let model = version.model();
    let is_leaf = model.space().is_leaf(cell);
    match governing_part(model, cell, is_leaf) {
        Some((statement, part)) => governed_origin(version, cell, statement, part, is_leaf),
        None => {
            if is_leaf {
                Origin::Stored(Value::Num(version.store().get(cell)))
            } else {
                Origin::Leaves
            }
        }
    }
}

// Where the value of a cell comes from that this statement governs, with this formula.
fn governed_origin(
    version: &Version,
    cell: u64,
    statement: u32,
    part: &Formula,
    is_leaf: bool,
) -> Origin
    requires cell { IsCell version.now.model.space cell }
    requires leaf { is_leaf_cell version.now.model.space cell ≡ is_leaf }
    requires governs { governing_from version.now.model cell 0 ≡ Some statement }
    requires part { formula_at version.now.model cell statement ≡ Some part.now }
    ensures { IsOrigin version.now cell result }
{
    is_sound(version);
    if let Formula::Number(number) = part {
        return Origin::Plain(Value::Num(*number));
    }
    if is_leaf && !is_live(version, cell) {
        return Origin::Plain(Value::ZERO);
    }
    Origin::Statement(statement)
}

/// The value of a cell that takes no work: of a leaf cell that no statement governs, or that is neither stored nor fed,
/// or of a cell that its statement gives a number alone. None of any other.
pub(crate) fn told(version: &Version, cell: u64) -> Option<Value>
    requires { IsCell version.now.model.space cell }
    ensures { IfSome result (λ v. v ≡ value_on version.now cell) }
{
    match origin_of(version, cell) {
        Origin::Stored(value) => Some(value),
        Origin::Plain(value) => Some(value),
        _ => None,
    }
}

// Whether a cell is stored or fed.
fn is_live(version: &Version, cell: u64) -> bool
    ensures { result ≡ is_live (cells_of version.now.stored) version.now.fed cell }
{
    has(version.store(), cell) || has(version.fed(), cell)
}

fn has<W: CellSet>(set: &W, cell: u64) -> bool
    ensures { result ≡ is_among (W.cells set.now) cell }
{
    set.has(cell)
}

/// The statement that governs a cell, a leaf cell or not.
pub(crate) fn governing(model: &Model, cell: u64, is_leaf: bool) -> Option<u32>
    requires cell { IsCell model.now.space cell }
    requires leaf { is_leaf_cell model.now.space cell ≡ is_leaf }
    ensures { result ≡ governing_from model.now cell 0 }
{
    let mut at = [0u32; MAX_DIMENSIONS];
    let (cube, len) = place_of(model, cell, &mut at);
    governing_in(model, cube, &at[..len], is_leaf, 0)
}

// The statement that governs a cell, a leaf cell or not, with the formula that it has for the cell.
fn governing_part(model: &Model, cell: u64, is_leaf: bool) -> Option<(u32, &Formula)>
    requires cell { IsCell model.now.space cell }
    requires leaf { is_leaf_cell model.now.space cell ≡ is_leaf }
    ensures { MatchOption result (governing_from model.now cell 0 ≡ None)
        (λ found. (governing_from model.now cell 0 ≡ Some found.0)
        × (formula_at model.now cell found.0 ≡ Some found.1.now)) }
{
    let mut at = [0u32; MAX_DIMENSIONS];
    let (cube, len) = place_of(model, cell, &mut at);
    match governing_in(model, cube, &at[..len], is_leaf, 0) {
        Some(place) => match part_of(model, cube, place, is_leaf) {
            Some(part) => Some((place, part)),
            None => None,
        },
        None => None,
    }
}
