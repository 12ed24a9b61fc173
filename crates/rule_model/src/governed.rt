ghost use Rattle.std.specs.Prelude.{◌≡◌, ℕ, suc, ◌<◌, length, true, is_some, Some, IfSome};
ghost use Rattle.std.specs.Option.{option_copied};
ghost use Rattle.cube_space.specs.Cells.{IsCell, is_place, cube_of, elements_of, is_leaf_cell};
ghost use Rattle.rule_model.specs.BoundModel.{rules_of};
ghost use Rattle.rule_model.specs.Governing.{governing_from, formula_at};

use crate::model::Model;
use crate::parts::{first_part, part_of_kind};
use crate::places::place_of;
use cube_space::MAX_DIMENSIONS;
use rule_laws::Formula;

/// The statement that governs a cell, by its place among those of the cell's cube: the first that has the cell in its
/// area and a part for cells of its kind. None where no statement governs it.
pub fn governing(model: &Model, cell: u64) -> Option<u32>
    requires { IsCell model.now.space cell }
    ensures value { result ≡ governing_from model.now cell 0 }
    ensures within { IfSome result
        (λ place. place < length (rules_of model.now (cube_of model.now.space cell)).statements) }
{
    governing_from(model, cell, 0)
}

/// The next statement after this one that has a part for a cell, which `CONTINUE` goes on with.
pub fn governing_after(model: &Model, cell: u64, statement: u32) -> Option<u32>
    requires { IsCell model.now.space cell }
    ensures value { result ≡ governing_from model.now cell (suc statement) }
    ensures within { IfSome result
        (λ place. place < length (rules_of model.now (cube_of model.now.space cell)).statements) }
{
    governing_from(model, cell, statement as usize + 1)
}

// The first statement from a place on that has a part for a cell.
fn governing_from(model: &Model, cell: u64, from: usize) -> Option<u32>
    requires { IsCell model.now.space cell }
    ensures value { result ≡ governing_from model.now cell from }
    ensures within { IfSome result
        (λ place. place < length (rules_of model.now (cube_of model.now.space cell)).statements) }
{
    let mut at = [0u32; MAX_DIMENSIONS];
    let (cube, len) = place_of(model, cell, &mut at);
    let is_leaf = model.space().is_leaf(cell);
    governing_in(model, cube, &at[..len], is_leaf, from)
}

/// The first statement from a place on that has a part for a cell, told of the cell by its cube, its elements, and
/// whether it is a leaf cell.
pub fn governing_in(
    model: &Model,
    cube: u32,
    elements: &[u32],
    is_leaf: bool,
    from: usize,
) -> Option<u32>
    requires { is_place model.now.space cube elements.now ≡ true }
    ensures value { (cell : ℕ) → cube_of model.now.space cell ≡ cube → elements_of model.now.space cell ≡ elements.now
        → is_leaf_cell model.now.space cell ≡ is_leaf → result ≡ governing_from model.now cell from }
    ensures within { IfSome result (λ place. place < length (rules_of model.now cube).statements) }
{
    // the space says what its rules keep
    let _space = model.space();
    first_part(
        model.rules(cube).statements.as_slice(),
        elements,
        is_leaf,
        from,
    )
}

/// The formula that a statement of a cube has for leaf cells or for consolidated ones. Of a statement that governs a
/// cell, alone or after others, it is the one that gives the cell its value.
pub fn part_of(model: &Model, cube: u32, statement: u32, is_leaf: bool) -> Option<&Formula>
    requires cube { cube < length model.now.space.cubes }
    requires statement { statement < length (rules_of model.now cube).statements }
    ensures value { (cell from : ℕ) → cube_of model.now.space cell ≡ cube
        → is_leaf_cell model.now.space cell ≡ is_leaf → governing_from model.now cell from ≡ Some statement
        → option_copied result ≡ formula_at model.now cell statement }
    ensures there { (cell from : ℕ) → cube_of model.now.space cell ≡ cube
        → is_leaf_cell model.now.space cell ≡ is_leaf → governing_from model.now cell from ≡ Some statement
        → is_some result ≡ true }
{
    let statement = &model.rules(cube).statements.as_slice()[statement as usize];
    part_of_kind(statement, is_leaf)
}
