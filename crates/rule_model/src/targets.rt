ghost use Rattle.std.specs.Prelude.{◌≡◌, ℕ, ◌≤◌, true, is_some, IsTrue, IsFalse, Some, None, IfSome, option_and_then};
ghost use Rattle.std.specs.Prelude.{length, take};
ghost use Rattle.cube_space.specs.Cells.{IsCell, is_place, cell_number, cube_of, elements_of};
ghost use Rattle.cube_space.specs.Layout.{most_dimensions};
ghost use Rattle.rule_model.specs.Targets.{element_by, elements_by, target, component_cells};

use crate::model::Model;
use crate::places::place_of;
use cube_space::{MAX_DIMENSIONS, Space};
use rule_laws::{Arg, Reference};

/// The cell that a reference names from a cell of these elements. None where an argument names nothing there, or there
/// is no such cell.
pub fn target_from(space: &Space, elements: &[u32], reference: &Reference) -> Option<u64>
    ensures value { result ≡ option_and_then (cell_number space.now reference.now.cube)
        (elements_by elements.now reference.now.args) }
    ensures cell { IfSome result (IsCell space.now) }
{
    let args = reference.args.as_slice();
    if args.len() > MAX_DIMENSIONS {
        // a space says of itself that no cube has so many dimensions
        let _cells = space.size();
        return None;
    }
    let mut at = [0u32; MAX_DIMENSIONS];
    if !put_elements(elements, args, &mut at) {
        return None;
    }
    space.number(reference.cube, &at[..args.len()])
}

// Puts the elements that the arguments name from a cell of these elements into the first places of `at`; false where
// one of them names nothing.
fn put_elements(elements: &[u32], args: &[Arg], at: &mut [u32; MAX_DIMENSIONS]) -> bool
    requires room { length args.now ≤ most_dimensions }
    ensures found { IsTrue result → elements_by elements.now args.now ≡ Some (take (length args.now) at.new) }
    ensures missing { IsFalse result → elements_by elements.now args.now ≡ None }
{
    'each: for place in 0..args.len() {
        match element_by(elements, &args[place]) {
            Some(element) => at[place] = element,
            None => return false,
        }
    }
    true
}

// The element that an argument names from a cell of these elements.
fn element_by(elements: &[u32], arg: &Arg) -> Option<u32>
    ensures { result ≡ element_by elements.now arg.now }
{
    match arg {
        Arg::Fixed(element) => Some(*element),
        Arg::Moved { from, to } => match elements.get(*from as usize) {
            Some(element) => to.get(*element as usize),
            None => None,
        },
    }
}

/// The cell that a reference names from a cell, or None where there is no such cell.
pub fn target(model: &Model, reference: &Reference, cell: u64) -> Option<u64>
    requires { IsCell model.now.space cell }
    ensures value { result ≡ target model.now.space reference.now cell }
    ensures cell { IfSome result (IsCell model.now.space) }
{
    let mut at = [0u32; MAX_DIMENSIONS];
    let (_, len) = place_of(model, cell, &mut at);
    target_from(model.space(), &at[..len], reference)
}

/// Whether the element of a cell in the dimension at this place of its cube has components. It takes the cell by
/// its cube and its elements.
pub fn has_components(model: &Model, cube: u32, elements: &[u32], dim: u32) -> bool
    requires { is_place model.now.space cube elements.now ≡ true }
    ensures { (cell : ℕ) → cube_of model.now.space cell ≡ cube → elements_of model.now.space cell ≡ elements.now
        → result ≡ is_some (component_cells model.now.space cell dim) }
{
    let space = model.space();
    let dims = space.shape(cube).dims.as_slice();
    let place = dim as usize;
    if place >= dims.len() {
        return false;
    }
    !space.dimension(dims[place]).is_leaf(elements[place])
}
