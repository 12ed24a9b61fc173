ghost use Rattle.std.specs.Prelude.{◌≡◌, ◌<◌, ◌≤◌, true, false, Some, None, IfOk, IfSome, All, length, take};
ghost use Rattle.cube_space.specs.Cells.{IsCell};
ghost use Rattle.cube_space.specs.Layout.{axes_of, most_dimensions};
ghost use Rattle.load_cells.specs.Found.{AreElements, AreFound};
ghost use Rattle.load_cells.specs.Names.{elements_by_texts};
ghost use Rattle.load_cells.specs.Loads.{cell_by_texts};

use crate::found::{FoundElements, FoundNames, cube_by_text, element_by_text};
use cube_space::{MAX_DIMENSIONS, Space};
use rule_model::Model;
use script_values::Text;
use std::alloc::{AllocError, Global};

/// The cell of a cube and of one element of each of its dimensions, in their order, all by name. None where one of them
/// is unknown, or there are too many elements or too few.
pub(crate) fn cell_by_texts(
    alloc: Global,
    model: &Model,
    found: &mut FoundNames,
    cube: &[u8],
    elements: &[Text<'_>],
) -> Result<Option<u64>, AllocError>
    requires { AreFound model.now.space found.old }
    ensures value { IfOk result (λ cell. cell ≡ cell_by_texts model.now.space cube.now elements.now) }
    ensures cell { IfOk result (λ cell. IfSome cell (IsCell model.now.space)) }
    ensures found { AreFound model.now.space found.new }
{
    let space = model.space();
    let Some(cube) = cube_by_text(alloc, space, &mut found.cube, cube)? else {
        return Ok(None);
    };
    let dims = space.shape(cube).dims.as_slice();
    let mut at = [0u32; MAX_DIMENSIONS];
    if !find_elements(alloc, space, dims, &mut found.elements, elements, &mut at)? {
        return Ok(None);
    }
    let (at, _) = at.split_at(dims.len());
    Ok(space.number(cube, at))
}

// Puts the elements of these texts, one of each of the dimensions, into the first places of `at`; false where there are
// no such elements.
fn find_elements(
    alloc: Global,
    space: &Space,
    dims: &[u32],
    found: &mut Vec<FoundElements>,
    texts: &[Text<'_>],
    at: &mut [u32; MAX_DIMENSIONS],
) -> Result<bool, AllocError>
    requires dims { All (λ dim. dim < length space.now.dimensions) dims.now }
    requires room { length dims.now ≤ most_dimensions }
    requires found { AreElements space.now.dimensions found.old.items }
    ensures there { IfOk result (λ there. there ≡ true →
        elements_by_texts (axes_of space.now.dimensions dims.now) texts.now ≡ Some (take (length dims.now) at.new)) }
    ensures missing { IfOk result (λ there. there ≡ false →
        elements_by_texts (axes_of space.now.dimensions dims.now) texts.now ≡ None) }
    ensures found { AreElements space.now.dimensions found.new.items }
{
    if dims.len() != texts.len() {
        return Ok(false);
    }
    'each: for place in 0..dims.len() {
        let dim = dims[place];
        let known = &mut found[dim as usize];
        let text = texts[place].as_slice();
        match element_by_text(alloc, space.dimension(dim), known, text)? {
            Some(element) => at[place] = element,
            None => return Ok(false),
        }
    }
    Ok(true)
}
