ghost use Rattle.std.specs.Prelude.{◌≡◌, ◌<◌, All, IfOk, IfSome, IsTrue, length, map, option_map};
ghost use Rattle.std.specs.List.{list_all};
ghost use Rattle.dim_core.specs.Outline.{name_of};
ghost use Rattle.cube_space.specs.Layout.{axes};
ghost use Rattle.rule_model.specs.Conditions.{IsArea};
ghost use Rattle.rule_printer.specs.Writable.{is_quotable, is_writable_entry};
ghost use Rattle.feed_print.specs.FeederTexts.{fits, entry_text, entry_texts};

use crate::names::{copy_of, fits};
use cube_space::{Space, axis, axis_count};
use dim_core::Dimension;
use dim_name::Name;
use lists::ListOf;
use rule_model::Area;
use rule_tree::EntryText;
use std::alloc::{AllocError, Global};

// Whether the names of these elements fit in tokens.
fn names_fit(dimension: &Dimension, elements: &[u32]) -> bool
    requires { All (λ e. e < length dimension.now.elements) elements.now }
    ensures fit { result ≡ list_all (λ e. fits (name_of dimension.now e)) elements.now }
    ensures quotable { IsTrue result → IsTrue (list_all is_quotable (map (name_of dimension.now) elements.now)) }
{
    'each: for element in elements {
        if !fits(dimension.name_of(*element)) {
            return false;
        }
    }
    true
}

// The names of these elements.
fn names_of(alloc: Global, dimension: &Dimension, elements: &[u32]) -> Result<Vec<Name>, AllocError>
    requires { All (λ e. e < length dimension.now.elements) elements.now }
    ensures { IfOk result (λ names. names.items ≡ map (name_of dimension.now) elements.now) }
{
    let mut names = Vec::new(alloc);
    'each: for element in elements {
        names.push(copy_of(alloc, dimension.name_of(*element))?)?;
    }
    Ok(names)
}

// The elements that a set of an area lists in a dimension, as an entry.
fn entry_text(
    alloc: Global,
    dimension: &Dimension,
    elements: &[u32],
) -> Result<Option<EntryText>, AllocError>
    requires { All (λ e. e < length dimension.now.elements) elements.now }
    ensures text { IfOk result (λ found. found ≡ entry_text dimension.now elements.now) }
    ensures writable { IfOk result (λ found. IfSome found (λ entry. IsTrue (is_writable_entry entry))) }
{
    if elements.is_empty() || !fits(dimension.name()) || !names_fit(dimension, elements) {
        return Ok(None);
    }
    let dim = copy_of(alloc, dimension.name())?;
    let names = names_of(alloc, dimension, elements)?;
    Ok(Some(EntryText {
        dim: Some(dim),
        elements: ListOf::new(names),
    }))
}

/// The entries of an area of a cube, unless one has no text.
pub fn entry_texts(
    alloc: Global,
    space: &Space,
    cube: u32,
    area: &Area,
) -> Result<Option<Vec<EntryText>>, AllocError>
    requires cube { cube < length space.now.cubes }
    requires area { IsArea space.now cube area.now }
    ensures text { IfOk result (λ found. option_map (λ entries. entries.items) found
        ≡ entry_texts (axes space.now cube) area.now.sets) }
    ensures writable { IfOk result (λ found.
        IfSome found (λ entries. IsTrue (list_all is_writable_entry entries.items))) }
{
    let mut entries = Vec::new(alloc);
    let sets = area.sets.as_slice();
    'each: for place in 0..axis_count(space, cube) {
        let Some(set) = &sets[place as usize] else {
            continue;
        };
        match entry_text(alloc, axis(space, cube, place), set.as_slice())? {
            Some(entry) => entries.push(entry)?,
            None => return Ok(None),
        }
    }
    Ok(Some(entries))
}
