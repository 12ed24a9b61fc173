ghost use Rattle.std.specs.Prelude.{◌≡◌, ◌<◌, ◌++◌, ◌∷◌, [], ◌||◌, All, IfOk, IsTrue, OnOk, length};
ghost use Rattle.std.specs.List.{list_all};
ghost use Rattle.feed_find.specs.Added.{IsFound};
ghost use Rattle.rule_printer.specs.Writable.{is_writable_feeder};
ghost use Rattle.feed_print.specs.FoundText.{places_in, texts_in, has_unsaid, AddsOf, IsFoundText};

use crate::place::ReferencePlace;
use crate::printing::print_cube;
use crate::text::text_of;
use cube_space::Space;
use feed_find::{Found, FoundFeeder, Unturned, find};
use rule_model::Model;
use rule_tree::FeederText;
use std::alloc::{AllocError, Global};

// Of these references those of a cube.
fn places_in(
    alloc: Global,
    cube: u32,
    unturned: &[Unturned],
) -> Result<Vec<ReferencePlace>, AllocError>
    ensures { IfOk result (λ places. places.items ≡ places_in cube unturned.now) }
{
    let mut places = Vec::new(alloc);
    'each: for one in unturned {
        if one.cube == cube {
            places.push(ReferencePlace {
                statement: one.statement,
                reference: one.reference,
            })?;
        }
    }
    Ok(places)
}

// The feeders of a cube as text, and whether one of them has none.
#[derive(Drop)]
struct CubeTexts {
    feeders: Vec<FeederText>,
    unsaid: bool,
}

// Adds the text of a feeder, where it is one of the cube.
fn add_text(
    alloc: Global,
    space: &Space,
    cube: u32,
    one: &FoundFeeder,
    texts: &mut CubeTexts,
) -> Result<(), AllocError>
    requires cube { cube < length space.now.cubes }
    requires one { IsFound space.now one.now }
    requires writable { IsTrue (list_all is_writable_feeder texts.old.feeders.items) }
    ensures feeders { OnOk result (texts.new.feeders.items
        ≡ texts.old.feeders.items ++ texts_in space.now cube (one.now ∷ [])) }
    ensures unsaid { OnOk result (texts.new.unsaid
        ≡ texts.old.unsaid || has_unsaid space.now cube (one.now ∷ [])) }
    ensures writable { OnOk result (IsTrue (list_all is_writable_feeder texts.new.feeders.items)) }
{
    if one.cube != cube {
        return Ok(());
    }
    match text_of(alloc, space, cube, &one.feeder)? {
        Some(text) => texts.feeders.push(text)?,
        None => texts.unsaid = true,
    }
    Ok(())
}

// Of these feeders the texts of those of a cube.
fn texts_in(
    alloc: Global,
    space: &Space,
    cube: u32,
    found: &[FoundFeeder],
) -> Result<CubeTexts, AllocError>
    requires cube { cube < length space.now.cubes }
    requires found { All (IsFound space.now) found.now }
    ensures feeders { IfOk result (λ texts. texts.feeders.items ≡ texts_in space.now cube found.now) }
    ensures unsaid { IfOk result (λ texts. texts.unsaid ≡ has_unsaid space.now cube found.now) }
    ensures writable { IfOk result (λ texts. IsTrue (list_all is_writable_feeder texts.feeders.items)) }
{
    let mut texts = CubeTexts {
        feeders: Vec::new(alloc),
        unsaid: false,
    };
    'each: for one in found {
        add_text(alloc, space, cube, one, &mut texts)?;
    }
    Ok(texts)
}

// Appends what is found for a cube.
fn print_found(
    alloc: Global,
    space: &Space,
    cube: u32,
    found: &Found,
    out: &mut Vec<u8>,
) -> Result<(), AllocError>
    requires cube { cube < length space.now.cubes }
    requires found { All (IsFound space.now) found.now.feeders }
    ensures { OnOk result (AddsOf space.now found.now.feeders found.now.unturned cube out.old.items out.new.items) }
{
    let places = places_in(alloc, cube, found.unturned.as_slice())?;
    let texts = texts_in(alloc, space, cube, found.feeders.as_slice())?;
    if places.is_empty() && !texts.unsaid && texts.feeders.is_empty() {
        return Ok(());
    }
    let name = &space.shape(cube).name;
    print_cube(alloc, out, name, &places, texts.unsaid, &texts.feeders)
}

/// The feeders that are found for a model, as text for the rule files of its cubes. The list says which cubes ask for
/// feeders.
pub fn found_text(alloc: Global, model: &Model, asking: &[bool]) -> Result<Vec<u8>, AllocError>
    ensures { IfOk result (λ text. IsFoundText model.now asking.now text.items) }
{
    let found = find(alloc, model, asking)?;
    let space = model.space();
    let mut text = Vec::new(alloc);
    'cubes: for cube in 0..space.cubes() {
        print_found(alloc, space, cube, &found, &mut text)?;
    }
    Ok(text)
}
