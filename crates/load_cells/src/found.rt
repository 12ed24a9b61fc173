ghost use Rattle.std.specs.Prelude.{◌≡◌, ◌≢◌, ◌<◌, [], length, All, Some, None, IfOk, IfSome, IsTrue, OnErr, OnOk};
ghost use Rattle.std.specs.Prelude.{if◌then◌else◌};
ghost use Rattle.dim_name.specs.Name.{is_name};
ghost use Rattle.load_cells.specs.Found.{AreFound, AreNames, IsFound};
ghost use Rattle.load_cells.specs.Names.{cube_by_text, dimension_by_text, element_by_text};

use crate::below::FoundBelow;
use cube_space::Space;
use dim_core::Dimension;
use dim_name::{Name, NameFault};
use std::alloc::{AllocError, Global};

/// The text by which a load has last named something, and the number of what it names. Empty: nothing yet.
#[derive(Drop)]
pub(crate) struct FoundName {
    text: Vec<u8>,
    number: u32,
}

impl FoundName {
    fn none(alloc: Global) -> FoundName
        ensures { result.text.items ≡ [] }
    {
        FoundName {
            text: Vec::new(alloc),
            number: 0,
        }
    }

    fn has(&self, text: &[u8]) -> bool
        ensures same { IsTrue result → self.now.text.items ≡ text.now }
        ensures some { IsTrue result → text.now ≢ [] }
    {
        !text.is_empty() && self.text.as_slice() == text
    }

    fn keep(&mut self, text: &[u8], number: u32) -> Result<(), AllocError>
        ensures text { OnOk result (self.new.text.items ≡ text.now) }
        ensures number { self.new.number ≡ number }
        ensures none { OnErr result (self.new.text.items ≡ []) }
    {
        self.number = number;
        self.text.clear();
        self.text.extend_from_slice(text)
    }
}

// The most places for names of elements of one dimension.
const MAX_PLACES: usize = 2_048;

/// The names of elements of a dimension that a load has found. A text has one place, where the last one stays. There
/// are twice as many places once texts were missed as often as there are places.
#[derive(Drop)]
pub(crate) struct FoundElements {
    names: Vec<FoundName>,
    missed: usize,
}

impl FoundElements {
    fn none(alloc: Global) -> FoundElements
        ensures { result.names.items ≡ [] }
    {
        FoundElements {
            names: Vec::new(alloc),
            missed: 0,
        }
    }

    // Sees to it that there is a place.
    fn make_places(&mut self, alloc: Global, dimension: &Dimension) -> Result<(), AllocError>
        requires { AreNames (element_by_text dimension.now) self.old }
        ensures names { AreNames (element_by_text dimension.now) self.new }
        ensures some { OnOk result (0 < length self.new.names.items) }
    {
        let places = self.names.len();
        if places > 0 && (self.missed < places || places >= MAX_PLACES) {
            return Ok(());
        }
        self.missed = 0;
        add_places(alloc, dimension, &mut self.names, places.max(1))
    }
}

// So many places more, of which none has a name.
fn add_places(
    alloc: Global,
    dimension: &Dimension,
    names: &mut Vec<FoundName>,
    count: usize,
) -> Result<(), AllocError>
    requires names { All (IsFound (element_by_text dimension.now)) names.old.items }
    requires some { 0 < count }
    ensures names { All (IsFound (element_by_text dimension.now)) names.new.items }
    ensures some { OnOk result (0 < length names.new.items) }
{
    for place in 0..count {
        add_place(alloc, dimension, names)?;
    }
    Ok(())
}

// One place more.
fn add_place(
    alloc: Global,
    dimension: &Dimension,
    names: &mut Vec<FoundName>,
) -> Result<(), AllocError>
    requires { All (IsFound (element_by_text dimension.now)) names.old.items }
    ensures names { All (IsFound (element_by_text dimension.now)) names.new.items }
    ensures some { OnOk result (0 < length names.new.items) }
{
    let name = FoundName::none(alloc);
    match names.push(name) {
        Ok(()) => Ok(()),
        Err(_) => Err(AllocError),
    }
}

// The place of a text among so many. Texts that differ in their last digits have places of their own.
fn place_in(text: &[u8], places: usize) -> usize
    requires { 0 < places }
    ensures { result < places }
{
    let mut sum = 0u64;
    for byte in text {
        sum = sum.wrapping_mul(10).wrapping_add(u64::from(*byte));
    }
    (sum % places as u64) as usize
}

/// The names that a load has found: of the last cube, of the last dimension that it asked for, and of elements of each
/// dimension. Columns of records repeat, so that many a name comes again.
#[derive(Drop)]
pub(crate) struct FoundNames {
    pub(crate) cube: FoundName,
    pub(crate) dimension: FoundName,
    pub(crate) elements: Vec<FoundElements>,
    pub(crate) below: Option<FoundBelow>,
}

impl FoundNames {
    pub(crate) fn new(alloc: Global, space: &Space) -> Result<FoundNames, AllocError>
        ensures { IfOk result (AreFound space.now) }
    {
        let mut elements = Vec::with_capacity(alloc, space.dimensions() as usize)?;
        for dim in 0..space.dimensions() {
            elements.push(FoundElements::none(alloc))?;
        }
        Ok(FoundNames {
            cube: FoundName::none(alloc),
            dimension: FoundName::none(alloc),
            elements,
            below: None,
        })
    }
}

/// The number of the cube that a text names.
pub(crate) fn cube_by_text(
    alloc: Global,
    space: &Space,
    found: &mut FoundName,
    text: &[u8],
) -> Result<Option<u32>, AllocError>
    requires { IsFound (cube_by_text space.now) found.old }
    ensures value { IfOk result (λ cube. cube ≡ cube_by_text space.now text.now) }
    ensures found { IsFound (cube_by_text space.now) found.new }
{
    if found.has(text) {
        return Ok(Some(found.number));
    }
    let Some(name) = name_in(alloc, text)? else {
        return Ok(None);
    };
    let Some(cube) = space.cube_of(&name) else {
        return Ok(None);
    };
    found.keep(text, cube)?;
    Ok(Some(cube))
}

/// The number of the dimension that a text names.
pub(crate) fn dimension_by_text(
    alloc: Global,
    space: &Space,
    found: &mut FoundName,
    text: &[u8],
) -> Result<Option<u32>, AllocError>
    requires { IsFound (dimension_by_text space.now) found.old }
    ensures value { IfOk result (λ dim. dim ≡ dimension_by_text space.now text.now) }
    ensures within { IfOk result (λ dim. IfSome dim (λ dim. dim < length space.now.dimensions)) }
    ensures found { IsFound (dimension_by_text space.now) found.new }
{
    if found.has(text) {
        return Ok(Some(found.number));
    }
    let Some(name) = name_in(alloc, text)? else {
        return Ok(None);
    };
    let Some(dim) = space.dimension_of(&name) else {
        return Ok(None);
    };
    found.keep(text, dim)?;
    Ok(Some(dim))
}

/// The element of a dimension that a text names.
pub(crate) fn element_by_text(
    alloc: Global,
    dimension: &Dimension,
    found: &mut FoundElements,
    text: &[u8],
) -> Result<Option<u32>, AllocError>
    requires { AreNames (element_by_text dimension.now) found.old }
    ensures value { IfOk result (λ element. element ≡ element_by_text dimension.now text.now) }
    ensures found { AreNames (element_by_text dimension.now) found.new }
{
    found.make_places(alloc, dimension)?;
    let place = place_in(text, found.names.len());
    if found.names[place].has(text) {
        return Ok(Some(found.names[place].number));
    }
    found.missed = found.missed.saturating_add(1);
    element_at(alloc, dimension, &mut found.names[place], text)
}

// The same, whose name is kept at this place.
fn element_at(
    alloc: Global,
    dimension: &Dimension,
    found: &mut FoundName,
    text: &[u8],
) -> Result<Option<u32>, AllocError>
    requires { IsFound (element_by_text dimension.now) found.old }
    ensures value { IfOk result (λ element. element ≡ element_by_text dimension.now text.now) }
    ensures found { IsFound (element_by_text dimension.now) found.new }
{
    let Some(name) = name_in(alloc, text)? else {
        return Ok(None);
    };
    let Some(element) = dimension.index_of(&name) else {
        return Ok(None);
    };
    found.keep(text, element)?;
    Ok(Some(element))
}

// A text as a name, if it is one.
pub(crate) fn name_in(alloc: Global, text: &[u8]) -> Result<Option<Name>, AllocError>
    ensures { IfOk result (λ name. name ≡ (if is_name text.now then Some text.now else None)) }
{
    match Name::new(alloc, text) {
        Ok(name) => Ok(Some(name)),
        Err(NameFault::NotAName) => Ok(None),
        Err(NameFault::Memory) => Err(AllocError),
    }
}
