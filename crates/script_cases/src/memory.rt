ghost use Rattle.std.specs.Prelude.{◌≡◌, length, position, slice_get, bytes_eq, None, IfOk, OnOk};
ghost use Rattle.std.specs.Coded.{codes};
ghost use Rattle.script_values.specs.Cells.{refusal, writes_after};
ghost use Rattle.script_values.specs.contracts.load_reason.LoadReason as load_reason;
ghost use Rattle.script_cases.specs.Memory as memory;

use crate::elements::{attribute_text, dimension_named, element_named, name_at, place_of};
use crate::listed::{Kind, Listed, ListedAttribute, ListedDimension};
use crate::names::joined;
use cube_fixed::{Money, Value};
use lists::ListOf;
use script_run::{LoadReason, Text, WorkCells};
use sqlite_items::at;
use std::alloc::{AllocError, Global};

/// The cells of a case, and what a load has written into them.
#[derive(Drop)]
pub struct MemoryCells {
    pub cells: ListOf<Listed>,
    pub dimensions: ListOf<ListedDimension>,
    pub attributes: ListOf<ListedAttribute>,
    pub writes: Vec<(u64, Money)>,
    /// How many writes may be stored.
    pub stored: u64,
    /// How many writes may be fed.
    pub fed: u64,
    pub ghost within: { memory.HasRoom stored fed writes.items } by { Prim.hlevel (codes, load_reason.the_row.coded) },
}

fn last_value(cell: u64, value: Value, writes: &[(u64, Money)]) -> Value
    ensures { result ≡ memory.last_value cell value writes.now }
{
    let mut last = value;
    'each: for write in writes {
        if write.0 == cell {
            last = Value::Num(write.1);
        }
    }
    last
}

/// What a cell has before the load.
fn value_of(cells: &[Listed], place: usize) -> Value
    ensures { result ≡ memory.value_of (slice_get cells.now place) }
{
    match at(cells, place) {
        Some(cell) => cell.value,
        None => Value::Over,
    }
}

fn closed_kind(kind: Kind) -> Option<LoadReason>
    ensures { result ≡ memory.closed_kind kind }
{
    match kind {
        Kind::Leaf => None,
        Kind::Total => Some(LoadReason::NotALeaf),
        Kind::Ruled => Some(LoadReason::RuleDerived),
    }
}

/// Why nothing may be written into a cell.
fn closed_at(cells: &[Listed], place: usize) -> Option<LoadReason>
    ensures { result ≡ memory.closed_at (slice_get cells.now place) }
{
    match at(cells, place) {
        Some(cell) => closed_kind(cell.kind),
        None => None,
    }
}

/// Why so many writes are too many.
fn full_with(stored: u64, fed: u64, count: u64) -> Option<LoadReason>
    ensures { result ≡ memory.full_with stored fed count }
{
    if stored < count {
        Some(LoadReason::StoreLimit(count))
    } else if fed < count {
        Some(LoadReason::FedLimit(count))
    } else {
        None
    }
}

fn place_in(cells: &[Listed], names: &[u8]) -> Option<usize>
    ensures { result ≡ position (λ cell. bytes_eq cell.names names.now) cells.now }
{
    cells.iter().position(|cell| cell.names.as_slice() == names)
}

/// The place of the cell of a cube and elements.
fn cell_in(
    alloc: Global,
    cells: &[Listed],
    cube: &[u8],
    elements: &[Text<'_>],
) -> Result<Option<usize>, AllocError>
    ensures { IfOk result (λ cell. cell ≡ memory.cell_in cells.now cube.now elements.now) }
{
    let names = joined(alloc, cube, elements)?;
    Ok(place_in(cells, &names))
}

impl MemoryCells {
    /// Writes a number into a cell that is open, or says why it is one write too many.
    fn write(&mut self, cell: u64, number: Money) -> Result<Option<LoadReason>, AllocError>
        ensures refused { IfOk result (λ reason. reason ≡ refusal
            (memory.with_write self.old.stored self.old.fed self.old.writes.items (cell, number))) }
        ensures written { OnOk result (self.new.writes.items ≡ writes_after self.old.writes.items
            (memory.with_write self.old.stored self.old.fed self.old.writes.items (cell, number))) }
        ensures cells { self.new.cells ≡ self.old.cells }
        ensures dimensions { self.new.dimensions ≡ self.old.dimensions }
        ensures attributes { self.new.attributes ≡ self.old.attributes }
        ensures stored { self.new.stored ≡ self.old.stored }
        ensures fed { self.new.fed ≡ self.old.fed }
    {
        match full_with(self.stored, self.fed, self.writes.len() as u64 + 1) {
            None => {
                self.writes.push((cell, number))?;
                Ok(None)
            }
            Some(reason) => Ok(Some(reason)),
        }
    }
}

impl WorkCells for MemoryCells {
    ghost use Rattle.script_cases.specs.Memory.{store_of};

    ghost store = { λ cells. store_of cells.cells cells.dimensions cells.attributes cells.stored cells.fed };

    ghost writes = { λ cells. cells.writes.items };

    fn get(
        &mut self,
        alloc: Global,
        cube: &[u8],
        elements: &[Text<'_>],
    ) -> Result<Result<Value, LoadReason>, AllocError> {
        match cell_in(alloc, self.cells.as_slice(), cube, elements)? {
            Some(place) => {
                let value = value_of(self.cells.as_slice(), place);
                Ok(Ok(last_value(place as u64, value, &self.writes)))
            }
            None => Ok(Err(LoadReason::UnknownName)),
        }
    }

    fn put(
        &mut self,
        alloc: Global,
        cube: &[u8],
        elements: &[Text<'_>],
        value: Value,
    ) -> Result<Option<LoadReason>, AllocError> {
        let Some(place) = cell_in(alloc, self.cells.as_slice(), cube, elements)? else {
            return Ok(Some(LoadReason::UnknownName));
        };
        if let Some(reason) = closed_at(self.cells.as_slice(), place) {
            return Ok(Some(reason));
        }
        match value {
            Value::Num(number) => self.write(place as u64, number),
            Value::Over => Ok(Some(LoadReason::OverWrite)),
        }
    }

    fn is_updateable(
        &mut self,
        alloc: Global,
        cube: &[u8],
        elements: &[Text<'_>],
    ) -> Result<bool, AllocError> {
        match cell_in(alloc, self.cells.as_slice(), cube, elements)? {
            Some(place) => Ok(closed_at(self.cells.as_slice(), place).is_none()),
            None => Ok(false),
        }
    }

    fn element_count(
        &mut self,
        alloc: Global,
        dimension: &[u8],
    ) -> Result<Result<usize, LoadReason>, AllocError> {
        match dimension_named(self.dimensions.as_slice(), dimension) {
            Some(found) => Ok(Ok(found.elements.as_slice().len())),
            None => Ok(Err(LoadReason::UnknownName)),
        }
    }

    fn element_name(
        &mut self,
        alloc: Global,
        dimension: &[u8],
        place: usize,
    ) -> Result<Result<Option<ListOf<u8>>, LoadReason>, AllocError> {
        match dimension_named(self.dimensions.as_slice(), dimension) {
            Some(found) => Ok(Ok(name_at(alloc, found.elements.as_slice(), place)?)),
            None => Ok(Err(LoadReason::UnknownName)),
        }
    }

    fn element_place(
        &mut self,
        alloc: Global,
        dimension: &[u8],
        element: &[u8],
    ) -> Result<Result<Option<usize>, LoadReason>, AllocError> {
        let Some(found) = dimension_named(self.dimensions.as_slice(), dimension) else {
            return Ok(Err(LoadReason::UnknownName));
        };
        match place_of(found.elements.as_slice(), element) {
            Some(index) => Ok(Ok(Some(index + 1))),
            None => Ok(Ok(None)),
        }
    }

    fn is_leaf_element(
        &mut self,
        alloc: Global,
        dimension: &[u8],
        element: &[u8],
    ) -> Result<Result<Option<bool>, LoadReason>, AllocError> {
        let Some(found) = dimension_named(self.dimensions.as_slice(), dimension) else {
            return Ok(Err(LoadReason::UnknownName));
        };
        match element_named(found.elements.as_slice(), element) {
            Some(element) => Ok(Ok(Some(element.is_leaf))),
            None => Ok(Ok(None)),
        }
    }

    fn attribute(
        &mut self,
        alloc: Global,
        dimension: &[u8],
        element: &[u8],
        name: &[u8],
    ) -> Result<Result<Option<ListOf<u8>>, LoadReason>, AllocError> {
        let Some(found) = dimension_named(self.dimensions.as_slice(), dimension) else {
            return Ok(Err(LoadReason::UnknownName));
        };
        if element_named(found.elements.as_slice(), element).is_none() {
            return Ok(Ok(None));
        }
        let names = [Text::borrowed(element), Text::borrowed(name)];
        let names = joined(alloc, found.name.as_slice(), &names)?;
        let text = attribute_text(alloc, self.attributes.as_slice(), &names)?;
        Ok(Ok(Some(text)))
    }

    fn is_ancestor(
        &mut self,
        alloc: Global,
        dimension: &[u8],
        above: &[u8],
        element: &[u8],
    ) -> Result<Result<Option<bool>, LoadReason>, AllocError> {
        let Some(found) = dimension_named(self.dimensions.as_slice(), dimension) else {
            return Ok(Err(LoadReason::UnknownName));
        };
        let elements = found.elements.as_slice();
        match (
            element_named(elements, above),
            element_named(elements, element),
        ) {
            (Some(_), Some(_)) => Ok(Ok(Some(false))),
            (Some(_), None) => Ok(Ok(None)),
            (None, _) => Ok(Ok(None)),
        }
    }

    fn zero_out(
        &mut self,
        alloc: Global,
        cube: &[u8],
        elements: &[Text<'_>],
    ) -> Result<Option<LoadReason>, AllocError> {
        let Some(place) = cell_in(alloc, self.cells.as_slice(), cube, elements)? else {
            return Ok(Some(LoadReason::UnknownName));
        };
        match closed_at(self.cells.as_slice(), place) {
            None => self.write(place as u64, Money::ZERO),
            Some(_) => Ok(None),
        }
    }

    fn mark(&mut self) -> Result<usize, AllocError> {
        Ok(self.writes.len())
    }

    fn back(&mut self, _alloc: Global, count: usize) -> Result<(), AllocError> {
        self.writes.truncate(count);
        Ok(())
    }
}
