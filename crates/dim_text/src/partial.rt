ghost use Rattle.std.specs.Prelude.{◌≡◌, IfOk, Ok, slice_index_or};
ghost use Rattle.cube_lex.specs.Positions.{nowhere};
ghost use Rattle.dim_core.specs.Refusal.{finish_refusal_of};
ghost use Rattle.dim_text.specs.Building as building;
ghost use Rattle.dim_text.specs.Building.{opened};
ghost use Rattle.dim_text.specs.Statement.{Leaf, Consolidated, Attribute};
ghost use Rattle.dim_text.specs.Readers.Views.{element_view, refused_at, Adds, Finishes};

use crate::element::Element;
use crate::fault::Refusal;
use crate::text::Block;
use cube_lex::Position;
use dim_core::{Builder, DimFault, Name};
use grammar::Stop;
use lists::TableKeys;
use std::alloc::{AllocError, Global};
use std::marker::Model;

/// A dimension that is being built, statement by statement.
#[derive(Drop)]
pub struct PartialBlock {
    head: Position,
    builder: Builder,
    positions: Vec<Position>,
    attribute_positions: Vec<Position>,
}

impl Model for PartialBlock {
    ghost use Rattle.std.specs.Prelude.{◌≡◌, length};
    ghost use Rattle.dim_text.specs.Progress.{Progress};

    ghost Value = { Progress };

    ghost view = { λ block. record {
      head = block.head;
      draft = block.builder;
      positions = block.positions.items;
      attribute_positions = block.attribute_positions.items;
    } };

    ghost invariant = { λ block. length block.positions.items ≡ length block.builder.elements };
}

// Why the builder refused a statement at this place.
fn refused(position: Position, fault: DimFault) -> Stop<Refusal>
    ensures { result ≡ refused_at position fault }
{
    match fault {
        DimFault::Memory => Stop::Memory,
        fault => Stop::Refused(Refusal {
            at: position,
            fault,
        }),
    }
}

impl PartialBlock {
    /// Behind the head at this place. The tables of the dimension have these keys.
    pub fn new(
        alloc: Global,
        position: Position,
        name: Name,
        table: TableKeys,
    ) -> Result<PartialBlock, AllocError>
        ensures { IfOk result (λ block. block ≡ opened position name) }
    {
        Ok(PartialBlock {
            head: position,
            builder: Builder::keyed(alloc, name, table)?,
            positions: Vec::new(alloc),
            attribute_positions: Vec::new(alloc),
        })
    }

    // Defines an element without components.
    fn add_leaf(&mut self, position: Position, name: Name) -> Result<(), Stop<Refusal>>
        ensures { Adds result self.new (building.add self.old (Leaf position name)) }
    {
        self.positions.reserve(1)?;
        match self.builder.leaf(name) {
            Ok(()) => {
                self.positions.push_reserved(position);
                Ok(())
            }
            Err(fault) => Err(refused(position, fault)),
        }
    }

    // Defines an element with its components.
    fn add_consolidated(
        &mut self,
        position: Position,
        name: Name,
        components: Vec<(Name, i64)>,
    ) -> Result<(), Stop<Refusal>>
        ensures { Adds result self.new (building.add self.old (Consolidated position name components.items)) }
    {
        self.positions.reserve(1)?;
        match self.builder.consolidated(name, components) {
            Ok(()) => {
                self.positions.push_reserved(position);
                Ok(())
            }
            Err(fault) => Err(refused(position, fault)),
        }
    }

    // Gives an element the text of an attribute.
    fn add_attribute(
        &mut self,
        position: Position,
        element: Name,
        attribute: Name,
        text: Vec<u8>,
    ) -> Result<(), Stop<Refusal>>
        ensures { Adds result self.new (building.add self.old (Attribute position element attribute text.items)) }
    {
        self.attribute_positions.reserve(1)?;
        self.builder.attribute(element, attribute, text)?;
        self.attribute_positions.push_reserved(position);
        Ok(())
    }

    /// Adds an element's statement.
    pub fn add(&mut self, element: Element) -> Result<(), Stop<Refusal>>
        ensures { Adds result self.new (building.add self.old (element_view element)) }
    {
        match element {
            Element::Leaf(position, name) => self.add_leaf(position, name),
            Element::Consolidated(position, name, components) => self.add_consolidated(
                position, name, components,
            ),
            Element::Attribute(position, element, attribute, text) => self.add_attribute(
                position, element, attribute, text,
            ),
        }
    }

    /// The dimension, after the last element.
    pub fn finish(self) -> Result<Block, Stop<Refusal>>
        ensures { Finishes result self (finish_refusal_of self.draft) }
    {
        let PartialBlock {
            head,
            builder,
            positions,
            attribute_positions,
        } = self;
        match builder.finish() {
            Ok(dimension) => Ok(Block::new(head, dimension, positions)),
            Err(fault) => Err(refused(place_of(&positions, &attribute_positions, &fault), fault)),
        }
    }
}

// The place that is listed there; where there is none, nowhere.
fn place_at(positions: &[Position], at: usize) -> Position
    ensures { result ≡ slice_index_or positions.now at nowhere }
{
    match positions.get(at) {
        Some(position) => *position,
        None => Position::nowhere(),
    }
}

// The place of the statement that a fault of the whole dimension names.
fn place_of(positions: &[Position], attribute_positions: &[Position], fault: &DimFault) -> Position
    ensures { result ≡ building.place_of positions.now attribute_positions.now fault.now }
{
    match fault {
        DimFault::UnknownComponent(element) => place_at(positions, *element as usize),
        // Attribute statements are counted from 1.
        DimFault::BadAttribute(at) => place_at(attribute_positions, at.saturating_sub(1) as usize),
        DimFault::Loop(element) => place_at(positions, *element as usize),
        _ => Position::nowhere(),
    }
}
