ghost use Rattle.std.specs.Prelude.{◌≡◌, ◌<◌, ◌++◌, ◌∷◌, [], ℕ, length, IfOk, IfSome, OnOk, OnErr, IsTrue};
ghost use Rattle.cube_space.specs.Layout.{Layout};
ghost use Rattle.dim_core.specs.Outline.{Outline};
ghost use Rattle.bind_arguments.specs.Bound.{dimension_at};
ghost use Rattle.bind_arguments.specs.Numbers.{AreTablesIn, IsTableIn, is_within, numbers_over, text_for};

use crate::alike::is_same_attribute;
use crate::element_function::ElementFunction;
use crate::element_text::ElementText;
use crate::numbers::numbers_over;
use cube_space::Space;
use rule_laws::ElementTable;
use std::alloc::{AllocError, Global};
use std::marker::Model;
use word_table::WordTable;

/// The numbers that a function gives the elements of a dimension, by its number in the model.
#[derive(Drop)]
pub(crate) struct BoundTable {
    pub(crate) dim: u32,
    pub(crate) function: ElementFunction,
    pub(crate) numbers: ElementTable,
}

/// The tables that were made so far, for all cubes of a model. Functions that are the same share one.
#[derive(Drop)]
pub(crate) struct BoundTables {
    made: Vec<BoundTable>,
    /// The key of each table.
    keys: WordTable,
}

impl Model for BoundTables {
    ghost use Rattle.std.specs.Prelude.{List};
    ghost use Rattle.bind_arguments.specs.declared.bound_tables.BoundTable.{BoundTable};

    ghost Value = { List BoundTable };

    ghost view = { λ tables. tables.made.items };
}

// Whether two functions are known to give the same numbers.
fn is_same(function: &ElementFunction, other: &ElementFunction) -> bool
    ensures { IsTrue result → (d : Outline) → numbers_over d function.now ≡ numbers_over d other.now }
{
    match (function, other) {
        (ElementFunction::Place, ElementFunction::Place) => true,
        (ElementFunction::Level, ElementFunction::Level) => true,
        (ElementFunction::ComponentOf(parent), ElementFunction::ComponentOf(other)) => {
            parent == other
        }
        (ElementFunction::Below(above), ElementFunction::Below(other)) => above == other,
        (ElementFunction::Attribute(name), ElementFunction::Attribute(other)) => {
            is_same_attribute(name, other)
        }
        (ElementFunction::ComponentCount, ElementFunction::ComponentCount) => true,
        (ElementFunction::ParentCount, ElementFunction::ParentCount) => true,
        (ElementFunction::Same(one, two), ElementFunction::Same(other_one, other_two)) => {
            is_same_text(one, other_one) && is_same_text(two, other_two)
        }
        _ => false,
    }
}

// Whether two texts of elements are known to be the same.
fn is_same_text(text: &ElementText, other: &ElementText) -> bool
    ensures { IsTrue result → (d : Outline) → (element : ℕ)
        → text_for d text.now element ≡ text_for d other.now element }
{
    match (text, other) {
        (ElementText::Fixed(bytes), ElementText::Fixed(other)) => {
            bytes.as_slice() == other.as_slice()
        }
        (ElementText::Name, ElementText::Name) => true,
        (ElementText::Kind, ElementText::Kind) => true,
        (ElementText::Attribute(name), ElementText::Attribute(other)) => {
            is_same_attribute(name, other)
        }
        _ => false,
    }
}

// Bytes by which the table of a function over a dimension is found. Functions that are the same have the same. What is
// found is compared, so no proof rests on them.
fn key_of(alloc: Global, dim: u32, function: &ElementFunction) -> Result<Vec<u8>, AllocError> {
    let mut key = Vec::new(alloc);
    key.extend_from_slice(&dim.to_le_bytes())?;
    match function {
        ElementFunction::Place => key.extend_from_slice(b"#")?,
        ElementFunction::Level => key.extend_from_slice(b"^")?,
        ElementFunction::ComponentOf(parent) => {
            key.extend_from_slice(b"<")?;
            key.extend_from_slice(&parent.to_le_bytes())?;
        }
        ElementFunction::Below(above) => {
            key.extend_from_slice(b">")?;
            key.extend_from_slice(&above.to_le_bytes())?;
        }
        ElementFunction::Attribute(name) => {
            key.extend_from_slice(b".")?;
            key.extend_from_slice(name.key())?;
        }
        ElementFunction::ComponentCount => key.extend_from_slice(b"v")?,
        ElementFunction::ParentCount => key.extend_from_slice(b"^n")?,
        ElementFunction::Same(one, two) => {
            key.extend_from_slice(b"=")?;
            add_text(&mut key, one)?;
            add_text(&mut key, two)?;
        }
    }
    Ok(key)
}

// Adds the bytes of a text of elements.
fn add_text(key: &mut Vec<u8>, text: &ElementText) -> Result<(), AllocError> {
    match text {
        ElementText::Fixed(bytes) => {
            key.extend_from_slice(b"'")?;
            key.extend_from_slice(&bytes.as_slice().len().to_le_bytes())?;
            key.extend_from_slice(bytes.as_slice())
        }
        ElementText::Name => key.extend_from_slice(b"!"),
        ElementText::Kind => key.extend_from_slice(b"?"),
        ElementText::Attribute(name) => {
            key.extend_from_slice(b".")?;
            key.extend_from_slice(name.key())?;
            // no name has this byte
            key.extend_from_slice(b"\0")
        }
    }
}

impl BoundTable {
    // The numbers, where they are those of a function that is the same.
    fn numbers_for(&self, dim: u32, function: &ElementFunction) -> Option<&ElementTable>
        ensures { (space : Layout) → IsTableIn space self.now
            → IfSome result (λ table. table.now ≡ numbers_over (dimension_at space dim) function.now) }
    {
        if self.dim == dim && is_same(&self.function, function) {
            Some(&self.numbers)
        } else {
            None
        }
    }
}

impl BoundTables {
    /// None yet.
    pub(crate) fn new(alloc: Global) -> BoundTables
        ensures { (space : Layout) → AreTablesIn space result }
    {
        BoundTables {
            made: Vec::new(alloc),
            keys: WordTable::new(alloc),
        }
    }

    /// The table of a function over a dimension: the one that was made before, or a new one.
    pub(crate) fn table_of(
        &mut self,
        alloc: Global,
        space: &Space,
        dim: u32,
        function: ElementFunction,
    ) -> Result<ElementTable, AllocError>
        requires dim { dim < length space.now.dimensions }
        requires within { is_within (dimension_at space.now dim) function }
        requires tables { AreTablesIn space.now self.old }
        ensures table { IfOk result (λ table. table ≡ numbers_over (dimension_at space.now dim) function) }
        ensures tables { AreTablesIn space.now self.new }
    {
        let key = key_of(alloc, dim, &function)?;
        match self.find(&key, dim, &function) {
            Some(numbers) => numbers.share(),
            None => {
                let numbers = numbers_over(alloc, space.dimension(dim), &function)?;
                let shared = numbers.share()?;
                self.add(
                    alloc,
                    &key,
                    BoundTable {
                        dim,
                        function,
                        numbers,
                    },
                )?;
                Ok(shared)
            }
        }
    }

    // The table with this key, where it is that of a function that is the same.
    fn find(&self, key: &[u8], dim: u32, function: &ElementFunction) -> Option<&ElementTable>
        ensures { (space : Layout) → AreTablesIn space self.now
            → IfSome result (λ table. table.now ≡ numbers_over (dimension_at space dim) function.now) }
    {
        match self.keys.place_of(key) {
            Some(place) => match self.made.get(place) {
                Some(made) => made.numbers_for(dim, function),
                None => None,
            },
            None => None,
        }
    }

    // Adds a table as the last.
    fn add(&mut self, alloc: Global, key: &[u8], made: BoundTable) -> Result<(), AllocError>
        ensures added { OnOk result (self.new ≡ self.old ++ made ∷ []) }
        ensures err { OnErr result (self.new ≡ self.old) }
    {
        self.made.reserve(1)?;
        self.keys.push(alloc, key)?;
        self.made.push_reserved(made);
        Ok(())
    }
}
