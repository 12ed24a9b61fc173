ghost use Rattle.std.specs.Prelude.{◌≡◌, [], ◌∷◌, ◌++◌, ℕ, List, Some, not, IfOk, if◌then◌else◌};
ghost use Rattle.std.specs.List.{list_any};
ghost use Rattle.dim_name.specs.Name.{place_of};
ghost use Rattle.dim_core.specs.Outline.{is_same_attribute};

use crate::Name;
use crate::attribute::Attribute;
use crate::attributes::Attributes;
use crate::kept_names::{copy_of, kept_names};
use indexmap::IndexSet;
use lists::{Numbered, TableKeys};
use std::alloc::{AllocError, Global};
use std::marker::Model;

/// The attributes of a dimension whose calls are being resolved.
#[derive(Drop)]
pub struct AttributeDraft {
    list: Vec<Attribute>,
    // The names of the attributes, each once.
    names: IndexSet<Name, TableKeys>,
    // The element of each attribute, with the number of its name.
    keys: Numbered<(u32, usize)>,
}

impl Model for AttributeDraft {
    ghost use Rattle.std.specs.Prelude.{List};
    ghost use Rattle.std.specs.List.{AllZip};
    ghost use Rattle.dim_core.specs.declared.attribute.Attribute.{Attribute};
    ghost use Rattle.dim_core.specs.Inside.Kept.{IsKeyOf};

    ghost Value = { List Attribute };

    ghost view = { λ a. a.list.items };

    ghost invariant = { λ a. AllZip (IsKeyOf a.names.keys) a.list.items a.keys };
}

impl AttributeDraft {
    /// None yet.
    pub fn new(alloc: Global, table: TableKeys) -> AttributeDraft
        ensures { result ≡ [] }
    {
        AttributeDraft {
            list: Vec::new(alloc),
            names: IndexSet::with_hasher(alloc, table),
            keys: Numbered::new(alloc, table),
        }
    }

    pub fn as_slice(&self) -> &[Attribute]
        ensures { result.now ≡ self.now }
    {
        &self.list
    }

    /// Adds an attribute as the last, unless its element has it already.
    pub fn add(&mut self, alloc: Global, attribute: Attribute) -> Result<bool, AllocError>
        ensures added { IfOk result (λ added. added ≡ not (list_any (is_same_attribute attribute) self.old)) }
        ensures list { IfOk result (λ added. self.new ≡ (if added then self.old ++ attribute ∷ [] else self.old)) }
    {
        self.list.reserve(1)?;
        let number = number_of(alloc, &mut self.names, &attribute.name)?;
        let key = (attribute.element, number);
        if !self.keys.insert(key, key)? {
            return Ok(false);
        }
        self.list.push_reserved(attribute);
        Ok(true)
    }

    /// The attributes of the finished dimension.
    pub fn finish(self, alloc: Global) -> Result<Attributes, AllocError>
        ensures { IfOk result (λ attributes. attributes ≡ self) }
    {
        let AttributeDraft { list, names, keys } = self;
        let kept = kept_names(alloc, names)?;
        Ok(Attributes::new(list, kept, keys))
    }
}

// The number of a name, which is added where it isn't there.
fn number_of(
    alloc: Global,
    names: &mut IndexSet<Name, TableKeys>,
    name: &Name,
) -> Result<usize, AllocError>
    ensures number { IfOk result (λ number. place_of names.new.keys name.now ≡ Some number) }
    ensures kept { (other : List ℕ) (number : ℕ) → place_of names.old.keys other ≡ Some number
        → place_of names.new.keys other ≡ Some number }
{
    if let Some(number) = names.get_index_of(name) {
        return Ok(number);
    }
    let number = names.len();
    names.insert(copy_of(alloc, name)?)?;
    Ok(number)
}
