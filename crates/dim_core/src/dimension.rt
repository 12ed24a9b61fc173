ghost use Rattle.std.specs.Prelude.{◌≡◌, ◌↔◌, ◌<◌, ◌≤◌, [], length, IsTrue};
ghost use Rattle.dim_order.specs.Levels.{AreLevels};
ghost use Rattle.dim_order.specs.Loops.{IsOrder};
ghost use Rattle.dim_core.specs.Inside.Kept.{IsStored, AreAttributed};
ghost use Rattle.dim_core.specs.Outline.{component_lists, name_of, components_of, index_of, attribute_of, elements_of};
ghost use Rattle.dim_core.specs.Outline.{IsDimension, level};

use crate::Name;
use crate::attribute::Attribute;
use crate::attributes::Attributes;
use dim_order::Components;
use lists::Numbered;
use std::marker::Model;

/// A finished dimension. Its elements are named by their index, from 0 in the order of definition.
#[derive(Drop)]
pub struct Dimension {
    name: Name,
    names: Numbered<Name>,
    components: Vec<Components>,
    order: Vec<u32>,
    levels: Vec<u32>,
    attributes: Attributes,
}

impl Model for Dimension {
    ghost use Rattle.dim_core.specs.Outline.{Outline, elements_of};
    ghost use Rattle.dim_core.specs.Inside.Kept.{IsStored, AreAttributed};

    ghost Value = { Outline };

    ghost view = { λ d. record {
      name = d.name;
      elements = elements_of d.names d.components.items;
      attributes = d.attributes;
    } };

    ghost invariant = { λ d. IsStored d.names d.components.items d.order.items d.levels.items
        × AreAttributed d.name d.names d.attributes };
}

impl Dimension {
    pub(crate) fn new(
        name: Name,
        names: Numbered<Name>,
        components: Vec<Components>,
        order: Vec<u32>,
        levels: Vec<u32>,
        attributes: Attributes,
    ) -> Dimension
        requires stored { IsStored names components.items order.items levels.items }
        requires attributed { AreAttributed name names attributes }
        ensures { result ≡ record {
          name = name;
          elements = elements_of names components.items;
          attributes = attributes;
        } }
    {
        Dimension {
            name,
            names,
            components,
            order,
            levels,
            attributes,
        }
    }

    /// How many elements there are.
    pub fn len(&self) -> u32
        ensures len { result ≡ length self.now.elements }
        ensures valid { IsDimension self.now }
    {
        self.names.len() as u32
    }

    /// The dimension's own name.
    pub fn name(&self) -> &Name
        ensures { result.now ≡ self.now.name }
    {
        &self.name
    }

    /// The element of this name, or None where no element has it.
    pub fn index_of(&self, name: &Name) -> Option<u32>
        ensures { result ≡ index_of self.now name.now }
    {
        match self.names.get_index_of(name) {
            Some(index) => Some(index as u32),
            None => None,
        }
    }

    /// The name of an element, as it was defined.
    pub fn name_of(&self, element: u32) -> &Name
        requires { element < length self.now.elements }
        ensures { result.now ≡ name_of self.now element }
    {
        self.names.get_index(element as usize).unwrap()
    }

    /// Whether an element is a leaf, which is one without components.
    pub fn is_leaf(&self, element: u32) -> bool
        requires { element < length self.now.elements }
        ensures { IsTrue result ↔ (components_of self.now element ≡ []) }
    {
        self.components(element).is_empty()
    }

    /// The components of an element by index, in the order of its definition, each with its weight. A leaf has none.
    pub fn components(&self, element: u32) -> &[(u32, i64)]
        requires { element < length self.now.elements }
        ensures { result.now ≡ components_of self.now element }
    {
        self.components[element as usize].as_slice()
    }

    /// The text of an attribute of an element, which is empty where it isn't set.
    pub fn attribute(&self, element: u32, attribute: &Name) -> &[u8]
        ensures { result.now ≡ attribute_of self.now element attribute.now }
    {
        self.attributes.text_of(element, attribute)
    }

    /// The attributes of all elements, in the order of their calls.
    pub fn attributes(&self) -> &[Attribute]
        ensures { result.now ≡ self.now.attributes }
    {
        self.attributes.as_slice()
    }

    /// All elements, each after its components.
    pub fn order(&self) -> &[u32]
        ensures { IsOrder (component_lists self.now.elements) result.now }
    {
        &self.order
    }

    /// The level of an element: 0 of a leaf, and otherwise one more than the greatest level of a component.
    pub fn level(&self, element: u32) -> u32
        requires { element < length self.now.elements }
        ensures level { result ≡ level self.now element }
        ensures below { result < length self.now.elements }
    {
        self.levels[element as usize]
    }

    /// The levels of all elements, by index.
    pub fn levels(&self) -> &[u32]
        ensures { AreLevels (component_lists self.now.elements) result.now }
    {
        &self.levels
    }
}
