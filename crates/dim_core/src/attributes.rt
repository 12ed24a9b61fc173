ghost use Rattle.std.specs.Prelude.{◌≡◌, position};
ghost use Rattle.std.specs.List.{AllZip};
ghost use Rattle.dim_core.specs.Inside.Kept.{IsKeyOf};
ghost use Rattle.dim_core.specs.Outline.{is_attribute, text_among};

use crate::Name;
use crate::attribute::Attribute;
use lists::Numbered;
use std::marker::Model;

/// The attributes of a dimension's elements, in the order of their calls, each found by its element and name.
#[derive(Drop)]
pub struct Attributes {
    list: Vec<Attribute>,
    // The names of the attributes, each once.
    names: Numbered<Name>,
    // The element of each attribute, with the number of its name.
    keys: Numbered<(u32, usize)>,
}

impl Model for Attributes {
    ghost use Rattle.std.specs.Prelude.{List};
    ghost use Rattle.std.specs.List.{AllZip};
    ghost use Rattle.dim_core.specs.declared.attribute.Attribute.{Attribute};
    ghost use Rattle.dim_core.specs.Inside.Kept.{IsKeyOf};

    ghost Value = { List Attribute };

    ghost view = { λ a. a.list.items };

    ghost invariant = { λ a. AllZip (IsKeyOf a.names) a.list.items a.keys };
}

impl Attributes {
    pub(crate) fn new(
        list: Vec<Attribute>,
        names: Numbered<Name>,
        keys: Numbered<(u32, usize)>,
    ) -> Attributes
        requires { AllZip (IsKeyOf names) list.items keys }
        ensures { result ≡ list.items }
    {
        Attributes { list, names, keys }
    }

    pub fn as_slice(&self) -> &[Attribute]
        ensures { result.now ≡ self.now }
    {
        &self.list
    }

    /// The text of an attribute of an element, which is empty where it isn't set.
    pub fn text_of(&self, element: u32, name: &Name) -> &[u8]
        ensures { result.now ≡ text_among self.now element name.now }
    {
        match self.place_of(element, name) {
            Some(place) => self.list[place].text.as_slice(),
            None => &[],
        }
    }

    fn place_of(&self, element: u32, name: &Name) -> Option<usize>
        ensures { result ≡ position (is_attribute element name.now) self.now }
    {
        match self.names.get_index_of(name) {
            Some(number) => self.keys.get_index_of(&(element, number)),
            None => None,
        }
    }
}
