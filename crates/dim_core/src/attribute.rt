ghost use Rattle.std.specs.Prelude.{◌≡◌};

use crate::Name;
use lists::ListOf;

/// A text of an element, under the name of an attribute as it was written.
#[derive(Drop)]
pub struct Attribute {
    pub element: u32,
    pub name: Name,
    pub text: ListOf<u8>,
}

/// The same, with the element by its name.
#[derive(Drop)]
pub struct NamedAttribute {
    pub element: Name,
    pub name: Name,
    pub text: ListOf<u8>,
}

impl NamedAttribute {
    /// The attribute of the element with this index.
    pub fn of_element(self, index: u32) -> Attribute
        ensures { result ≡ record { element = index; name = self.name; text = self.text } }
    {
        let NamedAttribute {
            element: _,
            name,
            text,
        } = self;
        Attribute {
            element: index,
            name,
            text,
        }
    }
}
