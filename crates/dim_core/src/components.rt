ghost use Rattle.std.specs.Prelude.{◌≡◌};

use crate::Name;
use std::marker::Model;

/// The components of an element by name, each with its weight.
#[derive(Drop)]
pub struct NamedComponents {
    items: Vec<(Name, i64)>,
}

impl Model for NamedComponents {
    ghost use Rattle.std.specs.Prelude.{ℕ, ℤ, List};

    ghost Value = { List (List ℕ × ℤ) };

    ghost view = { λ c. c.items.items };
}

impl NamedComponents {
    pub fn new(items: Vec<(Name, i64)>) -> NamedComponents
        ensures { result ≡ items.items }
    {
        NamedComponents { items }
    }

    pub fn as_slice(&self) -> &[(Name, i64)]
        ensures { result.now ≡ self.now }
    {
        &self.items
    }
}
