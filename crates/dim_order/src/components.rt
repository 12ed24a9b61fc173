ghost use Rattle.std.specs.Prelude.{◌≡◌};

use std::marker::Model;

/// The components of an element by index, each with its weight.
#[derive(Drop)]
pub struct Components {
    items: Vec<(u32, i64)>,
}

impl Model for Components {
    ghost use Rattle.std.specs.Prelude.{ℕ, ℤ, List};

    ghost Value = { List (ℕ × ℤ) };

    ghost view = { λ c. c.items.items };
}

impl Components {
    pub fn new(items: Vec<(u32, i64)>) -> Components
        ensures { result ≡ items.items }
    {
        Components { items }
    }

    pub fn as_slice(&self) -> &[(u32, i64)]
        ensures { result.now ≡ self.now }
    {
        &self.items
    }
}
