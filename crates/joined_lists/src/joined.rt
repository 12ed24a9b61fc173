ghost use Rattle.std.specs.Prelude.{◌≡◌, ◌<◌, ◌∷◌, ◌++◌, [], length, slice_get, OnOk, OnErr};
ghost use Rattle.std.specs.Option.{option_map};

use crate::parts::bounds;
use std::alloc::{AllocError, Global};
use std::marker::Model;

/// Lists that stand one after another in one vector, so that none has memory of its own. Contracts see the lists.
#[derive(Drop)]
pub struct Joined<T> {
    items: Vec<T>,
    /// Where each list ends.
    ends: Vec<usize>,
}

impl<T> Model for Joined<T> {
    ghost use Rattle.std.specs.Prelude.{List, length};
    ghost use Rattle.joined_lists.specs.Parts.{EndAt, parts};

    ghost Value = { List (List T) };

    ghost view = { λ joined. parts joined.ends.items joined.items.items };

    ghost invariant = { λ joined. EndAt 0 joined.ends.items (length joined.items.items) };
}

impl<T: Copy> Joined<T> {
    /// No lists yet.
    pub fn new(alloc: Global) -> Self
        ensures { result ≡ [] }
    {
        Joined {
            items: Vec::new(alloc),
            ends: Vec::new(alloc),
        }
    }

    /// How many lists there are.
    pub fn len(&self) -> usize
        ensures { result ≡ length self.now }
    {
        self.ends.len()
    }

    /// The list of this place, from 0.
    pub fn get(&self, place: usize) -> Option<&[T]>
        ensures { option_map (λ list. list.now) result ≡ slice_get self.now place }
    {
        let (start, end) = bounds(self.ends.as_slice(), place)?;
        self.items.get(start..end)
    }

    /// Adds a list as the last.
    pub fn push(&mut self, list: &[T]) -> Result<(), AllocError>
        ensures ok { OnOk result (self.new ≡ self.old ++ list.now ∷ []) }
        ensures err { OnErr result (self.new ≡ self.old) }
    {
        self.ends.reserve(1)?;
        self.items.extend_from_slice(list)?;
        self.ends.push_reserved(self.items.len());
        Ok(())
    }
}
