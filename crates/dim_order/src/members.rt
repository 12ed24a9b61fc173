ghost use Rattle.std.specs.Prelude.{◌≡◌, ◌<◌, false, [], IfOk, OnOk, OnErr, length};
ghost use Rattle.dim_order.specs.Members.{is_among, with_member};

use std::alloc::{AllocError, Global};
use std::marker::Model;

/// A set of elements that keeps the order in which they joined.
#[derive(Drop)]
pub struct Members {
    flags: Vec<bool>,
    list: Vec<u32>,
}

impl Model for Members {
    ghost use Rattle.std.specs.Prelude.{◌≡◌, ℕ, false, length, slice_index_or};
    ghost use Rattle.dim_order.specs.Members.{Joined, is_among};

    ghost Value = { Joined };

    ghost view = { λ m. record { room = length m.flags.items; list = m.list.items } };

    ghost invariant = { λ m. (k : ℕ) → slice_index_or m.flags.items k false ≡ is_among m.list.items k };
}

impl Members {
    /// An empty set with room for the elements below `room`.
    pub fn new(alloc: Global, room: usize) -> Result<Members, AllocError>
        ensures { IfOk result (λ members. members ≡ record { room = room; list = [] }) }
    {
        Ok(Members {
            flags: vec![in alloc; false; room]?,
            list: Vec::new(alloc),
        })
    }

    /// How many have joined.
    pub fn len(&self) -> usize
        ensures { result ≡ length self.now.list }
    {
        self.list.len()
    }

    /// Whether an element has joined.
    pub fn has(&self, element: u32) -> bool
        ensures { result ≡ is_among self.now.list element }
    {
        self.flags.get(element as usize).copied().unwrap_or(false)
    }

    /// Adds an element, as the last.
    pub fn add(&mut self, element: u32) -> Result<(), AllocError>
        requires within { element < self.old.room }
        ensures added { OnOk result (self.new ≡ with_member self.old element) }
        ensures unchanged { OnErr result (self.new ≡ self.old) }
    {
        self.list.push(element)?;
        self.flags[element as usize] = true;
        Ok(())
    }

    /// The elements in the order in which they joined.
    pub fn into_list(self) -> Vec<u32>
        ensures { result.items ≡ self.list }
    {
        let Members { flags: _, list } = self;
        list
    }
}
