ghost use Rattle.std.specs.Prelude.{◌≡◌, ◌<◌, IfOk};
ghost use Rattle.memo_cells.specs.Shared.{known_to, memo_of, version_kept};
ghost use Rattle.memo_cells.specs.Seats.{slots_of};

use crate::answers::{Kept, Look};
use crate::held::{held_value, hold};
use crate::memo::Memo;
use crate::memory::Memory;
use crate::shared::SharedMemo;
use cell_store::Store;
use cube_fixed::Value;
use rule_model::Model;
use std::alloc::{AllocError, Global};
use std::collections::BTreeMap;
use std::sync::Arc;

impl SharedMemo {
    /// A memo of so many slots for a version, with the first seat at it. No value is kept yet.
    pub fn new(
        alloc: Global,
        model: &Model,
        store: &Store,
        version: u64,
        slots: u32,
    ) -> Result<SharedMemo, AllocError>
        requires { 0 < slots }
        ensures number { IfOk result (λ made. (version_kept made).number ≡ version) }
        ensures model { IfOk result (λ made. (version_kept made).model.value ≡ model.now) }
        ensures stored { IfOk result (λ made. (version_kept made).stored.value ≡ store.now) }
        ensures slots { IfOk result (λ made. slots_of (memo_of made) ≡ slots) }
    {
        let (memo, seat) = Memo::new(alloc, model, store, version, slots)?;
        let memo = Arc::new(alloc, memo)?;
        Ok(SharedMemo {
            memo,
            seat,
            held: BTreeMap::new(alloc),
            alloc,
        })
    }

    /// The same memo for another reader, who knows what this one knows, and holds nothing for itself yet. It doesn't
    /// wait.
    pub fn share(&mut self) -> Result<SharedMemo, AllocError>
        ensures same { IfOk result (λ shared. memo_of shared ≡ memo_of self.old) }
        ensures knows { IfOk result (λ shared. known_to shared ≡ known_to self.old) }
        ensures memo { memo_of self.new ≡ memo_of self.old }
        ensures known { known_to self.new ≡ known_to self.old }
    {
        let memo = Arc::try_clone(&self.memo)?;
        let seat = memo.split(&mut self.seat);
        Ok(SharedMemo {
            memo,
            seat,
            held: BTreeMap::new(self.alloc),
            alloc: self.alloc,
        })
    }
}

impl Memory for SharedMemo {
    ghost use Rattle.memo_cells.specs.Values.{cell_value};
    ghost use Rattle.memo_cells.specs.Shared.{has_room, holds, known_to, version_kept};

    ghost values = { λ shared. cell_value (version_kept shared) };

    ghost known = { known_to };

    ghost holds = { holds };

    ghost has_room = { has_room };

    fn look(&mut self, cell: u64) -> Look {
        self.memo.look(&mut self.seat, cell)
    }

    fn recall(&self, cell: u64) -> Option<Value> {
        held_value(&self.held, cell)
    }

    fn reserve(&mut self, cell: u64) {
        self.memo.reserve(&mut self.seat, cell);
    }

    fn keep(&mut self, cell: u64, value: &Value) -> Result<Kept, AllocError> {
        match self.memo.keep(&mut self.seat, cell, value) {
            Kept::Here => Ok(Kept::Here),
            Kept::Other(other) => {
                hold(&mut self.held, cell, value)?;
                Ok(Kept::Other(other))
            }
        }
    }
}
