ghost use Rattle.std.specs.Prelude.{◌≡◌, ◌<◌, ◌++◌, [], IfOk};
ghost use Rattle.memo_cells.specs.Knowledge.{Grew};
ghost use Rattle.memo_cells.specs.Seats.{IsAt, claimed, knowledge, slots_of, version_of};

use crate::memo::Memo;
use crate::plays::Meets;
use crate::seat::MemoSeat;
use crate::version::{About, Version};
use atomic_table::Table;
use cell_store::Store;
use rule_model::Model;
use std::alloc::{AllocError, Global};
use std::snapshot::Snapshot;

impl Memo {
    /// A memo of so many slots, two words each, with the first seat at it. No value is kept yet.
    pub fn new(
        alloc: Global,
        model: &Model,
        store: &Store,
        version: u64,
        slots: u32,
    ) -> Result<(Memo, MemoSeat), AllocError>
        requires { 0 < slots }
        ensures number { IfOk result (λ made. (version_of made.0).number ≡ version) }
        ensures model { IfOk result (λ made. (version_of made.0).model.value ≡ model.now) }
        ensures stored { IfOk result (λ made. (version_of made.0).stored.value ≡ store.now) }
        ensures slots { IfOk result (λ made. slots_of made.0 ≡ slots) }
        ensures seat { IfOk result (λ made. IsAt made.0 made.1) }
        ensures claimed { IfOk result (λ made. claimed made.1 ≡ []) }
    {
        let about = About {
            version: Version {
                number: version,
                model: Snapshot::of(model),
                stored: Snapshot::of(store),
            },
            slots: u64::from(slots),
        };
        let words = Vec::from_elem(alloc, 0u64, 2 * slots as usize)?;
        let (table, seat) = Table::of_words(alloc, words.as_slice(), &about)?;
        let memo = Memo {
            table,
            slots: u64::from(slots),
        };
        Ok((memo, MemoSeat { seat }))
    }

    /// A seat for another reader, which knows what this one knows. It doesn't wait.
    pub fn split(&self, seat: &mut MemoSeat) -> MemoSeat
        requires { IsAt self.now seat.old }
        ensures made { IsAt self.now result }
        ensures knows { knowledge result ≡ knowledge seat.old }
        ensures claims { claimed result ≡ [] }
        ensures seat { IsAt self.now seat.new }
        ensures same { knowledge seat.new ≡ knowledge seat.old }
        ensures claimed { claimed seat.new ≡ claimed seat.old }
    {
        let seat = self.table.shared.split_seat::<Meets>(&mut seat.seat);
        MemoSeat { seat }
    }

    /// Takes another reader's seat back: this one then knows what both knew. It doesn't wait.
    pub fn join(&self, seat: &mut MemoSeat, other: MemoSeat)
        requires seat { IsAt self.now seat.old }
        requires other { IsAt self.now other }
        ensures seat { IsAt self.now seat.new }
        ensures own { Grew (knowledge seat.old) (knowledge seat.new) }
        ensures other { Grew (knowledge other) (knowledge seat.new) }
        ensures claimed { claimed seat.new ≡ claimed seat.old ++ claimed other }
    {
        let MemoSeat { seat: other } = other;
        self.table.shared.join_seat::<Meets>(&mut seat.seat, other);
    }
}
