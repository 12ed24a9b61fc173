ghost use Rattle.std.specs.Prelude.{◌≡◌, ◌*◌, ◌<◌, ◌^◌};

use crate::plays::MemoRule;
use crate::seat::SeatView;
use crate::version::About;
use atomic_table::Table;
use std::alloc::Global;

/// The values of a version's cells, as far as they are kept.
#[derive(Drop)]
pub struct Memo {
    pub(crate) table: Table<(), SeatView, About, MemoRule, Global>,
    pub(crate) slots: u64,
    ghost counts: { (slots ≡ table.shared.key.slots) × (0 < slots) × (slots < 2 ^ 32) },
    ghost words: { table.shared.table_id.words ≡ 2 * slots },
}
