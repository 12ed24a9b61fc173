use crate::world::CellWrites;
use cube_fixed::Money;
use lists::ListOf;
use script_bound::BoundScript;
use std::alloc::Global;
use std::sync::Arc;
use user_text::{CellText, LoadJob, SpreadWord, ViewText};

/// The name of the rule file of each cube, empty where a cube has none. All traces share the names.
pub type RuleFileNames = Arc<ListOf<ListOf<u8>>, Global>;

/// A command that is run on a version of the numbers.
#[derive(Drop)]
pub enum PlanCommand {
    /// Stores this number in a cell. Only leaf cells are stored.
    Put(CellText, Money),
    /// Asks for the value of a cell.
    Get(CellText),
    /// Runs a script over records, and stores what it writes: all of it or nothing. The script is bound once, for all
    /// loads of it.
    Load(LoadJob, Arc<BoundScript, Global>),
    /// Asks for a table of cells.
    View(ViewText),
    /// Spreads an amount over the leaf cells below a cell, and stores their shares.
    Spread(CellText, Money, SpreadWord),
    /// Asks why a cell has its value.
    Trace(CellText, RuleFileNames),
    /// Stores just these numbers, all of them or none: what a sandbox has kept, when it is published. No text means it.
    Fixed(CellWrites),
}
