ghost use Rattle.rule_model.specs.Conditions.{IsPrecedent};
ghost use Rattle.ref_order.specs.Known.{IsKnown};
ghost use Rattle.ref_order.specs.Reads.{precedent_of};
ghost use Rattle.read_sources.specs.Gathering.{IsPart, IsSeen};

use ref_order::{AreaCells, Known, MAX_POSITIONS, Read, is_below, is_within, most_excess};
use rule_model::{Model, Statement};

/// A part of a statement.
#[derive(Clone, Copy)]
pub struct Part<'a> {
    pub model: &'a Model,
    pub cube: u32,
    pub statement: &'a Statement,
    /// The number of the statement in the cube, from 1.
    pub number: u32,
    /// Whether it is for leaf cells.
    pub kind: bool,
    /// How many references of the statement are counted before its own.
    pub before: u32,
}

/// What is seen of a reference of a part.
#[derive(Clone, Copy)]
pub enum Seen {
    /// It may read at a greater lag.
    Greater,
    /// It reads at smaller lags.
    Smaller,
    /// It reads at the same lag; whether each cell that is read is of a smaller level than its cell.
    Level(bool),
}

/// What comes of a reference of a part.
pub fn look<'a>(part: Part<'a>, known: &mut Known<'a>, read: Read<'a>) -> Seen
    requires part { IsPart part }
    requires known { IsKnown part.model.now part.cube part.statement.now.area known.old }
    requires read { IsPrecedent part.model.now.space part.cube (precedent_of read) }
    ensures seen { IsSeen part.entry (precedent_of read.entry) result }
    ensures known { IsKnown part.entry.model.now part.entry.cube part.entry.statement.now.area known.new }
{
    let Part {
        model,
        cube,
        kind,
        ..
    } = part;
    let area = &part.statement.area;
    let cells = AreaCells { model, cube, area };
    let lag = most_excess(cells, known, kind, read, 0);
    if !is_within(lag) {
        return Seen::Greater;
    }
    if is_below(lag) {
        return Seen::Smaller;
    }
    Seen::Level(is_below(most_excess(cells, known, kind, read, MAX_POSITIONS)))
}
