ghost use Rattle.std.specs.Prelude.{◌≡◌, ◌<◌, ◌&&◌, ◌||◌, not, false, IsTrue, is_some, length};
ghost use Rattle.cube_space.specs.Layout.{axes};
ghost use Rattle.order_laws.specs.Earlier.{kinds_before};
ghost use Rattle.ref_order.specs.Known.{IsKnown};
ghost use Rattle.ref_order.specs.Reads.{precedent_of};
ghost use Rattle.arrow_laws.specs.Nodes.{last_of, has_kinds};
ghost use Rattle.arrow_laws.specs.ByDimension.{read_cube, asks_total, admits, HasEach};
ghost use Rattle.read_sources.specs.Sources.{found_in, IsGiven};
ghost use Rattle.read_sources.specs.Ways.{IsSource, precedent, reads_from, way_of, choice, asked};
ghost use Rattle.read_sources.specs.Gathering.{IsReading, IsSought, IsUnread};

use crate::follows::Way;
use crate::given::{Beside, admits, given_beside, gives_nothing, has_each};
use crate::part::Part;
use crate::source::{Given, Source};
use crate::tables::last_of;
use crate::ways::way;
use ref_order::{Known, Read, axis_count, names_leaves};
use rule_model::Model;

/// A reference of a part that reads at the same lag.
#[derive(Clone, Copy)]
pub struct Reading<'a> {
    pub part: Part<'a>,
    pub read: Read<'a>,
    /// Its place in the part, counted from 0.
    pub at: u32,
    /// Whether each cell that is read is of a smaller level than its cell.
    pub weak: bool,
}

/// The dimension by which the node that a source reads is found.
pub fn found_in(model: &Model, source: Source) -> usize
    requires { IsSource model.now source }
    ensures found { result ≡ found_in (last_of model.now.space source.entry.cube) (way_of model.now source.entry) }
    ensures within { result < length (axes model.now.space source.entry.cube) }
{
    match way(model, source) {
        Way::Over(dim, _) => dim as usize,
        _ => last_of(model, source.cube),
    }
}

// Whether a consolidated cell is meant, and no fixed argument names a consolidated element.
fn asks_total(its: Option<bool>, leaves: bool) -> bool
    ensures { result ≡ asks_total its leaves }
{
    match its {
        Some(false) => leaves,
        _ => false,
    }
}

// Whether this gives a consolidated element where one is asked, and one that names one.
fn gives_asked(source: Source, given: Given) -> bool
    ensures { result ≡ ((source.entry.kind || given.own) && (not source.entry.asks || given.its)) }
{
    (source.kind || given.own) && (!source.asks || given.its)
}

// Whether some cell that a source means may be read, as far as single dimensions say.
fn is_reached<'a>(model: &'a Model, known: &mut Known<'a>, source: Source<'a>) -> bool
    requires source { IsSource model.now source }
    requires known { IsKnown model.now source.cube source.area.now known.old }
    ensures unread { result ≡ false → IsUnread model.now source.entry.cube source.entry.area.now source.entry.kind
        (precedent source.entry) source.entry.its }
    ensures fixed { IsTrue result → IsTrue (admits source.entry.its
        (kinds_before model.now (precedent source.entry)).its) }
    ensures each { IsTrue result → HasEach (reads_from model.now source.entry)
        (length (axes model.now.space source.entry.cube)) }
    ensures known { IsKnown model.now source.entry.cube source.entry.area.now known.new }
{
    let _space = model.space();
    if !admits(source.its, names_leaves(model, source.cube, source.read)) {
        return false;
    }
    if !has_each(model, known, source) {
        return false;
    }
    let count = axis_count(model, source.cube);
    let beside = Beside {
        one: count,
        other: count,
    };
    gives_asked(source, given_beside(model, known, source, beside))
}

// What the dimensions give that are neither the last one nor the one by which the node that is read is found.
fn given_elsewhere<'a>(model: &'a Model, known: &mut Known<'a>, source: Source<'a>) -> Given
    requires source { IsSource model.now source }
    requires known { IsKnown model.now source.cube source.area.now known.old }
    ensures given { IsGiven (choice model.now source.entry) (last_of model.now.space source.entry.cube)
        (found_in (last_of model.now.space source.entry.cube) (way_of model.now source.entry)) (asked source.entry)
        result }
    ensures known { IsKnown model.now source.entry.cube source.entry.area.now known.new }
{
    let beside = Beside {
        one: last_of(model, source.cube),
        other: found_in(model, source),
    };
    given_beside(model, known, source, beside)
}

/// The source of the cells that are meant, of those that a reference reads at the same lag; None where none of them is
/// read.
pub fn sought<'a>(
    known: &mut Known<'a>,
    reading: Reading<'a>,
    its: Option<bool>,
) -> Option<Source<'a>>
    requires reading { IsReading reading }
    requires known { IsKnown reading.part.model.now reading.part.cube reading.part.statement.now.area known.old }
    requires its { is_some its ≡ has_kinds reading.part.model.now
        (read_cube reading.part.cube (precedent_of reading.read)) }
    ensures sought { IsSought reading.entry.part (precedent_of reading.entry.read) its result }
    ensures known { IsKnown reading.entry.part.model.now reading.entry.part.cube
        reading.entry.part.statement.now.area known.new }
{
    let part = reading.part;
    let (model, cube) = (part.model, part.cube);
    let leaves = names_leaves(model, cube, reading.read);
    let source = Source {
        cube,
        area: &part.statement.area,
        statement: part.number,
        reference: part.before + reading.at + 1,
        kind: part.kind,
        read: reading.read,
        its,
        asks: asks_total(its, leaves),
        weak: reading.weak,
        elsewhere: gives_nothing(),
    };
    if !is_reached(model, known, source) {
        return None;
    }
    let elsewhere = given_elsewhere(model, known, source);
    Some(Source {
        elsewhere,
        ..source
    })
}
