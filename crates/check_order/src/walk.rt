ghost use Rattle.std.specs.Prelude.{◌≡◌, suc, ◌+◌, ◌<◌, ◌^◌, map, IfSome};
ghost use Rattle.rule_laws.specs.Meaning.{precedents, truth_precedents};
ghost use Rattle.rule_model.specs.Conditions.{IsPrecedent, IsConsolidatedPart, read_count};
ghost use Rattle.order_laws.specs.Earlier.{is_earlier};
ghost use Rattle.ref_order.specs.Areas.{IsAreaCells};
ghost use Rattle.ref_order.specs.Known.{IsKnown};
ghost use Rattle.ref_order.specs.Reads.{precedent_of};
ghost use Rattle.check_order.specs.References.{part_marks};
ghost use Rattle.check_order.specs.Inside.Walk.{AreReads, seen_next, seen_after, earliest};

use ref_order::{AreaCells, Known, Read, is_earlier};
use rule_laws::{Formula, Truth};

/// What a walk over the references of a statement has seen.
#[derive(Clone, Copy)]
pub struct Seen {
    /// How many references.
    pub count: u32,
    /// The first of them, counted from 1, that doesn't stand before its cells.
    pub late: Option<u32>,
}

impl Seen {
    pub const NONE: Seen = Seen {
        count: 0,
        late: None,
    };
}

fn next(seen: Seen, earlier: bool) -> Seen
    requires { suc seen.count < 2 ^ 32 }
    ensures { result ≡ seen_next seen earlier }
{
    let count = seen.count + 1;
    let late = match seen.late {
        Some(late) => Some(late),
        None if earlier => None,
        None => Some(count),
    };
    Seen { count, late }
}

/// The first of two numbers, where both are there.
pub fn earliest(first: Option<u32>, second: Option<u32>) -> Option<u32>
    ensures { result ≡ earliest first second }
{
    match (first, second) {
        (None, second) => second,
        (Some(first), None) => Some(first),
        (Some(first), Some(second)) => Some(first.min(second)),
    }
}

fn read<'a>(cells: AreaCells, known: &mut Known<'a>, kind: bool, read: Read<'a>, seen: Seen) -> Seen
    requires cells { IsAreaCells cells }
    requires known { IsKnown cells.model.now cells.cube cells.area.now known.old }
    requires read { IsPrecedent cells.model.now.space cells.cube (precedent_of read) }
    requires few { suc seen.count < 2 ^ 32 }
    ensures seen { result ≡ seen_next seen (is_earlier cells.entry.model.now cells.entry.cube cells.entry.area.now kind
        (precedent_of read.entry)) }
    ensures known { IsKnown cells.entry.model.now cells.entry.cube cells.entry.area.now known.new }
{
    next(seen, is_earlier(cells, known, kind, read))
}

/// Goes over what a formula reads, in reading order.
#[cycle(walk)]
fn walk<'a>(
    cells: AreaCells,
    known: &mut Known<'a>,
    kind: bool,
    formula: &'a Formula,
    seen: Seen,
) -> Seen
    requires cells { IsAreaCells cells }
    requires known { IsKnown cells.model.now cells.cube cells.area.now known.old }
    requires reads { AreReads cells.model.now.space cells.cube seen.count (precedents formula.now) }
    ensures seen { result ≡ seen_after seen
        (map (is_earlier cells.entry.model.now cells.entry.cube cells.entry.area.now kind) (precedents formula.now)) }
    ensures known { IsKnown cells.entry.model.now cells.entry.cube cells.entry.area.now known.new }
{
    match formula {
        Formula::Number(_) | Formula::Stet | Formula::Continue | Formula::Table(_, _) => seen,
        Formula::Children(dim) => read(cells, known, kind, Read::Children(*dim), seen),
        Formula::Ref(reference) => read(cells, known, kind, Read::Cell(reference), seen),
        Formula::Binary(_, left, right) => {
            let after = walk(cells, known, kind, left.get(), seen);
            walk(cells, known, kind, right.get(), after)
        }
        Formula::Unary(_, inner) => walk(cells, known, kind, inner.get(), seen),
        Formula::If(truth, left, right) => {
            let after = walk_truth(cells, known, kind, truth.get(), seen);
            let after = walk(cells, known, kind, left.get(), after);
            walk(cells, known, kind, right.get(), after)
        }
    }
}

#[cycle(walk)]
fn walk_truth<'a>(
    cells: AreaCells,
    known: &mut Known<'a>,
    kind: bool,
    truth: &'a Truth,
    seen: Seen,
) -> Seen
    requires cells { IsAreaCells cells }
    requires known { IsKnown cells.model.now cells.cube cells.area.now known.old }
    requires reads { AreReads cells.model.now.space cells.cube seen.count (truth_precedents truth.now) }
    ensures seen { result ≡ seen_after seen
        (map (is_earlier cells.entry.model.now cells.entry.cube cells.entry.area.now kind)
        (truth_precedents truth.now)) }
    ensures known { IsKnown cells.entry.model.now cells.entry.cube cells.entry.area.now known.new }
{
    match truth {
        Truth::Compare(_, left, right) => {
            let after = walk(cells, known, kind, left, seen);
            walk(cells, known, kind, right, after)
        }
        Truth::And(left, right) => {
            let after = walk_truth(cells, known, kind, left.get(), seen);
            walk_truth(cells, known, kind, right.get(), after)
        }
        Truth::Or(left, right) => {
            let after = walk_truth(cells, known, kind, left.get(), seen);
            walk_truth(cells, known, kind, right.get(), after)
        }
        Truth::Not(inner) => walk_truth(cells, known, kind, inner.get(), seen),
    }
}

/// Goes over what a part of a statement reads.
pub fn walk_part<'a>(
    cells: AreaCells,
    known: &mut Known<'a>,
    kind: bool,
    part: &'a Option<Formula>,
    seen: Seen,
) -> Seen
    requires cells { IsAreaCells cells }
    requires known { IsKnown cells.model.now cells.cube cells.area.now known.old }
    requires reads { IfSome part.now (IsConsolidatedPart cells.model.now.space cells.cube) }
    requires few { seen.count + read_count part.now < 2 ^ 32 }
    ensures seen { result ≡ seen_after seen
        (part_marks cells.entry.model.now cells.entry.cube cells.entry.area.now kind part.now) }
    ensures known { IsKnown cells.entry.model.now cells.entry.cube cells.entry.area.now known.new }
{
    match part {
        Some(formula) => walk(cells, known, kind, formula, seen),
        None => seen,
    }
}
