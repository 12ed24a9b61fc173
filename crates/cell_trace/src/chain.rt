ghost use Rattle.std.specs.Prelude.{◌≡◌, [], IfOk};
ghost use Rattle.cell_trace.specs.Inside.Chain.{IsChain, IsFound, IsPart, entered_with, takes_with};
ghost use Rattle.cell_trace.specs.Inside.Place.{given_at};
ghost use Rattle.cell_trace.specs.Inside.Sums.{IsReady};
ghost use Rattle.cell_trace.specs.Trace.{reaches_own, reaches_rest};
ghost use Rattle.cell_trace.specs.Visits.{visit};

use crate::entered::Entered;
use crate::here::Here;
use crate::item::Item;
use crate::known::{Known, stet};
use crate::next::Next;
use crate::visit::visit;
use cell_reader::Snapshot;
use cube_fixed::Value;
use lists::ListOf;
use std::alloc::{AllocError, Global};

/// What statements give the cell, the first before the others.
#[derive(Drop)]
pub(crate) struct Chain {
    pub value: Value,
    /// Whether it is what the cell would have if no statement governed it.
    pub takes_own: bool,
    /// The statements that are entered, the last one first.
    pub entered: Vec<Entered>,
}

impl Chain {
    // Of statements that aren't entered.
    fn none(alloc: Global, value: Value, takes_own: bool) -> Chain
        ensures value { result.value ≡ value }
        ensures own { result.takes_own ≡ takes_own }
        ensures entered { result.entered.items ≡ [] }
    {
        Chain {
            value,
            takes_own,
            entered: Vec::new(alloc),
        }
    }
}

/// What a statement's formula gives, and what evaluation reaches in it.
#[derive(Drop)]
pub(crate) struct Found {
    pub value: Value,
    pub visited: ListOf<Option<Item>>,
}

// Whether evaluation reaches `CONTINUE`.
fn reaches_rest(visited: &[Option<Item>]) -> bool
    ensures { result ≡ reaches_rest visited.now }
{
    for item in visited {
        if let Some(Item::Rest) = item {
            return true;
        }
    }
    false
}

// Whether it reaches `STET`.
fn reaches_own(visited: &[Option<Item>]) -> bool
    ensures { result ≡ reaches_own visited.now }
{
    for item in visited {
        if let Some(Item::Own) = item {
            return true;
        }
    }
    false
}

/// What the statements from a place on give the cell. The later ones are worked out where evaluation reaches
/// `CONTINUE`, and then the formula is evaluated once more.
pub(crate) fn chain_from(
    here: &Here,
    from: usize,
    known: &mut Known,
    reader: &mut Snapshot,
) -> Result<Chain, AllocError>
    requires { IsReady here.now known.old reader.old }
    ensures chain { IfOk result (IsChain here.now from) }
    ensures ready { IsReady here.now known.new reader.new }
{
    let Some(next) = here.next(from) else {
        let value = stet(here, known, reader)?;
        return Ok(Chain::none(here.alloc(), value, true));
    };
    let alone = find(here, &next, &Value::ZERO, known, reader)?;
    if !reaches_rest(alone.visited.as_slice()) {
        let later = Chain::none(here.alloc(), Value::ZERO, false);
        return with_entered(&next, alone, later);
    }
    let later = chain_from(here, next.place as usize + 1, known, reader)?;
    let found = find(here, &next, &later.value, known, reader)?;
    with_entered(&next, found, later)
}

// Finds what a statement's formula gives, where the statements after it give `rest`.
fn find(
    here: &Here,
    next: &Next,
    rest: &Value,
    known: &mut Known,
    reader: &mut Snapshot,
) -> Result<Found, AllocError>
    requires part { IsPart here.now next.now }
    requires ready { IsReady here.now known.old reader.old }
    ensures found { IfOk result (IsFound (visit (given_at here.now rest.now) next.now.formula.now)) }
    ensures ready { IsReady here.now known.new reader.new }
{
    let mut visited = Vec::new(here.alloc());
    let value = visit(here, rest, next.formula, known, reader, &mut visited)?;
    Ok(Found {
        value,
        visited: ListOf::new(visited),
    })
}

// What a statement gives the cell, where this is found in it, before those that come after it. What these give doesn't
// matter where evaluation doesn't reach `CONTINUE`.
fn with_entered(next: &Next, found: Found, later: Chain) -> Result<Chain, AllocError>
    ensures value { IfOk result (λ chain. chain.value ≡ found.value) }
    ensures own { IfOk result (λ chain. chain.takes_own ≡ takes_with found later) }
    ensures entered { IfOk result (λ chain. chain.entered.items ≡ entered_with next.now found later) }
{
    let continued = reaches_rest(found.visited.as_slice());
    let takes_own = reaches_own(found.visited.as_slice()) || continued && later.takes_own;
    let mut entered = later.entered;
    if !continued {
        entered.clear();
    }
    entered.push(Entered {
        place: next.place,
        first: next.first,
        visited: found.visited,
    })?;
    Ok(Chain {
        value: found.value,
        takes_own,
        entered,
    })
}
