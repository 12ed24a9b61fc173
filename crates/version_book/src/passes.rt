ghost use Rattle.std.specs.Prelude.{◌≡◌, ◌≢◌, ℕ, ◌+◌, ◌<◌, ◌^◌, ◌++◌, true, [], ◌∷◌, None, Some, slice_get, IfOk};
ghost use Rattle.history.specs.Version.{content_after};
ghost use Rattle.version_book.specs.Lists.{GoesOn};
ghost use Rattle.version_book.specs.Passes.{IsFirst, IsOf, looks, next_of, number_of, numbers_of, opening_of, seen};
ghost use Rattle.version_book.specs.Numbers.{has, next_of_both};

use crate::book::{Book, BookOf, Closed, ClosedOf, Pass, PassOf};
use crate::ledger::Ledger;
use crate::rule::Meets;
use atomic_table::{Refused, Table};
use history::World;
use std::alloc::{AllocError, Global};
use std::marker::PhantomData;
use std::snapshot::Snapshot;
use std::sync::Wait;

impl<W: World> Book<W> {
    /// A book whose history is empty, over this state, with the first pass.
    pub fn begin(alloc: Global, state: W::State) -> Result<(Book<W>, Pass<W>), AllocError>
        ensures opening { IfOk result (λ begun. opening_of begun.0 ≡ state) }
        ensures of { IfOk result (λ begun. IsOf begun.0 begun.1) }
        ensures first { IfOk result (λ begun. IsFirst begun.1) }
    {
        let opening = Snapshot::of(&state);
        let ledger = Ledger {
            history: Vec::new(alloc),
            opening: Snapshot::of(&state),
            state,
            content: PhantomData,
        };
        let mut slots = Vec::new(alloc);
        slots.push(Some(ledger))?;
        match Table::new(alloc, &[0, 0], slots, &opening) {
            Ok((table, place)) => {
                let pass = PassOf {
                    place,
                    number: 0,
                    next: Some(1),
                };
                Ok((BookOf { table }, pass))
            }
            Err(Refused { slots: _ }) => Err(AllocError),
        }
    }

    /// A pass of the next number, which has seen what this one has seen. It doesn't wait.
    pub fn split(&self, pass: &mut Pass<W>) -> Pass<W>
        requires of { IsOf self.now pass.old }
        requires gives { (next : ℕ) × (next_of pass.old ≡ Some next) × (next < 2 ^ 32) }
        ensures of { IsOf self.now result }
        ensures number { Some (number_of result) ≡ next_of pass.old }
        ensures numbers { numbers_of result ≡ number_of result ∷ [] }
        ensures seen { seen result ≡ seen pass.old }
        ensures looks { looks result ≡ 0 }
        ensures none { next_of result ≡ None }
        ensures giver { IsOf self.now pass.new }
        ensures same { (number_of pass.new ≡ number_of pass.old) × (numbers_of pass.new ≡ numbers_of pass.old) }
        ensures kept { (seen pass.new ≡ seen pass.old) × (looks pass.new ≡ looks pass.old) }
        ensures next { next_of pass.new ≡ Some (number_of result + 1) }
    {
        let place = self.table.shared.split_seat::<Meets>(&mut pass.place);
        let Some(number) = pass.next else {
            unreachable!()
        };
        pass.next = Some(number + 1);
        PassOf {
            place,
            number: number as u32,
            next: None,
        }
    }

    /// One pass of two: it has the numbers of both, and has seen what both had seen.
    pub fn meet<R: Wait>(&self, rt: &R, one: Pass<W>, other: Pass<W>) -> Pass<W>
        requires one { IsOf self.now one }
        requires other { IsOf self.now other }
        ensures of { IsOf self.now result }
        ensures number { number_of result ≡ number_of one }
        ensures numbers { numbers_of result ≡ numbers_of one ++ numbers_of other }
        ensures looks { looks result ≡ looks one + 1 }
        ensures next { next_of result ≡ next_of_both (next_of one) (next_of other) }
        ensures one { GoesOn (seen one) (seen result) (numbers_of one) }
        ensures other { GoesOn (seen other) (seen result) (numbers_of other) }
    {
        let PassOf {
            mut place,
            number,
            next,
        } = one;
        let PassOf {
            place: second,
            number: _,
            next: other_next,
        } = other;
        self.table.shared.join_seat::<Meets>(&mut place, second);
        self.take_turn(rt, &mut place);
        self.look(&mut place);
        self.free_turn(&mut place);
        let next = match next {
            Some(number) => Some(number),
            None => other_next,
        };
        PassOf {
            place,
            number,
            next,
        }
    }

    /// Ends the book: its history is what the pass has seen, once all other passes were met into this one. It doesn't
    /// wait.
    pub fn close(self, pass: Pass<W>) -> Closed<W>
        requires of { IsOf self pass }
        requires all { (next : ℕ) × (next_of pass ≡ Some next)
            × ((number : ℕ) → number < next → has (numbers_of pass) number ≡ true) }
        ensures history { result.history.items ≡ seen pass }
        ensures state { W.content result.state ≡ content_after W.after (W.content (opening_of self)) (seen pass) }
        ensures users { (p : ℕ) (entry : _) → slice_get (seen pass) p ≡ Some entry
            → has (numbers_of pass) entry.user ≡ true }
    {
        let BookOf { table } = self;
        let PassOf { place, .. } = pass;
        let mut closed = table.close_with(place);
        let slot = closed.take(0);
        closed.free();
        match slot {
            Some(Ledger { history, state, .. }) => ClosedOf { history, state },
            None => unreachable!(),
        }
    }
}
