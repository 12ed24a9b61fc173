ghost use Rattle.std.specs.Prelude.{◌≡◌, ◌+◌, length, IfOk};
ghost use Rattle.history.specs.Version.{content_after};
ghost use Rattle.version_book.specs.Lists.{GoesOn};
ghost use Rattle.version_book.specs.Passes.{IsOf, IsSame, looks, numbers_of, opening_of, seen};

use crate::book::{Book, Pass, Pin, Tried, TriedOf};
use history::World;
use std::alloc::{AllocError, Global};
use std::sync::Wait;

impl<W: World> Book<W> {
    /// A state of the whole history, which the pass then has seen. The turn is held to share the state and no longer.
    pub fn pin<R: Wait>(
        &self,
        rt: &R,
        alloc: Global,
        pass: &mut Pass<W>,
    ) -> Result<Pin<W>, AllocError>
        requires of { IsOf self.now pass.old }
        ensures of { IsOf self.now pass.new }
        ensures same { IsSame pass.old pass.new }
        ensures looks { looks pass.new ≡ looks pass.old + 1 }
        ensures seen { GoesOn (seen pass.old) (seen pass.new) (numbers_of pass.old) }
        ensures place { IfOk result (λ pin. pin.place ≡ length (seen pass.new)) }
        ensures state { IfOk result (λ pin.
            W.content pin.state ≡ content_after W.after (W.content (opening_of self.now)) (seen pass.new)) }
    {
        self.take_turn(rt, &mut pass.place);
        let place = self.look(&mut pass.place);
        let mut ledger = self.take_ledger(&mut pass.place);
        let shared = W::share(alloc, &mut ledger.state);
        self.put_ledger(&mut pass.place, ledger);
        self.free_turn(&mut pass.place);
        let state = shared?;
        Ok(Pin { place, state })
    }
}

impl<W: World> Pin<W> {
    /// The number of the version.
    pub fn place(&self) -> u64
        ensures { result ≡ self.now.place }
    {
        self.place
    }

    /// The state of the version.
    pub fn state(&self) -> &W::State
        ensures { result.now ≡ self.now.state }
    {
        &self.state
    }

    /// What the command does on the pin's version. Nothing is committed. A pin answers one command.
    pub fn attempt(self, alloc: Global, command: &W::Command) -> Result<Tried<W>, AllocError>
        ensures { IfOk result (λ tried. (tried.place ≡ self.place)
            × (tried.effect ≡ W.effect (W.content self.state) command.now)) }
    {
        let Pin { place, mut state } = self;
        let effect = W::attempt(alloc, &mut state, command)?;
        Ok(TriedOf { place, effect })
    }
}
