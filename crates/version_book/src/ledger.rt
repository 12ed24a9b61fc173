ghost use Rattle.std.specs.Prelude.{◌≡◌, ◌<◌, ◌++◌, [], ◌∷◌, vec_len, vec_capacity, IfOk};
ghost use Rattle.history.specs.Version.{content_after};
ghost use Rattle.history.specs.declared.effect.Effect.TheVariants.{Commit};

use history::{Entry, World};
use std::alloc::{AllocError, Global};
use std::marker::PhantomData;
use std::snapshot::Snapshot;

/// What the users share: the history, and the state after it.
#[derive(Drop)]
pub struct Ledger<W: World> {
    pub(crate) history: Vec<Entry<W::Writes>>,
    pub(crate) state: W::State,
    pub(crate) opening: Snapshot<W::State>,
    pub(crate) content: PhantomData<W::Content>,
    ghost kept: { W.content state ≡ content_after W.after (W.content opening.value) history.items },
}

impl<W: World> Ledger<W> {
    // Room for one entry more, and the state after it: all the memory that a commit takes.
    pub(crate) fn prepare(
        &mut self,
        alloc: Global,
        writes: &W::Writes,
    ) -> Result<W::State, AllocError>
        requires accepted { (command : W.Command) × (reply : W.Reply)
            × (W.effect (W.content self.old.state) command ≡ Commit writes.now reply) }
        ensures next { IfOk result (λ next. W.content next ≡ W.after (W.content self.old.state) writes.now) }
        ensures room { IfOk result (λ next. vec_len self.new.history < vec_capacity self.new.history) }
        ensures history { self.new.history.items ≡ self.old.history.items }
        ensures state { self.new.state ≡ self.old.state }
        ensures opening { self.new.opening ≡ self.old.opening }
    {
        self.history.reserve(1)?;
        W::next(alloc, &self.state, writes)
    }

    // The ledger with one entry more.
    pub(crate) fn grown(self, entry: Entry<W::Writes>, state: W::State) -> Ledger<W>
        requires room { vec_len self.history < vec_capacity self.history }
        requires state { W.content state ≡ W.after (W.content self.state) entry.writes }
        ensures history { result.history.items ≡ self.history.items ++ entry ∷ [] }
        ensures opening { result.opening ≡ self.opening }
    {
        let Ledger {
            mut history,
            state: _,
            opening,
            content,
        } = self;
        history.push_reserved(entry);
        Ledger {
            history,
            state,
            opening,
            content,
        }
    }
}
