ghost use Rattle.std.specs.Prelude.{◌≡◌, IfOk, IfSome, None, OnOk, OnErr};
ghost use Rattle.history.specs.declared.effect.Effect.TheVariants.{Commit};
ghost use Rattle.sandbox.specs.Sandboxes.{FitsNoMore, GoesOnWith, IsOver, Sandboxing};

use crate::act::Note;
use history::World;
use std::alloc::{AllocError, Global};

/// A state with writes laid over it, or the reply where these writes pass a limit on it.
#[derive(Drop)]
pub enum Over<S, R> {
    Fits(S),
    Unfit(R),
}

/// A world whose users may have sandboxes.
pub trait Layered: World {
    /// What the code of a sandbox keeps. It means writes.
    type Layer: Drop;

    /// What this world says of sandboxes.
    ghost sandbox: { Sandboxing Self.Content Self.Command Self.Writes Self.Reply };
    /// The writes that a layer means.
    ghost kept_writes: { Self.Layer → Self.Writes };

    /// A layer of no writes.
    fn none(alloc: Global) -> Result<Self::Layer, AllocError>
        ensures none { IfOk result (λ layer. kept_writes layer ≡ sandbox.none) };

    /// Keeps these writes too, after those that are kept. Where memory runs out the layer is as it was.
    fn keep(alloc: Global, layer: &mut Self::Layer, writes: &Self::Writes) -> Result<(), AllocError>
        ensures joined { OnOk result (kept_writes layer.new ≡ sandbox.join (kept_writes layer.old) writes.now) }
        ensures err { OnErr result (kept_writes layer.new ≡ kept_writes layer.old) };

    /// The command that commits just the kept writes.
    fn fixed(alloc: Global, layer: &Self::Layer) -> Result<Self::Command, AllocError>
        ensures fixed { IfOk result (λ command. command ≡ sandbox.fixed (kept_writes layer.now)) };

    /// A state of the content after the kept writes. It shares nothing with the state below that a call could change.
    fn over(
        alloc: Global,
        state: &Self::State,
        layer: &Self::Layer,
    ) -> Result<Over<Self::State, Self::Reply>, AllocError>
        ensures over { IfOk result (λ over.
            IsOver Self.content (Self.after (Self.content state.now) (kept_writes layer.now))
            (sandbox.unfit (Self.content state.now) (kept_writes layer.now)) over) };

    /// The state over which a layer is laid, after the writes of a command that is accepted on it: the state with these
    /// writes kept too. None where the layer no longer fits with them.
    fn go_on(
        alloc: Global,
        private: &Self::State,
        writes: &Self::Writes,
    ) -> Result<Option<Self::State>, AllocError>
        requires accepted { (command : Self.Command) × (reply : Self.Reply)
            × (Self.effect (Self.content private.now) command ≡ Commit writes.now reply) }
        ensures goes_on { IfOk result (λ next. IfSome next (λ next.
            GoesOnWith Self.content Self.after sandbox private.now writes.now next)) }
        ensures none { IfOk result (λ next. next ≡ None
            → FitsNoMore Self.content Self.after sandbox private.now writes.now) };

    /// The reply to an act that opens or ends a sandbox.
    fn note(alloc: Global, note: Note) -> Result<Self::Reply, AllocError>
        ensures note { IfOk result (λ reply. reply ≡ sandbox.note note) };

    /// The reply to a command whose writes were kept in the sandbox, where they would have been committed with this
    /// reply.
    fn kept(alloc: Global, reply: Self::Reply) -> Result<Self::Reply, AllocError>
        ensures kept { IfOk result (λ kept. kept ≡ sandbox.kept reply) };
}
