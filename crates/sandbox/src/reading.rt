ghost use Rattle.std.specs.Prelude.{◌≡◌, IfOk, OnErr, None, Some};
ghost use Rattle.history.specs.declared.effect.Effect.{Effect};
ghost use Rattle.history.specs.declared.effect.Effect.TheVariants.{Read};
ghost use Rattle.sandbox.specs.Sandboxes.{answer, kept_in, where_fit, Reads};
ghost use Rattle.sandbox.specs.Sandboxes.{layer_in, IsLaid, IsOver, IsPrivate};

use crate::act::{Act, Note};
use crate::layered::{Layered, Over};
use crate::open::{Sandbox, SandboxOf};
use history::Effect;
use std::alloc::{AllocError, Global};

/// Answers an act that commits nothing, on this state, and gives the user's next layer. A private state that the
/// sandbox has is of this state's content; it may have another one then. Where memory runs out the layer is as it was.
pub fn read_in<W: Layered>(
    alloc: Global,
    state: &W::State,
    own: &mut Option<Sandbox<W>>,
    act: &Act<W::Command>,
) -> Result<W::Reply, AllocError>
    requires reads { Reads (layer_in W.kept_writes own.old) act.now }
    requires laid { IsLaid W.content W.after W.sandbox.unfit W.kept_writes (W.content state.now) own.old }
    ensures told { IfOk result (λ reply. answer W.effect W.after W.sandbox (W.content state.now)
        (layer_in W.kept_writes own.old) act.now ≡ (Read reply, layer_in W.kept_writes own.new)) }
    ensures err { OnErr result (layer_in W.kept_writes own.new ≡ layer_in W.kept_writes own.old) }
    ensures laid { IsLaid W.content W.after W.sandbox.unfit W.kept_writes (W.content state.now) own.new }
{
    match act {
        Act::Open => {
            if own.is_some() {
                return W::note(alloc, Note::AlreadyOpen);
            }
            let reply = W::note(alloc, Note::Opened)?;
            let layer = W::none(alloc)?;
            *own = Some(SandboxOf {
                layer,
                private: None,
            });
            Ok(reply)
        }
        Act::Publish => W::note(alloc, Note::NoSandbox),
        Act::Discard => {
            if own.is_none() {
                return W::note(alloc, Note::NoSandbox);
            }
            let reply = W::note(alloc, Note::Discarded)?;
            *own = None;
            Ok(reply)
        }
        Act::Do(command) => match own {
            Some(sandbox) => act_in::<W>(alloc, state, sandbox, command),
            None => unreachable!(),
        },
    }
}

// The command on the state with the kept writes laid over it.
fn act_in<W: Layered>(
    alloc: Global,
    state: &W::State,
    own: &mut Sandbox<W>,
    command: &W::Command,
) -> Result<W::Reply, AllocError>
    requires laid { IsPrivate W.content W.after W.sandbox.unfit (W.content state.now)
        (W.kept_writes own.old.layer) own.old.private }
    ensures told { IfOk result (λ reply. where_fit W.sandbox (W.kept_writes own.old.layer)
        (W.sandbox.unfit (W.content state.now) (W.kept_writes own.old.layer))
        (W.effect (W.after (W.content state.now) (W.kept_writes own.old.layer)) command.now)
        ≡ (Read reply, Some (W.kept_writes own.new.layer))) }
    ensures err { OnErr result (W.kept_writes own.new.layer ≡ W.kept_writes own.old.layer) }
    ensures laid { IsPrivate W.content W.after W.sandbox.unfit (W.content state.now)
        (W.kept_writes own.new.layer) own.new.private }
{
    match take_private::<W>(alloc, state, own)? {
        Over::Unfit(reply) => Ok(reply),
        Over::Fits(private) => act_on::<W>(alloc, own, private, command),
    }
}

// The private state is taken out of the sandbox, where it has one, and else made.
fn take_private<W: Layered>(
    alloc: Global,
    state: &W::State,
    own: &mut Sandbox<W>,
) -> Result<Over<W::State, W::Reply>, AllocError>
    requires laid { IsPrivate W.content W.after W.sandbox.unfit (W.content state.now)
        (W.kept_writes own.old.layer) own.old.private }
    ensures over { IfOk result (λ over.
        IsOver W.content (W.after (W.content state.now) (W.kept_writes own.old.layer))
        (W.sandbox.unfit (W.content state.now) (W.kept_writes own.old.layer)) over) }
    ensures layer { own.new.layer ≡ own.old.layer }
    ensures taken { own.new.private ≡ None }
{
    match own.private.take() {
        Some(private) => Ok(Over::Fits(private)),
        None => W::over(alloc, state, &own.layer),
    }
}

// The command on the private state, which the sandbox then has again, with what the command wrote.
fn act_on<W: Layered>(
    alloc: Global,
    own: &mut Sandbox<W>,
    private: W::State,
    command: &W::Command,
) -> Result<W::Reply, AllocError>
    requires taken { own.old.private ≡ None }
    ensures told { IfOk result (λ reply. kept_in W.sandbox (W.kept_writes own.old.layer)
        (W.effect (W.content private) command.now) ≡ (Read reply, Some (W.kept_writes own.new.layer))) }
    ensures err { OnErr result (W.kept_writes own.new.layer ≡ W.kept_writes own.old.layer) }
    ensures laid { (below : W.Content) → W.sandbox.unfit below (W.kept_writes own.old.layer) ≡ None
        → W.content private ≡ W.after below (W.kept_writes own.old.layer)
        → IsPrivate W.content W.after W.sandbox.unfit below (W.kept_writes own.new.layer) own.new.private }
{
    let mut private = private;
    let effect = W::attempt(alloc, &mut private, command)?;
    match effect {
        Effect::Rejected(reply) | Effect::Read(reply) => {
            own.private = Some(private);
            Ok(reply)
        }
        Effect::Commit(writes, reply) => {
            let reply = W::kept(alloc, reply)?;
            let next = W::go_on(alloc, &private, &writes)?;
            W::keep(alloc, &mut own.layer, &writes)?;
            own.private = next;
            Ok(reply)
        }
    }
}
