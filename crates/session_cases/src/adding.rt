use history::{Effect, World};
use sandbox::{Layered, Note, Over};
use std::alloc::{AllocError, Global};

/// The greatest number that may be added at once.
pub const MAX_ADDED: u64 = 100;

/// Nothing is added to a total above this one.
pub const FULL: u64 = 1_000_000;

/// No sandbox may bring the total above this one.
pub const ROOM: u64 = 1_000;

/// A world of one total, to which users add.
pub struct Adding;

/// What a user does.
#[derive(Clone, Copy, Debug)]
pub enum Order {
    /// Adds a number, which is at most [`MAX_ADDED`].
    Add(u64),
    /// Adds what a sandbox kept.
    Give(u64),
    /// Asks for the total.
    Ask,
}

/// The reply to a user.
#[derive(Clone, Copy, Debug)]
pub enum Answer {
    /// The number was added, which makes this total.
    Added { number: u64, total: u64 },
    /// The number was not added.
    Refused(u64),
    /// The total.
    Total(u64),
    /// The number was kept in the sandbox.
    Kept(u64),
    /// The total with what the sandbox keeps is above [`ROOM`].
    NoRoom,
    /// What became of a sandbox.
    Noted(Note),
}

impl World for Adding {
    ghost use Rattle.std.specs.Prelude.{◌+◌, ◌&&◌, nat_le, if◌then◌else◌};
    ghost use Rattle.history.specs.declared.effect.Effect.TheVariants.{Commit, Rejected, Read};
    ghost use Rattle.session_cases.specs.declared.adding.Order.TheVariants.{Add, Give, Ask};
    ghost use Rattle.session_cases.specs.declared.adding.Answer.TheVariants.{Added, Refused, Total};

    type State = u64;

    type Content = u64;

    type Command = Order;

    type Reply = Answer;

    /// How much is added.
    type Writes = u64;

    type Value = u64;

    ghost content = { λ total. total };

    ghost effect = { λ total order. elim order [
      | Add n ↦ (if nat_le n 100 && nat_le total 1000000
          then Commit n (Added n (total + n)) else Rejected (Refused n))
      | Give n ↦ (if nat_le (total + n) 1000 then Commit n (Added n (total + n)) else Rejected (Refused n))
      | Ask ↦ Read (Total total)
    ] };

    ghost after = { λ total writes. total + writes };

    ghost cell_value = { λ total cell. total };

    fn share(_alloc: Global, state: &mut u64) -> Result<u64, AllocError> {
        Ok(*state)
    }

    fn attempt(
        _alloc: Global,
        state: &mut u64,
        command: &Order,
    ) -> Result<Effect<u64, Answer>, AllocError> {
        Ok(match command {
            Order::Add(number) if *number <= MAX_ADDED && *state <= FULL => {
                added_to(*state, *number)
            }
            Order::Give(number) if has_room(*state, *number) => added_to(*state, *number),
            Order::Add(number) | Order::Give(number) => {
                Effect::Rejected(Answer::Refused(*number))
            }
            Order::Ask => Effect::Read(Answer::Total(*state)),
        })
    }

    fn next(_alloc: Global, state: &u64, writes: &u64) -> Result<u64, AllocError> {
        sum(*state, *writes)
    }
}

impl Layered for Adding {
    ghost use Rattle.std.specs.Prelude.{◌+◌, nat_le, if◌then◌else◌, None, Some};
    ghost use Rattle.session_cases.specs.declared.adding.Order.TheVariants.{Give};
    ghost use Rattle.session_cases.specs.declared.adding.Answer.TheVariants.{Added, Refused, Total, Kept};
    ghost use Rattle.session_cases.specs.declared.adding.Answer.TheVariants.{NoRoom, Noted};

    /// How much is kept.
    type Layer = u64;

    ghost sandbox = { record {
      none = 0;
      join = λ first second. first + second;
      fixed = λ number. Give number;
      unfit = λ total layer. if nat_le (total + layer) 1000 then None else Some NoRoom;
      note = λ note. Noted note;
      kept = λ reply. elim reply [
        | Added n total ↦ Kept n
        | Refused n ↦ Refused n
        | Total total ↦ Total total
        | Kept n ↦ Kept n
        | NoRoom ↦ NoRoom
        | Noted note ↦ Noted note
      ];
    } };

    ghost kept_writes = { λ layer. layer };

    fn none(_alloc: Global) -> Result<u64, AllocError> {
        Ok(0)
    }

    fn keep(_alloc: Global, layer: &mut u64, writes: &u64) -> Result<(), AllocError> {
        *layer = sum(*layer, *writes)?;
        Ok(())
    }

    fn fixed(_alloc: Global, layer: &u64) -> Result<Order, AllocError> {
        Ok(Order::Give(*layer))
    }

    fn over(_alloc: Global, state: &u64, layer: &u64) -> Result<Over<u64, Answer>, AllocError> {
        if has_room(*state, *layer) {
            Ok(Over::Fits(*state + *layer))
        } else {
            Ok(Over::Unfit(Answer::NoRoom))
        }
    }

    fn go_on(_alloc: Global, private: &u64, writes: &u64) -> Result<Option<u64>, AllocError> {
        if has_room(*private, *writes) {
            Ok(Some(*private + *writes))
        } else {
            Ok(None)
        }
    }

    fn note(_alloc: Global, note: Note) -> Result<Answer, AllocError> {
        Ok(Answer::Noted(note))
    }

    fn kept(_alloc: Global, reply: Answer) -> Result<Answer, AllocError> {
        Ok(match reply {
            Answer::Added { number, .. } => Answer::Kept(number),
            other => other,
        })
    }
}

ghost use Rattle.std.specs.Prelude.{◌≡◌, ◌+◌, ◌<◌, ◌^◌, nat_le, IfOk};
ghost use Rattle.history.specs.declared.effect.Effect.TheVariants.{Commit};
ghost use Rattle.session_cases.specs.declared.adding.Answer.TheVariants.{Added};

// The number is added to the total.
fn added_to(total: u64, number: u64) -> Effect<u64, Answer>
    requires fits { total + number < 2 ^ 64 }
    ensures { result ≡ Commit number (Added number (total + number)) }
{
    let total = total + number;
    Effect::Commit(number, Answer::Added { number, total })
}

// Whether a sandbox that keeps this number may be added to the total.
fn has_room(total: u64, number: u64) -> bool
    ensures { result ≡ nat_le (total + number) 1000 }
{
    total <= ROOM && number <= ROOM - total
}

// The sum of two numbers; where it is 2^64 or more, memory is said to have run out.
fn sum(first: u64, second: u64) -> Result<u64, AllocError>
    ensures { IfOk result (λ both. both ≡ first + second) }
{
    first.checked_add(second).ok_or(AllocError)
}
