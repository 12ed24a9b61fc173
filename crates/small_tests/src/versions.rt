use history::{Effect, World};
use std::alloc::{AllocError, Global};
use std::test::Fail;
use version_core::{Core, Event};

/// A world of two numbers.
struct Numbers;

#[derive(Clone, Copy, PartialEq, Eq)]
struct Two {
    left: u32,
    right: u32,
}

#[derive(Clone, Copy)]
enum Command {
    /// Writes the right number, which is at most 100.
    SetRight(u32),
    /// Writes the right number over the left.
    Follow,
    /// Reads the left number.
    GetLeft,
}

impl World for Numbers {
    ghost use Rattle.std.specs.Prelude.{◌==◌, nat_le, if◌then◌else◌};
    ghost use Rattle.history.specs.declared.effect.Effect.TheVariants.{Commit, Rejected, Read};
    ghost use Rattle.small_tests.specs.declared.versions.Command.TheVariants.{SetRight, Follow, GetLeft};

    type State = Two;

    type Content = Two;

    type Command = Command;

    type Reply = u32;

    type Writes = Two;

    type Value = u32;

    ghost content = { λ two. two };

    ghost effect = { λ two command. elim command [
      | SetRight n ↦ (if nat_le n 100 then Commit (record { left = two.left; right = n }) n else Rejected n)
      | Follow ↦ Commit (record { left = two.right; right = two.right }) two.right
      | GetLeft ↦ Read two.left
    ] };

    ghost after = { λ two writes. writes };

    ghost cell_value = { λ two cell. (if cell == 0 then two.left else two.right) };

    fn share(_alloc: Global, state: &mut Two) -> Result<Two, AllocError> {
        Ok(*state)
    }

    fn attempt(
        _alloc: Global,
        state: &mut Two,
        command: &Command,
    ) -> Result<Effect<Two, u32>, AllocError> {
        Ok(match command {
            Command::SetRight(number) if *number <= 100 => Effect::Commit(
                Two {
                    left: state.left,
                    right: *number,
                },
                *number,
            ),
            Command::SetRight(number) => Effect::Rejected(*number),
            Command::Follow => Effect::Commit(
                Two {
                    left: state.right,
                    right: state.right,
                },
                state.right,
            ),
            Command::GetLeft => Effect::Read(state.left),
        })
    }

    fn next(_alloc: Global, _state: &Two, writes: &Two) -> Result<Two, AllocError> {
        Ok(*writes)
    }
}

/// What is to hold of a core, one thing after another.
#[derive(Clone, Copy, Debug)]
enum Check {
    /// The event is enabled, and it comes.
    Takes(Event),
    /// The event isn't enabled.
    Refuses(Event),
    /// The replies to the user, with their places.
    Told(u32, &'static [(u64, u32)]),
    /// The history has these entries: users and numbers of commands.
    History(&'static [(u32, u32)]),
}

const CHECKS: [Check; 29] = [
    Check::Takes(Event::Pin(1)),
    Check::Takes(Event::Try(1)),
    Check::Takes(Event::Pin(2)),
    Check::Takes(Event::Try(2)),
    Check::Takes(Event::Commit(2)),
    Check::Refuses(Event::Commit(1)),
    Check::Told(1, &[]),
    Check::History(&[(2, 1)]),
    // The overtaken try is made again on the newest version.
    Check::Takes(Event::Unpin(1)),
    Check::Takes(Event::Pin(1)),
    Check::Takes(Event::Try(1)),
    Check::Refuses(Event::Try(1)),
    Check::Takes(Event::Commit(1)),
    // A rejected command has its reply at once, and a reading one at the pin, also after another's commit.
    Check::Takes(Event::Pin(2)),
    Check::Takes(Event::Keep(2, 1)),
    Check::Takes(Event::Read(2, 1)),
    Check::Refuses(Event::Read(2, 0)),
    Check::Takes(Event::Try(2)),
    Check::Refuses(Event::Commit(2)),
    Check::Refuses(Event::Pin(2)),
    Check::Takes(Event::Pin(1)),
    Check::Takes(Event::Read(1, 1)),
    Check::Takes(Event::Try(1)),
    Check::Refuses(Event::Unpin(1)),
    Check::Refuses(Event::Pin(0)),
    Check::Refuses(Event::Pin(3)),
    Check::Told(1, &[(1, 4), (2, 4)]),
    Check::Told(2, &[(0, 4), (2, 101)]),
    Check::History(&[(2, 1), (1, 1)]),
];

/// Whether this holds.
fn holds(alloc: Global, core: &mut Core<Numbers>, check: Check) -> Result<bool, AllocError> {
    match check {
        Check::Takes(event) => core.step(alloc, event),
        Check::Refuses(event) => Ok(!core.step(alloc, event)?),
        Check::Told(user, expected) => Ok(is_told(core, user, expected)),
        Check::History(expected) => Ok(is_history(core, expected)),
    }
}

fn is_told(core: &Core<Numbers>, user: u32, expected: &[(u64, u32)]) -> bool {
    let Some(told) = core.told(user) else {
        return false;
    };
    if told.len() != expected.len() {
        return false;
    }
    for index in 0..told.len() {
        if (told[index].place, told[index].reply) != expected[index] {
            return false;
        }
    }
    true
}

fn is_history(core: &Core<Numbers>, expected: &[(u32, u32)]) -> bool {
    let history = core.history();
    if history.len() != expected.len() {
        return false;
    }
    for index in 0..history.len() {
        if (history[index].user, history[index].command) != expected[index] {
            return false;
        }
    }
    true
}

#[test]
fn an_overtaken_try_is_tried_again(rt: HostRuntime) -> Result<(), Fail> {
    let alloc = rt.alloc();
    let mut core = Core::<Numbers>::start(alloc, Two { left: 1, right: 2 }, 2)?;
    core.give(1, Command::Follow)?;
    core.give(1, Command::GetLeft)?;
    core.give(2, Command::SetRight(4))?;
    core.give(2, Command::SetRight(101))?;
    for check in CHECKS {
        assert!(rt; holds(alloc, &mut core, check)?, "{check:?}");
    }
    Ok(())
}
