ghost use Rattle.std.specs.Prelude.{◌<◌};

use rule_laws::{Arg, Reference};

/// How many feeders are remembered.
const SLOTS: usize = 64;

/// Which feeders covered the references that were asked about last, by their numbers among those of their cubes. They
/// are asked first, since one feeder mostly covers many references. A number that is wrong costs one question more.
#[derive(Clone, Copy)]
pub struct Hints {
    feeders: [usize; SLOTS],
}

impl Hints {
    /// None is known yet: the first feeder of each cube is tried first.
    pub fn new() -> Hints {
        Hints {
            feeders: [0; SLOTS],
        }
    }

    /// The feeder that is to be asked first about a reference.
    pub fn feeder_for(&self, reference: &Reference) -> usize {
        self.feeders[slot_of(reference)]
    }

    /// Remembers the feeder that covers a reference.
    pub fn remember(&mut self, reference: &Reference, feeder: usize) {
        self.feeders[slot_of(reference)] = feeder;
    }
}

// Alike where references name the same elements from every cell.
fn slot_of(reference: &Reference) -> usize
    ensures { result < 64 }
{
    let mut key = reference.cube;
    for arg in reference.args.as_slice() {
        if let Arg::Fixed(element) = arg {
            key = key.wrapping_mul(31).wrapping_add(*element);
        }
    }
    key as usize % SLOTS
}
