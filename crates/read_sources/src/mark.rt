ghost use Rattle.std.specs.Prelude.{◌<◌};
ghost use Rattle.read_sources.specs.Ways.{IsSource};

use crate::alike::is_shared;
use crate::reading::set_of;
use crate::source::{Given, Source};
use crate::tables::last_of;
use ref_order::Read;
use rule_laws::Arg;
use rule_model::Model;

/// How many marks there are.
pub const MARKS: usize = 4_096;

// The elements by whose targets maps are told apart.
const SAMPLES: [usize; 3] = [0, 64, 4_096];

/// A mark by which sources find each other that are alike, or of which one makes the arrows of the other. Others may
/// have the same.
pub fn mark_of(model: &Model, source: Source) -> usize
    requires { IsSource model.now source }
    ensures { result < 4_096 }
{
    let whole = set_of(model, source, last_of(model, source.cube)).is_none();
    let statement = if whole { 0 } else { source.statement };
    let is_weak = source.weak && !is_shared(model, source);
    let kind = u32::from(is_weak) * 4 + u32::from(source.kind) * 2 + u32::from(source.asks);
    let asked = mix(kind, mark_of_given(source.elsewhere));
    let mark = mix(
        mix(mix(source.cube, statement), asked),
        mark_of_read(source.read),
    );
    (mark >> 16) as usize % MARKS
}

fn mix(mark: u32, number: u32) -> u32 {
    (mark ^ number).wrapping_mul(0x9E37_79B1).rotate_left(15)
}

fn mark_of_given(given: Given) -> u32 {
    u32::from(given.own) * 4 + u32::from(given.its) * 2 + u32::from(given.both)
}

fn mark_of_read(read: Read) -> u32 {
    match read {
        Read::Cell(reference) => {
            let mut mark = reference.cube;
            for arg in reference.args.as_slice() {
                mark = mix(mark, mark_of_arg(arg));
            }
            mark
        }
        Read::Children(dim) => dim,
    }
}

// It is the same for all elements that an argument fixes.
fn mark_of_arg(arg: &Arg) -> u32 {
    match arg {
        Arg::Fixed(_) => 0,
        Arg::Moved { from, to } => {
            let mut mark = *from;
            for sample in SAMPLES {
                mark = mix(mark, to.get(sample).unwrap_or(1));
            }
            mark
        }
    }
}
