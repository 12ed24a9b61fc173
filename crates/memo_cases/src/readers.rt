ghost use Rattle.std.specs.Prelude.{◌≡◌, ◌+◌, ◌<◌, ◌^◌};
ghost use Rattle.memo_cells.specs.Seats.{IsAt, version_of};
ghost use Rattle.memo_cells.specs.Values.{cell_value};
ghost use Rattle.memo_cells.specs.declared.version.Version.{Version};

use cell_store::Store;
use cube_fixed::Value;
use memo_cells::{Kept, Look, Memo};
use rule_model::Model;
use std::alloc::{AllocError, Global};
use std::fmt::Write;
use std::thread;
use std::thread::Threads;

/// One reader after another.
pub fn in_turn(
    alloc: Global,
    model: &Model,
    store: &Store,
    first: &Value,
    second: &Value,
    out: &mut String,
) -> Result<(), AllocError>
    requires first { (version : Version) → version.model.value ≡ model.now → version.stored.value ≡ store.now
        → first.now ≡ cell_value version 0 }
    requires second { (version : Version) → version.model.value ≡ model.now → version.stored.value ≡ store.now
        → second.now ≡ cell_value version 1 }
{
    let (memo, mut one) = Memo::new(alloc, model, store, 0, 1)?;
    let mut other = memo.split(&mut one);
    writeln!(out, "one looks for 0: {:?}", memo.look(&mut one, 0))?;
    writeln!(out, "one keeps 0: {:?}", memo.keep(&mut one, 0, first))?;
    writeln!(out, "one looks for 0: {:?}", memo.look(&mut one, 0))?;
    writeln!(out, "one keeps 0: {:?}", memo.keep(&mut one, 0, first))?;
    writeln!(out, "one looks for 1: {:?}", memo.look(&mut one, 1))?;
    writeln!(out, "one keeps 1: {:?}", memo.keep(&mut one, 1, second))?;
    writeln!(out, "the other looks for 0: {:?}", memo.look(&mut other, 0))?;
    writeln!(out, "the other looks for 1: {:?}", memo.look(&mut other, 1))?;
    memo.join(&mut one, other);
    writeln!(
        out,
        "together they look for 0: {:?}",
        memo.look(&mut one, 0)
    )
}

/// Both at once, each in a thread: which of them is the first to keep the value doesn't show.
pub fn at_once<R: Threads + Sync>(
    rt: &R,
    alloc: Global,
    model: &Model,
    store: &Store,
    value: &Value,
    out: &mut String,
) -> Result<(), AllocError>
    requires { (version : Version) → version.model.value ≡ model.now → version.stored.value ≡ store.now
        → value.now ≡ cell_value version 0 }
{
    let (memo, mut one) = Memo::new(alloc, model, store, 0, 2)?;
    let mut other = memo.split(&mut one);
    let place = &memo;
    let (kept, (kept_too, found)) = thread::join(
        rt,
        || -> Kept
            requires { IsAt place.now one × (value.now ≡ cell_value (version_of place.now) 0) }
        { place.keep(&mut one, 0, value) },
        || -> (Kept, Look)
            requires { IsAt place.now other × (value.now ≡ cell_value (version_of place.now) 0) }
        {
            let kept = place.keep(&mut other, 0, value);
            (kept, place.look(&mut other, 0))
        },
    );
    writeln!(out, "both keep 0: {kept:?}, {kept_too:?}; found {found:?}")
}
