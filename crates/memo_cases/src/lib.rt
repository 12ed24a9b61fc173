//! Cases of two readers at a memo of one slot: each looks for the value of a leaf cell and keeps it, and finds what the
//! other kept; the slot is then for that cell alone. Last they look and keep in two threads at once.
#![tactic(auto)]

mod leaf;
mod readers;

use crate::leaf::leaf_value;
use crate::readers::{at_once, in_turn};
use cell_store::Store;
use cube_fixed::Money;
use model_bind::no_rule_files;
use model_deploy::deploy;
use rule_model::Model;
use std::alloc::{AllocError, Global};
use std::thread::Threads;

// What is stored in the two cells, in millionths.
const NUMBER: i64 = 25_000_000;

/// What the readers of a case find, a line each. `model` is a model text without rules; nothing is found of one that is
/// refused.
pub fn readings<R: Threads + Sync>(
    rt: &R,
    alloc: Global,
    model: &[u8],
) -> Result<String, AllocError> {
    let mut out = String::new(alloc);
    if let Ok(text) = model_text::read(alloc, model)
        && let Ok(rules) = no_rule_files(alloc, text.cubes().len())
        && let Ok(accepted) = deploy(alloc, text, &rules)
    {
        read_over(rt, alloc, accepted.model(), &mut out)?;
    }
    Ok(out)
}

// The readers over this model and two stored numbers.
fn read_over<R: Threads + Sync>(
    rt: &R,
    alloc: Global,
    model: &Model,
    out: &mut String,
) -> Result<(), AllocError> {
    let number = Money::of(NUMBER).unwrap_or(Money::ZERO);
    if let Ok(store) = Store::new(alloc).apply(alloc, &[(0, number), (1, number)])
        && let Some(first) = leaf_value(model, &store, 0)
        && let Some(second) = leaf_value(model, &store, 1)
    {
        in_turn(alloc, model, &store, &first, &second, out)?;
        at_once(rt, alloc, model, &store, &first, out)?;
    }
    Ok(())
}
