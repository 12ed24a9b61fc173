//! Cases of reading: a snapshot, another one that shares what it keeps, and plain evaluation of all cells give each
//! cell the same value.
//!
//! The lines of a case are its files:
//!
//! ```text
//! file model                                         the model text, of the lines that follow
//! |MODEL 1;                                          a line, as those of [`case_lines::spell`] are
//! file rules                                         the rules of the first cube; `file rules 2` the others'
//! |['Sales'] = N: ['Units'] * ['Price'];
//! file user                                          PUT and GET commands
//! |GET 'Plan' ('Actual', 'Q1', 'Sales');
//! file trace                                         GET commands, whose cells are traced after all others
//! ```
//!
//! A case prints, for each command, whether its number is stored, or the value that the snapshot reads; then the traces
//! that are asked for, with an empty name in place of the rule file's; and last how
//! many cells there are, where every way of reading gives each of them the same value, or else the first cell that is
//! read otherwise.
#![tactic(auto)]

mod compared;
mod models;

use crate::compared::compared;
use crate::models::{file, snapshot_of};
use cell_reader::Snapshot;
use cube_fixed::print;
use rule_model::{cell_of, is_input};
use std::alloc::{AllocError, Global};
use trace_text::trace;
use user_text::UserBody;

/// What is printed of the commands of a case, and of reading all cells after them.
pub fn readings(alloc: Global, lines: &str) -> Result<Vec<u8>, AllocError> {
    let Some(mut snapshot) = snapshot_of(alloc, lines)? else {
        return Vec::from_slice(alloc, b"the model is refused");
    };
    let mut told = Vec::new(alloc);
    let Ok(commands) = user_text::parse(alloc, &file(alloc, lines, "user")?, 0) else {
        return Vec::from_slice(alloc, b"the commands are refused");
    };
    for command in &commands {
        snapshot = after(alloc, snapshot, &command.body, &mut told)?;
        told.push(b'\n')?;
    }
    traces(alloc, lines, &mut snapshot, &mut told)?;
    compared(alloc, &mut snapshot, &mut told)?;
    Ok(told)
}

// The snapshot after a command, and what is printed of it.
fn after(
    alloc: Global,
    mut snapshot: Snapshot,
    command: &UserBody,
    told: &mut Vec<u8>,
) -> Result<Snapshot, AllocError> {
    if let UserBody::Get(at) = command
        && let Some(cell) = cell_of(snapshot.model(), &at.cube, at.elements.as_slice())
    {
        print(alloc, snapshot.value_at(alloc, cell)?, told)?;
        return Ok(snapshot);
    }
    if let UserBody::Put(at, number) = command
        && let Some(cell) = cell_of(snapshot.model(), &at.cube, at.elements.as_slice())
        && snapshot.model().space().is_leaf(cell)
        && is_input(snapshot.model(), cell)
        && let Ok(next) = snapshot.next(alloc, &[(cell, *number)])
    {
        told.extend_from_slice(b"stored")?;
        return Ok(next);
    }
    told.extend_from_slice(b"refused")?;
    Ok(snapshot)
}

// The traces that the file `trace` asks for, where a case has one.
fn traces(
    alloc: Global,
    lines: &str,
    snapshot: &mut Snapshot,
    told: &mut Vec<u8>,
) -> Result<(), AllocError> {
    let Ok(commands) = user_text::parse(alloc, &file(alloc, lines, "trace")?, 0) else {
        return Ok(());
    };
    for command in &commands {
        put_trace(alloc, snapshot, &command.body, told)?;
    }
    Ok(())
}

fn put_trace(
    alloc: Global,
    snapshot: &mut Snapshot,
    command: &UserBody,
    told: &mut Vec<u8>,
) -> Result<(), AllocError> {
    if let UserBody::Get(at) = command
        && let Some(cell) = cell_of(snapshot.model(), &at.cube, at.elements.as_slice())
    {
        let mut reader = snapshot.share()?;
        told.extend_from_slice(&trace(alloc, snapshot, &mut reader, &[], cell)?)?;
        told.push(b'\n')?;
    }
    Ok(())
}
