ghost use Rattle.std.specs.Prelude.{◌≡◌, nat_lt, ◌&&◌, IfOk};
ghost use Rattle.cube_space.specs.Cells.{is_leaf_cell, size_of};
ghost use Rattle.user_session.specs.Content.{content_of};
ghost use Rattle.user_session.specs.Planning.{all_leaf_cells, fixed_effect};
ghost use Rattle.user_session.specs.Inside.Laid.{IsLaid};

use crate::reply::CommandReason;
use crate::world::{CellWrites, PlanEffect};
use crate::writes::{committed, rejected};
use cell_reader::{NextFault, Snapshot};
use cube_fixed::Money;
use cube_space::Space;
use std::alloc::{AllocError, Global};

/// What comes of writes that are laid over a version.
#[derive(Drop)]
pub(crate) enum Laid {
    /// The version with them. Nobody else reads it.
    Over(Snapshot),
    /// The first reason against them.
    Misfit(CommandReason),
}

/// Lays writes over a version, whoever made them and on whichever version.
pub(crate) fn lay_over(
    alloc: Global,
    state: &Snapshot,
    writes: &[(u64, Money)],
) -> Result<Laid, AllocError>
    ensures { IfOk result (λ laid. IsLaid (content_of state.now) writes.now laid) }
{
    if !are_leaf_cells(state.model().space(), writes) {
        return Ok(Laid::Misfit(CommandReason::UnknownName));
    }
    match state.next(alloc, writes) {
        Ok(version) => Ok(Laid::Over(version)),
        Err(NextFault::StoreLimit(_)) => Ok(Laid::Misfit(CommandReason::StoreLimit)),
        Err(NextFault::FedLimit(_)) => Ok(Laid::Misfit(CommandReason::FedLimit)),
        Err(NextFault::Memory) => Err(AllocError),
    }
}

// Whether each of these writes is of a leaf cell.
fn are_leaf_cells(space: &Space, writes: &[(u64, Money)]) -> bool
    ensures { result ≡ all_leaf_cells space.now writes.now }
{
    for write in writes {
        if !is_leaf(space, write.0) {
            return false;
        }
    }
    true
}

// Whether this is the number of a cell, of a leaf cell.
fn is_leaf(space: &Space, cell: u64) -> bool
    ensures { result ≡ (nat_lt cell (size_of space.now) && is_leaf_cell space.now cell) }
{
    cell < space.size() && space.is_leaf(cell)
}

/// The effect of fixed writes: just these are committed, or none.
pub(crate) fn fixed(
    alloc: Global,
    state: &Snapshot,
    writes: &CellWrites,
) -> Result<PlanEffect, AllocError>
    ensures { IfOk result (λ found. found ≡ fixed_effect (content_of state.now) writes.now) }
{
    match lay_over(alloc, state, writes.as_slice())? {
        Laid::Over(_) => committed(alloc, Vec::from_slice(alloc, writes.as_slice())?),
        Laid::Misfit(reason) => rejected(alloc, reason),
    }
}
