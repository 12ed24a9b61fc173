ghost use Rattle.std.specs.Prelude.{◌≤◌, IfErr, OnErr, OnOk};
ghost use Rattle.cube_space.specs.Radix.{product};
ghost use Rattle.rule_laws.specs.OrderByPlace.{IsOrderedByPlace};
ghost use Rattle.rule_model.specs.System.{system_of, positions_of};
ghost use Rattle.rule_model.specs.Order.{most_height, position_sizes};
ghost use Rattle.check_order.specs.Verdict.{IsOrderFault};

use crate::fault::OrderFault;
use crate::height::too_high;
use crate::late::first_late;
use rule_model::Model;
use std::alloc::Global;

/// Checks the declared order of a model: that its height is at most [`MAX_HEIGHT`](crate::MAX_HEIGHT), and that what
/// each part of a statement reads stands before each cell of the statement's area that the part is for, where it reads
/// a cell from there. Which statement governs a cell doesn't count. Memory speeds the check alone: where it is short,
/// the answer is the same.
pub fn check_order(alloc: Global, model: &Model) -> Result<(), OrderFault>
    ensures ordered { OnOk result (IsOrderedByPlace (system_of model.now) (positions_of model.now)) }
    ensures low { OnOk result (product (position_sizes model.now) ≤ most_height) }
    ensures refused { OnErr result (IsOrderedByPlace (system_of model.now) (positions_of model.now)
        → product (position_sizes model.now) ≤ most_height → ⊥) }
    ensures fault { IfErr result (IsOrderFault model.now) }
{
    if let Some(height) = too_high(model) {
        return Err(OrderFault::TooHigh(height));
    }
    match first_late(alloc, model) {
        Some(fault) => Err(fault),
        None => Ok(()),
    }
}
