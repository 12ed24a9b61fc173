ghost use Rattle.std.specs.Prelude.{◌≡◌, ◌+◌, ◌≤◌, IfOk, OnOk};
ghost use Rattle.std.specs.List.Sorted.{IsNonDecreasingBy, IsPermutation};
ghost use Rattle.cube_space.specs.Cells.{IsCell};
ghost use Rattle.rule_laws.specs.RuleSystem.{depth};
ghost use Rattle.rule_model.specs.Order.{level_count, position_sizes};
ghost use Rattle.rule_model.specs.System.{system_of};
ghost use Rattle.rule_dense.specs.Limits.{IsLow};
ghost use Rattle.rule_dense.specs.Inside.Depths.{AreDeep, IsByDepth, most_levels};

use crate::level::{cell_level, level_count};
use crate::order::{position_sizes, rank};
use rule_model::Model;
use std::alloc::{AllocError, Global};

/// Each cell with its depth, the less deep before the deeper.
pub fn by_depth(alloc: Global, model: &Model) -> Result<Vec<(u64, u64)>, AllocError>
    requires { IsLow model.now }
    ensures { IfOk result (λ cells. IsByDepth model.now cells.items) }
{
    let mut cells = all_with_depth(alloc, model)?;
    sort_by_depth(&mut cells)?;
    Ok(cells)
}

// Each cell with its depth, in the order of the cells.
fn all_with_depth(alloc: Global, model: &Model) -> Result<Vec<(u64, u64)>, AllocError>
    requires { IsLow model.now }
    ensures { IfOk result (λ cells. AreDeep model.now cells.items) }
{
    let sizes = position_sizes(alloc, model)?;
    let levels = level_count(model.space());
    let mut cells = Vec::new(alloc);
    for cell in 0..model.space().size() {
        cells.push((depth(model, &sizes, levels, cell), cell))?;
    }
    Ok(cells)
}

fn sort_by_depth(cells: &mut Vec<(u64, u64)>) -> Result<(), AllocError>
    ensures same { IsPermutation cells.old.items cells.new.items }
    ensures rising { OnOk result (IsNonDecreasingBy (λ pair. pair.0) cells.new.items) }
{
    cells.sort_by_key(|pair| pair.0)?;
    Ok(())
}

// How deep a cell lies.
#[tactic(auto, unfolding(rule_model::specs::System::system_of))]
fn depth(model: &Model, sizes: &[u64], levels: u64, cell: u64) -> u64
    requires cell { IsCell model.now.space cell }
    requires sizes { sizes.now ≡ position_sizes model.now }
    requires levels { levels ≡ level_count model.now.space }
    requires few { levels ≤ most_levels + 1 }
    requires low { IsLow model.now }
    ensures { result ≡ depth (system_of model.now) cell }
{
    levels * rank(model, sizes, cell) + cell_level(model.space(), cell)
}
