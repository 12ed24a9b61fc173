ghost use Rattle.std.specs.Prelude.{◌≡◌, suc, ◌<◌, ◌≤◌, ◌^◌, length};
ghost use Rattle.cube_space.specs.Cells.{IsSpace};
ghost use Rattle.rule_model.specs.Conditions.{greatest_rank, AreRules};
ghost use Rattle.rule_model.specs.Order.{most_height, most_positions, position_size};
ghost use Rattle.check_order.specs.Heights.{first_too_high};
ghost use Rattle.check_order.specs.Inside.Tops.{cube_top, top};

use crate::tops::kind_top;
use ref_order::MAX_POSITIONS;
use rule_model::Model;

/// The greatest height that a declared order may have.
pub const MAX_HEIGHT: u64 = 65_536;

// The greatest number that a cell of a cube has at a position.
fn cube_top(model: &Model, cube: u32, place: u32) -> u32
    requires { cube < length model.now.space.cubes }
    ensures { result ≡ cube_top model.now place cube }
{
    if model.space().cells(cube) == 0 {
        return 0;
    }
    let leaves = kind_top(model, cube, true, place);
    kind_top(model, cube, false, place).max(leaves)
}

// The greatest number that a cell has at a position.
fn top(model: &Model, place: u32) -> u32
    ensures value { result ≡ top model.now place }
    ensures valid { IsSpace model.now.space }
    ensures rules { AreRules model.now.space model.now.rules }
{
    let mut most = 0;
    'each: for cube in 0..model.space().cubes() {
        most = cube_top(model, cube, place).max(most);
    }
    most
}

/// The size of a position: one more than the greatest number that a cell has there.
fn position_size(model: &Model, place: u32) -> u64
    ensures value { result ≡ position_size model.now place }
    ensures small { result ≤ suc greatest_rank }
{
    top(model, place) as u64 + 1
}

/// The height up to the first position at which it is greater than [`MAX_HEIGHT`].
#[tactic(auto, unfolding(crate::specs::Heights::first_too_high))]
pub fn too_high(model: &Model) -> Option<u64>
    ensures { result ≡ first_too_high model.now }
{
    let mut height = 1u64;
    'each: for place in 0..MAX_POSITIONS {
        height *= position_size(model, place);
        if height > MAX_HEIGHT {
            return Some(height);
        }
    }
    None
}
