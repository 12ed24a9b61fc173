ghost use Rattle.std.specs.Prelude.{◌≡◌, ◌<◌, ◌≤◌, length, map, IfSome};
ghost use Rattle.rule_model.specs.BoundModel.{rules_of};
ghost use Rattle.rule_model.specs.Conditions.{IsArea};
ghost use Rattle.rule_notes.specs.Inside.Finals.{finals_of};
ghost use Rattle.rule_notes.specs.Inside.Reached.{takes, first_taker};

use crate::areas::has_area;
use crate::finals::Finals;
use rule_model::{Area, Model};

/// The first of so many statements of a cube that takes all cells of a kind of an area.
pub fn first_taker(
    model: &Model,
    cube: u32,
    finals: &[Finals],
    area: &Area,
    kind: bool,
    count: usize,
) -> Option<u32>
    requires cube { cube < length model.now.space.cubes }
    requires finals { finals.now ≡ map finals_of (rules_of model.now cube).statements }
    requires area { IsArea model.now.space cube area.now }
    requires count { count ≤ length (rules_of model.now cube).statements }
    ensures value { result ≡ first_taker model.now cube kind area.now count }
    ensures within { IfSome result (λ by. by < count) }
{
    // the space says what its rules keep
    let _space = model.space();
    'each: for by in 0..count {
        if takes(model, cube, finals, area, kind, by) {
            return Some(by as u32);
        }
    }
    None
}

// Whether the statement at a place of a cube does.
fn takes(model: &Model, cube: u32, finals: &[Finals], area: &Area, kind: bool, by: usize) -> bool
    requires cube { cube < length model.now.space.cubes }
    requires finals { finals.now ≡ map finals_of (rules_of model.now cube).statements }
    requires area { IsArea model.now.space cube area.now }
    requires by { by < length (rules_of model.now cube).statements }
    ensures { result ≡ takes model.now cube kind area.now by }
{
    // the space says what its rules keep
    let _space = model.space();
    let statements = model.rules(cube).statements.as_slice();
    finals[by].of_kind(kind) && has_area(model, cube, &statements[by].area, area)
}
