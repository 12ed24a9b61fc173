ghost use Rattle.std.specs.Prelude.{◌≡◌, ◌<◌, ◌≤◌, ◌^◌, length, slice_get, IfSome};
ghost use Rattle.cube_space.specs.Cells.{IsSpace};
ghost use Rattle.rule_model.specs.Conditions.{IsStatement, AreRules};
ghost use Rattle.ref_order.specs.Known.{IsKnownOf};
ghost use Rattle.check_order.specs.References.{marks_of, first_late, late_of, late_references};

use crate::fault::OrderFault;
use crate::walk::{Seen, earliest, walk_part};
use ref_order::{AreaCells, Known};
use rule_model::{Form, Model, Statement};
use std::alloc::Global;

/// The first reference of a statement that doesn't stand before its cells, counted from 1.
fn late_in_statement<'a>(
    model: &'a Model,
    cube: u32,
    statement: &'a Statement,
    known: &mut Known<'a>,
) -> Option<u32>
    requires cube { cube < length model.now.space.cubes }
    requires statement { IsStatement model.now.space cube statement.now }
    requires known { IsKnownOf model.now cube known.old }
    ensures late { result ≡ first_late (marks_of model.now cube statement.now) }
    ensures known { IsKnownOf model.now cube known.new }
{
    let area = &statement.area;
    let cells = AreaCells { model, cube, area };
    let leaf = &statement.leaf;
    let cons = &statement.cons;
    known.begin();
    match statement.form {
        Form::Both => {
            let leaf = walk_part(cells, known, true, leaf, Seen::NONE);
            let cons = walk_part(cells, known, false, cons, Seen::NONE);
            earliest(leaf.late, cons.late)
        }
        Form::LeafFirst => {
            let seen = walk_part(cells, known, true, leaf, Seen::NONE);
            walk_part(cells, known, false, cons, seen).late
        }
        Form::ConsFirst => {
            let seen = walk_part(cells, known, false, cons, Seen::NONE);
            walk_part(cells, known, true, leaf, seen).late
        }
    }
}

/// The first reference of a cube's statements that doesn't stand before its cells.
#[tactic(auto, unfolding(crate::specs::References::late_of))]
fn late_in_cube(alloc: Global, model: &Model, cube: u32) -> Option<OrderFault>
    requires cube { cube < length model.now.space.cubes }
    requires rules { AreRules model.now.space model.now.rules }
    ensures { result ≡ slice_get (late_of model.now cube) 0 }
{
    let statements = model.rules(cube).statements.as_slice();
    let mut known = Known::none(alloc);
    'each: for n in 0..statements.len() {
        if let Some(reference) = late_in_statement(model, cube, &statements[n], &mut known) {
            let statement = n as u32 + 1;
            return Some(OrderFault::NotEarlier {
                cube,
                statement,
                reference,
            });
        }
    }
    None
}

/// The first reference of a model that doesn't stand before its cells.
#[tactic(auto, unfolding(crate::specs::References::late_references))]
pub fn first_late(alloc: Global, model: &Model) -> Option<OrderFault>
    ensures value { result ≡ slice_get (late_references model.now) 0 }
    ensures valid { IsSpace model.now.space }
    ensures rules { AreRules model.now.space model.now.rules }
{
    'each: for cube in 0..model.space().cubes() {
        if let Some(fault) = late_in_cube(alloc, model, cube) {
            return Some(fault);
        }
    }
    None
}
