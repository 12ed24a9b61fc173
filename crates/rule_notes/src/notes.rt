ghost use Rattle.std.specs.Prelude.{◌≡◌, ◌<◌, ◌++◌, ◌↔◌, length, IfOk, OnOk, Contains};
ghost use Rattle.rule_model.specs.BoundModel.{rules_of};
ghost use Rattle.rule_model.specs.Conditions.{IsStatement};
ghost use Rattle.ref_order.specs.Known.{IsKnownOf};
ghost use Rattle.rule_notes.specs.declared.note.Note.{Note as AnyNote};
ghost use Rattle.rule_notes.specs.Noted.{notes_of, IsNote};
ghost use Rattle.rule_notes.specs.Inside.Reached.{reach_notes};
ghost use Rattle.rule_notes.specs.Inside.Views.{IsView};
ghost use Rattle.rule_notes.specs.Inside.Listed.{cube_notes, statement_notes};

use crate::counted::counted;
use crate::cube_view::CubeView;
use crate::finals::{all_finals, has_part};
use crate::nameless::add_nameless;
use crate::note::Note;
use crate::own::own_reference;
use crate::taken::first_taker;
use ref_order::Known;
use rule_model::{Model, Statement};
use std::alloc::{AllocError, Global};

/// All that is accepted in a model and hardly ever meant, cube by cube and statement by statement. Of one statement
/// come first the parts that aren't reached, that for leaf cells before the other, and then the references that name
/// nothing.
pub fn rule_notes(alloc: Global, model: &Model) -> Result<Vec<Note>, AllocError>
    ensures list { IfOk result (λ notes. notes.items ≡ notes_of model.now) }
    ensures meant { (note : AnyNote) → Contains (notes_of model.now) note ↔ IsNote model.now note }
{
    let mut notes = Vec::new(alloc);
    'each: for cube in 0..model.space().cubes() {
        add_cube(alloc, model, cube, &mut notes)?;
    }
    Ok(notes)
}

// Adds those of a cube.
fn add_cube(
    alloc: Global,
    model: &Model,
    cube: u32,
    notes: &mut Vec<Note>,
) -> Result<(), AllocError>
    requires { cube < length model.now.space.cubes }
    ensures { OnOk result (notes.new.items ≡ notes.old.items ++ cube_notes model.now cube) }
{
    // the space says what its rules keep
    let _space = model.space();
    let statements = model.rules(cube).statements.as_slice();
    let finals = all_finals(alloc, statements)?;
    let own = own_reference(alloc, model, cube)?;
    let view = CubeView {
        model,
        cube,
        finals: &finals,
        own: &own,
    };
    let mut known = Known::none(alloc);
    'each: for place in 0..statements.len() {
        add_statement(alloc, view, place, &statements[place], &mut known, notes)?;
    }
    Ok(())
}

// Adds those of the statement at a place.
fn add_statement<'a>(
    alloc: Global,
    view: CubeView<'a>,
    place: usize,
    it: &'a Statement,
    known: &mut Known<'a>,
    notes: &mut Vec<Note>,
) -> Result<(), AllocError>
    requires view { IsView view }
    requires place { place < length (rules_of view.model.now view.cube).statements }
    requires it { IsStatement view.model.now.space view.cube it.now }
    requires known { IsKnownOf view.model.now view.cube known.old }
    ensures notes { OnOk result (notes.new.items ≡ notes.old.items ++ statement_notes view.entry.model.now
        view.entry.cube place it.now) }
    ensures known { OnOk result (IsKnownOf view.entry.model.now view.entry.cube known.new) }
{
    // the space says what its rules keep
    let _space = view.model.space();
    let reads = counted(alloc, it)?;
    add_reach(view, place, it, true, notes)?;
    add_reach(view, place, it, false, notes)?;
    known.begin();
    add_nameless(view, place as u32, &it.area, &reads, known, notes)?;
    Ok(())
}

// Adds the note that its part for a kind of cells isn't reached, if so.
fn add_reach(
    view: CubeView,
    place: usize,
    it: &Statement,
    leaf: bool,
    notes: &mut Vec<Note>,
) -> Result<(), AllocError>
    requires view { IsView view }
    requires place { place < length (rules_of view.model.now view.cube).statements }
    requires it { IsStatement view.model.now.space view.cube it.now }
    ensures { OnOk result (notes.new.items ≡ notes.old.items ++ reach_notes view.entry.model.now view.entry.cube place
        it.now leaf) }
{
    // the space says what its rules keep
    let _space = view.model.space();
    if !has_part(it, leaf) {
        return Ok(());
    }
    match first_taker(view.model, view.cube, view.finals, &it.area, leaf, place) {
        Some(by) => {
            notes.push(Note::NotReached {
                cube: view.cube,
                statement: place as u32 + 1,
                leaf,
                by: by + 1,
            })?;
            Ok(())
        }
        None => Ok(()),
    }
}
