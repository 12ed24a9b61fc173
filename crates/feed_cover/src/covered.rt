ghost use Rattle.std.specs.Prelude.{◌≡◌, ◌<◌, ◌==◌, not, true, length, is_some, IsTrue};
ghost use Rattle.std.specs.List.{list_any};
ghost use Rattle.rule_model.specs.declared.area.Area.{Area as AnyArea};
ghost use Rattle.rule_model.specs.declared.rules.Statement.{Statement as AnyStatement};
ghost use Rattle.rule_model.specs.BoundModel.{rules_of};
ghost use Rattle.rule_model.specs.Conditions.{IsArea, IsReference};
ghost use Rattle.cover_laws.specs.Looking.{some_below};
ghost use Rattle.cover_laws.specs.Covered.{names_no_total, names_no_governed, has_cover, is_covered};
ghost use Rattle.feed_cover.specs.Answers.{AreAnswers};

use crate::answers::CoverAnswers;
use crate::feeds::feeds_from;
use crate::named::name_leaves;
use crate::possible::is_possible;
use crate::reference_view::{Counted, ReferenceView};
use rule_laws::Reference;
use rule_model::{Area, Model, Statement};

// Whether from no leaf cell of the area the reference names a consolidated cell of an area of its cube.
#[tactic(auto, unfolding(cover_laws::specs::Covered::names_no_total))]
fn names_no_total<'a>(
    model: &'a Model,
    cube: u32,
    area: &'a Area,
    reference: &'a Reference,
    governed: &'a Area,
) -> bool
    requires cube { cube < length model.now.space.cubes }
    requires area { IsArea model.now.space cube area.now }
    requires reference { IsReference model.now.space cube reference.now }
    requires governed { IsArea model.now.space reference.now.cube governed.now }
    ensures { result ≡ names_no_total model.now cube area.now reference.now governed.now }
{
    let _space = model.space();
    let view = ReferenceView {
        cube,
        area,
        reference,
        counted: Counted::Within(governed),
    };
    name_leaves(model, view, 0) || !is_possible(model, view)
}

// Whether it is known that from no leaf cell of the area the reference names a consolidated cell, since each element
// that an argument names from a leaf is one.
fn names_only_leaves<'a>(
    model: &'a Model,
    cube: u32,
    area: &'a Area,
    reference: &'a Reference,
) -> bool
    requires cube { cube < length model.now.space.cubes }
    requires area { IsArea model.now.space cube area.now }
    requires reference { IsReference model.now.space cube reference.now }
    ensures { IsTrue result → (governed : AnyArea)
        → names_no_total model.now cube area.now reference.now governed ≡ true }
{
    let _space = model.space();
    let view = ReferenceView {
        cube,
        area,
        reference,
        counted: Counted::All,
    };
    name_leaves(model, view, 0)
}

// Whether a statement has a part for consolidated cells.
fn have_totals(statements: &[Statement]) -> bool
    ensures { result ≡ list_any (λ (s : AnyStatement). is_some s.cons) statements.now }
{
    'each: for k in 0..statements.len() {
        if statements[k].cons.is_some() {
            return true;
        }
    }
    false
}

/// Whether the reference names no consolidated cell that a statement governs.
#[tactic(auto, unfolding(cover_laws::specs::Covered::names_no_governed))]
pub fn names_no_governed<'a>(
    model: &'a Model,
    cube: u32,
    area: &'a Area,
    reference: &'a Reference,
) -> bool
    requires cube { cube < length model.now.space.cubes }
    requires area { IsArea model.now.space cube area.now }
    requires reference { IsReference model.now.space cube reference.now }
    ensures { result ≡ names_no_governed model.now cube area.now reference.now }
{
    let _space = model.space();
    let statements = model.rules(reference.cube).statements.as_slice();
    if have_totals(statements) && names_only_leaves(model, cube, area, reference) {
        return true;
    }
    'each: for k in 0..statements.len() {
        let statement = &statements[k];
        if statement.cons.is_some()
            && !names_no_total(model, cube, area, reference, &statement.area)
        {
            return false;
        }
    }
    true
}

/// Whether some feeder of the model covers the reference, as far as what it names goes: where it names no governed
/// consolidated cell. What was answered before isn't worked out again.
#[tactic(auto, unfolding(cover_laws::specs::Covered::has_cover))]
pub fn has_cover<'a, 'b>(
    model: &'a Model,
    cube: u32,
    area: &'b Area,
    reference: &'b Reference,
    answers: &mut CoverAnswers<'a>,
) -> bool
    requires cube { cube < length model.now.space.cubes }
    requires area { IsArea model.now.space cube area.now }
    requires reference { IsReference model.now.space cube reference.now }
    requires answers { AreAnswers model.now cube answers.old }
    ensures covers { result ≡ has_cover model.now cube area.now reference.now }
    ensures answers { AreAnswers model.now cube answers.new }
{
    let _space = model.space();
    let view = ReferenceView {
        cube,
        area,
        reference,
        counted: Counted::Leaves,
    };
    if is_possible(model, view) {
        feeds_from(model, view, reference.cube, answers)
    } else {
        has_feeder(model)
    }
}

// Whether the model has any feeder.
fn has_feeder(model: &Model) -> bool
    ensures { result ≡ some_below (λ own. not (length (rules_of model.now own).feeders == 0))
        (length model.now.space.cubes) }
{
    'each: for own in 0..model.space().cubes() {
        if !model.rules(own).feeders.as_slice().is_empty() {
            return true;
        }
    }
    false
}

/// Whether feeders cover a reference of a statement of a cube with this area: it names no consolidated cell that a
/// statement governs, and one feeder feeds each leaf cell of the area from each leaf cell at or below the one that it
/// names from there. Where there is no such cell, any feeder of the model does. What was answered before isn't
/// worked out again.
#[tactic(auto, unfolding(cover_laws::specs::Covered::is_covered))]
pub fn is_covered<'a, 'b>(
    model: &'a Model,
    cube: u32,
    area: &'b Area,
    reference: &'b Reference,
    answers: &mut CoverAnswers<'a>,
) -> bool
    requires cube { cube < length model.now.space.cubes }
    requires area { IsArea model.now.space cube area.now }
    requires reference { IsReference model.now.space cube reference.now }
    requires answers { AreAnswers model.now cube answers.old }
    ensures covers { result ≡ is_covered model.now cube area.now reference.now }
    ensures answers { AreAnswers model.now cube answers.new }
{
    names_no_governed(model, cube, area, reference)
        && has_cover(model, cube, area, reference, answers)
}
