ghost use Rattle.std.specs.Prelude.{◌≡◌, ◌<◌, ◌++◌, ◌^◌, List, false, length, slice_index_or, All, IfOk, OnOk};
ghost use Rattle.rule_model.specs.BoundModel.{rules_of};
ghost use Rattle.rule_model.specs.Conditions.{IsStatement, read_count};
ghost use Rattle.feed_find.specs.Found.{Picked, counted_before, chosen_of, picked_at, picked_in, picked_if};
ghost use Rattle.feed_find.specs.Found.{found_feeders, all_unturned};
ghost use Rattle.feed_find.specs.Added.{IsFound};
ghost use Rattle.feed_find.specs.Views.{IsChosen, IsKept, AreGathered};

use crate::asked::Asked;
use crate::chosen::{Chosen, FoundFeeder};
use crate::count::references;
use crate::found_table::FoundTable;
use crate::gathered::{Gathered, add_all};
use crate::kept::Kept;
use crate::needed::needed;
use crate::unturned::Unturned;
use lists::ListOf;
use rule_laws::findings_rest_on_references;
use rule_model::{Form, Model, Statement};
use std::alloc::{AllocError, Global};

/// What is found for a model.
#[derive(Drop)]
pub struct Found {
    /// The feeders, each once, in the order of the references that they cover.
    pub feeders: ListOf<FoundFeeder>,
    /// The references that are chosen and can't be turned round, in their order.
    pub unturned: ListOf<Unturned>,
}

// How many references of a statement are counted before those of its N part.
fn counted_before(statement: &Statement) -> u32
    requires { read_count statement.now.cons < 2 ^ 32 }
    ensures { result ≡ counted_before statement.now.form statement.now }
{
    match statement.form {
        Form::Both | Form::LeafFirst => 0,
        Form::ConsFirst => match &statement.cons {
            Some(formula) => references(formula),
            None => 0,
        },
    }
}

// The references that are chosen of the N part of a statement of a cube.
#[tactic(auto, unfolding(crate::specs::Found::chosen_of))]
fn chosen_of<'a>(
    alloc: Global,
    model: &'a Model,
    cube: u32,
    statement: &'a Statement,
    kept: &mut Kept<'a>,
) -> Result<ListOf<Chosen>, AllocError>
    requires cube { cube < length model.now.space.cubes }
    requires statement { IsStatement model.now.space cube statement.now }
    requires kept { IsKept model.now cube kept.old }
    ensures chosen { IfOk result (λ chosen. chosen ≡ chosen_of model.now cube statement.now) }
    ensures valid { IfOk result (All (IsChosen model.now.space)) }
    ensures kept { IsKept model.now cube kept.new }
{
    let _space = model.space();
    findings_rest_on_references();
    let Some(formula) = &statement.leaf else {
        return Ok(ListOf::new(Vec::new(alloc)));
    };
    let area = &statement.area;
    let asked = Asked { model, cube, area };
    let found = needed(alloc, asked, formula, counted_before(statement), kept)?;
    Ok(found.chosen)
}

// Gathers what is chosen by the statement at a place of a cube.
fn gather_at<'a>(
    alloc: Global,
    model: &'a Model,
    cube: u32,
    place: u32,
    kept: &mut Kept<'a>,
    gathered: &mut Gathered,
) -> Result<(), AllocError>
    requires cube { cube < length model.now.space.cubes }
    requires place { place < length (rules_of model.now cube).statements }
    requires kept { IsKept model.now cube kept.old }
    requires feeders { All (IsFound model.now.space) gathered.old.feeders }
    ensures added { OnOk result ((picked : List Picked) → AreGathered picked gathered.old
        → AreGathered (picked ++ picked_at model.now cube place) gathered.new) }
    ensures valid { OnOk result (All (IsFound model.now.space) gathered.new.feeders) }
    ensures kept { IsKept model.now cube kept.new }
{
    let space = model.space();
    let statement = &model.rules(cube).statements.as_slice()[place as usize];
    let chosen = chosen_of(alloc, model, cube, statement, kept)?;
    add_all(space, gathered, cube, place + 1, chosen)
}

// Gathers what is chosen by the statements of a cube.
#[tactic(auto, unfolding(crate::specs::Found::picked_in))]
fn gather_in(
    alloc: Global,
    model: &Model,
    cube: u32,
    gathered: &mut Gathered,
) -> Result<(), AllocError>
    requires cube { cube < length model.now.space.cubes }
    requires feeders { All (IsFound model.now.space) gathered.old.feeders }
    ensures added { OnOk result ((picked : List Picked) → AreGathered picked gathered.old
        → AreGathered (picked ++ picked_in model.now cube) gathered.new) }
    ensures valid { OnOk result (All (IsFound model.now.space) gathered.new.feeders) }
{
    let _space = model.space();
    let mut kept = Kept::none(alloc, model, cube)?;
    let count = model.rules(cube).statements.as_slice().len() as u32;
    'each: for place in 0..count {
        gather_at(alloc, model, cube, place, &mut kept, gathered)?;
    }
    Ok(())
}

// Whether feeders are found for a cube.
fn is_found_for(wanted: &[bool], cube: u32) -> bool
    ensures { result ≡ slice_index_or wanted.now cube false }
{
    match wanted.get(cube as usize) {
        Some(found) => *found,
        None => false,
    }
}

// Gathers what is chosen by the statements of a cube, if feeders are found for it.
fn gather_if(
    alloc: Global,
    model: &Model,
    wanted: &[bool],
    cube: u32,
    gathered: &mut Gathered,
) -> Result<(), AllocError>
    requires cube { cube < length model.now.space.cubes }
    requires feeders { All (IsFound model.now.space) gathered.old.feeders }
    ensures added { OnOk result ((picked : List Picked) → AreGathered picked gathered.old
        → AreGathered (picked ++ picked_if model.now wanted.now cube) gathered.new) }
    ensures valid { OnOk result (All (IsFound model.now.space) gathered.new.feeders) }
{
    if is_found_for(wanted, cube) {
        gather_in(alloc, model, cube, gathered)?;
    }
    Ok(())
}

/// The feeders that are found for these cubes of a model, by number, and the chosen references that can't be turned
/// round.
///
/// Of each statement with an N part those references are chosen that make it 0 once they are covered, as far as
/// feeders of the model don't do so already: of a product one factor, the first whose references can all be turned
/// round, or else the left one; of a sum both sides; of an `IF` both branches, or the condition and the branch that it
/// then surely takes. A reference that may name a consolidated cell which a statement governs can't be turned round,
/// since no feeder covers it.
#[tactic(auto, unfolding(crate::specs::Found::all_picked))]
pub fn find(alloc: Global, model: &Model, wanted: &[bool]) -> Result<Found, AllocError>
    ensures feeders { IfOk result (λ found. found.feeders ≡ found_feeders model.now wanted.now) }
    ensures unturned { IfOk result (λ found. found.unturned ≡ all_unturned model.now wanted.now) }
    ensures valid { IfOk result (λ found. All (IsFound model.now.space) found.feeders) }
{
    let mut gathered = Gathered {
        feeders: FoundTable::new(alloc)?,
        unturned: Vec::new(alloc),
    };
    'each: for cube in 0..model.space().cubes() {
        gather_if(alloc, model, wanted, cube, &mut gathered)?;
    }
    Ok(Found {
        feeders: gathered.feeders.into_feeders(),
        unturned: ListOf::new(gathered.unturned),
    })
}
