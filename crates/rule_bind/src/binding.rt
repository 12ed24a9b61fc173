ghost use Rattle.std.specs.Prelude.{◌≡◌, ◌+◌, ◌∷◌, [], ◌++◌, ◌<◌, ◌≤◌, ◌^◌, length, OnOk, IfErr};
ghost use Rattle.rule_tree.specs.Counting.{most_statements};
ghost use Rattle.bind_areas.specs.declared.cause.BindCause.TheVariants.{Memory};
ghost use Rattle.bind_arguments.specs.Maps.{AreMapsIn};
ghost use Rattle.rule_bind.specs.declared.fault.BindAt.TheVariants as places;
ghost use Rattle.rule_bind.specs.Rules.{statement_of, feeders_of, standing_at, statements_of, all_feeders_of};
ghost use Rattle.rule_bind.specs.Rules.{rules_of, IsBound};

use crate::fault::{BindAt, BindFault};
use crate::feeder::feeders_of;
use crate::statement::statement_of;
use bind_areas::BindCause;
use bind_arguments::BoundMaps;
use cube_space::Space;
use lists::ListOf;
use rule_model::{CubeRules, Feeder, Order, Statement};
use rule_tree::{FeederText, RuleText, StatementText};
use std::alloc::Global;

// A statement behind so many.
fn next_statement(
    alloc: Global,
    space: &Space,
    maps: &mut BoundMaps,
    cube: u32,
    before: u32,
    text: &StatementText,
) -> Result<Statement, BindFault>
    requires cube { cube < length space.now.cubes }
    requires few { before < most_statements }
    requires maps { AreMapsIn space.now maps.old }
    ensures bound { IsBound (standing_at (places.Statement (before + 1))
        (statement_of space.now cube text.now)) result }
    ensures maps { AreMapsIn space.now maps.new }
{
    match statement_of(alloc, space, maps, cube, text) {
        Ok(statement) => Ok(statement),
        Err(cause) => {
            let at = BindAt::Statement(before + 1);
            Err(BindFault { at, cause })
        }
    }
}

// Adds a statement to so many.
fn add_statement(
    statements: &mut Vec<Statement>,
    before: u32,
    statement: Statement,
) -> Result<(), BindFault>
    requires few { before < most_statements }
    ensures added { OnOk result (statements.new.items ≡ statements.old.items ++ statement ∷ []) }
    ensures memory { IfErr result (λ fault. fault.cause ≡ Memory) }
{
    match statements.push(statement) {
        Ok(_) => Ok(()),
        Err(_) => {
            let at = BindAt::Statement(before + 1);
            let cause = BindCause::Memory;
            Err(BindFault { at, cause })
        }
    }
}

// All statements.
fn statements_of(
    alloc: Global,
    space: &Space,
    maps: &mut BoundMaps,
    cube: u32,
    texts: &[StatementText],
) -> Result<ListOf<Statement>, BindFault>
    requires cube { cube < length space.now.cubes }
    requires few { length texts.now ≤ most_statements }
    requires maps { AreMapsIn space.now maps.old }
    ensures bound { IsBound (statements_of space.now cube 0 texts.now) result }
    ensures maps { AreMapsIn space.now maps.new }
{
    let mut statements = Vec::new(alloc);
    'each: for before in 0..texts.len() {
        let statement = next_statement(alloc, space, maps, cube, before as u32, &texts[before])?;
        add_statement(&mut statements, before as u32, statement)?;
    }
    Ok(ListOf::new(statements))
}

// The feeders of a feeder statement behind so many.
fn next_feeders(
    alloc: Global,
    space: &Space,
    maps: &mut BoundMaps,
    cube: u32,
    before: u32,
    text: &FeederText,
) -> Result<ListOf<Feeder>, BindFault>
    requires cube { cube < length space.now.cubes }
    requires few { before < most_statements }
    requires maps { AreMapsIn space.now maps.old }
    ensures bound { IsBound (standing_at (places.Feeder (before + 1))
        (feeders_of space.now cube before text.now)) result }
    ensures maps { AreMapsIn space.now maps.new }
{
    match feeders_of(alloc, space, maps, cube, before, text) {
        Ok(feeders) => Ok(feeders),
        Err(cause) => {
            let at = BindAt::Feeder(before + 1);
            Err(BindFault { at, cause })
        }
    }
}

// Adds the feeders of a feeder statement behind so many.
fn add_feeders(
    feeders: &mut Vec<Feeder>,
    before: u32,
    more: ListOf<Feeder>,
) -> Result<(), BindFault>
    requires few { before < most_statements }
    ensures added { OnOk result (feeders.new.items ≡ feeders.old.items ++ more) }
    ensures memory { IfErr result (λ fault. fault.cause ≡ Memory) }
{
    let mut more = more.into_vec();
    match feeders.append(&mut more) {
        Ok(_) => Ok(()),
        Err(_) => {
            let at = BindAt::Feeder(before + 1);
            let cause = BindCause::Memory;
            Err(BindFault { at, cause })
        }
    }
}

// The feeders of all feeder statements.
fn all_feeders_of(
    alloc: Global,
    space: &Space,
    maps: &mut BoundMaps,
    cube: u32,
    texts: &[FeederText],
) -> Result<ListOf<Feeder>, BindFault>
    requires cube { cube < length space.now.cubes }
    requires few { length texts.now ≤ most_statements }
    requires maps { AreMapsIn space.now maps.old }
    ensures bound { IsBound (all_feeders_of space.now cube 0 texts.now) result }
    ensures maps { AreMapsIn space.now maps.new }
{
    let mut feeders = Vec::new(alloc);
    'each: for before in 0..texts.len() {
        let more = next_feeders(alloc, space, maps, cube, before as u32, &texts[before])?;
        add_feeders(&mut feeders, before as u32, more)?;
    }
    Ok(ListOf::new(feeders))
}

/// The rules that the text of a cube's rules means, or its first fault in reading order: statements in their
/// order, then feeders. What is bound declares no order of the cube's cells.
///
/// Statements and feeder statements are at most 1,000 each, as they are in every text that `parse` takes. Equal maps of
/// arguments are one, by those that were made so far in this space.
#[tactic(auto, unfolding(crate::specs::Rules::rules_of))]
pub fn bind(
    alloc: Global,
    space: &Space,
    maps: &mut BoundMaps,
    cube: u32,
    text: &RuleText,
) -> Result<CubeRules, BindFault>
    requires cube { cube < length space.now.cubes }
    requires statements { length text.now.statements ≤ most_statements }
    requires feeders { length text.now.feeders ≤ most_statements }
    requires maps { AreMapsIn space.now maps.old }
    ensures bound { IsBound (rules_of space.now cube text.now) result }
    ensures maps { AreMapsIn space.now maps.new }
{
    let statements = statements_of(alloc, space, maps, cube, text.statements.as_slice())?;
    let feeders = all_feeders_of(alloc, space, maps, cube, text.feeders.as_slice())?;
    let order = Order {
        positions: ListOf::new(Vec::new(alloc)),
        totals: None,
    };
    Ok(CubeRules {
        skipcheck: text.skipcheck,
        statements,
        feeders,
        order,
    })
}
