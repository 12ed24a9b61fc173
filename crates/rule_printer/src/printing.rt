ghost use Rattle.std.specs.Prelude.{◌≡◌, ◌∷◌, [], ◌++◌, IsTrue, OnOk, OnErr, codes};
ghost use Rattle.std.specs.List.{list_all, flat_map};
ghost use Rattle.cube_lex.specs.Written.{Spaces, Writes};
ghost use Rattle.rule_printer.specs.Printed.{IsRuleText, IsPrinted};
ghost use Rattle.rule_printer.specs.Spelled.{elements_spelled, entry_spelled, area_spelled, listed_spelled};
ghost use Rattle.rule_printer.specs.Spelled.{ended_spelled, part_spelled, body_spelled, statement_spelled};
ghost use Rattle.rule_printer.specs.Spelled.{target_spelled, feeder_spelled, skipcheck_spelled, feeders_spelled};
ghost use Rattle.rule_printer.specs.Spelled.{automatic_spelled, given_feeders_spelled, rules_spelled};
ghost use Rattle.rule_printer.specs.Writable.{is_quotable, is_writable, is_writable_entry};
ghost use Rattle.rule_printer.specs.Writable.{is_writable_body, is_writable_statement, is_writable_target};
ghost use Rattle.rule_printer.specs.Writable.{is_writable_feeder, are_writable};

use crate::parts::{write_bracket, write_dimension, write_names, write_separator, write_text};
use crate::tree_printing::{write_tree, write_trees};
use cube_lex::{write_line_end, write_sign, write_word};
use dim_name::Name;
use rule_tree::{BodyText, EntryText, FeederText, RuleText, StatementText, TargetText, Tree};
use std::alloc::{AllocError, Global};

// Writes one element as it is, and several in braces.
fn write_elements(out: &mut Vec<u8>, elements: &[Name]) -> Result<(), AllocError>
    requires { IsTrue (list_all is_quotable elements.now) }
    ensures { OnOk result (Spaces out.old.items out.new.items (elements_spelled elements.now)) }
{
    match elements {
        [] => Ok(()),
        [element] => write_text(out, element.shown()),
        several => {
            write_sign(out, b"{")?;
            write_names(out, several)?;
            write_sign(out, b"}")
        }
    }
}

fn write_entry(out: &mut Vec<u8>, entry: &EntryText) -> Result<(), AllocError>
    requires { IsTrue (is_writable_entry entry.now) }
    ensures { OnOk result (Spaces out.old.items out.new.items (entry_spelled entry.now)) }
{
    write_dimension(out, &entry.dim)?;
    write_elements(out, entry.elements.as_slice())
}

fn write_entries(out: &mut Vec<u8>, entries: &[EntryText]) -> Result<(), AllocError>
    requires { IsTrue (list_all is_writable_entry entries.now) }
    ensures { OnOk result (Spaces out.old.items out.new.items (listed_spelled entry_spelled entries.now)) }
{
    for index in 0..entries.len() {
        write_separator(out, index)?;
        write_entry(out, &entries[index])?;
    }
    Ok(())
}

fn write_area(out: &mut Vec<u8>, entries: &[EntryText]) -> Result<(), AllocError>
    requires { IsTrue (list_all is_writable_entry entries.now) }
    ensures { OnOk result (Spaces out.old.items out.new.items (area_spelled entries.now)) }
{
    write_sign(out, b"[")?;
    write_entries(out, entries)?;
    write_sign(out, b"]")
}

// Writes a formula and its `;`.
fn write_ended(alloc: Global, out: &mut Vec<u8>, tree: &Tree) -> Result<(), AllocError>
    requires { IsTrue (is_writable tree.now) }
    ensures { OnOk result (Spaces out.old.items out.new.items (ended_spelled tree.now)) }
{
    write_tree(alloc, out, tree)?;
    write_sign(out, b";")
}

// Writes the part for leaf cells.
fn write_leaf(alloc: Global, out: &mut Vec<u8>, tree: &Tree) -> Result<(), AllocError>
    requires { IsTrue (is_writable tree.now) }
    ensures { OnOk result (Spaces out.old.items out.new.items (part_spelled (codes "N") tree.now)) }
{
    write_word(out, b"N")?;
    write_sign(out, b":")?;
    write_ended(alloc, out, tree)
}

// Writes the part for consolidated cells.
fn write_cons(alloc: Global, out: &mut Vec<u8>, tree: &Tree) -> Result<(), AllocError>
    requires { IsTrue (is_writable tree.now) }
    ensures { OnOk result (Spaces out.old.items out.new.items (part_spelled (codes "C") tree.now)) }
{
    write_word(out, b"C")?;
    write_sign(out, b":")?;
    write_ended(alloc, out, tree)
}

fn write_body(alloc: Global, out: &mut Vec<u8>, body: &BodyText) -> Result<(), AllocError>
    requires { IsTrue (is_writable_body body.now) }
    ensures { OnOk result (Spaces out.old.items out.new.items (body_spelled body.now)) }
{
    match body {
        BodyText::Both(tree) => write_ended(alloc, out, tree),
        BodyText::Leaf(leaf) => write_leaf(alloc, out, leaf),
        BodyText::Cons(cons) => write_cons(alloc, out, cons),
        BodyText::LeafCons(leaf, cons) => {
            write_leaf(alloc, out, leaf)?;
            write_cons(alloc, out, cons)
        }
        BodyText::ConsLeaf(cons, leaf) => {
            write_cons(alloc, out, cons)?;
            write_leaf(alloc, out, leaf)
        }
    }
}

// Writes a statement on a line of its own.
fn write_statement(
    alloc: Global,
    out: &mut Vec<u8>,
    statement: &StatementText,
) -> Result<(), AllocError>
    requires { IsTrue (is_writable_statement statement.now) }
    ensures { OnOk result (Writes out.old.items out.new.items (statement_spelled statement.now)) }
{
    write_area(out, statement.area.as_slice())?;
    write_sign(out, b"=")?;
    write_body(alloc, out, &statement.body)?;
    write_line_end(out)
}

fn write_statements(
    alloc: Global,
    out: &mut Vec<u8>,
    statements: &[StatementText],
) -> Result<(), AllocError>
    requires { IsTrue (list_all is_writable_statement statements.now) }
    ensures { OnOk result (Writes out.old.items out.new.items (flat_map statement_spelled statements.now)) }
{
    for index in 0..statements.len() {
        write_statement(alloc, out, &statements[index])?;
    }
    Ok(())
}

fn write_target(alloc: Global, out: &mut Vec<u8>, target: &TargetText) -> Result<(), AllocError>
    requires { IsTrue (is_writable_target target.now) }
    ensures { OnOk result (Spaces out.old.items out.new.items (target_spelled target.now)) }
{
    match target {
        TargetText::Bracket(simples) => write_bracket(out, simples.as_slice()),
        TargetText::Db(arguments) => {
            write_word(out, b"DB")?;
            write_sign(out, b"(")?;
            write_trees(alloc, out, arguments.as_slice())?;
            write_sign(out, b")")
        }
    }
}

fn write_targets(alloc: Global, out: &mut Vec<u8>, targets: &[TargetText]) -> Result<(), AllocError>
    requires { IsTrue (list_all is_writable_target targets.now) }
    ensures { OnOk result (Spaces out.old.items out.new.items (listed_spelled target_spelled targets.now)) }
{
    for index in 0..targets.len() {
        write_separator(out, index)?;
        write_target(alloc, out, &targets[index])?;
    }
    Ok(())
}

// Writes a feeder on a line of its own.
fn write_feeder(alloc: Global, out: &mut Vec<u8>, feeder: &FeederText) -> Result<(), AllocError>
    requires { IsTrue (is_writable_feeder feeder.now) }
    ensures { OnOk result (Writes out.old.items out.new.items (feeder_spelled feeder.now)) }
{
    write_area(out, feeder.area.as_slice())?;
    write_sign(out, b"=>")?;
    write_targets(alloc, out, feeder.targets.as_slice())?;
    write_sign(out, b";")?;
    write_line_end(out)
}

/// Writes feeders, each on a line of its own.
pub fn write_each_feeder(
    alloc: Global,
    out: &mut Vec<u8>,
    feeders: &[FeederText],
) -> Result<(), AllocError>
    requires { IsTrue (list_all is_writable_feeder feeders.now) }
    ensures { OnOk result (Writes out.old.items out.new.items (flat_map feeder_spelled feeders.now)) }
{
    for index in 0..feeders.len() {
        write_feeder(alloc, out, &feeders[index])?;
    }
    Ok(())
}

// Writes a word and `;` on a line of their own.
fn write_skipcheck(out: &mut Vec<u8>, skipcheck: bool) -> Result<(), AllocError>
    ensures { OnOk result (Writes out.old.items out.new.items (skipcheck_spelled skipcheck)) }
{
    if skipcheck {
        write_word(out, b"SKIPCHECK")?;
        write_sign(out, b";")?;
        write_line_end(out)
    } else {
        Ok(())
    }
}

// Writes `AUTO` where feeders are found.
fn write_automatic(out: &mut Vec<u8>, finds: bool) -> Result<(), AllocError>
    ensures { OnOk result (Spaces out.old.items out.new.items (automatic_spelled finds)) }
{
    if finds {
        write_word(out, b"AUTO")
    } else {
        Ok(())
    }
}

// Writes the feeders behind their word.
fn write_given_feeders(
    alloc: Global,
    out: &mut Vec<u8>,
    finds: bool,
    feeders: &[FeederText],
) -> Result<(), AllocError>
    requires { IsTrue (list_all is_writable_feeder feeders.now) }
    ensures { OnOk result (Writes out.old.items out.new.items (given_feeders_spelled finds feeders.now)) }
{
    write_word(out, b"FEEDERS")?;
    write_automatic(out, finds)?;
    write_sign(out, b";")?;
    write_line_end(out)?;
    write_each_feeder(alloc, out, feeders)
}

// Writes the feeders, if any are found or given.
fn write_feeders(
    alloc: Global,
    out: &mut Vec<u8>,
    finds: bool,
    feeders: &[FeederText],
) -> Result<(), AllocError>
    requires { IsTrue (list_all is_writable_feeder feeders.now) }
    ensures { OnOk result (Writes out.old.items out.new.items (feeders_spelled finds feeders.now)) }
{
    if finds || !feeders.is_empty() {
        write_given_feeders(alloc, out, finds, feeders)
    } else {
        Ok(())
    }
}

// Writes all rules.
fn write_rules(alloc: Global, out: &mut Vec<u8>, text: &RuleText) -> Result<(), AllocError>
    requires { IsTrue (are_writable text.now) }
    ensures { OnOk result (Writes out.old.items out.new.items (rules_spelled text.now)) }
{
    write_skipcheck(out, text.skipcheck)?;
    write_statements(alloc, out, text.statements.as_slice())?;
    write_feeders(alloc, out, text.finds_feeders, text.feeders.as_slice())
}

/// Appends a text that reads back to equal rules, within the same limits: a line for each statement and each feeder,
/// and no parentheses but those that the operators need. A refusal changes nothing.
pub fn print(alloc: Global, text: &RuleText, out: &mut Vec<u8>) -> Result<(), AllocError>
    requires { IsRuleText text.now }
    ensures written { OnOk result (IsPrinted text.now out.old.items out.new.items) }
    ensures unchanged { OnErr result (out.new.items ≡ out.old.items) }
{
    let mut rules = Vec::new(alloc);
    write_rules(alloc, &mut rules, text)?;
    out.extend_from_slice(&rules)
}
