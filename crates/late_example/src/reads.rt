ghost use Rattle.std.specs.Prelude.{◌≡◌, [], ◌∷◌, ◌++◌, map, length, option_map, option_and_then};
ghost use Rattle.std.specs.Prelude.{if◌then◌else◌, IfOk, OnOk};
ghost use Rattle.rule_laws.specs.Meaning.{precedents, truth_precedents};
ghost use Rattle.ref_order.specs.Counted.{reads, counted_of};
ghost use Rattle.ref_order.specs.Reads.{precedent_of};
ghost use Rattle.late_example.specs.Example.{at_number, read_for};
ghost use Rattle.late_example.specs.Inside.Counting.{comes_second, picked};

use ref_order::Read;
use rule_laws::{Formula, Truth};
use rule_model::{Form, Statement};
use std::alloc::{AllocError, Global};

/// What the reference of this number of a statement, counted from 1, reads for cells of a kind.
pub fn read_for<'a>(
    alloc: Global,
    statement: &'a Statement,
    reference: u32,
    kind: bool,
) -> Result<Option<Read<'a>>, AllocError>
    ensures { IfOk result (λ found. option_map precedent_of found ≡ option_and_then (λ it. read_for it kind)
        (at_number (counted_of statement.now) reference)) }
{
    if reference == 0 {
        return Ok(None);
    }
    let place = reference as usize - 1;
    let leaf = reads_of(alloc, &statement.leaf)?;
    let cons = reads_of(alloc, &statement.cons)?;
    let second = comes_second(statement.form, kind);
    if kind {
        Ok(pick(&leaf, count_before(second, &cons), place))
    } else {
        Ok(pick(&cons, count_before(second, &leaf), place))
    }
}

// Whether the references for cells of a kind are counted after those for cells of the other.
fn comes_second(form: Form, kind: bool) -> bool
    ensures { result ≡ comes_second form kind }
{
    match form {
        Form::Both => false,
        Form::LeafFirst => !kind,
        Form::ConsFirst => kind,
    }
}

fn count_before(second: bool, others: &[Read]) -> usize
    ensures { result ≡ if second then length others.now else 0 }
{
    if second { others.len() } else { 0 }
}

// The one at a place, where so many are counted before them.
fn pick<'a>(reads: &[Read<'a>], before: usize, place: usize) -> Option<Read<'a>>
    ensures { option_map precedent_of result ≡ picked (map precedent_of reads.now) before place }
{
    if place < before {
        return None;
    }
    reads.get(place - before).copied()
}

// What a part of a statement reads, in reading order.
fn reads_of<'a>(alloc: Global, part: &'a Option<Formula>) -> Result<Vec<Read<'a>>, AllocError>
    ensures { IfOk result (λ found. map precedent_of found.items ≡ reads part.now) }
{
    let mut found = Vec::new(alloc);
    if let Some(formula) = part {
        add_reads(formula, &mut found)?;
    }
    Ok(found)
}

fn add<'a>(found: &mut Vec<Read<'a>>, read: Read<'a>) -> Result<(), AllocError>
    ensures { OnOk result (map precedent_of found.new.items
        ≡ map precedent_of found.old.items ++ precedent_of read.entry ∷ []) }
{
    found.push(read)?;
    Ok(())
}

// Adds what a formula reads.
#[cycle(add_reads)]
fn add_reads<'a>(formula: &'a Formula, found: &mut Vec<Read<'a>>) -> Result<(), AllocError>
    ensures { OnOk result (map precedent_of found.new.items
        ≡ map precedent_of found.old.items ++ precedents formula.now) }
{
    match formula {
        Formula::Number(_) | Formula::Stet | Formula::Continue | Formula::Table(_, _) => Ok(()),
        Formula::Children(dim) => add(found, Read::Children(*dim)),
        Formula::Ref(reference) => add(found, Read::Cell(reference)),
        Formula::Binary(_, left, right) => {
            add_reads(left.get(), found)?;
            add_reads(right.get(), found)
        }
        Formula::Unary(_, inner) => add_reads(inner.get(), found),
        Formula::If(truth, left, right) => {
            add_truth(truth.get(), found)?;
            add_reads(left.get(), found)?;
            add_reads(right.get(), found)
        }
    }
}

#[cycle(add_reads)]
fn add_truth<'a>(truth: &'a Truth, found: &mut Vec<Read<'a>>) -> Result<(), AllocError>
    ensures { OnOk result (map precedent_of found.new.items
        ≡ map precedent_of found.old.items ++ truth_precedents truth.now) }
{
    match truth {
        Truth::Compare(_, left, right) => {
            add_reads(left, found)?;
            add_reads(right, found)
        }
        Truth::And(left, right) => {
            add_truth(left.get(), found)?;
            add_truth(right.get(), found)
        }
        Truth::Or(left, right) => {
            add_truth(left.get(), found)?;
            add_truth(right.get(), found)
        }
        Truth::Not(inner) => add_truth(inner.get(), found),
    }
}
