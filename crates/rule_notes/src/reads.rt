ghost use Rattle.std.specs.Prelude.{◌≡◌, [], ◌∷◌, ◌++◌, map, IfOk, OnOk};
ghost use Rattle.rule_laws.specs.Meaning.{precedents, truth_precedents};
ghost use Rattle.ref_order.specs.Counted.{reads};
ghost use Rattle.ref_order.specs.Reads.{precedent_of};

use ref_order::Read;
use rule_laws::{Formula, Truth};
use std::alloc::{AllocError, Global};

/// What a part of a statement reads, in reading order.
pub fn reads_of<'a>(alloc: Global, part: &'a Option<Formula>) -> Result<Vec<Read<'a>>, AllocError>
    ensures { IfOk result (λ found. map precedent_of found.items ≡ reads part.now) }
{
    let mut found = Vec::new(alloc);
    if let Some(formula) = part {
        add_reads(formula, &mut found)?;
    }
    Ok(found)
}

fn add<'a>(found: &mut Vec<Read<'a>>, read: Read<'a>) -> Result<(), AllocError>
    ensures { OnOk result (map precedent_of found.new.items
        ≡ map precedent_of found.old.items ++ precedent_of read.entry ∷ []) }
{
    found.push(read)?;
    Ok(())
}

// Adds what a formula reads.
#[cycle(add_reads)]
fn add_reads<'a>(formula: &'a Formula, found: &mut Vec<Read<'a>>) -> Result<(), AllocError>
    ensures { OnOk result (map precedent_of found.new.items
        ≡ map precedent_of found.old.items ++ precedents formula.now) }
{
    match formula {
        Formula::Number(_) | Formula::Stet | Formula::Continue | Formula::Table(_, _) => Ok(()),
        Formula::Children(dim) => add(found, Read::Children(*dim)),
        Formula::Ref(reference) => add(found, Read::Cell(reference)),
        Formula::Binary(_, left, right) => {
            add_reads(left.get(), found)?;
            add_reads(right.get(), found)
        }
        Formula::Unary(_, inner) => add_reads(inner.get(), found),
        Formula::If(truth, left, right) => {
            add_truth(truth.get(), found)?;
            add_reads(left.get(), found)?;
            add_reads(right.get(), found)
        }
    }
}

#[cycle(add_reads)]
fn add_truth<'a>(truth: &'a Truth, found: &mut Vec<Read<'a>>) -> Result<(), AllocError>
    ensures { OnOk result (map precedent_of found.new.items
        ≡ map precedent_of found.old.items ++ truth_precedents truth.now) }
{
    match truth {
        Truth::Compare(_, left, right) => {
            add_reads(left, found)?;
            add_reads(right, found)
        }
        Truth::And(left, right) => {
            add_truth(left.get(), found)?;
            add_truth(right.get(), found)
        }
        Truth::Or(left, right) => {
            add_truth(left.get(), found)?;
            add_truth(right.get(), found)
        }
        Truth::Not(inner) => add_truth(inner.get(), found),
    }
}
