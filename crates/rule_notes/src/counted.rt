ghost use Rattle.std.specs.Prelude.{◌≡◌, ◌++◌, not, max, length, slice_get, map, IfOk, OnOk};
ghost use Rattle.ref_order.specs.Counted.{counted_of, counted_by, for_both};
ghost use Rattle.ref_order.specs.Reads.{precedent_of};
ghost use Rattle.rule_notes.specs.Inside.Named.{counted_view, for_kind};

use crate::reads::reads_of;
use ref_order::Read;
use rule_model::{Form, Statement};
use std::alloc::{AllocError, Global};

/// A reference of a statement, as it is counted.
#[derive(Clone, Copy)]
pub struct CountedRead<'a> {
    /// What it reads for leaf cells.
    pub leaf: Option<Read<'a>>,
    /// What it reads for consolidated cells.
    pub cons: Option<Read<'a>>,
}

/// The references of a statement, in the order in which they are counted.
#[tactic(auto, unfolding(ref_order::specs::Counted::counted_of))]
pub fn counted<'a>(
    alloc: Global,
    statement: &'a Statement,
) -> Result<Vec<CountedRead<'a>>, AllocError>
    ensures { IfOk result (λ counted. map counted_view counted.items ≡ counted_of statement.now) }
{
    let leaf = reads_of(alloc, &statement.leaf)?;
    let cons = reads_of(alloc, &statement.cons)?;
    let mut counted = Vec::new(alloc);
    add_by(statement.form, &leaf, &cons, &mut counted)?;
    Ok(counted)
}

// Adds what both parts read, as a statement of this form was written.
fn add_by<'a>(
    form: Form,
    leaf: &[Read<'a>],
    cons: &[Read<'a>],
    counted: &mut Vec<CountedRead<'a>>,
) -> Result<(), AllocError>
    ensures { OnOk result (map counted_view counted.new.items
        ≡ map counted_view counted.old.items
        ++ counted_by form (map precedent_of leaf.now) (map precedent_of cons.now)) }
{
    match form {
        Form::Both => add_both(leaf, cons, counted),
        Form::LeafFirst => add_in_turn(true, leaf, cons, counted),
        Form::ConsFirst => add_in_turn(false, cons, leaf, counted),
    }
}

// Adds what is read for one kind of cells, and then what is read for the other.
fn add_in_turn<'a>(
    kind: bool,
    reads: &[Read<'a>],
    others: &[Read<'a>],
    counted: &mut Vec<CountedRead<'a>>,
) -> Result<(), AllocError>
    ensures { OnOk result (map counted_view counted.new.items
        ≡ map counted_view counted.old.items ++ (map (for_kind kind) (map precedent_of reads.now)
        ++ map (for_kind (not kind)) (map precedent_of others.now))) }
{
    add_kind(kind, reads, counted)?;
    add_kind(!kind, others, counted)?;
    Ok(())
}

// Adds what is read for one kind of cells.
fn add_kind<'a>(
    kind: bool,
    reads: &[Read<'a>],
    counted: &mut Vec<CountedRead<'a>>,
) -> Result<(), AllocError>
    ensures { OnOk result (map counted_view counted.new.items
        ≡ map counted_view counted.old.items ++ map (for_kind kind) (map precedent_of reads.now)) }
{
    'each: for k in 0..reads.len() {
        counted.push(of_kind(kind, reads[k]))?;
    }
    Ok(())
}

fn of_kind<'a>(kind: bool, read: Read<'a>) -> CountedRead<'a>
    ensures { counted_view result ≡ for_kind kind (precedent_of read.entry) }
{
    if kind {
        CountedRead {
            leaf: Some(read),
            cons: None,
        }
    } else {
        CountedRead {
            leaf: None,
            cons: Some(read),
        }
    }
}

// Adds what a formula reads that is both parts.
fn add_both<'a>(
    leaf: &[Read<'a>],
    cons: &[Read<'a>],
    counted: &mut Vec<CountedRead<'a>>,
) -> Result<(), AllocError>
    ensures { OnOk result (map counted_view counted.new.items
        ≡ map counted_view counted.old.items ++ for_both (map precedent_of leaf.now) (map precedent_of cons.now)) }
{
    'each: for k in 0..longer(leaf, cons) {
        counted.push(both_at(leaf, cons, k))?;
    }
    Ok(())
}

// The length of the longer list.
fn longer(leaf: &[Read], cons: &[Read]) -> usize
    ensures { result ≡ max (length leaf.now) (length cons.now) }
{
    leaf.len().max(cons.len())
}

// What both lists have at a place.
fn both_at<'a>(leaf: &[Read<'a>], cons: &[Read<'a>], k: usize) -> CountedRead<'a>
    ensures leaf { result.leaf ≡ slice_get leaf.now k }
    ensures cons { result.cons ≡ slice_get cons.now k }
{
    CountedRead {
        leaf: leaf.get(k).copied(),
        cons: cons.get(k).copied(),
    }
}
