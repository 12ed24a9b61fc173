ghost use Rattle.std.specs.Prelude.{◌≡◌};
ghost use Rattle.rule_laws.specs.Tables.{mark_numbers, number_of};

use cube_fixed::Money;
use lists::ListOf;
use std::alloc::{AllocError, Global};
use std::marker::Model;
use std::sync::Arc;

/// A number for each element of a dimension, by index. The formulas that have the same table share it.
#[derive(Drop)]
pub struct ElementTable {
    numbers: Numbers,
}

#[derive(Drop)]
pub(crate) enum Numbers {
    Each(Arc<ListOf<Money>>),
    /// 1 for each element that is marked, and 0 for the others. It takes an eighth of the memory.
    Marked(Arc<ListOf<bool>>),
}

impl Model for ElementTable {
    ghost use Rattle.std.specs.Prelude.{ℤ, List};
    ghost use Rattle.rule_laws.specs.Inside.Tables.{numbers_in};

    ghost Value = { List ℤ };

    ghost view = { λ table. numbers_in table.numbers };
}

impl ElementTable {
    ghost use Rattle.std.specs.Prelude.{◌≡◌, IfOk};
    ghost use Rattle.rule_laws.specs.Tables.{mark_numbers, number_of};

    /// A table of these numbers.
    pub fn new(alloc: Global, numbers: Vec<Money>) -> Result<ElementTable, AllocError>
        ensures { IfOk result (λ table. table ≡ numbers.items) }
    {
        let numbers = Numbers::Each(Arc::new(alloc, ListOf::new(numbers))?);
        Ok(ElementTable { numbers })
    }

    /// The table that has 1 for each element that is marked, and 0 for the others.
    pub fn marked(alloc: Global, marks: Vec<bool>) -> Result<ElementTable, AllocError>
        ensures { IfOk result (λ table. table ≡ mark_numbers marks.items) }
    {
        let numbers = Numbers::Marked(Arc::new(alloc, ListOf::new(marks))?);
        Ok(ElementTable { numbers })
    }

    /// The same table, with one more owner.
    pub fn share(&self) -> Result<ElementTable, AllocError>
        ensures { IfOk result (λ table. table ≡ self.now) }
    {
        let numbers = match &self.numbers {
            Numbers::Each(numbers) => Numbers::Each(Arc::try_clone(numbers)?),
            Numbers::Marked(marks) => Numbers::Marked(Arc::try_clone(marks)?),
        };
        Ok(ElementTable { numbers })
    }

    /// The number of an element, in millionths; 0 for one that the table doesn't have.
    pub fn get(&self, element: usize) -> Money
        ensures { result ≡ number_of self.now element }
    {
        match &self.numbers {
            Numbers::Each(numbers) => number_at(numbers.as_slice(), element),
            Numbers::Marked(marks) => mark_number_at(marks.as_slice(), element),
        }
    }
}

fn number_at(numbers: &[Money], element: usize) -> Money
    ensures { result ≡ number_of numbers.now element }
{
    match numbers.get(element) {
        Some(number) => *number,
        None => Money::ZERO,
    }
}

#[tactic(auto, using(crate::proofs::MarkFacts::mark_number_of))]
fn mark_number_at(marks: &[bool], element: usize) -> Money
    ensures { result ≡ number_of (mark_numbers marks.now) element }
{
    match marks.get(element) {
        Some(marked) if *marked => Money::of_units(1),
        _ => Money::ZERO,
    }
}
