ghost use Rattle.std.specs.Prelude.{◌≡◌};
ghost use Rattle.grammar.specs.Cursor.{Reads};
ghost use Rattle.rule_reader.specs.Readers.Reading as reading;

use crate::language::Formulas;
use expression_grammar::{MAX_INSIDE, Nested, Sort, Want, expression_at};
use grammar::{Cursor, Item, Stop};
use rule_tree::{Counted, Excess, Tree};
use std::alloc::Global;
use std::marker::PhantomData;

/// Reads a formula as wanted, with fewer than so many one inside the other.
#[tactic(auto, unfolding(expression_grammar::specs::Readers::Reading::read_expression))]
fn formula_inside(
    alloc: Global,
    cursor: &mut Cursor<'_, Counted>,
    left: u32,
    want: Want,
) -> Result<(Tree, Sort), Stop<Excess>>
    ensures { Reads (λ read. read) (reading.read_inner left want) cursor.old result cursor.new }
{
    if left == 0 {
        // No text comes here, and out of memory nothing is said.
        return Err(Stop::Memory);
    }
    let nested = Nested {
        left: left - 1,
        call: formula_inside,
        language: PhantomData::<Formulas>,
    };
    expression_at::<Formulas, Excess, Counted, _>(alloc, cursor, want, &nested)
}

/// Reads a whole formula, which is a value.
#[tactic(auto, unfolding(crate::specs::Readers::Reading::read_formula))]
pub fn formula_at(alloc: Global, cursor: &mut Cursor<'_, Counted>) -> Result<Tree, Stop<Excess>>
    ensures { Reads (λ tree. tree) reading.read_formula cursor.old result cursor.new }
{
    let (tree, _) = formula_inside(alloc, cursor, MAX_INSIDE, Want::Value)?;
    Ok(tree)
}

/// A whole formula, as an item of a list.
pub struct FormulaItem;

impl Item<Tree, Excess, Counted> for FormulaItem {
    ghost use Rattle.rule_reader.specs.Readers.Reading.{read_formula};

    ghost may_read = { λ _. Unit {0} };

    ghost reads = { λ _. read_formula };

    fn read(&self, alloc: Global, cursor: &mut Cursor<'_, Counted>) -> Result<Tree, Stop<Excess>> {
        formula_at(alloc, cursor)
    }
}
