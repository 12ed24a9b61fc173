ghost use Rattle.std.specs.Prelude.{◌≡◌};
ghost use Rattle.grammar.specs.Cursor.{Reads};
ghost use Rattle.script_reader.specs.Readers.Reading as reading;

use crate::language::Expressions;
use expression_grammar::{MAX_INSIDE, Nested, Sort, Want, expression_at};
use grammar::{Cursor, Item, Stop};
use script_tree::{Counted, Excess, Expr};
use std::alloc::Global;
use std::marker::PhantomData;

/// Reads an expression as wanted, with fewer than so many one inside the other.
#[tactic(auto, unfolding(expression_grammar::specs::Readers::Reading::read_expression))]
fn expression_inside(
    alloc: Global,
    cursor: &mut Cursor<'_, Counted<'_>>,
    left: u32,
    want: Want,
) -> Result<(Expr, Sort), Stop<Excess>>
    ensures { Reads (λ read. read) (reading.read_inner left want) cursor.old result cursor.new }
{
    if left == 0 {
        // No text comes here, and out of memory nothing is said.
        return Err(Stop::Memory);
    }
    let nested = Nested {
        left: left - 1,
        call: expression_inside,
        language: PhantomData::<Expressions>,
    };
    expression_at::<Expressions, Excess, Counted<'_>, _>(alloc, cursor, want, &nested)
}

/// Reads a whole expression that is a value.
#[tactic(auto, unfolding(crate::specs::Readers::Reading::read_value))]
pub fn value_at(alloc: Global, cursor: &mut Cursor<'_, Counted<'_>>) -> Result<Expr, Stop<Excess>>
    ensures { Reads (λ tree. tree) reading.read_value cursor.old result cursor.new }
{
    let (tree, _) = expression_inside(alloc, cursor, MAX_INSIDE, Want::Value)?;
    Ok(tree)
}

/// Reads a whole expression that is a truth.
#[tactic(auto, unfolding(crate::specs::Readers::Reading::read_truth))]
pub fn truth_at(alloc: Global, cursor: &mut Cursor<'_, Counted<'_>>) -> Result<Expr, Stop<Excess>>
    ensures { Reads (λ tree. tree) reading.read_truth cursor.old result cursor.new }
{
    let (tree, _) = expression_inside(alloc, cursor, MAX_INSIDE, Want::Truth)?;
    Ok(tree)
}

/// A whole expression that is a value, as an item of a list.
pub struct ValueItem;

impl<'a> Item<Expr, Excess, Counted<'a>> for ValueItem {
    ghost use Rattle.script_reader.specs.Readers.Reading.{read_value};

    ghost may_read = { λ _. Unit {0} };

    ghost reads = { λ _. read_value };

    fn read(
        &self,
        alloc: Global,
        cursor: &mut Cursor<'_, Counted<'a>>,
    ) -> Result<Expr, Stop<Excess>> {
        value_at(alloc, cursor)
    }
}
