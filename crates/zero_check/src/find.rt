ghost use Rattle.std.specs.Prelude.{◌≡◌, ◌+◌, ◌^◌, ◌<◌, ◌≤◌, true};
ghost use Rattle.rule_laws.specs.Meaning.{each_reference, each_reference_of_truth};
ghost use Rattle.rule_laws.specs.ZeroTest.{of_number, of_operand, of_table, of_continue};
ghost use Rattle.rule_laws.specs.ZeroTest.{of_operation, of_function, of_choice};
ghost use Rattle.rule_laws.specs.ZeroTest.{finding, truth_finding, operands, operands_of_truth, zero_verdict};

use crate::blame::{blamed_branch, blamed_side};
use crate::cover::Cover;
use crate::operation::{
    known_value, sure_and, sure_comparison, sure_not, sure_or, written_as, zero_choice,
    zero_operation,
};
use cube_fixed::{Money, Value};
use rule_laws::{Finding, Formula, Fun, Op, Truth, TruthFinding};

/// What is found of a number.
pub fn of_number(number: Money) -> Finding
    ensures { result ≡ of_number number }
{
    Finding {
        number: Some(number),
        written: Some(Value::Num(number)),
        is_zero: number.millionths() == 0,
        is_table: false,
        operands: 1,
        blamed: 1,
    }
}

/// What is found of an operand that is neither a number nor a table, by whether it is 0.
pub fn of_operand(is_zero: bool) -> Finding
    ensures { result ≡ of_operand is_zero }
{
    Finding {
        number: None,
        written: None,
        is_zero,
        is_table: false,
        operands: 1,
        blamed: 1,
    }
}

/// What is found of a table.
pub fn of_table() -> Finding
    ensures { result ≡ of_table }
{
    Finding {
        number: None,
        written: None,
        is_zero: false,
        is_table: true,
        operands: 1,
        blamed: 1,
    }
}

/// What is found of `CONTINUE`, which is no operand.
pub fn of_continue() -> Finding
    ensures { result ≡ of_continue }
{
    Finding {
        number: None,
        written: None,
        is_zero: true,
        is_table: false,
        operands: 0,
        blamed: 0,
    }
}

/// What is found of an operation, by what is found of its sides.
pub fn of_operation(op: Op, left: &Finding, right: &Finding) -> Finding
    requires room { left.now.operands + right.now.operands < 2 ^ 32 }
    requires left { left.now.blamed ≤ left.now.operands }
    requires right { right.now.blamed ≤ right.now.operands }
    ensures value { result ≡ of_operation op left.now right.now }
    ensures within { result.blamed ≤ result.operands }
{
    Finding {
        number: None,
        written: None,
        is_zero: zero_operation(op, left.is_zero, right),
        is_table: false,
        operands: left.operands + right.operands,
        blamed: blamed_side(op, left, right),
    }
}

/// What is found of a function, by what is found of its argument.
pub fn of_function(fun: Fun, inner: &Finding) -> Finding
    ensures { result ≡ of_function fun inner.now }
{
    Finding {
        number: None,
        written: written_as(fun, inner.number),
        is_zero: inner.is_zero,
        is_table: false,
        operands: inner.operands,
        blamed: inner.blamed,
    }
}

/// What is found of an `IF`, by what is found of its parts.
pub fn of_choice(truth: &TruthFinding, left: &Finding, right: &Finding) -> Finding
    requires room { truth.now.operands + left.now.operands + right.now.operands < 2 ^ 32 }
    requires left { left.now.blamed ≤ left.now.operands }
    requires right { right.now.blamed ≤ right.now.operands }
    ensures value { result ≡ of_choice truth.now left.now right.now }
    ensures within { result.blamed ≤ result.operands }
{
    Finding {
        number: None,
        written: None,
        is_zero: zero_choice(truth.sure, left.is_zero, right.is_zero),
        is_table: false,
        operands: truth.operands + left.operands + right.operands,
        blamed: blamed_branch(truth, left, right),
    }
}

/// What is found of a formula.
#[cycle(find)]
pub fn finding<K, C: Cover<K>>(cover: &C, formula: &Formula, kept: &mut K) -> Finding
    requires ready { C.is_ready cover.now }
    requires kept { C.is_kept cover.now kept.old }
    requires known { each_reference (C.knows cover.now) formula.now ≡ true }
    requires few { operands formula.now < 2 ^ 32 }
    ensures value { result ≡ finding (C.covers cover.now) formula.now }
    ensures counted { result.operands ≡ operands formula.now }
    ensures kept { C.is_kept cover.now kept.new }
    ensures within { result.blamed ≤ result.operands }
{
    match formula {
        Formula::Number(number) => of_number(*number),
        Formula::Stet => of_operand(true),
        Formula::Continue => of_continue(),
        Formula::Children(_) => of_operand(false),
        Formula::Table(_, _) => of_table(),
        Formula::Ref(reference) => of_operand(cover.covers(reference, kept)),
        Formula::Binary(op, left, right) => {
            let left = finding(cover, left.get(), kept);
            let right = finding(cover, right.get(), kept);
            of_operation(*op, &left, &right)
        }
        Formula::Unary(fun, inner) => {
            let inner = finding(cover, inner.get(), kept);
            of_function(*fun, &inner)
        }
        Formula::If(truth, left, right) => {
            let truth = truth_finding(cover, truth.get(), kept);
            choice_finding(cover, &truth, left.get(), right.get(), kept)
        }
    }
}

/// What is found of an `IF`, by what is found of its condition.
#[cycle(find)]
fn choice_finding<K, C: Cover<K>>(
    cover: &C,
    truth: &TruthFinding,
    left: &Formula,
    right: &Formula,
    kept: &mut K,
) -> Finding
    requires ready { C.is_ready cover.now }
    requires kept { C.is_kept cover.now kept.old }
    requires left { each_reference (C.knows cover.now) left.now ≡ true }
    requires right { each_reference (C.knows cover.now) right.now ≡ true }
    requires few { truth.now.operands + operands left.now + operands right.now < 2 ^ 32 }
    ensures value { result ≡ of_choice truth.now (finding (C.covers cover.now) left.now)
        (finding (C.covers cover.now) right.now) }
    ensures counted { result.operands ≡ truth.now.operands + operands left.now + operands right.now }
    ensures kept { C.is_kept cover.now kept.new }
    ensures within { result.blamed ≤ result.operands }
{
    let left = finding(cover, left, kept);
    let right = finding(cover, right, kept);
    of_choice(truth, &left, &right)
}

/// What is found of a condition.
#[cycle(find)]
pub fn truth_finding<K, C: Cover<K>>(cover: &C, truth: &Truth, kept: &mut K) -> TruthFinding
    requires ready { C.is_ready cover.now }
    requires kept { C.is_kept cover.now kept.old }
    requires known { each_reference_of_truth (C.knows cover.now) truth.now ≡ true }
    requires few { operands_of_truth truth.now < 2 ^ 32 }
    ensures value { result ≡ truth_finding (C.covers cover.now) truth.now }
    ensures counted { result.operands ≡ operands_of_truth truth.now }
    ensures kept { C.is_kept cover.now kept.new }
{
    match truth {
        Truth::Compare(rel, left, right) => {
            let left = finding(cover, left, kept);
            let right = finding(cover, right, kept);
            TruthFinding {
                sure: sure_comparison(*rel, known_value(&left), known_value(&right)),
                operands: left.operands + right.operands,
            }
        }
        Truth::And(left, right) => {
            let left = truth_finding(cover, left.get(), kept);
            let right = truth_finding(cover, right.get(), kept);
            TruthFinding {
                sure: sure_and(left.sure, right.sure),
                operands: left.operands + right.operands,
            }
        }
        Truth::Or(left, right) => {
            let left = truth_finding(cover, left.get(), kept);
            let right = truth_finding(cover, right.get(), kept);
            TruthFinding {
                sure: sure_or(left.sure, right.sure),
                operands: left.operands + right.operands,
            }
        }
        Truth::Not(inner) => {
            let inner = truth_finding(cover, inner.get(), kept);
            TruthFinding {
                sure: sure_not(inner.sure),
                operands: inner.operands,
            }
        }
    }
}

/// Whether a formula is 0 wherever its covered references, `STET` and `CONTINUE` are; where the test fails, the operand
/// that it is blamed on, counted from 1 in reading order.
pub fn zero_verdict<K, C: Cover<K>>(cover: &C, formula: &Formula, kept: &mut K) -> Result<(), u32>
    requires ready { C.is_ready cover.now }
    requires kept { C.is_kept cover.now kept.old }
    requires known { each_reference (C.knows cover.now) formula.now ≡ true }
    requires few { operands formula.now < 2 ^ 32 }
    ensures verdict { result ≡ zero_verdict (C.covers cover.now) formula.now }
    ensures kept { C.is_kept cover.now kept.new }
{
    let found = finding(cover, formula, kept);
    if found.is_zero {
        Ok(())
    } else {
        Err(found.blamed)
    }
}
