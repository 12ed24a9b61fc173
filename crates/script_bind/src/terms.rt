ghost use Rattle.std.specs.Prelude.{◌≡◌, ◌≢◌, ◌-◌, length, map, IfOk, MatchOption};
ghost use Rattle.script_bind.specs.Binding as bound;
ghost use Rattle.script_bind.specs.Binding.{term_of};
ghost use Rattle.script_bound.specs.declared.term.Term.TheVariants as variants;

use crate::operator::{Operator, operator_of};
use grammar::is_column;
use lists::ListOf;
use rule_laws::{Fun, Op};
use script_bound::{ElementFun, Term, TextFun};
use script_tree::{Expr, ScriptFun, ScriptOp};
use sqlite_items::{Boxed, Items};
use std::alloc::{AllocError, Global};
use word_table::WordTable;

/// The number of a variable: its place among the words.
#[tactic(auto, unfolding(crate::specs::Binding::number_of))]
pub(crate) fn number_of(words: &WordTable, word: &[u8]) -> usize
    ensures { result ≡ bound.number_of words.now word.now }
{
    match words.place_of(word) {
        Some(place) => place,
        None => words.len(),
    }
}

fn digit(byte: u8) -> usize
    ensures { result ≡ byte - 48 }
{
    usize::from(byte.saturating_sub(b'0'))
}

/// The number that one to four digits write.
#[tactic(auto, unfolding(crate::specs::Binding::column_number))]
fn column_number(digits: &[u8]) -> usize
    ensures { result ≡ bound.column_number digits.now }
{
    match digits {
        [a] => digit(*a),
        [a, b] => 10 * digit(*a) + digit(*b),
        [a, b, c] => 100 * digit(*a) + 10 * digit(*b) + digit(*c),
        [a, b, c, d] => 1000 * digit(*a) + 100 * digit(*b) + 10 * digit(*c) + digit(*d),
        _ => 0,
    }
}

/// The place of a column, from 0.
#[tactic(auto, unfolding(crate::specs::Binding::column_place))]
fn column_place(word: &[u8]) -> usize
    ensures { result ≡ bound.column_place word.now }
{
    match word {
        [] => 0,
        [_, digits @ ..] => column_number(digits).saturating_sub(1),
    }
}

/// A variable or a column.
#[tactic(auto, unfolding(crate::specs::Binding::word_term))]
fn word_term(words: &WordTable, word: &[u8]) -> Term
    ensures { result ≡ bound.word_term words.now word.now }
{
    if is_column(word) {
        Term::Column(column_place(word))
    } else {
        Term::Variable(number_of(words, word))
    }
}

/// What no text of the grammar has.
pub(crate) fn nothing(alloc: Global) -> Term
    ensures { result ≡ bound.nothing }
{
    Term::Get(Items::new(alloc))
}

/// The same terms, each in a box.
fn boxes_of(alloc: Global, terms: Vec<Term>) -> Result<Vec<Boxed<Term>>, AllocError>
    ensures { IfOk result (λ boxes. boxes.items ≡ terms.items) }
{
    let mut boxes = Vec::new(alloc);
    'each: for term in terms {
        let term = Boxed::new(alloc, term)?;
        boxes.push(term)?;
    }
    Ok(boxes)
}

/// The terms of a list, where it has just so many.
fn parts<const N: usize>(
    alloc: Global,
    terms: Vec<Term>,
) -> Result<Option<[Boxed<Term>; N]>, AllocError>
    ensures { IfOk result (λ found. MatchOption found (length terms.items ≢ N) (λ parts. parts ≡ terms.items)) }
{
    let boxes = boxes_of(alloc, terms)?;
    match <[Boxed<Term>; N]>::try_from(boxes) {
        Ok(parts) => Ok(Some(parts)),
        Err(_) => Ok(None),
    }
}

/// A function of one number.
#[tactic(auto, unfolding(crate::specs::Binding::function_term))]
fn function_term(alloc: Global, function: Fun, terms: Vec<Term>) -> Result<Term, AllocError>
    ensures { IfOk result (λ term. term ≡ bound.function_term function terms.items) }
{
    match parts::<1>(alloc, terms)? {
        Some([inner]) => Ok(Term::Amount(function, inner)),
        None => Ok(nothing(alloc)),
    }
}

/// An operation on two numbers.
#[tactic(auto, unfolding(crate::specs::Binding::operation_term))]
fn operation_term(alloc: Global, op: Op, terms: Vec<Term>) -> Result<Term, AllocError>
    ensures { IfOk result (λ term. term ≡ bound.operation_term op terms.items) }
{
    match parts::<2>(alloc, terms)? {
        Some([left, right]) => Ok(Term::Amounts(op, left, right)),
        None => Ok(nothing(alloc)),
    }
}

/// The number that a text says.
#[tactic(auto, unfolding(crate::specs::Binding::to_number))]
fn to_number(alloc: Global, terms: Vec<Term>) -> Result<Term, AllocError>
    ensures { IfOk result (λ term. term ≡ bound.to_number terms.items) }
{
    match parts::<1>(alloc, terms)? {
        Some([inner]) => Ok(Term::ToNumber(inner)),
        None => Ok(nothing(alloc)),
    }
}

/// A number as a text.
#[tactic(auto, unfolding(crate::specs::Binding::to_text))]
fn to_text(alloc: Global, terms: Vec<Term>) -> Result<Term, AllocError>
    ensures { IfOk result (λ term. term ≡ bound.to_text terms.items) }
{
    match parts::<1>(alloc, terms)? {
        Some([inner]) => Ok(Term::ToText(inner)),
        None => Ok(nothing(alloc)),
    }
}

/// A function of one text, which gives a text.
#[tactic(auto, unfolding(crate::specs::Binding::altered_term))]
fn altered_term(alloc: Global, function: TextFun, terms: Vec<Term>) -> Result<Term, AllocError>
    ensures { IfOk result (λ term. term ≡ bound.altered_term function terms.items) }
{
    match parts::<1>(alloc, terms)? {
        Some([inner]) => Ok(Term::Altered(function, inner)),
        None => Ok(nothing(alloc)),
    }
}

/// How many characters a text has.
#[tactic(auto, unfolding(crate::specs::Binding::long_term))]
fn long_term(alloc: Global, terms: Vec<Term>) -> Result<Term, AllocError>
    ensures { IfOk result (λ term. term ≡ bound.long_term terms.items) }
{
    match parts::<1>(alloc, terms)? {
        Some([inner]) => Ok(Term::Long(inner)),
        None => Ok(nothing(alloc)),
    }
}

/// Where a text stands in another one.
#[tactic(auto, unfolding(crate::specs::Binding::scan_term))]
fn scan_term(alloc: Global, terms: Vec<Term>) -> Result<Term, AllocError>
    ensures { IfOk result (λ term. term ≡ bound.scan_term terms.items) }
{
    match parts::<2>(alloc, terms)? {
        Some([part, inner]) => Ok(Term::Scan(part, inner)),
        None => Ok(nothing(alloc)),
    }
}

/// Characters of a text.
#[tactic(auto, unfolding(crate::specs::Binding::subst_term))]
fn subst_term(alloc: Global, terms: Vec<Term>) -> Result<Term, AllocError>
    ensures { IfOk result (λ term. term ≡ bound.subst_term terms.items) }
{
    match parts::<3>(alloc, terms)? {
        Some([inner, start, count]) => Ok(Term::Subst(inner, start, count)),
        None => Ok(nothing(alloc)),
    }
}

/// A number as a text of a width, with some decimals.
#[tactic(auto, unfolding(crate::specs::Binding::str_term))]
fn str_term(alloc: Global, terms: Vec<Term>) -> Result<Term, AllocError>
    ensures { IfOk result (λ term. term ≡ bound.str_term terms.items) }
{
    match parts::<3>(alloc, terms)? {
        Some([inner, width, decimals]) => Ok(Term::Str(inner, width, decimals)),
        None => Ok(nothing(alloc)),
    }
}

/// The name of the element at a place of a dimension.
#[tactic(auto, unfolding(crate::specs::Binding::element_name))]
fn element_name(alloc: Global, terms: Vec<Term>) -> Result<Term, AllocError>
    ensures { IfOk result (λ term. term ≡ bound.element_name terms.items) }
{
    match parts::<2>(alloc, terms)? {
        Some([dimension, place]) => Ok(Term::ElementName(dimension, place)),
        None => Ok(nothing(alloc)),
    }
}

/// What is asked of a dimension or of one of its elements, by their names.
fn element_term(function: ElementFun, terms: Vec<Term>) -> Term
    ensures { result ≡ variants.Element function terms.items }
{
    Term::Element(function, Items::from_vec(terms))
}

/// A function with these arguments.
#[tactic(auto, unfolding(crate::specs::Binding::call_term))]
fn call_term(alloc: Global, function: ScriptFun, terms: Vec<Term>) -> Result<Term, AllocError>
    ensures { IfOk result (λ term. term ≡ bound.call_term function terms.items) }
{
    match function {
        ScriptFun::CellGetN => Ok(Term::Get(Items::from_vec(terms))),
        ScriptFun::Abs => function_term(alloc, Fun::Abs, terms),
        ScriptFun::Sign => function_term(alloc, Fun::Sign, terms),
        ScriptFun::Int => function_term(alloc, Fun::Int, terms),
        ScriptFun::Round => function_term(alloc, Fun::Round, terms),
        ScriptFun::StringToNumber => to_number(alloc, terms),
        ScriptFun::NumberToString => to_text(alloc, terms),
        ScriptFun::Max => operation_term(alloc, Op::Max, terms),
        ScriptFun::Min => operation_term(alloc, Op::Min, terms),
        ScriptFun::Trim => altered_term(alloc, TextFun::Trim, terms),
        ScriptFun::Upper => altered_term(alloc, TextFun::Upper, terms),
        ScriptFun::Lower => altered_term(alloc, TextFun::Lower, terms),
        ScriptFun::Long => long_term(alloc, terms),
        ScriptFun::Scan => scan_term(alloc, terms),
        ScriptFun::Subst => subst_term(alloc, terms),
        ScriptFun::Str => str_term(alloc, terms),
        ScriptFun::Mod => operation_term(alloc, Op::Mod, terms),
        ScriptFun::RoundP => operation_term(alloc, Op::RoundTo, terms),
        ScriptFun::Trunc => function_term(alloc, Fun::Trunc, terms),
        ScriptFun::ElementCount => Ok(element_term(ElementFun::Count, terms)),
        ScriptFun::ElementName => element_name(alloc, terms),
        ScriptFun::ElementPlace => Ok(element_term(ElementFun::Place, terms)),
        ScriptFun::ElementKind => Ok(element_term(ElementFun::Kind, terms)),
        ScriptFun::AttributeText => Ok(element_term(ElementFun::Text, terms)),
        ScriptFun::AttributeNumber => Ok(element_term(ElementFun::Number, terms)),
        ScriptFun::IsAncestor => Ok(element_term(ElementFun::IsAncestor, terms)),
        ScriptFun::CellIsUpdateable => Ok(Term::IsUpdateable(Items::from_vec(terms))),
    }
}

/// Two operands with an operator between them.
#[tactic(auto, unfolding(crate::specs::Binding::operator_term))]
fn operator_term(op: ScriptOp, left: Boxed<Term>, right: Boxed<Term>) -> Term
    ensures { result ≡ bound.operator_term (bound.operator_of op) left right }
{
    match operator_of(op) {
        Operator::Amounts(op) => Term::Amounts(op, left, right),
        Operator::Compare(rel) => Term::Compare(rel, left, right),
        Operator::Join => Term::Join(left, right),
        Operator::SameText => Term::Same(left, right),
        Operator::OtherText => Term::Other(left, right),
        Operator::And => Term::And(left, right),
        Operator::Or => Term::Or(left, right),
    }
}

/// A text.
fn text_term(alloc: Global, bytes: &[u8]) -> Result<Term, AllocError>
    ensures { IfOk result (λ term. term ≡ variants.Text bytes.now) }
{
    let bytes = Vec::from_slice(alloc, bytes)?;
    Ok(Term::Text(ListOf::new(bytes)))
}

/// An expression in which these are the variables.
///
/// Where memory ends, what is bound so far is dropped. A box is dropped by a call, a bare term by a case for each
/// variant, which is long to prove. So a term goes into its box before the next one is bound.
#[cycle(terms)]
pub(crate) fn term_of(alloc: Global, words: &WordTable, expr: &Expr) -> Result<Term, AllocError>
    ensures { IfOk result (λ term. term ≡ term_of words.now expr.now) }
{
    match expr {
        Expr::Number(number) => Ok(Term::Number(*number)),
        Expr::Text(bytes) => text_term(alloc, bytes.as_slice()),
        Expr::Variable(word) => Ok(word_term(words, word.as_slice())),
        Expr::Call(function, arguments) => {
            let terms = terms_of(alloc, words, arguments.as_slice())?;
            call_term(alloc, *function, terms)
        }
        Expr::Minus(inner) => {
            let inner = Boxed::new(alloc, term_of(alloc, words, inner.get())?)?;
            Ok(Term::Amount(Fun::Minus, inner))
        }
        Expr::Not(inner) => {
            let inner = Boxed::new(alloc, term_of(alloc, words, inner.get())?)?;
            Ok(Term::Not(inner))
        }
        Expr::Binary(op, left, right) => {
            let left = Boxed::new(alloc, term_of(alloc, words, left.get())?)?;
            let right = Boxed::new(alloc, term_of(alloc, words, right.get())?)?;
            Ok(operator_term(*op, left, right))
        }
    }
}

/// Expressions in which these are the variables.
#[cycle(terms)]
pub(crate) fn terms_of(
    alloc: Global,
    words: &WordTable,
    exprs: &[Expr],
) -> Result<Vec<Term>, AllocError>
    ensures { IfOk result (λ terms. terms.items ≡ map (term_of words.now) exprs.now) }
{
    let mut terms = Vec::new(alloc);
    'each: for expr in exprs {
        let term = term_of(alloc, words, expr)?;
        terms.push(term)?;
    }
    Ok(terms)
}
