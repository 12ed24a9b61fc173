ghost use Rattle.std.specs.Prelude.{◌≡◌, [], map, OnOk, IfOk};
ghost use Rattle.script_bind.specs.Variables as named;
ghost use Rattle.script_bind.specs.Variables.{in_turn, with_word, with_variable, words_in, words_at, words_of_arm};

use grammar::is_column;
use script_tree::{Arm, Expr, Line, Script};
use std::alloc::{AllocError, Global};
use word_table::WordTable;

/// Adds a word, where it is new.
fn add_word(alloc: Global, words: &mut WordTable, word: &[u8]) -> Result<(), AllocError>
    ensures { OnOk result (words.new ≡ with_word word.now words.old) }
{
    if words.contains(word) {
        return Ok(());
    }
    words.push(alloc, word)
}

/// Adds a variable's word. A column is no variable.
fn add_variable(alloc: Global, words: &mut WordTable, word: &[u8]) -> Result<(), AllocError>
    ensures { OnOk result (words.new ≡ with_variable word.now words.old) }
{
    if is_column(word) {
        Ok(())
    } else {
        add_word(alloc, words, word)
    }
}

/// Adds the variables of an expression.
#[cycle(expressions)]
fn add_words_in(alloc: Global, words: &mut WordTable, expr: &Expr) -> Result<(), AllocError>
    ensures { OnOk result (words.new ≡ words_in expr.now words.old) }
{
    match expr {
        Expr::Number(_) => Ok(()),
        Expr::Text(_) => Ok(()),
        Expr::Variable(word) => add_variable(alloc, words, word.as_slice()),
        Expr::Call(_, arguments) => add_words_in_all(alloc, words, arguments.as_slice()),
        Expr::Minus(inner) => add_words_in(alloc, words, inner.get()),
        Expr::Not(inner) => add_words_in(alloc, words, inner.get()),
        Expr::Binary(_, left, right) => {
            add_words_in(alloc, words, left.get())?;
            add_words_in(alloc, words, right.get())
        }
    }
}

#[cycle(expressions)]
fn add_words_in_all(alloc: Global, words: &mut WordTable, exprs: &[Expr]) -> Result<(), AllocError>
    ensures { OnOk result (words.new ≡ in_turn (map words_in exprs.now) words.old) }
{
    'each: for expr in exprs {
        add_words_in(alloc, words, expr)?;
    }
    Ok(())
}

/// Adds the variables of a statement and of those in it.
#[cycle(lines)]
fn add_words_at(alloc: Global, words: &mut WordTable, line: &Line) -> Result<(), AllocError>
    ensures { OnOk result (words.new ≡ words_at line.now words.old) }
{
    match line {
        Line::Assign(word, given) => {
            add_word(alloc, words, word.as_slice())?;
            add_words_in(alloc, words, given)
        }
        Line::Put(arguments) => add_words_in_all(alloc, words, arguments.as_slice()),
        Line::Increment(arguments) => add_words_in_all(alloc, words, arguments.as_slice()),
        Line::ZeroOut(arguments) => add_words_in_all(alloc, words, arguments.as_slice()),
        Line::Skip => Ok(()),
        Line::Break => Ok(()),
        Line::Error => Ok(()),
        Line::If(arms) => add_words_of_arms(alloc, words, arms.as_slice()),
        Line::While(test, lines) => {
            add_words_in(alloc, words, test)?;
            add_words_of_lines(alloc, words, lines.as_slice())
        }
    }
}

/// Adds the variables of a block of an `IF`.
#[cycle(lines)]
fn add_words_of_arm(alloc: Global, words: &mut WordTable, arm: &Arm) -> Result<(), AllocError>
    ensures { OnOk result (words.new ≡ words_of_arm arm.now words.old) }
{
    match arm {
        Arm::When(test, lines) => {
            add_words_in(alloc, words, test)?;
            add_words_of_lines(alloc, words, lines.as_slice())
        }
        Arm::Otherwise(lines) => add_words_of_lines(alloc, words, lines.as_slice()),
    }
}

#[cycle(lines)]
fn add_words_of_arms(alloc: Global, words: &mut WordTable, arms: &[Arm]) -> Result<(), AllocError>
    ensures { OnOk result (words.new ≡ in_turn (map words_of_arm arms.now) words.old) }
{
    'each: for arm in arms {
        add_words_of_arm(alloc, words, arm)?;
    }
    Ok(())
}

#[cycle(lines)]
fn add_words_of_lines(
    alloc: Global,
    words: &mut WordTable,
    lines: &[Line],
) -> Result<(), AllocError>
    ensures { OnOk result (words.new ≡ in_turn (map words_at lines.now) words.old) }
{
    'each: for line in lines {
        add_words_at(alloc, words, line)?;
    }
    Ok(())
}

/// The words of a script's variables, in the order in which they are first named.
#[tactic(auto, unfolding(crate::specs::Variables::variables))]
pub(crate) fn variables(alloc: Global, script: &Script) -> Result<WordTable, AllocError>
    ensures { IfOk result (λ words. words ≡ named.variables script.now) }
{
    let mut words = WordTable::new(alloc);
    add_words_of_lines(alloc, &mut words, script.prolog.lines.as_slice())?;
    add_words_of_lines(alloc, &mut words, script.body.lines.as_slice())?;
    add_words_of_lines(alloc, &mut words, script.epilog.lines.as_slice())?;
    Ok(words)
}
