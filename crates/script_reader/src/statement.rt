ghost use Rattle.std.specs.Prelude.{◌≡◌};
ghost use Rattle.grammar.specs.Cursor.{Reads};
ghost use Rattle.grammar.specs.Reading.{starts, all_of};
ghost use Rattle.script_reader.specs.Readers.StatementReading as reading;

use crate::arguments::{three_or_more, two_or_more};
use crate::value::{ValueItem, truth_at, value_at};
use crate::words::{leap, variable};
use expression_grammar::pair_comes;
use grammar::{Cursor, RepeatedItem, Stop, repeated, repeated_behind, sign, word, word_comes};
use lists::ListOf;
use script_tree::{Arm, Counted, Excess, Expr, Line, Section};
use sqlite_items::Items;
use std::alloc::Global;

/// Reads what a variable is set to.
#[tactic(auto, unfolding(crate::specs::Readers::StatementReading::read_assignment))]
fn assignment_at(alloc: Global, cursor: &mut Cursor<'_, Counted<'_>>) -> Result<Line, Stop<Excess>>
    ensures { Reads (λ line. line) reading.read_assignment cursor.old result cursor.new }
{
    let name = variable(alloc, cursor)?;
    sign(cursor, b"=")?;
    let given = value_at(alloc, cursor)?;
    sign(cursor, b";")?;
    Ok(Line::Assign(name, given))
}

/// Reads a function that writes, and its arguments.
#[tactic(auto, unfolding(crate::specs::Readers::StatementReading::read_written))]
fn written_at(
    alloc: Global,
    cursor: &mut Cursor<'_, Counted<'_>>,
    function: &[u8],
) -> Result<Items<Expr>, Stop<Excess>>
    ensures { Reads (λ given. given) (reading.read_written function.now) cursor.old result cursor.new }
{
    word(cursor, function)?;
    sign(cursor, b"(")?;
    let given = three_or_more(alloc, cursor, &ValueItem)?;
    sign(cursor, b")")?;
    sign(cursor, b";")?;
    Ok(Items::from_vec(given.into_vec()))
}

/// Reads a `ZeroOut`.
#[tactic(auto, unfolding(crate::specs::Readers::StatementReading::read_zeroing))]
fn zeroing_at(alloc: Global, cursor: &mut Cursor<'_, Counted<'_>>) -> Result<Line, Stop<Excess>>
    ensures { Reads (λ line. line) reading.read_zeroing cursor.old result cursor.new }
{
    word(cursor, b"ZEROOUT")?;
    sign(cursor, b"(")?;
    let given = two_or_more(alloc, cursor, &ValueItem)?;
    sign(cursor, b")")?;
    sign(cursor, b";")?;
    Ok(Line::ZeroOut(Items::from_vec(given.into_vec())))
}

/// Reads a statement of one word.
#[tactic(auto, unfolding(crate::specs::Readers::StatementReading::read_leaping))]
fn leaping_at(cursor: &mut Cursor<'_, Counted<'_>>, section: Section) -> Result<Line, Stop<Excess>>
    ensures { Reads (λ line. line) (reading.read_leaping section) cursor.old result cursor.new }
{
    let line = leap(cursor, section)?;
    sign(cursor, b";")?;
    Ok(line)
}

/// Reads a condition, up to its `;`.
#[tactic(auto, unfolding(crate::specs::Readers::StatementReading::read_condition))]
fn condition_at(alloc: Global, cursor: &mut Cursor<'_, Counted<'_>>) -> Result<Expr, Stop<Excess>>
    ensures { Reads (λ test. test) reading.read_condition cursor.old result cursor.new }
{
    sign(cursor, b"(")?;
    let test = truth_at(alloc, cursor)?;
    sign(cursor, b")")?;
    sign(cursor, b";")?;
    Ok(test)
}

/// Reads a block, by what reads its statements.
fn block_at<'a, B: RepeatedItem<Line, Excess, Counted<'a>>>(
    alloc: Global,
    cursor: &mut Cursor<'_, Counted<'a>>,
    inside: &B,
) -> Result<Items<Line>, Stop<Excess>>
    requires { B.may_repeat inside.now }
    ensures { Reads (λ lines. lines) (all_of (B.begins inside.now) (B.reads_next inside.now)) cursor.old result
        cursor.new }
{
    let lines = repeated(alloc, cursor, inside)?;
    Ok(Items::from_vec(lines.into_vec()))
}

/// Reads a word, a condition and the block behind it.
#[tactic(auto, unfolding(crate::specs::Readers::StatementReading::read_arm))]
fn arm_at<'a, B: RepeatedItem<Line, Excess, Counted<'a>>>(
    alloc: Global,
    cursor: &mut Cursor<'_, Counted<'a>>,
    mark: &[u8],
    inside: &B,
) -> Result<Arm, Stop<Excess>>
    requires { B.may_repeat inside.now }
    ensures { Reads (λ arm. arm) (reading.read_arm mark.now (all_of (B.begins inside.now) (B.reads_next inside.now)))
        cursor.old result cursor.new }
{
    word(cursor, mark)?;
    let test = condition_at(alloc, cursor)?;
    let lines = block_at(alloc, cursor, inside)?;
    Ok(Arm::When(test, lines))
}

/// The arm of an `ELSEIF`.
#[derive(Clone, Copy)]
struct FurtherArm<'a, B> {
    inside: &'a B,
}

impl<'a, 't, B: RepeatedItem<Line, Excess, Counted<'t>>> RepeatedItem<Arm, Excess, Counted<'t>>
    for FurtherArm<'a, B> {
    ghost use Rattle.std.specs.Prelude.{codes};
    ghost use Rattle.grammar.specs.Reading.{all_of};
    ghost use Rattle.grammar.specs.Tokens.{is_word};
    ghost use Rattle.script_reader.specs.Readers.StatementReading.{read_arm};

    ghost may_repeat = { λ arm. B.may_repeat arm.inside.now };

    ghost begins = { λ _. is_word (codes "ELSEIF") };

    ghost reads_next = { λ arm. read_arm (codes "ELSEIF")
        (all_of (B.begins arm.inside.now) (B.reads_next arm.inside.now)) };

    fn comes(&self, cursor: &Cursor<'_, Counted<'t>>) -> bool {
        word_comes(cursor, b"ELSEIF")
    }

    fn read_next(
        &self,
        alloc: Global,
        cursor: &mut Cursor<'_, Counted<'t>>,
    ) -> Result<Arm, Stop<Excess>> {
        arm_at(alloc, cursor, b"ELSEIF", self.inside)
    }
}

/// Reads the arms of `IF` and of each `ELSEIF`.
#[tactic(auto, unfolding(crate::specs::Readers::StatementReading::read_arms))]
fn arms_at<'a, B: RepeatedItem<Line, Excess, Counted<'a>>>(
    alloc: Global,
    cursor: &mut Cursor<'_, Counted<'a>>,
    inside: &B,
) -> Result<ListOf<Arm>, Stop<Excess>>
    requires { B.may_repeat inside.now }
    ensures { Reads (λ arms. arms) (reading.read_arms (all_of (B.begins inside.now) (B.reads_next inside.now)))
        cursor.old result cursor.new }
{
    let first = arm_at(alloc, cursor, b"IF", inside)?;
    repeated_behind(alloc, cursor, &FurtherArm { inside }, first)
}

/// Reads `ELSE ;` and its block, if they are there, and adds its arm to those before.
#[tactic(auto, unfolding(crate::specs::Readers::StatementReading::read_otherwise))]
fn otherwise_at<'a, B: RepeatedItem<Line, Excess, Counted<'a>>>(
    alloc: Global,
    cursor: &mut Cursor<'_, Counted<'a>>,
    before: ListOf<Arm>,
    inside: &B,
) -> Result<ListOf<Arm>, Stop<Excess>>
    requires { B.may_repeat inside.now }
    ensures { Reads (λ arms. arms) (reading.read_otherwise (all_of (B.begins inside.now) (B.reads_next inside.now))
        before) cursor.old result cursor.new }
{
    if word_comes(cursor, b"ELSE") {
        word(cursor, b"ELSE")?;
        sign(cursor, b";")?;
        let lines = block_at(alloc, cursor, inside)?;
        let mut arms = before.into_vec();
        arms.push(Arm::Otherwise(lines))?;
        Ok(ListOf::new(arms))
    } else {
        Ok(before)
    }
}

/// Reads an `IF` up to the `;` of its `ENDIF`.
#[tactic(auto, unfolding(crate::specs::Readers::StatementReading::read_branching))]
fn branching_at<'a, B: RepeatedItem<Line, Excess, Counted<'a>>>(
    alloc: Global,
    cursor: &mut Cursor<'_, Counted<'a>>,
    inside: &B,
) -> Result<Line, Stop<Excess>>
    requires { B.may_repeat inside.now }
    ensures { Reads (λ line. line) (reading.read_branching (all_of (B.begins inside.now) (B.reads_next inside.now)))
        cursor.old result cursor.new }
{
    let before = arms_at(alloc, cursor, inside)?;
    let arms = otherwise_at(alloc, cursor, before, inside)?;
    word(cursor, b"ENDIF")?;
    sign(cursor, b";")?;
    Ok(Line::If(Items::from_vec(arms.into_vec())))
}

/// Reads a `WHILE` up to the `;` of its `END`.
#[tactic(auto, unfolding(crate::specs::Readers::StatementReading::read_looping))]
fn looping_at<'a, B: RepeatedItem<Line, Excess, Counted<'a>>>(
    alloc: Global,
    cursor: &mut Cursor<'_, Counted<'a>>,
    inside: &B,
) -> Result<Line, Stop<Excess>>
    requires { B.may_repeat inside.now }
    ensures { Reads (λ line. line) (reading.read_looping (all_of (B.begins inside.now) (B.reads_next inside.now)))
        cursor.old result cursor.new }
{
    word(cursor, b"WHILE")?;
    let test = condition_at(alloc, cursor)?;
    let lines = block_at(alloc, cursor, inside)?;
    word(cursor, b"END")?;
    sign(cursor, b";")?;
    Ok(Line::While(test, lines))
}

/// Whether a statement of one word comes, in whatever section.
fn leap_comes(cursor: &Cursor<'_, Counted<'_>>) -> bool
    ensures { result ≡ starts reading.is_leap cursor.now.tokens }
{
    word_comes(cursor, b"ITEMSKIP")
        || word_comes(cursor, b"PROCESSBREAK")
        || word_comes(cursor, b"PROCESSERROR")
}

/// Reads a statement of a section that is no block.
#[tactic(auto, unfolding(crate::specs::Readers::StatementReading::read_plain))]
fn plain_at(
    alloc: Global,
    cursor: &mut Cursor<'_, Counted<'_>>,
    section: Section,
) -> Result<Line, Stop<Excess>>
    ensures { Reads (λ line. line) (reading.read_plain section) cursor.old result cursor.new }
{
    if word_comes(cursor, b"CELLPUTN") {
        let given = written_at(alloc, cursor, b"CELLPUTN")?;
        Ok(Line::Put(given))
    } else if word_comes(cursor, b"CELLINCREMENTN") {
        let given = written_at(alloc, cursor, b"CELLINCREMENTN")?;
        Ok(Line::Increment(given))
    } else if leap_comes(cursor) {
        leaping_at(cursor, section)
    } else if pair_comes(cursor, b"ZEROOUT", b"(") {
        zeroing_at(alloc, cursor)
    } else {
        assignment_at(alloc, cursor)
    }
}

/// Reads a statement of a section, by what reads those in its blocks.
#[tactic(auto, unfolding(crate::specs::Readers::StatementReading::read_statement))]
pub fn statement_at<'a, B: RepeatedItem<Line, Excess, Counted<'a>>>(
    alloc: Global,
    cursor: &mut Cursor<'_, Counted<'a>>,
    section: Section,
    inside: &B,
) -> Result<Line, Stop<Excess>>
    requires { B.may_repeat inside.now }
    ensures { Reads (λ line. line) (reading.read_statement section
        (all_of (B.begins inside.now) (B.reads_next inside.now))) cursor.old result cursor.new }
{
    if word_comes(cursor, b"IF") {
        branching_at(alloc, cursor, inside)
    } else if word_comes(cursor, b"WHILE") {
        looping_at(alloc, cursor, inside)
    } else {
        plain_at(alloc, cursor, section)
    }
}
