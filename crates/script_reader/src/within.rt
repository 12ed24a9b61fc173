ghost use Rattle.std.specs.Prelude.{◌≡◌};
ghost use Rattle.grammar.specs.Cursor.{Reads};
ghost use Rattle.expression_grammar.specs.Limits.{most_inside};
ghost use Rattle.script_reader.specs.Readers.StatementReading as reading;

use crate::statement::statement_at;
use expression_grammar::MAX_INSIDE;
use grammar::{Cursor, RepeatedItem, Stop, any_word_comes, word_comes};
use script_tree::{Counted, Excess, Line, Section};
use std::alloc::Global;

/// A statement in a block, by a function that reads statements with fewer than so many blocks one inside the other.
#[derive(Clone, Copy)]
struct Inside<F> {
    section: Section,
    left: u32,
    call: F,
}

impl<
    'a,
    F: Fn(Global, &mut Cursor<'_, Counted<'a>>, Section, u32) -> Result<Line, Stop<Excess>>,
> RepeatedItem<Line, Excess, Counted<'a>> for Inside<F> {
    ghost use Rattle.script_reader.specs.Readers.Nests.{Nests};
    ghost use Rattle.script_reader.specs.Readers.StatementReading.{begins_statement, read_within};

    ghost may_repeat = { λ lines. Nests lines.section lines.left (F.pre lines.call) (F.post lines.call) };

    ghost begins = { λ _. begins_statement };

    ghost reads_next = { λ lines. read_within lines.section lines.left };

    fn comes(&self, cursor: &Cursor<'_, Counted<'a>>) -> bool {
        any_word_comes(cursor)
            && !(word_comes(cursor, b"ELSEIF")
                || word_comes(cursor, b"ELSE")
                || word_comes(cursor, b"ENDIF")
                || word_comes(cursor, b"END"))
    }

    fn read_next(
        &self,
        alloc: Global,
        cursor: &mut Cursor<'_, Counted<'a>>,
    ) -> Result<Line, Stop<Excess>> {
        (self.call)(alloc, cursor, self.section, self.left)
    }
}

/// Reads a statement with fewer than so many blocks one inside the other.
#[tactic(auto, unfolding(crate::specs::Readers::StatementReading::read_within))]
fn statement_within(
    alloc: Global,
    cursor: &mut Cursor<'_, Counted<'_>>,
    section: Section,
    left: u32,
) -> Result<Line, Stop<Excess>>
    ensures { Reads (λ line. line) (reading.read_within section left) cursor.old result cursor.new }
{
    if left == 0 {
        // No text comes here, and out of memory nothing is said.
        return Err(Stop::Memory);
    }
    let inside = Inside {
        section,
        left: left - 1,
        call: statement_within,
    };
    statement_at(alloc, cursor, section, &inside)
}

/// Reads a statement of a section.
pub fn whole_statement(
    alloc: Global,
    cursor: &mut Cursor<'_, Counted<'_>>,
    section: Section,
) -> Result<Line, Stop<Excess>>
    ensures { Reads (λ line. line) (reading.read_within section most_inside) cursor.old result cursor.new }
{
    statement_within(alloc, cursor, section, MAX_INSIDE)
}
