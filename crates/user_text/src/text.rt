ghost use Rattle.std.specs.Prelude.{◌≡◌, ◌≤◌};
ghost use Rattle.grammar.specs.Cursor.{Reads};
ghost use Rattle.user_text.specs.Answers.{Answers};
ghost use Rattle.user_text.specs.Counting.{most_commands};
ghost use Rattle.user_text.specs.Readers.Reading as reading;

use crate::cell::{get_at, put_at, trace_at};
use crate::command::UserCommand;
use crate::counted::Counted;
use crate::fault::{TooMany, UserFault};
use crate::load::load_at;
use crate::sandbox::{of_sandboxes_at, of_sandboxes_comes};
use crate::spread::spread_at;
use crate::view::view_at;
use cube_lex::text_tokens;
use grammar::{Cursor, RepeatedItem, Stop, TextFault, answer_of_text, repeated, word_comes};
use std::alloc::Global;

// Reads a command.
#[tactic(auto, unfolding(crate::specs::Readers::Reading::read_command))]
fn command_at(alloc: Global, cursor: &mut Cursor<'_, Counted>) -> Result<UserCommand, Stop<TooMany>>
    ensures { Reads (λ command. command) reading.read_command cursor.old result cursor.new }
{
    if word_comes(cursor, b"PUT") {
        put_at(alloc, cursor)
    } else if word_comes(cursor, b"GET") {
        get_at(alloc, cursor)
    } else if word_comes(cursor, b"LOAD") {
        load_at(alloc, cursor)
    } else if word_comes(cursor, b"VIEW") {
        view_at(alloc, cursor)
    } else if word_comes(cursor, b"SPREAD") {
        spread_at(alloc, cursor)
    } else if word_comes(cursor, b"TRACE") {
        trace_at(alloc, cursor)
    } else {
        of_sandboxes_at(cursor)
    }
}

// A command of a text.
struct NextCommand;

impl RepeatedItem<UserCommand, TooMany, Counted> for NextCommand {
    ghost use Rattle.user_text.specs.Readers.Reading.{is_command_word, read_command};

    ghost may_repeat = { λ _. Unit {0} };

    ghost begins = { λ _. is_command_word };

    ghost reads_next = { λ _. read_command };

    fn comes(&self, cursor: &Cursor<'_, Counted>) -> bool {
        word_comes(cursor, b"PUT")
            || word_comes(cursor, b"GET")
            || word_comes(cursor, b"LOAD")
            || word_comes(cursor, b"VIEW")
            || word_comes(cursor, b"SPREAD")
            || word_comes(cursor, b"TRACE")
            || of_sandboxes_comes(cursor)
    }

    fn read_next(
        &self,
        alloc: Global,
        cursor: &mut Cursor<'_, Counted>,
    ) -> Result<UserCommand, Stop<TooMany>> {
        command_at(alloc, cursor)
    }
}

// Reads commands as long as they come.
#[tactic(auto, unfolding(crate::specs::Readers::Reading::read_user))]
fn commands_at(
    alloc: Global,
    cursor: &mut Cursor<'_, Counted>,
) -> Result<Vec<UserCommand>, Stop<TooMany>>
    ensures { Reads (λ commands. commands.items) reading.read_user cursor.old result cursor.new }
{
    let commands = repeated(alloc, cursor, &NextCommand)?;
    Ok(commands.into_vec())
}

/// Reads the commands of a user's text. The users before have `before` commands; all users together may have 65,536.
pub fn parse(alloc: Global, text: &[u8], before: u32) -> Result<Vec<UserCommand>, UserFault>
    requires { before ≤ most_commands }
    ensures { Answers (λ commands. commands.items) text.now before result }
{
    let tokens = text_tokens(text);
    let start = Counted {
        commands: before,
        inside: false,
    };
    let mut cursor = Cursor::new(tokens.left.again(), start);
    let read = commands_at(alloc, &mut cursor);
    match answer_of_text(&tokens, read, &cursor) {
        Ok(commands) => Ok(commands),
        Err(TextFault::Memory) => Err(UserFault::Memory),
        Err(TextFault::Syntax(position)) => Err(UserFault::Syntax(position)),
        Err(TextFault::Refused(TooMany { at })) => Err(UserFault::TooMany(at)),
    }
}
