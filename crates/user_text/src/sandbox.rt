ghost use Rattle.std.specs.Prelude.{◌≡◌};
ghost use Rattle.grammar.specs.Cursor.{Reads};
ghost use Rattle.grammar.specs.Reading.{starts};
ghost use Rattle.user_text.specs.Readers.Reading as reading;

use crate::command::{UserBody, UserCommand};
use crate::counted::Counted;
use crate::fault::TooMany;
use grammar::{Cursor, Stop, sign, word, word_comes};

// Reads this word and `;`, which are the whole command.
#[tactic(auto, unfolding(crate::specs::Readers::Reading::read_alone))]
fn alone_at(
    cursor: &mut Cursor<'_, Counted>,
    called: &[u8],
    body: UserBody,
) -> Result<UserCommand, Stop<TooMany>>
    ensures { Reads (λ command. command) (reading.read_alone called.now body) cursor.old result cursor.new }
{
    let position = word(cursor, called)?;
    sign(cursor, b";")?;
    Ok(UserCommand { at: position, body })
}

/// Whether a command of sandboxes comes.
pub fn of_sandboxes_comes(cursor: &Cursor<'_, Counted>) -> bool
    ensures { result ≡ starts reading.is_sandbox_word cursor.now.tokens }
{
    word_comes(cursor, b"SANDBOX")
        || word_comes(cursor, b"PUBLISH")
        || word_comes(cursor, b"DISCARD")
}

/// Reads a command of sandboxes.
#[tactic(auto, unfolding(crate::specs::Readers::Reading::read_of_sandboxes))]
pub fn of_sandboxes_at(cursor: &mut Cursor<'_, Counted>) -> Result<UserCommand, Stop<TooMany>>
    ensures { Reads (λ command. command) reading.read_of_sandboxes cursor.old result cursor.new }
{
    if word_comes(cursor, b"SANDBOX") {
        alone_at(cursor, b"SANDBOX", UserBody::Sandbox)
    } else if word_comes(cursor, b"PUBLISH") {
        alone_at(cursor, b"PUBLISH", UserBody::Publish)
    } else {
        alone_at(cursor, b"DISCARD", UserBody::Discard)
    }
}
