use crate::fault::TooMany;
use cube_lex::Token;
use grammar::{Scan, is_sign};

/// How many commands all users together may have.
pub const MAX_COMMANDS: u32 = 65_536;

/// How many commands have begun, and whether one still goes on to its `;`.
#[derive(Clone, Copy)]
pub struct Counted {
    pub commands: u32,
    pub inside: bool,
}

impl Scan<TooMany> for Counted {
    ghost use Rattle.user_text.specs.Counting.{count};

    ghost scanned = { count };

    fn scan(&mut self, token: &Token<'_>) -> Result<(), TooMany> {
        if self.inside {
            self.inside = !is_sign(token, b";");
        } else if self.commands < MAX_COMMANDS {
            self.commands += 1;
            self.inside = true;
        } else {
            return Err(TooMany {
                at: token.position(),
            });
        }
        Ok(())
    }
}
