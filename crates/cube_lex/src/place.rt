ghost use Rattle.cube_lex.specs.Ahead.{TokensFrom};
ghost use Rattle.cube_lex.specs.AheadProp.{tokens_prop};

use crate::found::found_from;
use crate::token::Token;
use std::marker::Model;

/// A place in a text from which so many tokens are left. They are read off the text one after another.
#[derive(Drop)]
pub struct Place<'a> {
    text: &'a [u8],
    at: usize,
    line: u32,
    left: usize,
    ghost tokens: { TokensFrom text.now at line left } by { tokens_prop text.now at line left },
}

impl<'a> Model for Place<'a> {
    ghost use Rattle.std.specs.Prelude.{List};
    ghost use Rattle.cube_lex.specs.Lexeme.{Lexeme};

    ghost Value = { List Lexeme };

    ghost view = { λ p. p.tokens.0 };
}

impl<'a> Place<'a> {
    ghost use Rattle.std.specs.Prelude.{◌≡◌, List, [], length, drop, option_map, slice_get};
    ghost use Rattle.cube_lex.specs.Ahead.{IsAhead, TokensFrom};
    ghost use Rattle.cube_lex.specs.Lexeme.{Lexeme, lexeme_of};

    /// The place at this offset, which is on this line.
    pub fn new(text: &'a [u8], at: usize, line: u32, left: usize) -> Place<'a>
        requires { TokensFrom text.now at line left }
        ensures { (tokens : List Lexeme) → IsAhead text.now at line left tokens → result ≡ tokens }
    {
        Place {
            text,
            at,
            line,
            left,
        }
    }

    /// A place from which none is left.
    pub fn end() -> Place<'a>
        ensures { result ≡ [] }
    {
        Place::new(&[], 0, 1, 0)
    }

    /// The same place once more.
    pub fn again(&self) -> Place<'a>
        ensures { result ≡ self.now }
    {
        Place {
            text: self.text,
            at: self.at,
            line: self.line,
            left: self.left,
        }
    }

    /// How many tokens are left.
    pub fn len(&self) -> usize
        ensures { result ≡ length self.now }
    {
        self.left
    }

    /// Takes the next token, where there is one.
    pub fn take(&mut self) -> Option<Token<'a>>
        ensures token { option_map lexeme_of result ≡ slice_get self.old 0 }
        ensures rest { self.new ≡ drop 1 self.old }
    {
        let Some(found) = found_from(self.text, self.at, self.line, self.left) else {
            return None;
        };
        *self = Place::new(self.text, found.at, found.line, self.left - 1);
        Some(found.token)
    }
}
