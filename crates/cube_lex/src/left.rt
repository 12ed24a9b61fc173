use crate::place::Place;
use crate::token::Token;
use std::marker::Model;

/// The tokens of a text that are left, from some place on. They are read off the text one after another and take no
/// memory of their own.
#[derive(Drop)]
pub struct TokensLeft<'a> {
    /// The first of them, which is read already.
    next: Option<Token<'a>>,
    behind: Place<'a>,
    left: usize,
}

impl<'a> Model for TokensLeft<'a> {
    ghost use Rattle.std.specs.Prelude.{List};
    ghost use Rattle.cube_lex.specs.Lexeme.{Lexeme};
    ghost use Rattle.cube_lex.specs.Onto.{onto, IsLeft};

    ghost Value = { List Lexeme };

    ghost view = { λ t. onto t.next t.behind };

    ghost invariant = { λ t. IsLeft t.next t.behind t.left };
}

impl<'a> TokensLeft<'a> {
    ghost use Rattle.std.specs.Prelude.{◌≡◌, ◌↔◌, length, drop, IsTrue, option_map, slice_get};
    ghost use Rattle.cube_lex.specs.Lexeme.{lexeme_of};

    pub(crate) fn new(place: Place<'a>) -> TokensLeft<'a>
        ensures { result ≡ place.entry }
    {
        let mut behind = place;
        let left = behind.len();
        let next = behind.take();
        TokensLeft { next, behind, left }
    }

    /// The same tokens once more.
    pub fn again(&self) -> TokensLeft<'a>
        ensures { result ≡ self.now }
    {
        TokensLeft {
            next: self.next,
            behind: self.behind.again(),
            left: self.left,
        }
    }

    /// How many tokens are left.
    pub fn len(&self) -> usize
        ensures { result ≡ length self.now }
    {
        self.left
    }

    /// Whether no token is left.
    pub fn is_empty(&self) -> bool
        ensures { IsTrue result ↔ (length self.now ≡ 0) }
    {
        self.left == 0
    }

    /// The next token.
    pub fn first(&self) -> Option<Token<'a>>
        ensures { option_map lexeme_of result ≡ slice_get self.now 0 }
    {
        self.next
    }

    /// Passes over the next token, where there is one.
    pub fn advance(&mut self)
        ensures { self.new ≡ drop 1 self.old }
    {
        self.next = self.behind.take();
        self.left = self.left.saturating_sub(1);
    }
}
