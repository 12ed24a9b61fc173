ghost use Rattle.std.specs.Prelude.{◌≡◌, ◌<◌, ◌-◌, drop, length, OnOk, IfErr, Result, Ok, Err};
ghost use Rattle.std.specs.Option.{option_map};
ghost use Rattle.cube_lex.specs.Lexeme.{Lexeme, lexeme_of};
ghost use Rattle.cube_lex.specs.Positions.{position_of};
ghost use Rattle.grammar.specs.Fault.{place_at};
ghost use Rattle.grammar.specs.Reading.{first, take_one};
ghost use Rattle.grammar.specs.Cursor.{Reads, any_token, next_position};

use crate::stop::Stop;
use cube_lex::{Position, Token, TokensLeft};

/// What a text is watched by, token by token: the state that its limits and further causes `C` depend on.
pub trait Scan<C> {
    ghost scanned: { Self → Lexeme → Result Self C };

    /// Goes over one more token.
    fn scan(&mut self, token: &Token<'_>) -> Result<(), C>
        ensures passed { OnOk result (scanned self.old (lexeme_of token.now) ≡ Ok self.new) }
        ensures refused { IfErr result (λ cause. scanned self.old (lexeme_of token.now) ≡ Err cause) };
}

/// A place in a text: the tokens that are left, and the state of the watch.
#[derive(Drop)]
pub struct Cursor<'a, S> {
    pub tokens: TokensLeft<'a>,
    pub state: S,
}

impl<'a, S> Cursor<'a, S> {
    /// The place before these tokens.
    pub fn new(tokens: TokensLeft<'a>, state: S) -> Cursor<'a, S>
        ensures tokens { result.tokens ≡ tokens.entry }
        ensures state { result.state ≡ state }
    {
        Cursor { tokens, state }
    }

    /// The next token.
    pub fn peek(&self) -> Option<Token<'a>>
        ensures { option_map lexeme_of result ≡ first self.now.tokens }
    {
        self.tokens.first()
    }

    /// The place of the next token; at the text's end, line 0.
    pub fn position(&self) -> Position
        ensures { result ≡ next_position self.now.tokens }
    {
        match self.peek() {
            Some(token) => token.position(),
            None => Position::nowhere(),
        }
    }

    /// Why a reader stops where the next token fits nothing.
    pub fn unexpected<C>(&self) -> Stop<C>
        ensures { result ≡ Stop.Unexpected (length self.now.tokens) }
    {
        Stop::Unexpected(self.tokens.len())
    }

    /// Takes the next token, whatever it is.
    pub fn advance<C>(&mut self) -> Result<(), Stop<C>>
    where
        S: Scan<C>,
        ensures read { Reads (λ _. tt) (take_one S.scanned any_token) self.old result self.new }
        ensures shorter { OnOk result (length self.new.tokens < length self.old.tokens) }
    {
        let Some(token) = self.peek() else {
            return Err(self.unexpected());
        };
        if let Err(cause) = self.state.scan(&token) {
            return Err(Stop::Refused(cause));
        }
        self.tokens.advance();
        Ok(())
    }
}

/// No watch.
#[derive(Clone, Copy)]
pub struct Unwatched;

impl<C> Scan<C> for Unwatched {
    ghost use Rattle.grammar.specs.Watch.{unscanned};

    ghost scanned = { unscanned };

    fn scan(&mut self, _: &Token<'_>) -> Result<(), C> {
        Ok(())
    }
}

/// The place at which so many of these tokens are left: that of the next token, or of the text's end.
pub fn position_left(mut tokens: TokensLeft<'_>, end: Position, left: usize) -> Position
    ensures { result ≡ place_at position_of end (drop (length tokens.entry - left) tokens.entry) }
{
    'token: for _ in 0..tokens.len().saturating_sub(left) {
        tokens.advance();
    }
    match tokens.first() {
        Some(token) => token.position(),
        None => end,
    }
}
