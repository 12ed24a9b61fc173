ghost use Rattle.std.specs.Prelude.{◌≡◌, ◌<◌, ◌↔◌, map, All, length, drop, IfOk, IsTrue, IsSomeAnd, option_map};
ghost use Rattle.std.specs.Prelude.{slice_get};
ghost use Rattle.cube_lex.specs.Quoted.{quoted, unquoted};
ghost use Rattle.cube_lex.specs.declared.token.Kind.TheVariants.{Text};

use crate::left::TokensLeft;
use crate::place::Place;
use crate::position::Position;
use crate::quoted::unquoted;
use crate::token::{Kind, Token};
use std::alloc::{AllocError, Global};
use std::marker::Model;

/// The tokens of a text up to its first fault, in order. They borrow the text.
#[derive(Drop)]
pub struct Tokens<'a> {
    text: &'a [u8],
    tokens: Vec<Token<'a>>,
    end: Position,
}

impl<'a> Model for Tokens<'a> {
    ghost use Rattle.std.specs.Prelude.{map};
    ghost use Rattle.cube_lex.specs.Lexeme.{lexeme_of};
    ghost use Rattle.cube_lex.specs.Lexed.{Lexed, lexed_of};
    ghost use Rattle.cube_lex.specs.Listed.{AreListed};

    ghost Value = { Lexed };

    ghost view = { λ t. lexed_of t.tokens.items t.end };

    ghost invariant = { λ t. AreListed t.text.now (map lexeme_of t.tokens.items) };
}

impl<'a> Tokens<'a> {
    ghost use Rattle.cube_lex.specs.Lexeme.{lexeme_of};
    ghost use Rattle.cube_lex.specs.Lexed.{lexed_of, IsWellFormed};
    ghost use Rattle.cube_lex.specs.Listed.{AreListed};

    pub(crate) fn new(text: &'a [u8], tokens: Vec<Token<'a>>, end: Position) -> Self
        requires { AreListed text.now (map lexeme_of tokens.items) }
        ensures { result ≡ lexed_of tokens.entry.items end }
    {
        Tokens { text, tokens, end }
    }

    /// How many tokens there are.
    pub fn len(&self) -> usize
        ensures { result ≡ length self.now.lexemes }
    {
        self.tokens.len()
    }

    pub fn is_empty(&self) -> bool
        ensures { IsTrue result ↔ (length self.now.lexemes ≡ 0) }
    {
        self.tokens.is_empty()
    }

    /// The tokens themselves.
    pub fn as_slice(&self) -> &[Token<'a>]
        ensures tokens { map lexeme_of result.now ≡ self.now.lexemes }
        ensures well_formed { All IsWellFormed self.now.lexemes }
    {
        self.tokens.as_slice()
    }

    /// The tokens from this place on, which take no memory.
    pub fn left_from(&self, from: usize) -> TokensLeft<'a>
        ensures tokens { result ≡ drop from self.now.lexemes }
        ensures well_formed { All IsWellFormed self.now.lexemes }
    {
        match self.get(from) {
            Some(token) => {
                let left = self.len() - from;
                TokensLeft::new(Place::new(self.text, token.start, token.line, left))
            }
            None => TokensLeft::new(Place::end()),
        }
    }

    pub fn get(&self, i: usize) -> Option<Token<'a>>
        ensures { option_map lexeme_of result ≡ slice_get self.now.lexemes i }
    {
        self.tokens.get(i).copied()
    }

    pub fn kind(&self, i: usize) -> Kind
        requires { i < length self.now.lexemes }
        ensures { IsSomeAnd (slice_get self.now.lexemes i) (λ token. result ≡ token.kind) }
    {
        self.tokens[i].kind
    }

    /// The bytes of the token in the text, as they are written.
    pub fn piece(&self, i: usize) -> &'a [u8]
        requires { i < length self.now.lexemes }
        ensures { IsSomeAnd (slice_get self.now.lexemes i) (λ token. result.now ≡ token.piece) }
    {
        self.tokens[i].piece
    }

    /// The offset of the token's first byte in the text.
    pub fn start(&self, i: usize) -> usize
        requires { i < length self.now.lexemes }
        ensures { IsSomeAnd (slice_get self.now.lexemes i) (λ token. result ≡ token.start) }
    {
        self.tokens[i].start
    }

    /// The line of the token's first byte, from 1.
    pub fn line(&self, i: usize) -> u32
        requires { i < length self.now.lexemes }
        ensures { IsSomeAnd (slice_get self.now.lexemes i) (λ token. result ≡ token.line) }
    {
        self.tokens[i].line
    }

    /// The place of the first fault, or of the text's end where there is none.
    pub fn end(&self) -> Position
        ensures { result ≡ self.now.end }
    {
        self.end
    }

    /// The bytes that a quoted text means: without the outer quotes, each doubled quote being one.
    pub fn text(&self, alloc: Global, i: usize) -> Result<Vec<u8>, AllocError>
        requires { IsSomeAnd (slice_get self.now.lexemes i) (λ token. token.kind ≡ Text) }
        ensures value { IfOk result (λ bytes.
            IsSomeAnd (slice_get self.now.lexemes i) (λ token. bytes.items ≡ unquoted token.piece)) }
        ensures written { IfOk result (λ bytes.
            IsSomeAnd (slice_get self.now.lexemes i) (λ token. token.piece ≡ quoted bytes.items)) }
    {
        unquoted(alloc, self.tokens[i].piece)
    }
}
