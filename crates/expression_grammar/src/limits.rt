ghost use Rattle.std.specs.Prelude.{◌≡◌, not, if◌then◌else◌, Some, None};
ghost use Rattle.grammar.specs.Tokens.{is_sign_kind};
ghost use Rattle.cube_lex.specs.Lexeme.{lexeme_of};
ghost use Rattle.expression_grammar.specs.Limits as limits;
ghost use Rattle.expression_grammar.specs.Limits.{begun_within, may_begin_primary, has_room, counted, scanned};

use cube_lex::{Kind, Token};
use grammar::is_sign;

/// How many parentheses may be open at once.
const MAX_OPEN: u32 = 32;

/// How many primaries one whole expression may have, those inside others counted.
const MAX_PRIMARIES: u32 = 1_000;

/// How many expressions may be one inside the other, or how many blocks of a script. Each is opened by itself, and the
/// 33rd that is open is refused, so no text reaches the last of them.
pub const MAX_INSIDE: u32 = 64;

/// How deep and how long a whole expression is so far.
#[derive(Clone, Copy)]
pub struct Limits {
    /// Parentheses that are open.
    pub depth: u32,
    /// Primaries that have begun.
    pub primaries: u32,
    /// Whether an operand is due, so that the next token may begin a primary.
    pub due: bool,
    /// Whether it is inside `[ ]`, where nothing is counted.
    pub bracketed: bool,
}

// Whether the token is a word, a number or a text.
fn is_no_sign(token: &Token<'_>) -> bool
    ensures { result ≡ not (is_sign_kind (lexeme_of token.now).kind) }
{
    token.kind != Kind::Sign
}

// Whether the token begins a primary where an operand is due.
fn may_begin_primary(token: &Token<'_>) -> bool
    ensures { result ≡ may_begin_primary (lexeme_of token.now) }
{
    is_no_sign(token) || is_sign(token, b"!") || is_sign(token, b"[") || is_sign(token, b"(")
}

impl Limits {
    /// Before an expression that stands inside so many open parentheses.
    pub fn within(depth: u32) -> Limits
        ensures { result ≡ begun_within depth }
    {
        Limits {
            depth,
            primaries: 0,
            due: true,
            bracketed: false,
        }
    }

    // The primaries with this token, or nothing where they are too many.
    fn counted(&self, token: &Token<'_>) -> Option<u32>
        ensures { result ≡ (if has_room self.now (lexeme_of token.now)
            then Some (counted self.now (lexeme_of token.now)) else None) }
    {
        if !(self.due && may_begin_primary(token)) {
            Some(self.primaries)
        } else if self.primaries < MAX_PRIMARIES {
            Some(self.primaries + 1)
        } else {
            None
        }
    }

    /// With one more token; nothing where the expression becomes too deep or too long by it.
    pub fn with(&self, token: &Token<'_>) -> Option<Limits>
        ensures { result ≡ scanned self.now (lexeme_of token.now) }
    {
        if self.bracketed {
            return Some(Limits {
                bracketed: !is_sign(token, b"]"),
                ..*self
            });
        }
        let primaries = self.counted(token)?;
        if is_sign(token, b"(") {
            return self.opened(primaries);
        }
        if is_sign(token, b")") {
            return Some(self.closed());
        }
        let bracketed = is_sign(token, b"[");
        Some(Limits {
            depth: self.depth,
            primaries,
            due: !is_no_sign(token) && !(is_sign(token, b"!") || bracketed),
            bracketed,
        })
    }

    // Behind a `(`, with so many primaries, if there may be one more.
    fn opened(&self, primaries: u32) -> Option<Limits>
        ensures { result ≡ limits.opened self.now primaries }
    {
        if self.depth < MAX_OPEN {
            Some(Limits {
                depth: self.depth + 1,
                primaries,
                due: true,
                bracketed: false,
            })
        } else {
            None
        }
    }

    // Behind a `)`.
    fn closed(&self) -> Limits
        ensures { result ≡ limits.closed self.now }
    {
        Limits {
            depth: self.depth.saturating_sub(1),
            primaries: self.primaries,
            due: false,
            bracketed: false,
        }
    }
}
