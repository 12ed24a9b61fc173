ghost use Rattle.std.specs.Prelude.{◌≡◌, codes};
ghost use Rattle.std.specs.List.{list_any};
ghost use Rattle.cube_lex.specs.Lexeme.{lexeme_of};
ghost use Rattle.grammar.specs.Reading.{starts};
ghost use Rattle.grammar.specs.Tokens as tokens;
ghost use Rattle.grammar.specs.Variables.{function_words};
ghost use Rattle.script_tree.specs.Counting as counting;
ghost use Rattle.script_tree.specs.Expression.{functions_before_parenthesis};

use crate::excess::Excess;
use cube_lex::{Kind, Token, TokensLeft};
use expression_grammar::Limits;
use grammar::{Scan, is_sign, is_word};

/// How many parentheses and blocks may be open at once.
const MAX_OPEN: u32 = 32;

/// Where in a script a token stands.
#[derive(Clone, Copy)]
pub enum ScriptTextPlace {
    /// Before a statement or a part of one, or before a section.
    Between,
    /// In a statement, behind its first word or its parentheses.
    Head,
    /// In the whole expression that a variable is set to.
    Formula(Limits),
    /// In a whole expression in the parentheses of a statement.
    Argument(Limits),
}

/// How deep a token stands, and where.
#[derive(Clone, Copy)]
pub struct Stage {
    /// Blocks that are open.
    pub blocks: u32,
    /// Blocks that are open behind the statement's or part's `;`.
    pub next: u32,
    pub place: ScriptTextPlace,
}

/// What was counted so far.
#[derive(Drop)]
pub struct Counted<'a> {
    /// The tokens that are left, the next one first.
    pub left: TokensLeft<'a>,
    pub stage: Stage,
}

/// Whether a `(` is the first of these tokens.
fn opens(behind: &TokensLeft<'_>) -> bool
    ensures { result ≡ starts (tokens.is_sign (codes "(")) behind.now }
{
    match behind.first() {
        Some(token) => is_sign(&token, b"("),
        None => false,
    }
}

/// Before the first of these tokens, which are those of the text.
pub fn begun(left: TokensLeft<'_>) -> Counted<'_>
    ensures { result ≡ counting.start left.entry }
{
    Counted {
        left,
        stage: Stage {
            blocks: 0,
            next: 0,
            place: ScriptTextPlace::Between,
        },
    }
}

/// One more `(`, `IF` or `WHILE`, inside so many parentheses and blocks that are open.
fn one_more(opened: u32, token: &Token<'_>) -> Result<u32, Excess>
    ensures { result ≡ counting.one_more opened (lexeme_of token.now) }
{
    if opened < MAX_OPEN {
        Ok(opened + 1)
    } else {
        Err(Excess::TooDeep(token.position()))
    }
}

/// Whether a token is one of these words.
fn is_among(words: &[&[u8]], token: &Token<'_>) -> bool
    ensures { result ≡ list_any (λ word. tokens.is_word word.now (lexeme_of token.now)) words.now }
{
    words.iter().any(|word| is_word(token, word))
}

/// Whether a token is a function's word.
fn is_function(token: &Token<'_>) -> bool
    ensures { result ≡ list_any (λ word. tokens.is_word word (lexeme_of token.now)) function_words }
{
    is_among(
        &[
            b"CELLGETN",
            b"ABS",
            b"SIGN",
            b"INT",
            b"ROUND",
            b"STRINGTONUMBER",
            b"NUMBERTOSTRING",
            b"MAX",
            b"MIN",
        ],
        token,
    )
}

/// Whether a token is the word of a function that may name a variable elsewhere.
fn is_function_before_parenthesis(token: &Token<'_>) -> bool
    ensures { result ≡ list_any (λ entry. tokens.is_word entry.0 (lexeme_of token.now)) functions_before_parenthesis }
{
    is_among(
        &[
            b"TRIM",
            b"UPPER",
            b"LOWER",
            b"LONG",
            b"SCAN",
            b"SUBST",
            b"STR",
            b"NUMBR",
            b"MOD",
            b"ROUNDP",
            b"TRUNC",
            b"DIMSIZ",
            b"DIMNM",
            b"DIMIX",
            b"DTYPE",
            b"ATTRS",
            b"ATTRN",
            b"CELLISUPDATEABLE",
            b"ELISANC",
        ],
        token,
    )
}

/// Whether a token is a word that is no function.
fn is_unknown(token: &Token<'_>) -> bool
    ensures { result ≡ counting.is_unknown (lexeme_of token.now) }
{
    token.kind == Kind::Word && !(is_function(token) || is_function_before_parenthesis(token))
}

/// A whole expression with one more token, which has a `(` behind it or not.
fn with(limits: &Limits, token: &Token<'_>, calls: bool) -> Result<Limits, Excess>
    ensures { result ≡ counting.with_token calls limits.now (lexeme_of token.now) }
{
    if calls && (limits.due && is_unknown(token)) {
        return Err(Excess::UnknownFunction(token.position()));
    }
    match limits.with(token) {
        Some(more) => Ok(more),
        None => Err(Excess::TooDeep(token.position())),
    }
}

impl Stage {
    /// Behind the first word of a statement, or of a part of one.
    fn behind_word(&self, token: &Token<'_>) -> Result<Stage, Excess>
        ensures { result ≡ counting.behind_word self.now (lexeme_of token.now) }
    {
        let place = ScriptTextPlace::Head;
        let blocks = self.blocks;
        if is_word(token, b"IF") || is_word(token, b"WHILE") {
            let next = one_more(blocks, token)?;
            Ok(Stage {
                blocks,
                next,
                place,
            })
        } else if is_word(token, b"ENDIF") || is_word(token, b"END") {
            let blocks = blocks.saturating_sub(1);
            Ok(Stage {
                blocks,
                next: blocks,
                place,
            })
        } else {
            Ok(Stage {
                blocks,
                next: blocks,
                place,
            })
        }
    }

    /// Behind a token of a statement outside of its expressions.
    fn behind_head(&self, token: &Token<'_>) -> Result<Stage, Excess>
        ensures { result ≡ counting.behind_head self.now (lexeme_of token.now) }
    {
        if is_sign(token, b"=") {
            let place = ScriptTextPlace::Formula(Limits::within(self.blocks));
            Ok(Stage { place, ..*self })
        } else if is_sign(token, b"(") {
            let depth = one_more(self.blocks, token)?;
            let place = ScriptTextPlace::Argument(Limits::within(depth));
            Ok(Stage { place, ..*self })
        } else {
            Ok(Stage {
                blocks: self.next,
                next: self.next,
                place: ScriptTextPlace::Between,
            })
        }
    }

    /// Behind a token of what a variable is set to.
    fn behind_formula(
        &self,
        limits: &Limits,
        token: &Token<'_>,
        calls: bool,
    ) -> Result<Stage, Excess>
        ensures { result ≡ counting.behind_formula calls self.now limits.now (lexeme_of token.now) }
    {
        if is_sign(token, b";") {
            let place = ScriptTextPlace::Between;
            return Ok(Stage { place, ..*self });
        }
        let more = with(limits, token, calls)?;
        let place = ScriptTextPlace::Formula(more);
        Ok(Stage { place, ..*self })
    }

    /// Behind a token in the parentheses of a statement.
    fn behind_argument(
        &self,
        limits: &Limits,
        token: &Token<'_>,
        calls: bool,
    ) -> Result<Stage, Excess>
        ensures { result ≡ counting.behind_argument calls self.now limits.now (lexeme_of token.now) }
    {
        let outermost = limits.depth.saturating_sub(self.blocks) == 1;
        if outermost && is_sign(token, b",") {
            let place = ScriptTextPlace::Argument(Limits::within(limits.depth));
            return Ok(Stage { place, ..*self });
        }
        if outermost && is_sign(token, b")") {
            let place = ScriptTextPlace::Head;
            return Ok(Stage { place, ..*self });
        }
        let more = with(limits, token, calls)?;
        let place = ScriptTextPlace::Argument(more);
        Ok(Stage { place, ..*self })
    }

    /// With one more token, which has a `(` behind it or not.
    fn with(&self, token: &Token<'_>, calls: bool) -> Result<Stage, Excess>
        ensures { result ≡ counting.behind_place calls self.now self.now.place (lexeme_of token.now) }
    {
        match &self.place {
            ScriptTextPlace::Between => self.behind_word(token),
            ScriptTextPlace::Head => self.behind_head(token),
            ScriptTextPlace::Formula(limits) => self.behind_formula(limits, token, calls),
            ScriptTextPlace::Argument(limits) => self.behind_argument(limits, token, calls),
        }
    }
}

impl Scan<Excess> for Counted<'_> {
    ghost use Rattle.script_tree.specs.Counting.{count};

    ghost scanned = { count };

    #[tactic(auto, unfolding(crate::specs::Counting::count))]
    fn scan(&mut self, token: &Token<'_>) -> Result<(), Excess> {
        let mut behind = self.left.again();
        behind.advance();
        self.stage = self.stage.with(token, opens(&behind))?;
        self.left = behind;
        Ok(())
    }
}
