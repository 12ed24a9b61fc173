ghost use Rattle.std.specs.Prelude.{◌≡◌, MatchOption, [], slice_index_or, Ok, Err};
ghost use Rattle.cube_lex.specs.Lexeme.{lexeme_of};
ghost use Rattle.grammar.specs.Reading.{starts};
ghost use Rattle.grammar.specs.Tokens as tokens;
ghost use Rattle.rule_tree.specs.Counting.{count, start};
ghost use Rattle.rule_tree.specs.declared.excess.Excess.{Excess};
ghost use Rattle.explanation.specs.Statements as statements;

use cube_lex::{Token, TokensLeft};
use file_passes::FilePlace;
use grammar::{Scan, is_sign, is_word};
use rule_tree::{Counted, RuleTextPlace};

// Whether that statement or feeder is the last one that was counted.
fn is_counted(place: FilePlace, counted: &Counted) -> bool
    ensures { result ≡ statements.is_counted place counted.now }
{
    match place {
        FilePlace::Text(_) => false,
        FilePlace::Statement(statement) => counted.statements == statement,
        FilePlace::Feeder(feeder) => counted.feeders == feeder,
    }
}

/// Before the first token of a rule text.
pub(crate) fn uncounted() -> Counted
    ensures { result ≡ start }
{
    Counted {
        statements: 0,
        feeders: 0,
        feeding: false,
        place: RuleTextPlace::Between,
    }
}

/// The count with one more token, or None where the token is one too many.
pub(crate) fn counted_with(counted: Counted, token: &Token<'_>) -> Option<Counted>
    ensures { MatchOption result ((excess : Excess) × (count counted (lexeme_of token.now) ≡ Err excess))
        (λ more. count counted (lexeme_of token.now) ≡ Ok more) }
{
    let mut more = counted;
    match more.scan(token) {
        Ok(()) => Some(more),
        Err(_) => None,
    }
}

// Nothing of these tokens.
fn passed_all<'a>(tokens: TokensLeft<'a>) -> TokensLeft<'a>
    ensures { result ≡ [] }
{
    let mut left = tokens;
    'token: while !left.is_empty() {
        left.advance();
    }
    left
}

/// The tokens of a rule text from the beginning of that statement or feeder on.
pub fn tokens_from<'a>(place: FilePlace, tokens: TokensLeft<'a>) -> TokensLeft<'a>
    ensures { result ≡ statements.tokens_from place tokens.entry }
{
    let mut counted = uncounted();
    let mut left = tokens;
    'token: while let Some(token) = left.first() {
        let Some(more) = counted_with(counted, &token) else {
            return passed_all(left);
        };
        if is_counted(place, &more) {
            return left;
        }
        counted = more;
        left.advance();
    }
    left
}

/// What follows the first such sign.
pub(crate) fn behind<'a>(sign: &[u8], tokens: TokensLeft<'a>) -> TokensLeft<'a>
    ensures { result ≡ statements.behind sign.now tokens.entry }
{
    let mut left = tokens;
    'token: while let Some(token) = left.first() {
        left.advance();
        if is_sign(&token, sign) {
            return left;
        }
    }
    left
}

/// Whether these tokens begin with this sign.
pub(crate) fn sign_comes(next: &TokensLeft<'_>, sign: &[u8]) -> bool
    ensures { result ≡ starts (tokens.is_sign sign.now) next.now }
{
    match next.first() {
        Some(token) => is_sign(&token, sign),
        None => false,
    }
}

/// Whether these tokens begin with this word.
pub(crate) fn word_comes(next: &TokensLeft<'_>, word: &[u8]) -> bool
    ensures { result ≡ starts (tokens.is_word word.now) next.now }
{
    match next.first() {
        Some(token) => is_word(&token, word),
        None => false,
    }
}

/// Whether this is a word that `(` follows.
pub(crate) fn is_called(name: &[u8], token: &Token<'_>, next: &TokensLeft<'_>) -> bool
    ensures { result ≡ statements.is_called name.now (lexeme_of token.now) next.now }
{
    is_word(token, name) && sign_comes(next, b"(")
}

fn begins_reference(token: &Token<'_>, next: &TokensLeft<'_>) -> bool
    ensures { result ≡ statements.begins_reference (lexeme_of token.now) next.now }
{
    is_sign(token, b"[")
        || is_called(b"DB", token, next)
        || is_called(b"CONSOLIDATECHILDREN", token, next)
}

/// The tokens from the reference on before which so many others stand.
pub(crate) fn reference_behind<'a>(others: u32, tokens: TokensLeft<'a>) -> TokensLeft<'a>
    ensures { result ≡ slice_index_or (statements.references tokens.entry) others [] }
{
    let mut before = others;
    let mut left = tokens;
    'token: while let Some(token) = left.first() {
        let here = left.again();
        left.advance();
        if begins_reference(&token, &left) {
            if before == 0 {
                return here;
            }
            before -= 1;
        }
    }
    left
}

/// The tokens from the reference of this number on, from 1, of the statement that begins these tokens.
pub(crate) fn reference_tokens<'a>(number: u32, tokens: TokensLeft<'a>) -> TokensLeft<'a>
    ensures { result ≡ statements.reference_tokens number tokens.entry }
{
    reference_behind(number.saturating_sub(1), behind(b"=", tokens))
}
