ghost use Rattle.std.specs.Prelude.{◌≡◌, ◌≤◌, ◌-◌, ◌==◌, [], ◌∷◌, ◌++◌, if◌then◌else◌, slice_index_or, IfOk, OnOk};
ghost use Rattle.explanation.specs.Statements.{reference_tokens, references as references_in};
ghost use Rattle.explanation.specs.Tables.{IsStatementTable, AreLeft};

use crate::statements::{behind, counted_with, reference_behind, uncounted};
use cube_lex::TokensLeft;
use std::alloc::{AllocError, Global};

// Adds these tokens to a table of statements, where their first one is counted as one more.
fn push_begun<'a>(
    table: &mut Vec<TokensLeft<'a>>,
    counted: u32,
    more: u32,
    tokens: &TokensLeft<'a>,
) -> Result<(), AllocError>
    ensures { OnOk result (table.new.items
        ≡ (if more == counted then table.old.items else table.old.items ++ tokens.now ∷ [])) }
{
    if more == counted {
        return Ok(());
    }
    table.push(tokens.again())?;
    Ok(())
}

/// Of each statement of a rule text, in order, the tokens from its beginning on. It fails only when out of memory.
pub fn statement_tokens<'a>(
    alloc: Global,
    tokens: TokensLeft<'a>,
) -> Result<Vec<TokensLeft<'a>>, AllocError>
    ensures { IfOk result (λ table. IsStatementTable tokens.entry table.items) }
{
    let mut table = Vec::new(alloc);
    let mut counted = uncounted();
    let mut left = tokens;
    'token: while let Some(token) = left.first() {
        let Some(more) = counted_with(counted, &token) else {
            return Ok(table);
        };
        push_begun(&mut table, counted.statements, more.statements, &left)?;
        counted = more;
        left.advance();
    }
    Ok(table)
}

/// The references of a statement from one of them on. References that follow one another are found by reading the
/// statement once.
#[derive(Drop)]
pub struct ReferencesLeft<'a> {
    /// How many come before.
    passed: u32,
    left: TokensLeft<'a>,
}

impl<'a> ReferencesLeft<'a> {
    /// Those of the statement that begins these tokens.
    pub fn new(tokens: TokensLeft<'a>) -> ReferencesLeft<'a>
        ensures left { AreLeft tokens.entry result }
        ensures all { result.passed ≡ 0 }
    {
        ReferencesLeft {
            passed: 0,
            left: behind(b"=", tokens),
        }
    }

    fn again(&self) -> ReferencesLeft<'a>
        ensures { result ≡ self.now }
    {
        ReferencesLeft {
            passed: self.passed,
            left: self.left.again(),
        }
    }
}

// Those before which at most so many others stand: these ones, or all.
fn left_before<'a>(
    others: u32,
    tokens: &TokensLeft<'a>,
    references: &ReferencesLeft<'a>,
) -> ReferencesLeft<'a>
    requires { AreLeft tokens.now references.now }
    ensures left { AreLeft tokens.now result }
    ensures before { result.passed ≤ others }
{
    if others < references.passed {
        ReferencesLeft::new(tokens.again())
    } else {
        references.again()
    }
}

// Those from the one on before which so many others stand.
fn left_from<'a>(others: u32, references: &ReferencesLeft<'a>) -> ReferencesLeft<'a>
    requires { references.now.passed ≤ others }
    ensures passed { result.passed ≡ others }
    ensures left { result.left
        ≡ slice_index_or (references_in references.now.left) (others - references.now.passed) [] }
{
    ReferencesLeft {
        passed: others,
        left: reference_behind(others - references.passed, references.left.again()),
    }
}

/// The tokens from the reference of this number on, from 1, of the statement that begins these tokens, and the
/// references from there on.
pub fn reference_tokens_on<'a>(
    number: u32,
    tokens: &TokensLeft<'a>,
    references: &mut ReferencesLeft<'a>,
) -> TokensLeft<'a>
    requires { AreLeft tokens.now references.old }
    ensures tokens { result ≡ reference_tokens number tokens.now }
    ensures left { AreLeft tokens.now references.new }
{
    let others = number.saturating_sub(1);
    let before = left_before(others, tokens, references);
    *references = left_from(others, &before);
    references.left.again()
}
