ghost use Rattle.std.specs.Prelude.{◌≡◌, IfOk};
ghost use Rattle.cube_lex.specs.Lexed.{Lexed};
ghost use Rattle.explanation.specs.Statements.{reference_tokens, tokens_from};
ghost use Rattle.file_passes.specs.declared.refusal.FilePlace.TheVariants.{Statement};
ghost use Rattle.note_lines.specs.Inside.RuleTexts.{IsKnown, IsTextOf};
ghost use Rattle.note_lines.specs.Notes as notes;

use cube_lex::{TokensLeft, text_tokens};
use explanation::{ReferencesLeft, TextCursor, reference_tokens_on, statement_tokens, tokens_from};
use file_passes::FilePlace;
use rule_notes::Note;
use std::alloc::{AllocError, Global};

/// A rule text, and what finds the places of its notes. Notes in the order of the text are placed by reading it once.
#[derive(Drop)]
pub(crate) struct RuleText<'a> {
    pub text: &'a [u8],
    pub tokens: TokensLeft<'a>,
    /// Of each statement, the tokens from its beginning on.
    pub statements: Vec<TokensLeft<'a>>,
    /// The statement of the last reference that was placed, and its references from there on.
    pub statement: u32,
    pub references: ReferencesLeft<'a>,
    /// At the last place.
    pub cursor: TextCursor,
}

/// A rule text that no note was placed in so far.
pub(crate) fn rule_text<'a>(alloc: Global, text: &'a [u8]) -> Result<RuleText<'a>, AllocError>
    ensures { IfOk result (IsTextOf text.now) }
{
    let tokens = text_tokens(text).left;
    let statements = statement_tokens(alloc, tokens.again())?;
    let first = tokens_from(FilePlace::Statement(0), tokens.again());
    Ok(RuleText {
        text,
        tokens,
        statements,
        statement: 0,
        references: ReferencesLeft::new(first),
        cursor: TextCursor::new(text),
    })
}

/// The statement of a note, from 1.
fn statement_of(note: Note) -> u32
    ensures { result ≡ notes.statement_of note }
{
    match note {
        Note::NotReached { statement, .. } => statement,
        Note::NamesNothing { statement, .. } => statement,
    }
}

// The tokens of a rule text from the beginning of this statement on.
fn statement_at<'a>(rules: &RuleText<'a>, statement: u32) -> TokensLeft<'a>
    requires { IsKnown rules.now }
    ensures { result ≡ tokens_from (Statement statement) rules.now.tokens }
{
    if statement > 0 {
        if let Some(tokens) = rules.statements.get(statement as usize - 1) {
            return tokens.again();
        }
    }
    tokens_from(FilePlace::Statement(statement), rules.tokens.again())
}

// The tokens from a reference of the statement of this number on, which these tokens begin with.
fn reference_at<'a>(
    rules: &mut RuleText<'a>,
    statement: u32,
    tokens: &TokensLeft<'a>,
    reference: u32,
) -> TokensLeft<'a>
    requires known { IsKnown rules.old }
    requires tokens { tokens.now ≡ tokens_from (Statement statement) rules.old.tokens }
    ensures tokens { result ≡ reference_tokens reference tokens.now }
    ensures known { IsKnown rules.new }
    ensures same { (rules.new.tokens ≡ rules.old.tokens) × (rules.new.text.now ≡ rules.old.text.now) }
{
    if rules.statement != statement {
        rules.statement = statement;
        rules.references = ReferencesLeft::new(tokens.again());
    }
    reference_tokens_on(reference, tokens, &mut rules.references)
}

/// Of the tokens of its statement, those from where a note stands on.
pub(crate) fn note_tokens<'a>(rules: &mut RuleText<'a>, note: Note) -> TokensLeft<'a>
    requires { IsKnown rules.old }
    ensures tokens { result ≡ notes.noted_tokens note rules.old.tokens }
    ensures known { IsKnown rules.new }
    ensures same { (rules.new.tokens ≡ rules.old.tokens) × (rules.new.text.now ≡ rules.old.text.now) }
{
    let statement = statement_of(note);
    let tokens = statement_at(rules, statement);
    match note {
        Note::NotReached { .. } => tokens,
        Note::NamesNothing { reference, .. } => reference_at(rules, statement, &tokens, reference),
    }
}
