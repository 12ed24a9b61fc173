ghost use Rattle.std.specs.Prelude.{◌≡◌};
ghost use Rattle.cube_lex.specs.Lexeme.{lexeme_of};
ghost use Rattle.rule_tree.specs.Counting as counting;

use crate::excess::Excess;
use cube_lex::Token;
use expression_grammar::Limits;
use grammar::{Scan, is_sign, is_word};

/// How many statements there may be, and how many feeders.
pub const MAX_STATEMENTS: u32 = 1_000;

/// Where in a rule text a token stands.
#[derive(Clone, Copy)]
pub enum RuleTextPlace {
    /// Outside of statements and feeders, or behind the `;` of a part.
    Between,
    /// In an area, up to its `=` or `=>`.
    Area,
    /// In a whole formula of a statement.
    Formula(Limits),
    /// Among the targets of a feeder.
    Targets,
    /// In a whole formula that is an argument of a feeder's `DB`.
    Argument(Limits),
}

/// What was counted so far.
#[derive(Clone, Copy)]
pub struct Counted {
    pub statements: u32,
    pub feeders: u32,
    /// Whether `FEEDERS` stood, so that a `[` begins a feeder.
    pub feeding: bool,
    pub place: RuleTextPlace,
}

/// A whole formula with one more token.
fn with(limits: &Limits, token: &Token<'_>) -> Result<Limits, Excess>
    ensures { result ≡ counting.with_token limits.now (lexeme_of token.now) }
{
    match limits.with(token) {
        Some(more) => Ok(more),
        None => Err(Excess::TooDeep(token.position())),
    }
}

/// Where one is behind a token in an area.
fn behind_area(token: &Token<'_>) -> RuleTextPlace
    ensures { result ≡ counting.behind_area (lexeme_of token.now) }
{
    if is_sign(token, b"=") {
        RuleTextPlace::Formula(Limits::within(0))
    } else if is_sign(token, b"=>") {
        RuleTextPlace::Targets
    } else {
        RuleTextPlace::Area
    }
}

/// Where one is behind a token in a whole formula of a statement.
fn behind_formula(limits: &Limits, token: &Token<'_>) -> Result<RuleTextPlace, Excess>
    ensures { result ≡ counting.behind_formula limits.now (lexeme_of token.now) }
{
    if is_sign(token, b";") {
        Ok(RuleTextPlace::Between)
    } else if !limits.bracketed && is_sign(token, b":") {
        Ok(RuleTextPlace::Formula(Limits::within(0)))
    } else {
        let more = with(limits, token)?;
        Ok(RuleTextPlace::Formula(more))
    }
}

/// Where one is behind a token among the targets of a feeder.
fn behind_targets(token: &Token<'_>) -> RuleTextPlace
    ensures { result ≡ counting.behind_targets (lexeme_of token.now) }
{
    if is_sign(token, b";") {
        RuleTextPlace::Between
    } else if is_sign(token, b"(") {
        RuleTextPlace::Argument(Limits::within(1))
    } else {
        RuleTextPlace::Targets
    }
}

/// Where one is behind a token in an argument of a feeder's `DB`.
fn behind_argument(limits: &Limits, token: &Token<'_>) -> Result<RuleTextPlace, Excess>
    ensures { result ≡ counting.behind_argument limits.now (lexeme_of token.now) }
{
    let outermost = limits.depth == 1 && !limits.bracketed;
    if is_sign(token, b";") {
        Ok(RuleTextPlace::Between)
    } else if outermost && is_sign(token, b",") {
        Ok(RuleTextPlace::Argument(Limits::within(1)))
    } else if outermost && is_sign(token, b")") {
        Ok(RuleTextPlace::Targets)
    } else {
        let more = with(limits, token)?;
        Ok(RuleTextPlace::Argument(more))
    }
}

impl Counted {
    /// Behind a `[` that begins a statement or a feeder.
    fn one_more(&self, token: &Token<'_>) -> Result<Counted, Excess>
        ensures { result ≡ counting.one_more self.now (lexeme_of token.now) }
    {
        let place = RuleTextPlace::Area;
        if self.feeding && self.feeders < MAX_STATEMENTS {
            let feeders = self.feeders + 1;
            Ok(Counted {
                feeders,
                place,
                ..*self
            })
        } else if !self.feeding && self.statements < MAX_STATEMENTS {
            let statements = self.statements + 1;
            Ok(Counted {
                statements,
                place,
                ..*self
            })
        } else {
            Err(Excess::TooMany(token.position()))
        }
    }

    /// Behind a token that stands outside of statements and feeders.
    fn behind_all(&self, token: &Token<'_>) -> Result<Counted, Excess>
        ensures { result ≡ counting.behind_all self.now (lexeme_of token.now) }
    {
        if is_sign(token, b"[") {
            self.one_more(token)
        } else if is_sign(token, b":") {
            let place = RuleTextPlace::Formula(Limits::within(0));
            Ok(Counted { place, ..*self })
        } else {
            let feeding = self.feeding || is_word(token, b"FEEDERS");
            Ok(Counted { feeding, ..*self })
        }
    }

    /// At that place, if it is within the limits.
    fn moved(&self, place: Result<RuleTextPlace, Excess>) -> Result<Counted, Excess>
        ensures { result ≡ counting.moved self.now place }
    {
        match place {
            Ok(place) => Ok(Counted { place, ..*self }),
            Err(excess) => Err(excess),
        }
    }

    /// With one more token.
    #[tactic(auto, unfolding(crate::specs::Counting::count))]
    fn with(&self, token: &Token<'_>) -> Result<Counted, Excess>
        ensures { result ≡ counting.count self.now (lexeme_of token.now) }
    {
        match &self.place {
            RuleTextPlace::Between => self.behind_all(token),
            RuleTextPlace::Area => self.moved(Ok(behind_area(token))),
            RuleTextPlace::Formula(limits) => self.moved(behind_formula(limits, token)),
            RuleTextPlace::Targets => self.moved(Ok(behind_targets(token))),
            RuleTextPlace::Argument(limits) => self.moved(behind_argument(limits, token)),
        }
    }
}

impl Scan<Excess> for Counted {
    ghost use Rattle.rule_tree.specs.Counting.{count};

    ghost scanned = { count };

    fn scan(&mut self, token: &Token<'_>) -> Result<(), Excess> {
        *self = self.with(token)?;
        Ok(())
    }
}
