ghost use Rattle.std.specs.Prelude.{◌≡◌, [], MatchOption, MatchResult, true};
ghost use Rattle.clap.specs.Words.{fault_of, found_of, matches_of, rows_of};
ghost use Rattle.cube_words.specs.Inside.Command.{are_spelled, cube};
ghost use Rattle.cube_words.specs.Words.{IsPlan, Plan as PlanOf, asked, texts_of};

use crate::command::command;
use crate::plan::{Plan, WordsFault};
use crate::size::size_of;
use crate::spelling::are_spelled;
use clap::ArgMatches;
use clap::error::ErrorKind;
use std::alloc::Global;

/// What `clap` makes of the words.
fn matches_of<'a>(alloc: Global, words: &'a [String]) -> Result<ArgMatches<'a>, WordsFault>
    ensures { MatchResult result
        (λ m. (fault_of cube (texts_of words.entry.now) ≡ [])
        × (rows_of (found_of m) ≡ matches_of cube (texts_of words.entry.now)))
        (λ fault. fault ≡ WordsFault.Usage → ¬ (fault_of cube (texts_of words.entry.now) ≡ [])) }
{
    let Ok(command) = command(alloc) else {
        return Err(WordsFault::OutOfMemory);
    };
    match command.try_get_matches_from(words) {
        Ok(matches) => Ok(matches),
        Err(error) => match error.kind() {
            ErrorKind::OutOfMemory => Err(WordsFault::OutOfMemory),
            _ => Err(WordsFault::Usage),
        },
    }
}

/// The plan of words that `clap` took.
fn plan_of<'a>(words: &'a [String], matches: &ArgMatches<'a>) -> Option<Plan<'a>>
    requires spelled { are_spelled (texts_of words.now) ≡ true }
    requires taken { fault_of cube (texts_of words.now) ≡ [] }
    requires rows { rows_of (found_of matches.now) ≡ matches_of cube (texts_of words.now) }
    ensures { MatchOption result ((plan : PlanOf) → ¬ IsPlan (texts_of words.entry.now) plan)
        (λ plan. IsPlan (texts_of words.entry.now) (asked plan)) }
{
    let check = matches.get_flag("check");
    let feeders = matches.get_flag("feeders");
    let explain = matches.get_flag("explain");
    let size = matches.get_str("sample");
    let model = matches.get_str("model");
    let user = matches.get_str("users");
    match (check, feeders, explain, size, model, user) {
        (false, false, false, None, Some(model), Some(_)) => {
            let [_, users @ ..] = words else {
                return None;
            };
            Some(Plan::Run { model, users })
        }
        (true, false, false, None, Some(model), None) => Some(Plan::Check { model }),
        (false, true, false, None, Some(model), None) => Some(Plan::Feeders { model }),
        (false, false, true, None, Some(model), _) => {
            let [_, _, users @ ..] = words else {
                return None;
            };
            Some(Plan::Explain { model, users })
        }
        (false, false, false, Some(size), None, None) => match size_of(size) {
            Some(size) => Some(Plan::Sample { size }),
            None => None,
        },
        _ => None,
    }
}

/// What the words, without the program's own name, ask for.
///
/// Memory may run out at any words, so the clause speaks of `Usage` alone: then the words ask for nothing.
pub fn words<'a>(alloc: Global, words: &'a [String]) -> Result<Plan<'a>, WordsFault>
    ensures { MatchResult result (λ plan. IsPlan (texts_of words.entry.now) (asked plan))
        (λ fault. fault ≡ WordsFault.Usage → (plan : PlanOf) → ¬ IsPlan (texts_of words.entry.now) plan) }
{
    if !are_spelled(words) {
        return Err(WordsFault::Usage);
    }
    match matches_of(alloc, words) {
        Ok(matches) => plan_of(words, &matches).ok_or(WordsFault::Usage),
        Err(fault) => Err(fault),
    }
}
