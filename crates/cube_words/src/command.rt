ghost use Rattle.std.specs.Prelude.{◌≡◌, IfOk, false};
ghost use Rattle.clap.specs.Words.{app_of, rule_of};
ghost use Rattle.cube_words.specs.Inside.Command.{check_rule, cube, explain_rule, feeders_rule, model_rule};
ghost use Rattle.cube_words.specs.Inside.Command.{sample_rule, users_rule};

use clap::{Arg, ArgAction, Command};
use std::alloc::{AllocError, Global};

/// The most users of one run.
pub const MAX_USERS: usize = 16;

fn check_flag<'a>(alloc: Global) -> Arg<'a>
    ensures local { result.global ≡ false }
    ensures rule { rule_of result ≡ check_rule }
{
    Arg::new(alloc, "check")
        .long("check")
        .action(ArgAction::SetTrue)
}

fn feeders_flag<'a>(alloc: Global) -> Arg<'a>
    ensures local { result.global ≡ false }
    ensures rule { rule_of result ≡ feeders_rule }
{
    Arg::new(alloc, "feeders")
        .long("feeders")
        .action(ArgAction::SetTrue)
}

fn explain_flag<'a>(alloc: Global) -> Arg<'a>
    ensures local { result.global ≡ false }
    ensures rule { rule_of result ≡ explain_rule }
{
    Arg::new(alloc, "explain")
        .long("explain")
        .action(ArgAction::SetTrue)
}

fn sample_option<'a>(alloc: Global) -> Arg<'a>
    ensures local { result.global ≡ false }
    ensures rule { rule_of result ≡ sample_rule }
{
    Arg::new(alloc, "sample").long("sample")
}

fn users_after_the_model<'a>(alloc: Global) -> Arg<'a>
    ensures local { result.global ≡ false }
    ensures rule { rule_of result ≡ users_rule }
{
    Arg::new(alloc, "users").num_args(1..=MAX_USERS)
}

/// The command line as `clap` reads it. Nothing is required there, so that each fault is one of spelling.
pub(crate) fn command<'a>(alloc: Global) -> Result<Command<'a>, AllocError>
    ensures { IfOk result (λ command. app_of command ≡ cube) }
{
    Command::new(alloc, "cube_program")
        .no_binary_name(true)
        .disable_help_flag(true)
        .disable_version_flag(true)
        .arg(check_flag(alloc))?
        .arg(feeders_flag(alloc))?
        .arg(explain_flag(alloc))?
        .arg(sample_option(alloc))?
        .arg(Arg::new(alloc, "model"))?
        .arg(users_after_the_model(alloc))
}
