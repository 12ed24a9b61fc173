//! The words and the files that a run reads fix its job, the text that it prints tells its history, and one user's text
//! follows from the bytes of the files.
//!
//! Two jobs that the passes of a run find differ only in how loads keep their scripts and records, and traces the names
//! of rule files: they run the same scripts over the same records, with the same names. `specs/SameJob.antt` says when
//! two jobs are the same.
//!
//! The bytes that are written when all users are done fix what each user was told, and the one history: where two runs
//! of the same users' commands on a model have the same text, each command had the same reply at the same place, and
//! the same writes were committed in the same order. `specs/Laws.antt` says it, of histories that 64 bits count.
//!
//! What a user keeps in a sandbox is seen by that user alone, and what the user sees there is what everyone sees after
//! its PUBLISH. `specs/Laws.antt` says both, over the histories of whole runs.
//!
//! Where one user runs, two jobs that are the same print the same text. So two runs of one user, over files of the same
//! bytes, print the same text. `specs/Same.antt` says both. The laws do nothing when they run.
#![tactic(auto)]

ghost use Rattle.std.specs.Prelude.{ℕ, List};
ghost use Rattle.file_passes.specs.Pass.{Readings};
ghost use Rattle.run_passes.specs.RefusalOrder.{run_of};
ghost use Rattle.run_passes.specs.declared.run_job.RunJob.{RunJob};
ghost use Rattle.output_laws.specs.Laws.{TheBytesTellTheHistory, SandboxIsSeenByItsUserAlone};
ghost use Rattle.output_laws.specs.Laws.{PublishShowsWhatTheSandboxShowed};
ghost use Rattle.output_laws.specs.Same.{SameJobsPrintTheSame, OneUserHasOneText};
ghost use Rattle.output_laws.specs.SameJob.{IsSameJob};

use cube_server::one_user_has_one_output;
use layers::{a_layer_is_seen_by_its_user_alone, layered_runs_make_a_history};
use sandbox::publishing_is_the_kept_writes_at_once;
use script_text_laws::script_texts_have_one_answer;
use user_session::{PlanActs, PlanWorld, layers_are_writes_in_turn};

/// Over one list of files that were read, a run of these words finds the same job.
pub fn a_run_finds_one_job()
    ensures { (words : List (List ℕ)) (readings : Readings) (a b : RunJob)
        → (run_of words).finds readings a → (run_of words).finds readings b → IsSameJob a b }
{
    script_texts_have_one_answer();
}

/// What users do on a model has one history with this text, and one list of replies.
pub fn the_bytes_tell_the_history()
    ensures { TheBytesTellTheHistory }
{}

/// What another user keeps in a sandbox and doesn't publish changes none of a user's replies.
pub fn a_sandbox_is_seen_by_its_user_alone()
    ensures { SandboxIsSeenByItsUserAlone }
{
    a_layer_is_seen_by_its_user_alone::<PlanActs>();
    layered_runs_make_a_history::<PlanActs>();
}

/// After a PUBLISH everyone sees what its user saw in the sandbox, on the version at the place of the PUBLISH.
pub fn publishing_shows_what_the_sandbox_showed()
    ensures { PublishShowsWhatTheSandboxShowed }
{
    publishing_is_the_kept_writes_at_once::<PlanWorld>();
    layers_are_writes_in_turn();
}

/// Where one user runs, two jobs that are the same print the same text.
pub fn same_jobs_print_the_same()
    ensures { SameJobsPrintTheSame }
{
    one_user_has_one_output();
}

/// Two runs of one user that end with Done print the same text, where their files hold the same bytes.
pub fn one_user_has_one_text()
    ensures { OneUserHasOneText }
{
    same_jobs_print_the_same();
    a_run_finds_one_job();
}
