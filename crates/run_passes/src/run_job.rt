use accepted::Accepted;
use lists::ListOf;
use model_bind::Bound;
use sandbox::Act;
use user_session::PlanCommand;

/// What is to be done by a run that isn't refused.
#[derive(Drop)]
pub enum RunJob {
    /// Runs the commands of each user on the model.
    Serve(Accepted, ListOf<ListOf<Act<PlanCommand>>>),
    /// Tells that the model is accepted, with its rules and scripts.
    Check(Accepted),
    /// The same, also of the users' files, and what is hardly ever meant in the model file of this name and in the rule
    /// files of these names, one of each cube. No user is run.
    Explain(Accepted, ListOf<u8>, ListOf<ListOf<u8>>),
    /// Prints the feeders that are found for the model.
    Feeders(Bound),
    /// Runs the generated sample of so many records.
    Sample(u32),
}
