use accepted::Accepted;
use lists::ListOf;
use sandbox::Act;
use user_session::PlanCommand;

/// A model that was accepted, the commands of its users as they are run, and the names of its rule files.
#[derive(Drop)]
pub struct Ready {
    pub model: Accepted,
    pub commands: ListOf<ListOf<Act<PlanCommand>>>,
    /// The name of the rule file of each cube, empty where a cube has none.
    pub rule_files: ListOf<ListOf<u8>>,
}
