ghost use Rattle.version_core.specs.Laws.{EveryRunIsOneHistory, EveryReplyIsAtLastPin};

use history::World;

/// Whatever commands are given and whatever events come, in any order: the history is legal, each user's answered
/// commands with their replies are that user's run of it, each kept value is the cell's on its version, and each reply
/// has the length as its place that the history had at the user's last `Pin` before.
///
/// `Core::start`, `Core::give` and `Core::step` are exact by the same definitions, so this is a theorem about them.
pub fn one_history<W: World>()
    ensures history { EveryRunIsOneHistory W.effect W.after W.cell_value }
    ensures places { EveryReplyIsAtLastPin W.effect W.after W.cell_value }
{}
