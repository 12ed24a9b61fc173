ghost use Rattle.history.specs.Laws.{RunsMakeLegal, RunsMakeHistory, RunStaysBesideOthers, RunGoesOnByOne};
ghost use Rattle.history.specs.Laws.{RunIsByPlace, ByPlaceIsRun, OneUserHasOneHistory};

use crate::world::World;

/// Whoever has each user's run, and knows that each entry is of one of the users, has the one legal history of all of
/// them: that every entry is an accepted command on the version of its place follows.
pub fn runs_make_a_history<W: World>()
    ensures legal { RunsMakeLegal W.effect W.after }
    ensures history { RunsMakeHistory W.effect W.after }
{}

/// The replies stay true while the history goes on without the user, and a run goes on by one answer at its end.
pub fn runs_go_on<W: World>()
    ensures beside { RunStaysBesideOthers W.effect W.after }
    ensures answered { RunGoesOnByOne W.effect W.after }
{}

/// A user's run says of each place what a reader expects: one place and one reply for each command, the reply that of
/// the command's effect on the version of its place, an accepted command as the entry there, places that never fall and
/// rise over an accepted command, and no other entry of the user. It says no more than that.
pub fn runs_are_read_by_place<W: World>()
    ensures places { RunIsByPlace W.effect W.after }
    ensures run { ByPlaceIsRun W.effect W.after }
{}

/// Where one user runs, the commands leave one history, and one list of replies.
pub fn one_user_has_one_history<W: World>()
    ensures { OneUserHasOneHistory W.effect W.after }
{}
