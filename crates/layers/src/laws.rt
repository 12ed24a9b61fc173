ghost use Rattle.layers.specs.Laws.{LayeredRunStaysBesideOthers, LayeredRunGoesOnByOne, LayeredRunsMakeHistory};
ghost use Rattle.layers.specs.Laws.{LayeredHistoryHasRuns, RepliesAreDetermined, LayerIsSeenAlone};
ghost use Rattle.layers.specs.Laws.{OneUserHasOneLayeredHistory, LayersGoByCommands};

use crate::answering::Answering;

/// While others commit, what a user was told stays true and the user's layer stays the same; and a run goes on by one
/// answer at its end, which gives the user's next layer.
pub fn layered_runs_go_on<W: Answering>()
    ensures beside { LayeredRunStaysBesideOthers W.answer W.after }
    ensures answered { LayeredRunGoesOnByOne W.answer W.after }
{}

/// Whoever has each user's whole run, and knows that each entry is of one of the users, has the one history of all of
/// them; and in such a history each user has a run by its own commands and replies.
pub fn layered_runs_make_a_history<W: Answering>()
    ensures history { LayeredRunsMakeHistory W.answer W.after }
    ensures runs { LayeredHistoryHasRuns W.answer W.after }
{}

/// The replies to a user follow from the writes of the history, the places and the user's own commands. So what another
/// user keeps in a layer changes none of them.
pub fn a_layer_is_seen_by_its_user_alone<W: Answering>()
    ensures determined { RepliesAreDetermined W.answer W.after }
    ensures alone { LayerIsSeenAlone W.answer W.after }
{}

/// Where one user runs, the commands leave one history, and one list of replies.
pub fn one_user_has_one_layered_history<W: Answering>()
    ensures { OneUserHasOneLayeredHistory W.answer W.after }
{}

/// The layer before each command is that of the answers before it.
pub fn layers_go_by_commands<W: Answering>()
    ensures { LayersGoByCommands W.answer W.after }
{}
