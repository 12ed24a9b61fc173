//! Users with private layers, over histories: a command is answered on a content and on its user's layer, and the
//! answer gives the user's next layer.
//!
//! Read `specs/Layered.antt` first, then `specs/Laws.antt`. No word of them says what a layer is.
#![tactic(auto)]

mod answering;
mod laws;

pub use answering::Answering;
pub use laws::{
    a_layer_is_seen_by_its_user_alone, layered_runs_go_on, layered_runs_make_a_history,
    layers_go_by_commands, one_user_has_one_layered_history,
};
