use crate::command::PlanCommand;
use crate::content::Content;
use crate::reply::ReplyText;
use crate::world::CellWrites;
use layers::Answering;
use sandbox::Act;

/// The world of planners' acts, for the laws of layers: each is answered on a version and on what its planner's sandbox
/// keeps. No value of it is made.
pub struct PlanActs;

impl Answering for PlanActs {
    ghost use Rattle.user_session.specs.Content.{after};
    ghost use Rattle.user_session.specs.Layers.{answer};

    type Content = Content;

    type Layer = Option<CellWrites>;

    type Command = Act<PlanCommand>;

    type Writes = CellWrites;

    type Reply = ReplyText;

    ghost answer = { answer };

    ghost after = { after };
}
