ghost use Rattle.std.specs.Prelude.{◌<◌, length, IfOk};
ghost use Rattle.feed_find.specs.Views.{IsKept};

use feed_cover::CoverAnswers;
use feed_turn::Turns;
use rule_model::Model;
use std::alloc::{AllocError, Global};

/// What is remembered from statement to statement of a cube.
#[derive(Drop)]
pub struct Kept<'a> {
    pub turns: Turns<'a>,
    pub answers: CoverAnswers<'a>,
}

impl<'a> Kept<'a> {
    /// Nothing yet of a cube.
    pub fn none(alloc: Global, model: &Model, cube: u32) -> Result<Kept<'a>, AllocError>
        requires { cube < length model.now.space.cubes }
        ensures { IfOk result (IsKept model.now cube) }
    {
        let turns = Turns::none(alloc, model, cube)?;
        let answers = CoverAnswers::none();
        Ok(Kept { turns, answers })
    }
}
