ghost use Rattle.std.specs.Prelude.{◌≡◌, ◌<◌, length};
ghost use Rattle.rule_model.specs.Conditions.{IsArea};
ghost use Rattle.cover_laws.specs.Covered.{is_covered};
ghost use Rattle.feed_cover.specs.Answers.{AreAnswers};
ghost use Rattle.feed_check.specs.Inside.References.{is_reference};

use feed_cover::{CoverAnswers, is_covered};
use rule_laws::Reference;
use rule_model::{Area, Model};
use zero_check::Cover;

/// Tells which references of a statement of a cube feeders cover.
#[derive(Clone, Copy)]
pub struct Covered<'a> {
    pub model: &'a Model,
    pub cube: u32,
    pub area: &'a Area,
}

impl<'a> Cover<CoverAnswers<'a>> for Covered<'a> {
    ghost is_ready = { λ s. (s.cube < length s.model.now.space.cubes) × IsArea s.model.now.space s.cube s.area.now };

    ghost is_kept = { λ s answers. AreAnswers s.model.now s.cube answers };

    ghost knows = { λ s r. is_reference s.model.now.space s.cube r };

    ghost covers = { λ s r. is_covered s.model.now s.cube s.area.now r };

    fn covers(&self, reference: &Reference, kept: &mut CoverAnswers<'a>) -> bool {
        is_covered(self.model, self.cube, self.area, reference, kept)
    }
}
