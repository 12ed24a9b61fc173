ghost use Rattle.std.specs.Prelude.{◌≡◌, ◌⊎◌, ℕ, IfSome, Some, slice_get};
ghost use Rattle.cube_space.specs.Layout.{Layout};
ghost use Rattle.rule_model.specs.BoundModel.{BoundModel};
ghost use Rattle.feed_cover.specs.declared.answers.Answer.{Answer as AnyAnswer};
ghost use Rattle.feed_cover.specs.Answers.{AreAnswers, answer_of};

use crate::hints::Hints;
use crate::question::{Question, ask_alike};

/// How many answers are kept.
const SLOTS: usize = 64;

/// A question and its answer.
#[derive(Clone, Copy)]
pub struct Answer<'a> {
    pub asked: Question<'a>,
    pub is: bool,
}

/// What was answered of the references of a cube's statements: of whole dimensions, and which feeders covered them.
#[derive(Drop)]
pub struct CoverAnswers<'a> {
    pub(crate) hints: Hints,
    pub(crate) kept: [Option<Answer<'a>>; SLOTS],
    // Where the next answer is kept.
    next: usize,
}

impl<'a> CoverAnswers<'a> {
    /// Nothing, which serves for each cube.
    pub fn none() -> CoverAnswers<'a>
        ensures { (model : BoundModel) (cube : ℕ) → AreAnswers model cube result }
    {
        CoverAnswers {
            hints: Hints::new(),
            kept: [None; SLOTS],
            next: 0,
        }
    }

    /// What is kept of a question.
    pub(crate) fn recalled(&self, asked: Question) -> Option<Answer<'a>>
        ensures { IfSome result (λ known. ((space : Layout) (cube : ℕ)
            → answer_of space cube known.asked ≡ answer_of space cube asked.entry)
            × ((k : ℕ) × (slice_get self.now.kept k ≡ Some (Some known)))) }
    {
        'each: for k in 0..SLOTS {
            let Some(known) = self.kept[k] else {
                return None;
            };
            if ask_alike(known.asked, asked) {
                return Some(known);
            }
        }
        None
    }

    /// Keeps the answer to a question, in place of the oldest one.
    pub(crate) fn keep(&mut self, known: Answer<'a>)
        ensures { (k : ℕ) (other : AnyAnswer) → slice_get self.new.kept k ≡ Some (Some other)
            → (slice_get self.old.kept k ≡ Some (Some other)) ⊎ (other ≡ known.entry) }
    {
        let slot = self.next % SLOTS;
        self.kept[slot] = Some(known);
        self.next = slot + 1;
    }
}
