ghost use Rattle.std.specs.Prelude.{◌≡◌, ℕ, ◌<◌, ◌^◌, ◌⊎◌, ◌++◌, ◌∷◌, [], IfSome, OnOk, OnErr};
ghost use Rattle.rule_model.specs.declared.area.Area.{Area as AnyArea};
ghost use Rattle.rule_model.specs.BoundModel.{BoundModel};
ghost use Rattle.rule_model.specs.Conditions.{IsPrecedent};
ghost use Rattle.ref_order.specs.Kinds.{AreByKinds, AreAllWithin};
ghost use Rattle.ref_order.specs.Reads.{precedent_of};
ghost use Rattle.ref_order.specs.Known.{AreReads, AreRight, IsKnown, IsKnownOf, answer_of};

use crate::alike::ask_alike;
use crate::kinds::ByKinds;
use crate::question::{Answer, Question};
use rule_model::Model;
use std::alloc::{AllocError, Global};
use std::collections::BTreeMap;

// How many answers are kept at most. A question beyond them is answered each time that it is asked.
const MAX_ANSWERS: usize = 1_048_576;

/// What was answered before. Where memory is short, less of it is kept.
#[derive(Drop)]
pub struct Kept<'a> {
    pub(crate) answers: Vec<Answer<'a>>,
    /// The place of the answer to each question, by the question's key.
    pub(crate) places: BTreeMap<u64, usize>,
}

/// The answers that are remembered from reference to reference of a cube's statements.
#[derive(Drop)]
pub struct Known<'a> {
    /// Where the area has all elements of the dimension, which is so for other statements too.
    pub(crate) whole: Kept<'a>,
    /// Where the area lists them.
    pub(crate) listed: Kept<'a>,
}

impl<'a> Known<'a> {
    /// Nothing, which serves for each cube.
    pub fn none(alloc: Global) -> Known<'a>
        ensures { (model : BoundModel) (cube : ℕ) → IsKnownOf model cube result }
    {
        Known {
            whole: Kept::none(alloc),
            listed: Kept::none(alloc),
        }
    }

    /// Goes on to a statement with another area.
    pub fn begin(&mut self)
        ensures { (model : BoundModel) (cube : ℕ) (area : AnyArea) → IsKnownOf model cube self.old
            → IsKnown model cube area self.new }
    {
        self.listed.clear();
    }
}

impl<'a> Kept<'a> {
    fn none(alloc: Global) -> Kept<'a>
        ensures { result.answers.items ≡ [] }
    {
        Kept {
            answers: Vec::new(alloc),
            places: BTreeMap::new(alloc),
        }
    }

    fn clear(&mut self)
        ensures { self.new.answers.items ≡ [] }
    {
        self.answers.clear();
        self.places.clear();
    }

    // Keeps an answer as the last.
    fn keep(&mut self, key: u64, answer: Answer<'a>) -> Result<(), AllocError>
        ensures kept { OnOk result (self.new.answers.items ≡ self.old.answers.items ++ answer.entry ∷ []) }
        ensures err { OnErr result (self.new.answers.items ≡ self.old.answers.items) }
    {
        self.answers.reserve(1)?;
        self.places.insert(key, self.answers.len())?;
        self.answers.push_reserved(answer);
        Ok(())
    }
}

/// What is remembered of a question with this key.
pub fn recalled<'a>(
    model: &Model,
    cube: u32,
    kept: &Kept<'a>,
    key: u64,
    asked: Question<'a>,
) -> Option<ByKinds>
    requires asked { IsPrecedent model.now.space cube (precedent_of asked.read) }
    requires reads { AreReads model.now.space cube kept.now.answers.items }
    ensures { IfSome result (λ numbers. (area : AnyArea) → AreRight model.now cube area kept.now.answers.items
        → AreByKinds numbers (answer_of model.now cube area asked.entry) × AreAllWithin numbers (2 ^ 40)) }
{
    let place = *kept.places.get(&key)?;
    let answer = kept.answers.get(place)?;
    if ask_alike(model, cube, answer.asked, asked) {
        Some(answer.numbers)
    } else {
        None
    }
}

/// Remembers the answer to a question with this key, where there is room and memory for it.
pub fn remember<'a>(kept: &mut Kept<'a>, key: u64, answer: Answer<'a>)
    ensures { (kept.new.answers.items ≡ kept.old.answers.items)
        ⊎ (kept.new.answers.items ≡ kept.old.answers.items ++ answer.entry ∷ []) }
{
    if kept.answers.len() < MAX_ANSWERS {
        let _is_kept = kept.keep(key, answer).is_ok();
    }
}
