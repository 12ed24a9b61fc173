ghost use Rattle.std.specs.Prelude.{◌≡◌, ℕ, ◌+◌, ◌<◌, ◌≤◌, IfOk, OnOk};
ghost use Rattle.solver.specs.Turns.{MatchTurn, MatchOpened};

use std::alloc::AllocError;

/// What a step of a frame gives.
#[derive(Drop)]
pub enum Turn<Q, A> {
    /// The frame waits for the answer to this question.
    Asks(Q),
    /// This is the answer to the frame's own question.
    Done(A),
}

/// How work on a question begins.
#[derive(Drop)]
pub enum Opened<A, F> {
    /// The answer is known at once.
    Known(A),
    /// Work begins with this frame.
    Begun(F),
}

/// How questions are worked on.
///
/// `M` is what is remembered and `C` what is counted; both are handed along. A frame that serves a question is a state
/// of the work on it, and `left` is how much work is left then. A frame that waits has asked one question.
pub trait Problem<M, C> {
    type Question: Copy + Drop;

    type Answer: Copy + Drop;

    type Frame: Drop;
    /// What the answers depend on. It stays the same.
    ghost World: { Type 0 };

    ghost world: { Self → M → World };
    /// The right answer to a question.
    ghost answer_of: { World → Self.Question → Self.Answer };
    /// The questions that may be asked, and how much work each is.
    ghost is_question: { World → Self.Question → Type 0 };

    ghost work: { World → Self.Question → ℕ };
    /// The frame is a state of the work on this question.
    ghost serves: { World → Self.Frame → Self.Question → Type 0 };
    /// The frame is a state of the work on the first question, and waits for the answer to the second.
    ghost waits: { World → Self.Frame → Self.Question → Self.Question → Type 0 };
    /// How much work on this question a frame has left.
    ghost left: { World → Self.Frame → Self.Question → ℕ };
    /// How what is remembered may change: the second is what a first may have become.
    ghost later: { M → M → Type 0 };

    /// Goes on with a frame: up to its question's answer, or up to a question that is less work than the frame gives
    /// up.
    fn step(
        &mut self,
        memory: &mut M,
        count: &mut C,
        frame: &mut Self::Frame,
        question: Self::Question,
    ) -> Result<Turn<Self::Question, Self::Answer>, AllocError>
        requires { serves (world self.old memory.old) frame.old question }
        ensures turn { IfOk result (λ turn. MatchTurn turn
            (λ next. is_question (world self.old memory.old) next
            × waits (world self.old memory.old) frame.new question next
            × (left (world self.old memory.old) frame.new question + work (world self.old memory.old) next
            < left (world self.old memory.old) frame.old question))
            (λ v. v ≡ answer_of (world self.old memory.old) question)) }
        ensures world { world self.new memory.new ≡ world self.old memory.old }
        ensures later { later memory.old memory.new };

    /// Begins with a question: its answer, or a frame with less left than the whole work.
    fn open(
        &mut self,
        memory: &mut M,
        question: Self::Question,
    ) -> Result<Opened<Self::Answer, Self::Frame>, AllocError>
        requires { is_question (world self.old memory.old) question }
        ensures opened { IfOk result (λ opened. MatchOpened opened
            (λ v. v ≡ answer_of (world self.old memory.old) question)
            (λ frame. serves (world self.old memory.old) frame question
            × (left (world self.old memory.old) frame question < work (world self.old memory.old) question))) }
        ensures world { world self.new memory.new ≡ world self.old memory.old }
        ensures later { later memory.old memory.new };

    /// Gives a waiting frame the answer that it waits for.
    fn give(
        &mut self,
        memory: &mut M,
        frame: &mut Self::Frame,
        question: Self::Question,
        asked: Self::Question,
        answer: &Self::Answer,
    ) -> Result<(), AllocError>
        requires waits { waits (world self.old memory.old) frame.old question asked }
        requires right { answer.now ≡ answer_of (world self.old memory.old) asked }
        ensures serves { OnOk result (serves (world self.old memory.old) frame.new question) }
        ensures left { OnOk result (left (world self.old memory.old) frame.new question
            ≤ left (world self.old memory.old) frame.old question) }
        ensures world { world self.new memory.new ≡ world self.old memory.old }
        ensures later { later memory.old memory.new };

    /// Takes back a frame whose question is answered, and may keep the answer.
    fn close(
        &mut self,
        memory: &mut M,
        frame: Self::Frame,
        question: Self::Question,
        answer: &Self::Answer,
    ) -> Result<(), AllocError>
        requires question { is_question (world self.old memory.old) question }
        requires right { answer.now ≡ answer_of (world self.old memory.old) question }
        ensures world { world self.new memory.new ≡ world self.old memory.old }
        ensures later { later memory.old memory.new };

    /// Nothing changed is a change, and changes one after another are one.
    ghost later_same: { (m : M) → later m m };

    ghost later_later: { (a b c : M) → later a b → later b c → later a c };

    /// A frame that waits has asked a question that may be asked.
    ghost asked: { (w : World) (f : Self.Frame) (q next : Self.Question) → waits w f q next → is_question w next };
}
