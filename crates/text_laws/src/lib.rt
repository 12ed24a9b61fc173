//! The bytes of a text have one answer: no text is both accepted and refused, and each has one content or one first
//! fault.
//!
//! The contracts of `user_text::parse` and `model_text::read` say what an answer means; the laws say that there is only
//! one such answer. They do nothing when they run.
#![tactic(auto)]

ghost use Rattle.std.specs.Prelude.{ℕ, List};
ghost use Rattle.model_text.specs.Contents.{Contents};
ghost use Rattle.text_laws.specs.ModelAnswers.{OneModelAnswer};
ghost use Rattle.text_laws.specs.PrintedModels.{ReadsBack};
ghost use Rattle.text_laws.specs.UserAnswers.{OneUserAnswer};

/// The bytes of a user's text, behind so many commands of the users before, are one list of commands, or have one first
/// fault, and not both.
pub fn user_texts_have_one_answer()
    ensures { (bytes : List ℕ) (before : ℕ) → OneUserAnswer bytes before }
{}

/// The bytes of a model text have one content, or one first fault, and not both. Out of memory is no fault of the
/// text.
pub fn model_texts_have_one_answer()
    ensures { (bytes : List ℕ) → OneModelAnswer bytes }
{}

/// What `model_text::print` adds, of at most 2^30 bytes, is read as equal contents, but for places.
pub fn printed_models_read_back()
    ensures { (contents : Contents) (old new bytes : List ℕ) → ReadsBack contents old new bytes }
{}
