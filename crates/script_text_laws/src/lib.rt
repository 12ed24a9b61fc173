//! The bytes of a load script have one answer: no text is both accepted and refused, and each has one tree or one first
//! fault.
//!
//! The contract of `script_reader::parse` says what an answer means; the law says that there is only one such answer.
//! It does nothing when it runs.
#![tactic(auto)]

ghost use Rattle.std.specs.Prelude.{ℕ, List};
ghost use Rattle.script_text_laws.specs.ScriptAnswers.{OneScriptAnswer};

/// The bytes of a load script are one script within the limits, or have one first fault, and not both. Out of memory is
/// no fault of the text.
pub fn script_texts_have_one_answer()
    ensures { (bytes : List ℕ) → OneScriptAnswer bytes }
{}
