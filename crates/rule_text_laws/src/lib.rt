//! The bytes of a rule text have one answer: no text is both accepted and refused, and each has one tree or one first
//! fault.
//!
//! The contract of `rule_reader::parse` says what an answer means; the law says that there is only one such answer. It
//! does nothing when it runs.
#![tactic(auto)]

ghost use Rattle.grammar.specs.Whole.{HasOneAnswer};
ghost use Rattle.rule_tree.specs.Counting.{counting, start};
ghost use Rattle.rule_tree.specs.RuleText.{rules};

/// The bytes of a rule text are one tree of rules within the limits, or have one first fault, and not both.
pub fn rule_texts_have_one_answer()
    ensures { HasOneAnswer rules counting start }
{}
