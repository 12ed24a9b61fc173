use crate::answers::{Answer, Lines, refused};
use model_text::ModelText;
use rule_tree::RuleText;
use std::alloc::{AllocError, Global};

/// A model, printed.
pub fn model(alloc: Global, text: &[u8]) -> Result<Answer, AllocError> {
    match model_text::read(alloc, text) {
        Ok(model) => printed(alloc, &model),
        Err(fault) => refused(alloc, &fault),
    }
}

fn printed(alloc: Global, model: &ModelText) -> Result<Answer, AllocError> {
    let mut out = Vec::new(alloc);
    model_text::print(alloc, model, &mut out)?;
    Ok(Answer::Printed(out))
}

/// Rules, printed.
pub fn rules(alloc: Global, text: &[u8]) -> Result<Answer, AllocError> {
    match rule_reader::parse(alloc, text) {
        Ok(rules) => {
            let mut out = Vec::new(alloc);
            rule_printer::print(alloc, &rules, &mut out)?;
            Ok(Answer::Printed(out))
        }
        Err(fault) => refused(alloc, &fault),
    }
}

/// The formulas of rules as they are kept, a statement a line.
pub fn trees(alloc: Global, text: &[u8]) -> Result<Answer, AllocError> {
    match rule_reader::parse(alloc, text) {
        Ok(rules) => trees_of(alloc, &rules),
        Err(fault) => refused(alloc, &fault),
    }
}

fn trees_of(alloc: Global, rules: &RuleText) -> Result<Answer, AllocError> {
    let mut lines = Lines::new(alloc);
    for statement in rules.statements.as_slice() {
        lines.add(&statement.body);
    }
    lines.answer()
}
