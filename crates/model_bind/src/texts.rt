ghost use Rattle.std.specs.Prelude.{◌≡◌, ◌⊎◌, All, IfOk, None, Some, slice_index_or};
ghost use Rattle.rule_tree.specs.Sizes.{IsWithinLimits};
ghost use Rattle.model_bind.specs.Foundation.{memory};
ghost use Rattle.model_bind.specs.Rules.{no_text, text_refusal, text_stage};
ghost use Rattle.model_bind.specs.Stages.{each, Comes};

use crate::fault::{At, DeployCause, DeployFault};
use crate::rule_files::RuleFiles;
use crate::rule_texts::RuleTexts;
use lists::ListOf;
use rule_reader::{RuleFault, parse};
use rule_tree::RuleText;
use std::alloc::Global;

/// The texts of the cubes' rules, or the first fault of the first file that has one. A file that cubes share is parsed
/// once, for the first of them.
pub(crate) fn texts_of(alloc: Global, files: &RuleFiles<'_>) -> Result<RuleTexts, DeployFault>
    ensures comes { Comes (each (λ _. text_stage) 0 files.now) result }
    ensures within { IfOk result (All IsWithinLimits) }
{
    let mut texts = RuleTexts::new(alloc);
    for cube in 0..files.len() {
        match files.same_as(cube) {
            Some(earlier) => texts.push_shared(earlier)?,
            None => texts.push(alloc, text_of(alloc, files, cube)?)?,
        }
    }
    Ok(texts)
}

#[tactic(auto, using(crate::proofs::NoTexts::no_text_within))]
fn text_of(alloc: Global, files: &RuleFiles<'_>, cube: usize) -> Result<RuleText, DeployFault>
    ensures comes { Comes (text_stage (slice_index_or files.now cube None)) result }
    ensures within { IfOk result IsWithinLimits }
{
    let Some(file) = files.file(cube) else {
        return Ok(no_text(alloc));
    };
    match parse(alloc, file.bytes()) {
        Ok(text) => Ok(text),
        Err(fault) => Err(text_fault(alloc, file.name(), &fault)),
    }
}

fn text_fault(alloc: Global, name: &[u8], fault: &RuleFault) -> DeployFault
    ensures { (result ≡ memory) ⊎ (text_refusal name.now fault.now ≡ Some result) }
{
    let (position, cause) = match fault {
        RuleFault::Syntax(position) => (*position, DeployCause::Syntax),
        RuleFault::TooDeep(position) => (*position, DeployCause::TooDeep),
        RuleFault::TooMany(position) => (*position, DeployCause::TooMany),
        RuleFault::Memory => return DeployFault::memory(),
    };
    DeployFault::within(alloc, name, At::Text(position), cause)
}

fn no_text(alloc: Global) -> RuleText
    ensures { result ≡ no_text }
{
    RuleText {
        skipcheck: false,
        statements: ListOf::new(Vec::new(alloc)),
        finds_feeders: false,
        feeders: ListOf::new(Vec::new(alloc)),
    }
}
