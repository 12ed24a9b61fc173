ghost use Rattle.std.specs.Prelude.{◌≡◌, None, IfOk};
ghost use Rattle.std.specs.Option.{option_map};
ghost use Rattle.cube_server.specs.Answer.{IsExplained, IsRefusalText};
ghost use Rattle.cube_server.specs.Inside.Explaining.{explained, IsTextFor};
ghost use Rattle.cube_words.specs.Words.{asked, texts_of};

use crate::print::print_refusal;
use cube_words::{Plan, WordsFault, words as plan_of};
use explained_model::{late_lines, unfed_lines};
use explanation::explanation;
use file_passes::{Readings, Refusal};
use std::alloc::{AllocError, Global};

// The name of the model file that a plan asks to explain.
fn explained<'a>(plan: &Plan<'a>) -> Option<&'a str>
    ensures { option_map (λ name. name.now) result ≡ explained (asked plan.now) }
{
    match plan {
        Plan::Explain { model, .. } => Some(*model),
        Plan::Run { .. } | Plan::Check { .. } | Plan::Feeders { .. } | Plan::Sample { .. } => None,
    }
}

// The lines that explain a refusal of the model of this file.
fn explained_text(
    alloc: Global,
    readings: &Readings,
    model: &str,
    refusal: &Refusal,
) -> Result<Vec<u8>, AllocError>
    ensures { IfOk result (λ text. IsExplained readings.now model.now refusal.now text.items) }
{
    let mut text = explanation(alloc, readings, refusal)?;
    let late = late_lines(alloc, readings, model, &refusal.cause)?;
    text.extend_from_slice(&late)?;
    let unfed = unfed_lines(alloc, readings, model, &refusal.cause)?;
    text.extend_from_slice(&unfed)?;
    Ok(text)
}

// The text of a refusal, with the lines that explain it where a model is to be explained.
fn text_for(
    alloc: Global,
    readings: &Readings,
    model: Option<&str>,
    refusal: &Refusal,
) -> Result<Vec<u8>, AllocError>
    ensures { IfOk result (λ text.
        IsTextFor readings.now refusal.now (option_map (λ name. name.now) model.entry) text.items) }
{
    let mut text = print_refusal(alloc, refusal)?;
    let Some(name) = model else {
        return Ok(text);
    };
    let lines = explained_text(alloc, readings, name, refusal)?;
    text.extend_from_slice(&lines)?;
    Ok(text)
}

/// The text of a refusal, with the lines that explain it where the words ask for them.
pub(crate) fn refusal_text(
    alloc: Global,
    words: &[String],
    readings: &Readings,
    refusal: &Refusal,
) -> Result<Vec<u8>, AllocError>
    ensures { IfOk result (λ text. IsRefusalText (texts_of words.now) readings.now refusal.now text.items) }
{
    match plan_of(alloc, words) {
        Ok(plan) => text_for(alloc, readings, explained(&plan), refusal),
        // words without a plan ask for no explanation
        Err(WordsFault::Usage) => print_refusal(alloc, refusal),
        Err(WordsFault::OutOfMemory) => Err(AllocError),
    }
}
