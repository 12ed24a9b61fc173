ghost use Rattle.file_passes.specs.Halting.{Judges};
ghost use Rattle.judged_files.specs.Models.{text_judgement};

use crate::refusing::{halt_at, model_cause};
use file_passes::{Halt, Source};
use model_text::{ModelText, read};
use std::alloc::Global;

/// The model text that the bytes of a model file are.
pub fn text_of(alloc: Global, source: &Source<'_>) -> Result<ModelText, Halt>
    ensures { Judges (text_judgement source.now) result }
{
    match read(alloc, source.bytes()) {
        Ok(text) => Ok(text),
        Err(fault) => Err(halt_at(alloc, source.name(), fault.at, model_cause(&fault.cause))),
    }
}
