ghost use Rattle.std.specs.Prelude.{◌≡◌, ◌≢◌, IfOk, None};
ghost use Rattle.explained_model.specs.Files.{binding_pass, Ends};
ghost use Rattle.file_passes.specs.declared.halt.Halt.TheVariants.{Memory};
ghost use Rattle.run_passes.specs.RefusalOrder.{bind_pass};

use crate::reads::{are_read, is_read};
use file_passes::{Halt, Readings};
use judged_files::{bound_of, rule_names, text_of};
use model_bind::Bound;
use model_text::ModelText;
use std::alloc::{AllocError, Global};

// No model, where a pass goes no further.
fn unfound(halt: &Halt) -> Result<Option<Bound>, AllocError>
    ensures { IfOk result (λ found. (found ≡ None) × (halt.now ≢ Memory)) }
{
    match halt {
        Halt::Memory => Err(AllocError),
        Halt::NotWords | Halt::Unread | Halt::Refused(_) => Ok(None),
    }
}

// The model text bound with the rule files of its cubes.
fn bound_behind(
    alloc: Global,
    readings: &Readings,
    name: &str,
    text: ModelText,
) -> Result<Option<Bound>, AllocError>
    ensures { IfOk result (Ends (bind_pass name.now text) readings.now) }
{
    let names = rule_names(alloc, text.cubes())?;
    if !are_read(readings, &names)? {
        return Ok(None);
    }
    let sources = readings.sources(alloc, &names)?;
    match bound_of(alloc, name, text, &sources) {
        Ok(bound) => Ok(Some(bound)),
        Err(halt) => unfound(&halt),
    }
}

/// The model of the model file of this name, bound from the files that were read.
pub(crate) fn bound_model(
    alloc: Global,
    readings: &Readings,
    name: &str,
) -> Result<Option<Bound>, AllocError>
    ensures { IfOk result (Ends (binding_pass name.now) readings.now) }
{
    if !is_read(readings, name)? {
        return Ok(None);
    }
    match text_of(alloc, &readings.source(name)) {
        Ok(text) => bound_behind(alloc, readings, name, text),
        Err(halt) => unfound(&halt),
    }
}
