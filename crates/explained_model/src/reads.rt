ghost use Rattle.std.specs.Prelude.{◌≡◌, IsTrue, IsSome, None, IfOk, false};
ghost use Rattle.cube_words.specs.Words.{texts_of};
ghost use Rattle.explained_model.specs.Inside.Reads.{AreRead};
ghost use Rattle.file_passes.specs.Pass.{bytes_of};

use file_passes::Readings;
use std::alloc::AllocError;

/// Whether a file of this name was read.
pub(crate) fn is_read(readings: &Readings, name: &str) -> Result<bool, AllocError>
    ensures { IfOk result (λ is. (IsTrue is → IsSome (bytes_of readings.now name.now))
        × (is ≡ false → bytes_of readings.now name.now ≡ None)) }
{
    Ok(readings.bytes_of(name.as_bytes())?.is_some())
}

/// Whether the files of all these names were read.
pub(crate) fn are_read(readings: &Readings, names: &[String]) -> Result<bool, AllocError>
    ensures { IfOk result (λ are. AreRead readings.now (texts_of names.now) are) }
{
    for name in names {
        if !is_read(readings, name)? {
            return Ok(false);
        }
    }
    Ok(true)
}
