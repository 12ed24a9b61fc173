ghost use Rattle.std.specs.Prelude.{◌≡◌};
ghost use Rattle.file_passes.specs.Halting.{ComesThrough};
ghost use Rattle.file_passes.specs.Outside.{outside};
ghost use Rattle.file_passes.specs.Pass.{file, files as files_named};
ghost use Rattle.cube_words.specs.Words.{texts_of};

use crate::halt::Halt;
use crate::readings::Readings;
use cube_outside::{Extent, Files};
use std::alloc::Global;

/// Reads the file of this name, as much of it as is asked for, unless it was read before.
pub fn obtain<F: Files>(
    alloc: Global,
    files: &mut F,
    readings: &mut Readings,
    extent: Extent,
    name: &str,
) -> Result<(), Halt>
    ensures known { (F.seen files.new).known ≡ (F.seen files.old).known }
    ensures through { ComesThrough (file extent name.now) (outside F.seen files.old files.new)
        readings.old readings.new result }
{
    match readings.read(alloc, files, extent, name) {
        Ok(()) => Ok(()),
        Err(fault) => Err(Halt::from(fault)),
    }
}

/// Reads the files of these names, in order, as much of each as is asked for.
pub fn obtain_all<F: Files>(
    alloc: Global,
    files: &mut F,
    readings: &mut Readings,
    extent: Extent,
    names: &[String],
) -> Result<(), Halt>
    ensures known { (F.seen files.new).known ≡ (F.seen files.old).known }
    ensures through { ComesThrough (files_named extent (texts_of names.now))
        (outside F.seen files.old files.new) readings.old readings.new result }
{
    for name in names {
        if let Err(halt) = obtain(alloc, files, readings, extent, name.as_str()) {
            return Err(halt);
        }
    }
    Ok(())
}
