ghost use Rattle.std.specs.Prelude.{◌≡◌, IfOk};
ghost use Rattle.cube_space.specs.Cells.{IsCell};
ghost use Rattle.cell_reader.specs.Snapshots.{version_of};
ghost use Rattle.trace_text.specs.TraceText.{reply_text};

use crate::text::trace_text;
use cell_reader::Snapshot;
use cell_trace::trace_of;
use lists::ListOf;
use std::alloc::{AllocError, Global};

/// The trace of a cell of this version, as a user reads it, without the end of its last line. `reader` reads the
/// values: a snapshot of the same version, which shares what it finds. `files` has the name of the rule file of each
/// cube.
pub fn trace(
    alloc: Global,
    version: &Snapshot,
    reader: &mut Snapshot,
    files: &[ListOf<u8>],
    cell: u64,
) -> Result<Vec<u8>, AllocError>
    requires cell { IsCell (version_of version.now).model.space cell }
    requires same { version_of reader.old ≡ version_of version.now }
    ensures text { IfOk result (λ text. let v = version_of version.now in
        text.items ≡ reply_text v.model v.stored files.now cell) }
    ensures version { version_of reader.new ≡ version_of reader.old }
{
    let traced = trace_of(alloc, version, reader, cell)?;
    trace_text(
        alloc,
        version.model(),
        files,
        cell,
        traced.value,
        &traced.lines,
    )
}
