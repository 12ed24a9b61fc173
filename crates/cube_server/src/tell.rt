ghost use Rattle.std.specs.Prelude.{◌≡◌, ◌⊎◌, OnOk, OnErr, IsErrOf};
ghost use Rattle.std.specs.Io.KnownBytes.{Appends};
ghost use Rattle.cube_outside.specs.Bytes.{AppendsPart};
ghost use Rattle.cube_outside.specs.Counts.{Rose};
ghost use Rattle.cube_server.specs.Inside.Ending.{joined};

use cube_outside::{Sink, SinkFault};

/// Writes the pieces, one after another, until one isn't taken.
pub(crate) fn tell<S: Sink>(out: &mut S, pieces: &[Vec<u8>]) -> Result<(), SinkFault>
    ensures all { OnOk result (Appends (S.written out.old) (S.written out.new) (joined pieces.now)) }
    ensures part { OnErr result (AppendsPart (S.written out.old) (S.written out.new) (joined pieces.now)) }
    ensures failed { IsErrOf result SinkFault.Failed → Rose (S.faults out.old) (S.faults out.new) }
    ensures no_write_failed { IsErrOf result SinkFault.Failed ⊎ (S.faults out.new ≡ S.faults out.old) }
{
    for piece in pieces {
        if let Err(fault) = out.write(piece) {
            return Err(fault);
        }
    }
    Ok(())
}
