ghost use Rattle.std.specs.Prelude.{◌≡◌, ◌≤◌, OnOk, OnErr};
ghost use Rattle.std.specs.Io.KnownBytes.{Appends};
ghost use Rattle.outer_world.specs.FaultCount.{CountRose};
ghost use Rattle.outer_world.specs.LastCall.{EndsInFault};
ghost use Rattle.outer_world.specs.PartOfBytes.{AppendsPart};

use crate::failed::Failed;
use crate::sink::Sink;

/// Writes all the bytes, in as many calls as the sink needs. After the first fault it makes no further call.
pub fn write_all<W: Sink>(sink: &mut W, bytes: &[u8]) -> Result<(), Failed>
    ensures written { OnOk result (Appends (W.written sink.old) (W.written sink.new) bytes.now) }

    ensures fault { OnErr result (CountRose (W.faults sink.old) (W.faults sink.new)) }
    ensures last { OnErr result (EndsInFault W.faults W.fails sink.old sink.new) }
    ensures steady { OnOk result (W.faults sink.new ≡ W.faults sink.old) }
    ensures part { OnErr result (AppendsPart (W.written sink.old) (W.written sink.new) bytes.now) }

    ensures counted { W.faults sink.old ≤ W.faults sink.new }
{
    let mut taken = 0;
    while taken < bytes.len() {
        taken += sink.write(&bytes[taken..])?;
    }
    Ok(())
}
