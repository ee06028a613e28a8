// Writing all of a text.
ghost use Rattle.std.specs.Prelude.{OnOk, OnErr};
ghost use Rattle.ox_outside.specs.Stream.{Appends};
ghost use Rattle.ox_outside.specs.Causes.{HasCause};
ghost use Rattle.oxia_top.specs.Top.{WritesFront};

use ox_outside::{Failed, Sink};

/// Writes all of the bytes, or a front of them until the sink fails.
pub fn write_all<W: Sink>(sink: &mut W, bytes: &[u8]) -> Result<(), Failed>
    ensures ok { OnOk result (Appends (W.stream sink.old).told (W.stream sink.new).told bytes.now) }
    ensures front { OnErr result (WritesFront (W.stream sink.old) (W.stream sink.new) bytes.now) }
    ensures cause { HasCause (W.stream sink.old).faults (W.stream sink.new).faults result }
{
    let mut at = 0;
    'pieces: while at < bytes.len() {
        at += sink.write(&bytes[at..])?;
    }
    Ok(())
}
