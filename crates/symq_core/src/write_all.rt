//! Writes bytes to an output completely.

ghost use Rattle.std.specs.Prelude.{◌≡◌, ◌+◌, ◌<◌, OnOk, IfErr};
ghost use Rattle.std.specs.Io.KnownBytes.{Appends};
ghost use Rattle.symq_core.specs.Devices.{COUNT_LIMIT};
ghost use Rattle.symq_core.specs.Serving.{IsPrefixAppendedToOutput};

use crate::device::Output;
use crate::fault::EngineFault;

/// Writes all of the bytes, in as many writes as the output needs. It fails if a write fails or
/// accepts nothing.
pub(crate) fn write_all<W: Output>(writer: &mut W, bytes: &[u8]) -> Result<(), EngineFault>
    requires { W.failures writer.old < COUNT_LIMIT }
    ensures ok { OnOk result (Appends (W.written writer.old) (W.written writer.new) bytes.now
        × (W.failures writer.new ≡ W.failures writer.old)) }
    ensures err { IfErr result (λ fault. (fault ≡ EngineFault.OutputFailed)
        × IsPrefixAppendedToOutput (W.written writer.old) (W.written writer.new) bytes.now
        × (W.failures writer.new ≡ W.failures writer.old + 1)) }
{
    let mut rest = bytes;
    'writes: while !rest.is_empty() {
        match writer.write(rest) {
            Ok(count) if 0 < count => {
                let (_, more) = rest.split_at(count);
                rest = more;
            }
            _ => return Err(EngineFault::OutputFailed),
        }
    }
    Ok(())
}
