// Whole reads and writes over a source and a sink.
ghost use Rattle.std.specs.Prelude.{◌≡◌, ◌≤◌, ◌<◌, length, take, IfOk, OnOk, OnErr};
ghost use Rattle.std.specs.Io.KnownBytes.{Consumes, Appends, IsAtEnd};
ghost use Rattle.base_types.specs.Counts.{HasCause};
ghost use Rattle.ports.specs.Streams.{AppendsFront, ConsumesFront};

use crate::{PortFault, Sink, Source};

/// Reads until the buffer is full or the source is at its end, and answers how many bytes it took, which stand in the
/// front of the buffer. A short read is no end: fewer bytes than the buffer holds come only where none is left. Where a
/// read fails, the bytes that the reads before it took stand in the front of the buffer, and no others were taken.
pub fn fill<I: Source>(input: &mut I, buf: &mut [u8]) -> Result<usize, PortFault>
    ensures bound { IfOk result (λ n. n ≤ length buf.new) }
    ensures taken { IfOk result (λ n. Consumes (I.left input.old) (I.left input.new) (take n buf.new)) }
    ensures end { IfOk result (λ n. n < length buf.new → IsAtEnd (I.left input.new)) }
    ensures front { OnErr result (ConsumesFront (I.left input.old) (I.left input.new) buf.new) }
    ensures cause { HasCause (I.fault_count input.old) (I.fault_count input.new) result }
{
    let mut count = 0;
    while count < buf.len() {
        let more = input.read(&mut buf[count..])?;
        if more == 0 {
            return Ok(count);
        }
        count += more;
    }
    Ok(count)
}

/// Writes the whole text, each byte once and in order, and goes on where a write took only a part. Where a write fails,
/// the bytes that the writes before it took are out, which are a front of the text.
pub fn write_all<O: Sink>(out: &mut O, text: &[u8]) -> Result<(), PortFault>
    ensures whole { OnOk result (Appends (O.sent out.old) (O.sent out.new) text.now) }
    ensures front { OnErr result (AppendsFront (O.sent out.old) (O.sent out.new) text.now) }
    ensures cause { HasCause (O.fault_count out.old) (O.fault_count out.new) result }
{
    let mut count = 0;
    while count < text.len() {
        count += out.write(&text[count..])?;
    }
    Ok(())
}
