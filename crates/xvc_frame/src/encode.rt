//! The bytes of a message.

ghost use Rattle.std.specs.Prelude.{◌≡◌, ◌≤◌, ◌<◌, ◌+◌, ◌*◌, ◌++◌, false, length, vec_len, vec_capacity, OnOk, OnErr};
ghost use Rattle.scan_bits.specs.Words.{byte_count};
ghost use Rattle.xvc_frame.specs.Messages.{encoded, encoded_shift};
ghost use Rattle.xvc_frame.specs.Frames.{said_message, is_said_shift};

use crate::Msg;
use crate::words::{GETINFO, SETTCK, SHIFT};
use std::alloc::AllocError;

/// Appends a `shift:` of so many cycles with its TMS and TDI vectors, spare bits as they are handed in (XVC 1.0).
/// An error comes where there is no memory, and appends nothing. None comes where `out` has room for the message.
pub fn encode_shift(count: u32, tms: &[u8], tdi: &[u8], out: &mut Vec<u8>) -> Result<(), AllocError>
    requires tms { length tms.now ≡ byte_count count }
    requires tdi { length tdi.now ≡ byte_count count }
    ensures ok { OnOk result (out.new.items ≡ out.old.items ++ encoded_shift count tms.now tdi.now) }
    ensures err { OnErr result (out.new.items ≡ out.old.items) }
    ensures full { OnErr result (vec_capacity out.old < vec_len out.old + (10 + 2 * length tms.now)) }
{
    out.reserve(10 + 2 * tms.len())?;
    append(out, SHIFT);
    append(out, &count.to_le_bytes());
    append(out, tms);
    append(out, tdi);
    Ok(())
}

/// Appends a message that has no vectors (XVC 1.0). An error comes where there is no memory, and appends nothing. None comes where `out`
/// has room for eleven bytes, the most that such a message has.
pub fn encode_word(said: Msg, out: &mut Vec<u8>) -> Result<(), AllocError>
    requires { is_said_shift said ≡ false }
    ensures ok { OnOk result (out.new.items ≡ out.old.items ++ encoded (said_message said)) }
    ensures err { OnErr result (out.new.items ≡ out.old.items) }
    ensures full { OnErr result (vec_capacity out.old < vec_len out.old + 11) }
{
    out.reserve(11)?;
    match said {
        Msg::GetInfo => append(out, GETINFO),
        Msg::SetTck(period) => {
            append(out, SETTCK);
            append(out, &period.to_le_bytes());
        }
        Msg::Shift(_) => unreachable!(),
    }
    Ok(())
}

/// Appends bytes that there is room for.
fn append(out: &mut Vec<u8>, bytes: &[u8])
    requires { vec_len out.old + length bytes.now ≤ vec_capacity out.old }
    ensures items { out.new.items ≡ out.old.items ++ bytes.now }
    ensures len { vec_len out.new ≡ vec_len out.old + length bytes.now }
    ensures capacity { vec_capacity out.old ≤ vec_capacity out.new }
{
    match out.extend_from_slice(bytes) {
        Ok(()) => {}
        Err(_) => unreachable!(),
    }
}
