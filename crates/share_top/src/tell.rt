// The last line of a command, and its status.
ghost use Rattle.share_top.specs.Outcomes.{Tells};

use ports::{Sink, write_all};

/// The status where a write failed.
pub const WRITE_FAULT: u8 = 5;

/// Writes the last line, and answers its status; or 5, where the sink failed.
pub fn tell<O: Sink>(out: &mut O, line: &[u8], status: u8) -> u8
    ensures { Tells status line.now result (O.sent out.old) (O.sent out.new) (O.fault_count out.old) (O.fault_count out.new) }
{
    match write_all(out, line) {
        Ok(()) => status,
        Err(_) => WRITE_FAULT,
    }
}
