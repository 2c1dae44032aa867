// What is told of the sessions that ended.
ghost use Rattle.std.specs.Prelude.{◌≡◌, ◌<◌, map};
ghost use Rattle.session_table.specs.Shown.{EachFew, session_end};
ghost use Rattle.text_lines.specs.Printed.{Prints};
ghost use Rattle.hub_server.specs.Told.{ended_line, ended_lines};

use ports::{PortFault, Sink};
use report_lines::push_end;
use session_table::Ended;
use text_lines::{Line, push_number, push_text, put};

// The line of a session that ended. Grants count from 1.
fn ended_line(ended: &Ended) -> Line
    requires { ended.now.grant < 16 }
    ensures { result.items ≡ ended_line (session_end ended.now) }
{
    let mut line = Line::new();
    push_number(&mut line, b"grant ", ended.grant as u64 + 1);
    push_text(&mut line, b" ");
    push_end(&mut line, ended.end);
    push_text(&mut line, b"\n");
    line
}

/// Writes the lines of the sessions that ended, in order.
pub fn tell_ended<O: Sink>(out: &mut O, ended: &[Ended]) -> Result<(), PortFault>
    requires { EachFew ended.now }
    ensures { Prints result (O.sent out.old) (O.sent out.new) (ended_lines (map session_end ended.now)) (O.fault_count out.old) (O.fault_count out.new) }
{
    for each in ended {
        put(out, &ended_line(each))?;
    }
    Ok(())
}
