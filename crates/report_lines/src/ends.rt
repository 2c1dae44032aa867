// How sessions ended.
ghost use Rattle.std.specs.Prelude.{◌≡◌, ◌≤◌, ◌+◌, ◌++◌, length};
ghost use Rattle.report_lines.specs.Ends.{end_text};

use client_session::End;
use text_lines::{Line, push_number};

/// Puts behind the line how a session ended, with its place in the bytes of the session, counted from 0.
pub fn push_end(line: &mut Line, end: End)
    requires { length line.old.items ≤ 900 }
    ensures is { line.new.items ≡ line.old.items ++ end_text end }
    ensures room { length line.new.items ≤ length line.old.items + 60 }
{
    match end {
        End::Quit(at) => push_number(line, b"quit ", at),
        End::Gone(at) => push_number(line, b"gone ", at),
        End::Cut(at) => push_number(line, b"cut ", at),
        End::Long(at) => push_number(line, b"long ", at),
        End::Refused(at, cause) => {
            push_number(line, b"refused ", at);
            push_number(line, b" ", u64::from(cause));
        }
    }
}
