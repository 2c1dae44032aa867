// What `pipe` comes to.
ghost use Rattle.std.specs.Prelude.{◌≡◌};
ghost use Rattle.share_top.specs.Pipes as pipes;

use crate::setup::NoSetup;
use crate::tell::WRITE_FAULT;
use client_session::End;
use lone_session::Served;
use text_lines::{Line, number_line, push_number, push_text, text_line};

/// The cause where the input ends within a message.
const CUT: u8 = 4;

/// What `pipe` comes to, before its last line is written.
#[derive(Clone, Copy, Debug, PartialEq, Eq)]
pub enum Outcome {
    /// There is no setup.
    NoSetup(NoSetup),
    /// The setup has version 2, and the cable has no TRST.
    NoTrst,
    /// The setup has no grant of this number.
    NoGrant(u8),
    /// Memory was wanting, before the first byte of the input.
    Memory,
    /// The cable failed.
    CableFault,
    /// A session of the grant was served to its end.
    Served(Served),
}

impl Outcome {
    /// The status: that of how the session ended, or of why there was none.
    pub fn status(self) -> u8
        ensures { result ≡ pipes.status_of self }
    {
        match self {
            Outcome::NoSetup(none) => none.status(),
            Outcome::NoTrst | Outcome::NoGrant(_) => 3,
            Outcome::Memory => 9,
            Outcome::CableFault => 7,
            Outcome::Served(served) => served_status(served),
        }
    }

    /// The last line, which stands behind the replies; no bytes where the session ended well, or the sink failed.
    pub fn line(self) -> Line
        ensures { result.items ≡ pipes.line_of self }
    {
        match self {
            Outcome::NoSetup(none) => none.line(),
            Outcome::NoTrst => text_line(b"trst\n"),
            Outcome::NoGrant(number) => number_line(b"grant ", u64::from(number)),
            Outcome::Memory => text_line(b"memory\n"),
            Outcome::CableFault => text_line(b"cable fault\n"),
            Outcome::Served(served) => served_line(served),
        }
    }
}

fn served_status(served: Served) -> u8
    ensures { result ≡ pipes.served_status served }
{
    match served {
        Served::Ended(end) => end_status(end),
        Served::ReadFault => 4,
        Served::WriteFault => WRITE_FAULT,
    }
}

fn served_line(served: Served) -> Line
    ensures { result.items ≡ pipes.served_line served }
{
    match served {
        Served::Ended(end) => end_line(end),
        Served::ReadFault => text_line(b"read fault\n"),
        Served::WriteFault => Line::new(),
    }
}

fn end_status(end: End) -> u8
    ensures { result ≡ pipes.end_status end }
{
    match end {
        End::Quit(_) | End::Gone(_) => 0,
        End::Refused(..) | End::Cut(_) => 1,
        End::Long(_) => 8,
    }
}

fn end_line(end: End) -> Line
    ensures { result.items ≡ pipes.end_line end }
{
    match end {
        End::Quit(_) | End::Gone(_) => Line::new(),
        End::Refused(at, cause) => refused_line(at, cause),
        End::Cut(at) => refused_line(at, CUT),
        End::Long(_) => text_line(b"too long\n"),
    }
}

// The line of bytes that are refused: their place and the cause.
fn refused_line(at: u64, cause: u8) -> Line
    ensures { result.items ≡ pipes.refused_line at cause }
{
    let mut line = Line::new();
    push_number(&mut line, b"refused ", at);
    push_number(&mut line, b" ", u64::from(cause));
    push_text(&mut line, b"\n");
    line
}
