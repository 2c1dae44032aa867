// What `serve` comes to.
ghost use Rattle.std.specs.Prelude.{◌≡◌};
ghost use Rattle.share_top.specs.Serves as serves;

use crate::setup::NoSetup;
use crate::tell::WRITE_FAULT;
use hub_server::ServeFault;
use text_lines::{Line, text_line};

/// What `serve` comes to, before its last line is written.
#[derive(Clone, Copy, Debug, PartialEq, Eq)]
pub enum ServeOutcome {
    /// There is no setup.
    NoSetup(NoSetup),
    /// The setup has version 2, and the cable has no TRST.
    NoTrst,
    /// Memory was wanting, before it listened.
    Memory,
    /// The cable failed, or the wire could not listen or find what there is to do, or a line could not be written.
    Faulted(ServeFault),
    /// Nothing will come any more, and all that was to be done is done.
    Ended,
}

fn fault_status(fault: ServeFault) -> u8
    ensures { result ≡ serves.fault_status fault }
{
    match fault {
        ServeFault::Poll => 6,
        ServeFault::Cable => 7,
        ServeFault::Write => WRITE_FAULT,
    }
}

fn fault_line(fault: ServeFault) -> Line
    ensures { result.items ≡ serves.fault_line fault }
{
    match fault {
        ServeFault::Poll => text_line(b"poll fault\n"),
        ServeFault::Cable => text_line(b"cable fault\n"),
        ServeFault::Write => Line::new(),
    }
}

impl ServeOutcome {
    /// The status.
    pub fn status(self) -> u8
        ensures { result ≡ serves.serve_status self }
    {
        match self {
            ServeOutcome::NoSetup(none) => none.status(),
            ServeOutcome::NoTrst => 3,
            ServeOutcome::Memory => 9,
            ServeOutcome::Faulted(fault) => fault_status(fault),
            ServeOutcome::Ended => 0,
        }
    }

    /// The last line; no bytes where all ended well, or the sink failed.
    pub fn line(self) -> Line
        ensures { result.items ≡ serves.serve_line self }
    {
        match self {
            ServeOutcome::NoSetup(none) => none.line(),
            ServeOutcome::NoTrst => text_line(b"trst\n"),
            ServeOutcome::Memory => text_line(b"memory\n"),
            ServeOutcome::Faulted(fault) => fault_line(fault),
            ServeOutcome::Ended => Line::new(),
        }
    }
}
