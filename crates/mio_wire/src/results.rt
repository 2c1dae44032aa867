// What the results of the system's calls on sockets mean.
ghost use Rattle.std.specs.Prelude.{◌≡◌, length};
ghost use Rattle.mio_wire.specs.Results.{is_later, is_harmless, taken_of, given_of};

use std::io;
use std::io::ErrorKind;
use wire_port::{Given, Taken};

/// Whether a read or a write that failed so may go well later.
pub fn is_later(kind: ErrorKind) -> bool
    ensures { result ≡ is_later kind }
{
    matches!(kind, ErrorKind::WouldBlock | ErrorKind::Interrupted)
}

/// Whether an `accept` that failed so is no fault.
pub fn is_harmless(kind: ErrorKind) -> bool
    ensures { result ≡ is_harmless kind }
{
    matches!(kind, ErrorKind::WouldBlock | ErrorKind::ConnectionAborted)
}

/// The answer to a `take` whose read ended so.
pub fn taken_of(read: io::Result<usize>) -> Taken
    ensures { result ≡ taken_of read }
{
    match read {
        Ok(0) => Taken::Gone,
        Ok(count) => Taken::Bytes(count),
        Err(error) if is_later(error.kind()) => Taken::NotNow,
        Err(_) => Taken::Gone,
    }
}

/// The answer to a `give` whose write ended so.
pub fn given_of(written: io::Result<usize>) -> Given
    ensures { result ≡ given_of written }
{
    match written {
        Ok(0) => Given::Gone,
        Ok(count) => Given::Bytes(count),
        Err(error) if is_later(error.kind()) => Given::NotNow,
        Err(_) => Given::Gone,
    }
}
