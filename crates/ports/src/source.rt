// A source of bytes.
ghost use Rattle.std.specs.Prelude.{◌≡◌, ◌<◌, ℕ, List, length};
ghost use Rattle.std.specs.declared.option.Option.{Option};
ghost use Rattle.std.specs.Io.{ReadsAtMost};
ghost use Rattle.std.specs.Io.KnownBytes.{ReadConsumes};
ghost use Rattle.base_types.specs.Counts.{HasCause};

/// A read or a write failed, and nothing was taken or sent by it.
#[derive(Clone, Copy, Debug, PartialEq, Eq)]
pub struct PortFault;

/// Bytes that are taken from the front, in pieces.
pub trait Source {
    /// The bytes that are left, where the source tells them.
    ghost left: { Self → Option (List ℕ) };

    /// How often a read failed. It stays at the last value of `u64` once that is reached.
    ghost fault_count: { Self → ℕ };

    /// Takes bytes from the front into the front of the buffer, which is not empty, and answers how many. None are
    /// taken only where none is left. `PortFault` comes only where the count of faults rose, and then no byte was
    /// taken.
    fn read(&mut self, buf: &mut [u8]) -> Result<usize, PortFault>
        requires { 0 < length buf.old }
        ensures bound { ReadsAtMost result buf.new }
        ensures bytes { ReadConsumes (left self.old) (left self.new) result buf.new }
        ensures cause { HasCause (fault_count self.old) (fault_count self.new) result };

    /// How often a read failed.
    fn faults(&self) -> u64
        ensures { result ≡ fault_count self.now };
}
