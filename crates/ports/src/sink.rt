// A sink of bytes.
ghost use Rattle.std.specs.Prelude.{◌≡◌, ◌<◌, ◌≤◌, ℕ, List, length, IfOk};
ghost use Rattle.std.specs.declared.option.Option.{Option};
ghost use Rattle.std.specs.Io.KnownBytes.{WriteAppends};
ghost use Rattle.base_types.specs.Counts.{HasCause};

use crate::PortFault;

/// Where bytes go out, in pieces.
pub trait Sink {
    /// The bytes that went out, where the sink tells them.
    ghost sent: { Self → Option (List ℕ) };

    /// How often a write failed. It stays at the last value of `u64` once that is reached.
    ghost fault_count: { Self → ℕ };

    /// Sends bytes from the front of the piece, which is not empty, and answers how many: at least one. `PortFault`
    /// comes only where the count of faults rose, and then no byte went out.
    fn write(&mut self, piece: &[u8]) -> Result<usize, PortFault>
        requires { 0 < length piece.now }
        ensures bound { IfOk result (λ n. n ≤ length piece.now) }
        ensures some { IfOk result (λ n. 0 < n) }
        ensures bytes { WriteAppends (sent self.old) (sent self.new) result piece.now }
        ensures cause { HasCause (fault_count self.old) (fault_count self.new) result };

    /// How often a write failed.
    fn faults(&self) -> u64
        ensures { result ≡ fault_count self.now };
}
