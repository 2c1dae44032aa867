// A wire, which carries the connections of all clients, and a wire that also finds out what there is to do.
ghost use Rattle.std.specs.Prelude.{◌≡◌, ◌≤◌, ◌<◌, ℕ, Bool, List, [], length, true, false};
ghost use Rattle.std.specs.declared.option.Option.{Option};
ghost use Rattle.std.specs.Result.{is_ok};
ghost use Rattle.base_types.specs.Counts.{HasCause};
ghost use Rattle.base_types.specs.Tellings.{Told, Both};
ghost use Rattle.wire_port.specs.Steps.{taken_from};
ghost use Rattle.wire_port.specs.Offers.{Peer, peer_of, take_answer, limited_answer};
ghost use Rattle.wire_port.specs.Wires.{WireView, DoorView};
ghost use Rattle.wire_port.specs.Calls as c;

/// The name of a connection, which one wire never gives twice.
pub type Conn = u64;

/// The answer to a `take`.
#[derive(Clone, Copy, Debug, PartialEq, Eq)]
pub enum Taken {
    /// So many bytes, at least one, are in the front of the buffer.
    Bytes(usize),
    /// There is nothing to take now.
    NotNow,
    /// The peer is gone.
    Gone,
}

/// The answer to a `give`.
#[derive(Clone, Copy, Debug, PartialEq, Eq)]
pub enum Given {
    /// So many bytes from the front of the piece went, at least one.
    Bytes(usize),
    /// The peer takes nothing now.
    NotNow,
    /// The peer is gone.
    Gone,
}

/// What a `poll` found.
#[derive(Clone, Copy, Debug, PartialEq, Eq)]
pub enum Found {
    /// A connection opened at a port.
    Opened(Conn, u16),
    /// There may be something to take from a connection.
    Ready(Conn),
    /// The peer of a connection may take something.
    Room(Conn),
    /// There is nothing to do.
    Nothing,
    /// Nothing will come any more.
    End,
}

/// Listening or polling failed.
#[derive(Clone, Copy, Debug, PartialEq, Eq)]
pub struct PollFault;

/// The connections of all clients. Its calls wait for nobody. A peer that is lost is told by `Gone` and is no fault.
pub trait Wire {
    /// The steps so far, what each peer was given, and how the last call on each connection was answered, where the wire tells them.
    ghost told: { Self → Option WireView };

    /// The peers in the order in which they opened, with what they offer and how much they take, where the wire tells them.
    ghost peers: { Self → Option (List Peer) };

    /// The ports that it was to listen at, whether it listens, whether it came to its end, and its mark.
    ghost door: { Self → DoorView };

    /// How often `listen` or `poll` failed.
    ghost fault_count: { Self → ℕ };

    /// Takes bytes that the peer sent into the front of the buffer, which is not empty.
    fn take(&mut self, conn: Conn, buf: &mut [u8]) -> Taken
        requires some { 0 < length buf.old }
        requires open { Told (told self.old) (c.IsOpen conn) }
        ensures bound { c.TakenWithin result (length buf.new) }
        ensures told { Both (told self.old) (told self.new) (λ old new. new ≡ c.after_take conn (c.take_answered result buf.new) old) }
        ensures answer { Told (peers self.old) (λ old. c.take_answered result buf.new ≡ take_answer (length buf.old) (peer_of old conn)) }
        ensures peers { Both (peers self.old) (peers self.new) (λ old new. new ≡ c.peers_after_take conn (c.take_answered result buf.new) old) }
        ensures door { door self.new ≡ door self.old }
        ensures faults { fault_count self.new ≡ fault_count self.old };

    /// Gives the peer bytes from the front of the piece, which is not empty.
    fn give(&mut self, conn: Conn, piece: &[u8]) -> Given
        requires some { 0 < length piece.now }
        requires open { Told (told self.old) (c.IsOpen conn) }
        ensures bound { c.GivenWithin result (length piece.now) }
        ensures told { Both (told self.old) (told self.new) (λ old new. new ≡ c.after_give conn (length piece.now) (c.give_answered result piece.now) old) }
        ensures answer { Told (told self.old) (λ wire. Told (peers self.old) (λ old. c.give_answered result piece.now ≡ limited_answer (taken_from conn wire.steps) piece.now (peer_of old conn))) }
        ensures peers { Both (peers self.old) (peers self.new) (λ old new. new ≡ c.peers_after_give conn piece.now (c.give_answered result piece.now) old) }
        ensures door { door self.new ≡ door self.old }
        ensures faults { fault_count self.new ≡ fault_count self.old };

    /// Shuts a connection from the server's side.
    fn shut(&mut self, conn: Conn)
        requires open { Told (told self.old) (c.CanBeShut conn) }
        ensures told { Both (told self.old) (told self.new) (λ old new. new ≡ c.after_shut conn old) }
        ensures peers { Both (peers self.old) (peers self.new) (λ old new. new ≡ c.peers_after_shut conn old) }
        ensures door { door self.new ≡ door self.old }
        ensures faults { fault_count self.new ≡ fault_count self.old };

    /// How often `listen` or `poll` failed; the count stays at the last value of `u64` once that is reached.
    fn faults(&self) -> u64
        ensures { result ≡ fault_count self.now };

    // No connection opens twice, and only a connection that opened is given something.
    ghost is_wire: { (wire : Self) → Told (told wire) c.IsWire };

    // A wire that was not to listen does not, and has not come to its end.
    ghost is_door: { (wire : Self) → c.IsDoor (door wire) };
}

/// A wire that listens at ports, and finds out what there is to do.
pub trait Poller: Wire {
    /// Begins to listen at these ports, 1 to 16 of them; it is called once. The fault comes only where the count of faults rose.
    fn listen(&mut self, ports: &[u16]) -> Result<(), PollFault>
        requires once { (Self.door self.old).ports ≡ [] }
        requires some { 1 ≤ length ports.now }
        requires few { length ports.now ≤ 16 }
        ensures door { Self.door self.new ≡ record (Self.door self.old) { ports = ports.now; up = is_ok result } }
        ensures told { Self.told self.new ≡ Self.told self.old }
        ensures peers { Self.peers self.new ≡ Self.peers self.old }
        ensures cause { HasCause (Self.fault_count self.old) (Self.fault_count self.new) result };

    /// Finds one thing to do. With `wait` it may wait for something; without, it answers `Nothing` where there is nothing yet. After `End`
    /// it may not be called again. The fault comes only where the count of faults rose, and then nothing else changed.
    fn poll(&mut self, wait: bool) -> Result<Found, PollFault>
        requires up { (Self.door self.old).up ≡ true }
        requires not_over { (Self.door self.old).over ≡ false }
        ensures told { Both (Self.told self.old) (Self.told self.new) (λ old new. new ≡ c.after_poll result old) }
        ensures fresh { Told (Self.told self.old) (c.OpensFresh result) }
        ensures peers { Both (Self.peers self.old) (Self.peers self.new) (λ old new. Unit {0}) }
        ensures door { Self.door self.new ≡ record (Self.door self.old) { over = c.is_end result } }
        ensures cause { HasCause (Self.fault_count self.old) (Self.fault_count self.new) result };
}
