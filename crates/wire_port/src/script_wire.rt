// A wire that a script plays.
ghost use Rattle.std.specs.Prelude.{◌≡◌, ◌≤◌, ◌<◌, ℕ, [], length, Some, Ok, IfOk, true, false, if◌then◌else◌};
ghost use Rattle.std.specs.List.{list_any};
ghost use Rattle.std.specs.Result.{is_ok, is_err};
ghost use Rattle.base_types.specs.Counts.{HasCause};
ghost use Rattle.base_types.specs.Calls.{after_call};
ghost use Rattle.base_types.specs.Tellings.{Told, Both};
ghost use Rattle.wire_port.specs.Steps.{opens, opens_once, taken_from};
ghost use Rattle.wire_port.specs.Offers.{peer_of, take_answer, limited_answer};
ghost use Rattle.wire_port.specs.Playing.{opened_in};
ghost use Rattle.wire_port.specs.Slots.{link_of};
ghost use Rattle.wire_port.specs.Calls as c;
ghost use Rattle.wire_port.specs.Played as p;

use crate::play::Play;
use crate::{Conn, Found, Given, PollFault, Poller, Script, Taken, Wire};
use std::alloc::{AllocError, Global};

/// A script that is played, a line for each `poll`. Its peers offer and take what the lines say. It tells everything, and all its memory is
/// made before the first line. Calls of `listen` and `poll` are counted together, from 1, and fail where they are to.
#[derive(Drop)]
pub struct ScriptWire {
    play: Play,
    ghost once: { opens_once play.log.steps ≡ true },
    ghost given: { (conn : ℕ) → list_any (opens conn) play.log.steps ≡ false → (link_of play.slots.links conn).peer.given ≡ [] },
    ghost called: { play.ports ≡ [] → play.up ≡ false },
    ghost listening: { play.up ≡ false → play.over ≡ false },
}

impl ScriptWire {
    /// The script before its first line. No call fails.
    pub fn new(alloc: Global, script: Script) -> Result<ScriptWire, AllocError>
        ensures { IfOk result (λ wire. p.IsNew script [] wire.play) }
    {
        ScriptWire::with_fails(alloc, script, Vec::new(alloc))
    }

    /// The script before its first line. Call number i of `listen` and `poll` together, counted from 1, fails exactly where its number is in
    /// `fails`, and then plays no line.
    pub fn with_fails(
        alloc: Global,
        script: Script,
        fails: Vec<u64>,
    ) -> Result<ScriptWire, AllocError>
        ensures { IfOk result (λ wire. p.IsNew script fails.items wire.play) }
    {
        let play = Play::new(alloc, script.into_lines(), fails)?;
        Ok(ScriptWire { play })
    }

    /// All bytes that the peer of a connection was given, in order.
    pub fn given(&self, conn: Conn) -> &[u8]
        ensures { result.now ≡ (p.wire_of self.now.play).given conn }
    {
        self.play.given(conn)
    }

    /// How many bytes were taken from a connection.
    pub fn took(&self, conn: Conn) -> u64
        ensures { result ≡ taken_from conn (p.wire_of self.now.play).steps }
    {
        self.play.took(conn)
    }

    /// The connections that opened, with their ports, in order.
    pub fn opened(&self) -> &[(Conn, u16)]
        ensures { result.now ≡ opened_in (p.wire_of self.now.play).steps }
    {
        self.play.opened()
    }
}

impl Wire for ScriptWire {
    ghost told = { λ wire. Some (p.wire_of wire.play) };

    ghost peers = { λ wire. Some (p.peers_in wire.play) };

    ghost door = { λ wire. p.door_of wire.play };

    ghost fault_count = { λ wire. wire.play.faults };

    fn take(&mut self, conn: Conn, buf: &mut [u8]) -> Taken
        requires some { 0 < length buf.old }
        requires open { c.IsOpen conn (p.wire_of self.old.play) }
        ensures bound { c.TakenWithin result (length buf.new) }
        ensures told { p.wire_of self.new.play ≡ c.after_take conn (c.take_answered result buf.new) (p.wire_of self.old.play) }
        ensures answer { c.take_answered result buf.new ≡ take_answer (length buf.old) (peer_of (p.peers_in self.old.play) conn) }
        ensures peers { p.peers_in self.new.play ≡ c.peers_after_take conn (c.take_answered result buf.new) (p.peers_in self.old.play) }
        ensures door { p.door_of self.new.play ≡ p.door_of self.old.play }
        ensures faults { self.new.play.faults ≡ self.old.play.faults }
        ensures lines { self.new.play.lines ≡ self.old.play.lines }
        ensures calls { self.new.play.calls ≡ self.old.play.calls }
    {
        self.play.take(conn, buf)
    }

    fn give(&mut self, conn: Conn, piece: &[u8]) -> Given
        requires some { 0 < length piece.now }
        requires open { c.IsOpen conn (p.wire_of self.old.play) }
        ensures bound { c.GivenWithin result (length piece.now) }
        ensures told { p.wire_of self.new.play ≡ c.after_give conn (length piece.now) (c.give_answered result piece.now) (p.wire_of self.old.play) }
        ensures answer { c.give_answered result piece.now ≡ limited_answer (taken_from conn (p.wire_of self.old.play).steps) piece.now (peer_of (p.peers_in self.old.play) conn) }
        ensures peers { p.peers_in self.new.play ≡ c.peers_after_give conn piece.now (c.give_answered result piece.now) (p.peers_in self.old.play) }
        ensures door { p.door_of self.new.play ≡ p.door_of self.old.play }
        ensures faults { self.new.play.faults ≡ self.old.play.faults }
        ensures lines { self.new.play.lines ≡ self.old.play.lines }
        ensures calls { self.new.play.calls ≡ self.old.play.calls }
    {
        self.play.give(conn, piece)
    }

    fn shut(&mut self, conn: Conn)
        requires open { c.CanBeShut conn (p.wire_of self.old.play) }
        ensures told { p.wire_of self.new.play ≡ c.after_shut conn (p.wire_of self.old.play) }
        ensures peers { p.peers_in self.new.play ≡ c.peers_after_shut conn (p.peers_in self.old.play) }
        ensures door { p.door_of self.new.play ≡ p.door_of self.old.play }
        ensures faults { self.new.play.faults ≡ self.old.play.faults }
        ensures lines { self.new.play.lines ≡ self.old.play.lines }
        ensures calls { self.new.play.calls ≡ self.old.play.calls }
    {
        self.play.shut(conn);
    }

    fn faults(&self) -> u64 {
        self.play.faults()
    }

    ghost is_wire = { λ wire. record { once = wire.once; opened = wire.given } };

    ghost is_door = { λ wire. record { called = wire.called; listening = wire.listening } };
}

impl Poller for ScriptWire {
    // It keeps the ports and does nothing else.
    fn listen(&mut self, ports: &[u16]) -> Result<(), PollFault>
        requires once { self.old.play.ports ≡ [] }
        requires some { 1 ≤ length ports.now }
        requires few { length ports.now ≤ 16 }
        ensures door { p.door_of self.new.play ≡ record (p.door_of self.old.play) { ports = ports.now; up = is_ok result } }
        ensures told { p.wire_of self.new.play ≡ p.wire_of self.old.play }
        ensures peers { p.peers_in self.new.play ≡ p.peers_in self.old.play }
        ensures cause { HasCause self.old.play.faults self.new.play.faults result }
        ensures fails { is_err result ≡ p.fails_next self.old.play }
        ensures faults { self.new.play.faults ≡ p.faults_after (is_err result) self.old.play.faults }
        ensures calls { self.new.play.calls ≡ after_call self.old.play.calls }
        ensures lines { self.new.play.lines ≡ self.old.play.lines }
    {
        self.play.listen(ports)
    }

    // Plays the next line, and never waits.
    fn poll(&mut self, _wait: bool) -> Result<Found, PollFault>
        requires up { self.old.play.up ≡ true }
        requires not_over { self.old.play.over ≡ false }
        ensures told { p.wire_of self.new.play ≡ c.after_poll result (p.wire_of self.old.play) }
        ensures fresh { c.OpensFresh result (p.wire_of self.old.play) }
        ensures found { IfOk result (λ found. found ≡ p.line_found (p.peers_in self.old.play) self.old.play.lines) }
        ensures peers { p.peers_in self.new.play ≡ (if is_err result then p.peers_in self.old.play else p.line_peers (p.peers_in self.old.play) self.old.play.lines) }
        ensures lines { self.new.play.lines ≡ (if is_err result then self.old.play.lines else p.lines_behind self.old.play.lines) }
        ensures door { p.door_of self.new.play ≡ record (p.door_of self.old.play) { over = c.is_end result } }
        ensures cause { HasCause self.old.play.faults self.new.play.faults result }
        ensures fails { is_err result ≡ p.fails_next self.old.play }
        ensures faults { self.new.play.faults ≡ p.faults_after (is_err result) self.old.play.faults }
        ensures calls { self.new.play.calls ≡ after_call self.old.play.calls }
    {
        self.play.poll()
    }
}
