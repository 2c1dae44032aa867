// A wire over TCP sockets.
ghost use Rattle.std.specs.Prelude.{◌≡◌, ◌≢◌, ◌≤◌, ◌<◌, [], length, None, Ok, IfOk, true, false};
ghost use Rattle.std.specs.Result.{is_ok};
ghost use Rattle.base_types.specs.Counts.{raised, HasCause};
ghost use Rattle.wire_port.specs.Calls as c;
ghost use Rattle.wire_port.specs.declared.wire.Found.TheVariants.{Nothing};
ghost use Rattle.mio_wire.specs.Doors.{door_of, new_door};
ghost use Rattle.wire_port.specs.declared.wire.Taken.TheVariants as Taken;
ghost use Rattle.wire_port.specs.declared.wire.Given.TheVariants as Given;
ghost use Rattle.mio_wire.specs.Tables.{FindsHeld, IsEmpty, IsForgotten, IsHeld, KeepsOthers};
ghost use Rattle.mio_wire.specs.Polls.{is_spent, one_fewer, Numbers, found_of};

use crate::door::Door;
use crate::sockets::{Seen, Sockets};
use std::alloc::{AllocError, Global};
use std::net::Net;
use wire_port::{Conn, Found, Given, PollFault, Poller, Taken, Wire};

/// The wire over TCP sockets, over the runtime that it was made with. It tells its door and its faults. Connections are numbered 1, 2, 3 and
/// so on in the order in which they are accepted; at most 64 are open together, and one more is closed at once and not told.
#[derive(Drop)]
pub struct MioWire<R: Net> {
    rt: R,
    sockets: Sockets,
    door: Door,
    polls_left: Option<u64>,
    next: Conn,
    faults: u64,
}

// What was seen at the sockets is what the poll found, where the next connection has this number.
fn found_of(next: Conn, seen: Option<Seen>) -> Found
    ensures { result ≡ found_of next seen }
{
    match seen {
        Some(Seen::Accepted(port)) => Found::Opened(next, port),
        Some(Seen::Readable(conn)) => Found::Ready(conn),
        Some(Seen::Writable(conn)) => Found::Room(conn),
        None => Found::Nothing,
    }
}

impl<R: Net> MioWire<R> {
    // Something found at the sockets. There is no connection behind the last number.
    fn find(&mut self, wait: bool) -> Result<Found, PollFault>
        ensures no_end { c.is_end result ≡ false }
        ensures numbers { Numbers self.old.next self.new.next result }
        ensures waits { wait ≡ true → result ≢ Ok Nothing }
        ensures held { FindsHeld self.new.sockets.links.table result }
        ensures others { KeepsOthers self.old.next self.old.sockets.links.table self.new.sockets.links.table }
        ensures kept { self.new ≡ record self.old { sockets = self.new.sockets; next = self.new.next } }
    {
        let Some(later) = self.next.checked_add(1) else {
            return Err(PollFault);
        };
        let seen = if wait {
            Some(self.sockets.wait(self.next)?)
        } else {
            self.sockets.look(self.next, false)?
        };
        let found = found_of(self.next, seen);
        if let Some(Seen::Accepted(_)) = seen {
            self.next = later;
        }
        Ok(found)
    }

    // Counts a fault, which stays at the last value.
    fn fault(&mut self) -> PollFault
        ensures counted { self.new ≡ record self.old { faults = raised self.old.faults 1 } }
        ensures later { self.old.faults ≤ self.new.faults }
    {
        self.faults = self.faults.saturating_add(1);
        PollFault
    }

    /// A wire that is not to listen yet, with the table of its connections and the buffer of events. With `Some(turns)` it comes to its end
    /// after so many polls, with `None` never.
    pub fn new(rt: R, alloc: Global, turns: Option<u64>) -> Result<MioWire<R>, AllocError>
    where
        R: Drop,
        ensures door { IfOk result (λ wire. ⟦<MioWire<R> as Wire>⟧.door wire ≡ new_door) }
        ensures faults { IfOk result (λ wire. ⟦<MioWire<R> as Wire>⟧.fault_count wire ≡ 0) }
        ensures polls { IfOk result (λ wire. wire.polls_left ≡ turns) }
        ensures numbers { IfOk result (λ wire. wire.next ≡ 1) }
        ensures empty { IfOk result (λ wire. IsEmpty wire.sockets.links.table) }
    {
        Ok(MioWire {
            rt,
            sockets: Sockets::new(alloc)?,
            door: Door::new(),
            polls_left: turns,
            next: 1,
            faults: 0,
        })
    }
}

impl<R: Net> Wire for MioWire<R> {
    ghost told = { λ _. None };

    ghost peers = { λ _. None };

    ghost door = { λ wire. door_of wire.door };

    ghost fault_count = { λ wire. wire.faults };

    fn take(&mut self, conn: Conn, buf: &mut [u8]) -> Taken
        requires some { 0 < length buf.old }
        ensures bound { c.TakenWithin result (length buf.new) }
        ensures forgotten { result ≡ Taken.Gone → IsForgotten conn self.new.sockets.links.table }
        ensures held { result ≢ Taken.Gone → IsHeld conn self.new.sockets.links.table }
        ensures others { KeepsOthers conn self.old.sockets.links.table self.new.sockets.links.table }
        ensures kept { self.new ≡ record self.old { sockets = self.new.sockets } }
    {
        self.sockets.links.take(conn, buf)
    }

    fn give(&mut self, conn: Conn, piece: &[u8]) -> Given
        requires some { 0 < length piece.now }
        ensures bound { c.GivenWithin result (length piece.now) }
        ensures forgotten { result ≡ Given.Gone → IsForgotten conn self.new.sockets.links.table }
        ensures held { result ≢ Given.Gone → IsHeld conn self.new.sockets.links.table }
        ensures others { KeepsOthers conn self.old.sockets.links.table self.new.sockets.links.table }
        ensures kept { self.new ≡ record self.old { sockets = self.new.sockets } }
    {
        self.sockets.links.give(conn, piece)
    }

    fn shut(&mut self, conn: Conn)
        ensures forgotten { IsForgotten conn self.new.sockets.links.table }
        ensures others { KeepsOthers conn self.old.sockets.links.table self.new.sockets.links.table }
        ensures kept { self.new ≡ record self.old { sockets = self.new.sockets } }
    {
        self.sockets.links.shut(conn);
    }

    fn faults(&self) -> u64 {
        self.faults
    }

    ghost is_wire = { λ _. tt };

    ghost is_door = { λ wire. record { called = wire.door.called; listening = wire.door.listening } };
}

impl<R: Net> Poller for MioWire<R> {
    fn listen(&mut self, ports: &[u16]) -> Result<(), PollFault>
        requires once { (door_of self.old.door).ports ≡ [] }
        requires some { 1 ≤ length ports.now }
        requires few { length ports.now ≤ 16 }
        ensures door { door_of self.new.door ≡ record (door_of self.old.door) { ports = ports.now; up = is_ok result } }
        ensures cause { HasCause self.old.faults self.new.faults result }
        ensures polls { self.new.polls_left ≡ self.old.polls_left }
        ensures numbers { self.new.next ≡ self.old.next }
        ensures links { self.new.sockets.links ≡ self.old.sockets.links }
    {
        self.door.call(ports);
        match self.sockets.listen(&self.rt, ports) {
            Ok(()) => {
                self.door.open();
                Ok(())
            }
            Err(PollFault) => Err(self.fault()),
        }
    }

    fn poll(&mut self, wait: bool) -> Result<Found, PollFault>
        requires up { (door_of self.old.door).up ≡ true }
        requires not_over { (door_of self.old.door).over ≡ false }
        ensures door { door_of self.new.door ≡ record (door_of self.old.door) { over = c.is_end result } }
        ensures cause { HasCause self.old.faults self.new.faults result }
        ensures end { c.is_end result ≡ is_spent self.old.polls_left }
        ensures polls { self.new.polls_left ≡ one_fewer self.old.polls_left }
        ensures numbers { Numbers self.old.next self.new.next result }
        ensures waits { wait ≡ true → result ≢ Ok Nothing }
        ensures held { FindsHeld self.new.sockets.links.table result }
        ensures others { KeepsOthers self.old.next self.old.sockets.links.table self.new.sockets.links.table }
    {
        match self.polls_left {
            Some(0) => {
                self.door.end();
                return Ok(Found::End);
            }
            Some(left) => self.polls_left = Some(left - 1),
            None => {}
        }
        match self.find(wait) {
            Ok(found) => Ok(found),
            Err(PollFault) => Err(self.fault()),
        }
    }
}
