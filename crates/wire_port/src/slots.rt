// The connections of a script wire, found by their numbers.
ghost use Rattle.std.specs.Prelude.{◌≡◌, ◌<◌, ◌≤◌, ◌++◌, ◌∷◌, [], length, map, false, true, MatchOption, IfOk};
ghost use Rattle.wire_port.specs.Scripts.{line_of};
ghost use Rattle.wire_port.specs.Playing.{IsReady};
ghost use Rattle.wire_port.specs.Offers.{lines_open_once, take_answer, limited_answer};
ghost use Rattle.wire_port.specs.Calls as c;
ghost use Rattle.wire_port.specs.Links as l;
ghost use Rattle.wire_port.specs.Slots as s;

use crate::link::Link;
use crate::ready::waiting_links;
use crate::script::Line;
use crate::{Conn, Given, Taken};
use std::alloc::{AllocError, Global};
use std::collections::VecDeque;
use std::marker::Model;

/// The connections that opened, those that are to open, each in order, and the place of each by its number.
#[derive(Drop)]
pub struct Slots {
    links: Vec<Link>,
    waiting: VecDeque<Link>,
    table: Vec<usize>,
}

impl Model for Slots {
    ghost use Rattle.std.specs.Prelude.{◌≤◌, ◌+◌, ◌++◌, length, vec_len, vec_capacity};
    ghost use Rattle.wire_port.specs.Slots.{SlotsView, IsTable, conns};

    ghost Value = { SlotsView };

    ghost view = { λ slots. record { links = slots.links.items; waiting = slots.waiting.items } };

    ghost invariant = { λ slots. IsTable slots.table.items (conns (slots.links.items ++ slots.waiting.items)) × (vec_len slots.links + length slots.waiting.items ≤ vec_capacity slots.links) };
}

impl Slots {
    /// The connections that the lines open, all of them to open.
    pub fn ready(alloc: Global, lines: &[Line]) -> Result<Slots, AllocError>
        requires { lines_open_once (map line_of lines.now) ≡ true }
        ensures { IfOk result (IsReady (map line_of lines.now)) }
    {
        let (waiting, table) = waiting_links(alloc, lines)?;
        let links = Vec::with_capacity(alloc, waiting.len())?;
        Ok(Slots {
            links,
            waiting,
            table,
        })
    }

    /// How many are to open.
    pub fn waiting(&self) -> usize
        ensures { result ≡ length self.now.waiting }
    {
        self.waiting.len()
    }

    // The place of a connection that opened.
    fn find(&self, conn: Conn) -> Option<usize>
        ensures { MatchOption result (s.has_link conn self.now.links ≡ false) (s.IsPlace conn self.now.links) }
    {
        let Some(&place) = self.table.get(conn as usize) else {
            return None;
        };
        let Some(link) = self.links.get(place) else {
            return None;
        };
        if link.conn() != conn {
            return None;
        }
        Some(place)
    }

    /// Takes bytes from a connection that opened.
    pub fn take(&mut self, conn: Conn, buf: &mut [u8]) -> Taken
        requires some { 0 < length buf.old }
        requires there { s.has_link conn self.old.links ≡ true }
        ensures bound { c.TakenWithin result (length buf.new) }
        ensures answer { c.take_answered result buf.new ≡ take_answer (length buf.old) (s.link_of self.old.links conn).peer }
        ensures after { self.new ≡ s.after_change conn (l.link_after_take (c.take_answered result buf.new)) self.old }
    {
        let Some(place) = self.find(conn) else {
            unreachable!()
        };
        self.links[place].take(buf)
    }

    /// Gives a connection that opened bytes.
    pub fn give(&mut self, conn: Conn, piece: &[u8]) -> Given
        requires some { 0 < length piece.now }
        requires there { s.has_link conn self.old.links ≡ true }
        ensures bound { c.GivenWithin result (length piece.now) }
        ensures answer { c.give_answered result piece.now ≡ limited_answer (s.link_of self.old.links conn).taken piece.now (s.link_of self.old.links conn).peer }
        ensures after { self.new ≡ s.after_change conn (l.link_after_give piece.now (c.give_answered result piece.now)) self.old }
    {
        let Some(place) = self.find(conn) else {
            unreachable!()
        };
        self.links[place].give(piece)
    }

    /// The server shuts a connection that opened.
    pub fn shut(&mut self, conn: Conn)
        requires there { s.has_link conn self.old.links ≡ true }
        ensures { self.new ≡ s.after_change conn l.link_shut self.old }
    {
        let Some(place) = self.find(conn) else {
            unreachable!()
        };
        self.links[place].shut();
    }

    /// The peer of a connection offers these bytes too, where it opened.
    pub fn offer(&mut self, conn: Conn, bytes: &[u8])
        requires { s.has_link conn self.old.links ≡ true → length bytes.now ≤ (s.link_of self.old.links conn).offers_left }
        ensures { self.new ≡ s.after_change conn (l.link_offered bytes.now) self.old }
    {
        let Some(place) = self.find(conn) else {
            return;
        };
        self.links[place].offer(bytes);
    }

    /// The peer of a connection is gone behind what it offered, where it opened.
    pub fn drop_peer(&mut self, conn: Conn)
        ensures { self.new ≡ s.after_change conn l.link_dropped self.old }
    {
        let Some(place) = self.find(conn) else {
            return;
        };
        self.links[place].drop_peer();
    }

    /// The peer of a connection takes so many reply bytes more, or all, where it opened.
    pub fn set_room(&mut self, conn: Conn, room: Option<usize>)
        ensures { self.new ≡ s.after_change conn (l.link_room room) self.old }
    {
        let Some(place) = self.find(conn) else {
            return;
        };
        self.links[place].set_room(room);
    }

    /// Whether the server shut a connection.
    pub fn is_shut(&self, conn: Conn) -> bool
        ensures { result ≡ (s.link_of self.now.links conn).peer.is_shut }
    {
        match self.link(conn) {
            Some(link) => link.is_shut(),
            None => false,
        }
    }

    /// A connection that opened.
    pub fn link(&self, conn: Conn) -> Option<&Link>
        ensures { MatchOption result (s.has_link conn self.now.links ≡ false) (λ link. (s.has_link conn self.now.links ≡ true) × (link.now ≡ s.link_of self.now.links conn)) }
    {
        match self.find(conn) {
            Some(place) => Some(&self.links[place]),
            None => None,
        }
    }

    /// The next connection opens.
    pub fn open(&mut self) -> Option<Conn>
        ensures { s.Opens self.old result self.new }
    {
        let link = self.waiting.pop_front()?;
        let conn = link.conn();
        match self.links.push(link) {
            Ok(()) => Some(conn),
            Err(_) => unreachable!(),
        }
    }
}
