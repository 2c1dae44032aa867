// A connection of a script wire, with its peer, in memory that is made once.
ghost use Rattle.std.specs.Prelude.{◌≡◌, ◌≤◌, ◌<◌, ◌+◌, ◌*◌, ◌++◌, min, ℕ, List, length, take, drop, IfOk};
ghost use Rattle.wire_port.specs.Offers.{take_answer, limited_answer, within_room, room_after};
ghost use Rattle.wire_port.specs.Calls as c;
ghost use Rattle.wire_port.specs.Links as l;

use crate::{Conn, Given, Taken};
use std::alloc::{AllocError, Global};
use std::marker::Model;

/// How the last call on a connection was answered: nothing to take now, less than all was given, or otherwise.
#[derive(Clone, Copy)]
pub enum LastAnswer {
    NotNow,
    Short,
    Other,
}

/// A connection and its peer: all bytes that the peer offered so far, of which the first were taken, and all that it was given.
#[derive(Drop)]
pub struct Link {
    conn: Conn,
    received: Vec<u8>,
    taken: usize,
    offers: usize,
    given: Vec<u8>,
    room: Option<usize>,
    is_dropped: bool,
    is_shut: bool,
    is_gone: bool,
    last: LastAnswer,
}

impl Model for Link {
    ghost use Rattle.std.specs.Prelude.{◌-◌, drop, vec_len};
    ghost use Rattle.wire_port.specs.Links.{LinkView, last_seen};
    ghost use Rattle.wire_port.specs.Playing.{FitsLink};

    ghost Value = { LinkView };

    ghost view = { λ link. record {
      peer = record {
        conn = link.conn;
        offered = drop link.taken link.received.items;
        is_dropped = link.is_dropped;
        is_shut = link.is_shut;
        room = link.room;
        given = link.given.items;
      };
      last = last_seen link.last;
      taken = link.taken;
      is_gone = link.is_gone;
      offers_left = link.offers - vec_len link.received;
    } };

    ghost invariant = { λ link. FitsLink link.received link.given link.taken link.offers };
}

// Copies as many bytes of the front as both hold.
fn copy_front(from: &[u8], to: &mut [u8]) -> usize
    ensures count { result ≡ min (length from.now) (length to.old) }
    ensures copied { to.new ≡ take result from.now ++ drop result to.old }
{
    let count = from.len().min(to.len());
    to[..count].copy_from_slice(&from[..count]);
    count
}

// How many bytes of a piece fit into a room.
fn fitting(room: Option<usize>, piece: &[u8]) -> usize
    ensures is { take result piece.now ≡ within_room room piece.now }
    ensures bound { result ≤ length piece.now }
{
    match room {
        Some(room) => piece.len().min(room),
        None => piece.len(),
    }
}

// The room that is left after so many bytes.
fn room_less(room: Option<usize>, count: usize) -> Option<usize>
    ensures { (piece : List ℕ) → length piece ≡ count → result ≡ room_after room piece }
{
    match room {
        Some(room) => Some(room.saturating_sub(count)),
        None => None,
    }
}

impl Link {
    /// A connection whose peer offers at most so many bytes, with memory for them, and for three reply bytes for each and 64 more.
    pub fn with_room(alloc: Global, conn: Conn, offers: usize) -> Result<Link, AllocError>
        ensures { IfOk result (λ link. link ≡ l.new_link conn offers) }
    {
        let Some(triple) = offers.checked_mul(3) else {
            return Err(AllocError);
        };
        let Some(replies) = triple.checked_add(64) else {
            return Err(AllocError);
        };
        Ok(Link {
            conn,
            received: Vec::with_capacity(alloc, offers)?,
            taken: 0,
            offers,
            given: Vec::with_capacity(alloc, replies)?,
            room: None,
            is_dropped: false,
            is_shut: false,
            is_gone: false,
            last: LastAnswer::Other,
        })
    }

    pub fn conn(&self) -> Conn
        ensures { result ≡ self.now.peer.conn }
    {
        self.conn
    }

    pub fn is_shut(&self) -> bool
        ensures { result ≡ self.now.peer.is_shut }
    {
        self.is_shut
    }

    pub fn taken(&self) -> usize
        ensures { result ≡ self.now.taken }
    {
        self.taken
    }

    pub fn given(&self) -> &[u8]
        ensures { result.now ≡ self.now.peer.given }
    {
        &self.given
    }

    /// The peer offers these bytes too.
    pub fn offer(&mut self, bytes: &[u8])
        requires { length bytes.now ≤ self.old.offers_left }
        ensures { self.new ≡ l.link_offered bytes.now self.old }
    {
        match self.received.extend_from_slice(bytes) {
            Ok(()) => {}
            Err(_) => unreachable!(),
        }
        self.last = LastAnswer::Other;
    }

    /// The peer is gone behind what it offered.
    pub fn drop_peer(&mut self)
        ensures { self.new ≡ l.link_dropped self.old }
    {
        self.is_dropped = true;
        self.last = LastAnswer::Other;
    }

    /// The peer takes so many reply bytes more, or all.
    pub fn set_room(&mut self, room: Option<usize>)
        ensures { self.new ≡ l.link_room room self.old }
    {
        self.room = room;
        self.last = LastAnswer::Other;
    }

    /// The server shuts the connection.
    pub fn shut(&mut self)
        ensures { self.new ≡ l.link_shut self.old }
    {
        self.is_shut = true;
    }

    /// Takes as many of the bytes on offer as the buffer holds.
    pub fn take(&mut self, buf: &mut [u8]) -> Taken
        requires { 0 < length buf.old }
        ensures bound { c.TakenWithin result (length buf.new) }
        ensures answer { c.take_answered result buf.new ≡ take_answer (length buf.old) self.old.peer }
        ensures after { self.new ≡ l.link_after_take (c.take_answered result buf.new) self.old }
    {
        let (_, offered) = self.received.split_at(self.taken);
        let count = copy_front(offered, buf);
        if count > 0 {
            self.taken += count;
            self.last = LastAnswer::Other;
            return Taken::Bytes(count);
        }
        if self.is_dropped {
            self.is_gone = true;
            self.last = LastAnswer::Other;
            return Taken::Gone;
        }
        self.last = LastAnswer::NotNow;
        Taken::NotNow
    }

    /// Gives the peer as many bytes of a piece as it takes. Where that would be more than there is memory for, it is as if it were gone.
    pub fn give(&mut self, piece: &[u8]) -> Given
        requires { 0 < length piece.now }
        ensures bound { c.GivenWithin result (length piece.now) }
        ensures answer { c.give_answered result piece.now ≡ limited_answer self.old.taken piece.now self.old.peer }
        ensures after { self.new ≡ l.link_after_give piece.now (c.give_answered result piece.now) self.old }
    {
        let count = fitting(self.room, piece);
        if self.is_dropped || self.given.len() + count > 3 * self.taken + 64 {
            self.is_gone = true;
            self.last = LastAnswer::Other;
            return Given::Gone;
        }
        if count == 0 {
            self.last = LastAnswer::Short;
            return Given::NotNow;
        }
        match self.given.extend_from_slice(&piece[..count]) {
            Ok(()) => {}
            Err(_) => unreachable!(),
        }
        self.room = room_less(self.room, piece.len());
        self.last = if count == piece.len() {
            LastAnswer::Other
        } else {
            LastAnswer::Short
        };
        Given::Bytes(count)
    }
}
