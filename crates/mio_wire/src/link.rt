// The connections that are open.
ghost use Rattle.std.specs.Prelude.{◌≡◌, ◌≢◌, ◌≤◌, ◌<◌, ◌↔◌, ◌⊎◌, ℕ, length, true, IfNone, IfOk, IfSome, IsTrue};
ghost use Rattle.mio_wire.specs.declared.sockets.Seen.TheVariants as Seen;
ghost use Rattle.slab.specs.Slab.{slab_len};
ghost use Rattle.wire_port.specs.Calls as c;
ghost use Rattle.wire_port.specs.declared.wire.Taken.TheVariants as Taken;
ghost use Rattle.wire_port.specs.declared.wire.Given.TheVariants as Given;

use crate::results::{given_of, taken_of};
use crate::sockets::Seen;
use mio::net::TcpStream;
use slab::Slab;
use std::alloc::{AllocError, Global};
use std::io;
use std::io::{ErrorKind, Read, Write};
use wire_port::{Conn, Given, Taken};

// The most connections that are open together.
const MOST_LINKS: usize = 64;

// A connection: its stream, and what it is ready for and no poll has told yet.
#[derive(Drop)]
struct Link {
    conn: Conn,
    stream: TcpStream,
    readable: bool,
    writable: bool,
}

// Whether a signal broke into a read or a write. The system then reports no change, so the connection has to be told again.
fn is_interrupted(ended: &io::Result<usize>) -> bool {
    match ended {
        Ok(_) => false,
        Err(error) => error.kind() == ErrorKind::Interrupted,
    }
}

impl Link {
    // Reads what the peer sent.
    fn take(&mut self, buf: &mut [u8]) -> Taken
        ensures bound { c.TakenWithin result (length buf.new) }
        ensures conn { self.new.conn ≡ self.old.conn }
    {
        let read = self.stream.read(buf);
        self.readable |= is_interrupted(&read);
        taken_of(read)
    }

    // Writes to the peer.
    fn give(&mut self, piece: &[u8]) -> Given
        ensures bound { c.GivenWithin result (length piece.now) }
        ensures conn { self.new.conn ≡ self.old.conn }
    {
        let written = self.stream.write(piece);
        self.writable |= is_interrupted(&written);
        given_of(written)
    }

    // The next thing to tell of it: first that it can be read, then that it can be written.
    fn tell(&mut self) -> Option<Seen>
        ensures conn { self.new.conn ≡ self.old.conn }
        ensures seen { IfSome result (λ seen. (seen ≡ Seen.Readable self.old.conn) ⊎ (seen ≡ Seen.Writable self.old.conn)) }
    {
        if self.readable {
            self.readable = false;
            return Some(Seen::Readable(self.conn));
        }
        if self.writable {
            self.writable = false;
            return Some(Seen::Writable(self.conn));
        }
        None
    }
}

/// The connections that are open, at most 64. All memory is made at the start.
#[derive(Drop)]
pub struct Links {
    table: Slab<Link>,
    ghost room: { 64 ≤ table.capacity },
}

impl Links {
    ghost use Rattle.slab.specs.Slab.{get};
    ghost use Rattle.mio_wire.specs.Tables.{holds, IsEmpty, IsForgotten, IsHeld, KeepsAll, KeepsOthers, SeesHeld};

    /// No connection.
    pub fn new(alloc: Global) -> Result<Links, AllocError>
        ensures { IfOk result (λ links. IsEmpty links.table) }
    {
        let table = Slab::with_capacity(alloc, MOST_LINKS)?;
        Ok(Links { table })
    }

    /// Whether no further connection may be added.
    pub fn is_full(&self) -> bool
        ensures { IsTrue result ↔ (64 ≤ slab_len self.now.table) }
    {
        self.table.len() >= MOST_LINKS
    }

    /// Adds a connection.
    pub fn add(&mut self, conn: Conn, stream: TcpStream)
        requires { slab_len self.old.table < 64 }
        ensures held { IsHeld conn self.new.table }
        ensures others { KeepsOthers conn self.old.table self.new.table }
    {
        self.table.insert_reserved(Link {
            conn,
            stream,
            readable: false,
            writable: false,
        });
    }

    // Whether a place of the table holds this connection.
    fn is_at(&self, key: usize, conn: Conn) -> bool
        ensures { result ≡ holds conn (get self.now.table key) }
    {
        match self.table.get(key) {
            Some(link) => link.conn == conn,
            None => false,
        }
    }

    // Where a connection is in the table.
    fn key_of(&self, conn: Conn) -> Option<usize>
        ensures found { IfSome result (λ key. holds conn (get self.now.table key) ≡ true) }
        ensures missed { IfNone result (IsForgotten conn self.now.table) }
    {
        for key in 0..self.table.capacity() {
            if self.is_at(key, conn) {
                return Some(key);
            }
        }
        None
    }

    /// Notes what a connection is ready for. One that was forgotten is passed over.
    pub fn mark(&mut self, conn: Conn, readable: bool, writable: bool)
        ensures { KeepsAll self.old.table self.new.table }
    {
        let Some(key) = self.key_of(conn) else {
            return;
        };
        if let Some(link) = self.table.get_mut(key) {
            link.readable |= readable;
            link.writable |= writable;
        }
    }

    /// Something that a connection is ready for and that was not told yet; it is told once.
    pub fn tell(&mut self) -> Option<Seen>
        ensures kept { KeepsAll self.old.table self.new.table }
        ensures held { (number : ℕ) → SeesHeld number self.new.table result }
    {
        for key in 0..self.table.capacity() {
            if let Some(link) = self.table.get_mut(key) {
                let seen = link.tell();
                if seen.is_some() {
                    return seen;
                }
            }
        }
        None
    }

    /// Takes what the peer of a connection sent. One that was forgotten is gone, and one that is gone is forgotten.
    pub fn take(&mut self, conn: Conn, buf: &mut [u8]) -> Taken
        ensures bound { c.TakenWithin result (length buf.new) }
        ensures forgotten { result ≡ Taken.Gone → IsForgotten conn self.new.table }
        ensures held { result ≢ Taken.Gone → IsHeld conn self.new.table }
        ensures others { KeepsOthers conn self.old.table self.new.table }
    {
        let Some(key) = self.key_of(conn) else {
            return Taken::Gone;
        };
        let Some(link) = self.table.get_mut(key) else {
            return Taken::Gone;
        };
        let taken = link.take(buf);
        if taken == Taken::Gone {
            self.shut(conn);
        }
        taken
    }

    /// Gives the peer of a connection bytes. One that was forgotten is gone, and one that is gone is forgotten.
    pub fn give(&mut self, conn: Conn, piece: &[u8]) -> Given
        ensures bound { c.GivenWithin result (length piece.now) }
        ensures forgotten { result ≡ Given.Gone → IsForgotten conn self.new.table }
        ensures held { result ≢ Given.Gone → IsHeld conn self.new.table }
        ensures others { KeepsOthers conn self.old.table self.new.table }
    {
        let Some(key) = self.key_of(conn) else {
            return Given::Gone;
        };
        let Some(link) = self.table.get_mut(key) else {
            return Given::Gone;
        };
        let given = link.give(piece);
        if given == Given::Gone {
            self.shut(conn);
        }
        given
    }

    /// Forgets a connection and closes it.
    pub fn shut(&mut self, conn: Conn)
        ensures forgotten { IsForgotten conn self.new.table }
        ensures others { KeepsOthers conn self.old.table self.new.table }
    {
        for key in 0..self.table.capacity() {
            if self.is_at(key, conn) {
                self.table.try_remove(key);
            }
        }
    }
}
