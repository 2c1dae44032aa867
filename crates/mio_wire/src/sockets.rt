// All sockets of a wire, and what they are ready for.
ghost use Rattle.std.specs.Prelude.{◌≡◌, Some, IfOk, IfSome, true};
ghost use Rattle.mio_wire.specs.Tables.{KeepsAll};

use crate::link::Links;
use crate::listener::{LISTENERS, Listener};
use arrayvec::ArrayVec;
use mio::net::TcpStream;
use mio::{Events, Interest, Poll, Token};
use std::alloc::{AllocError, Global};
use std::net::Net;
use std::time::Duration;
use wire_port::{Conn, PollFault};

/// What was seen at the sockets.
#[derive(Clone, Copy, Debug, PartialEq, Eq)]
pub enum Seen {
    /// A connection was accepted at this port.
    Accepted(u16),
    /// There may be something to read from this connection.
    Readable(Conn),
    /// This connection may be written to.
    Writable(Conn),
}

/// The sockets: those that listen, and the connections. What the system reports is noted at the sockets at once, since it reports a change
/// only once. It is asked again only when all that connections are ready for was told, and then at most one connection is accepted: so
/// neither those who send nor those who connect keep the others waiting.
#[derive(Drop)]
pub struct Sockets {
    poll: Option<Poll>,
    events: Events,
    listeners: ArrayVec<Option<Listener>, 16>,
    pub links: Links,
}

// As many events as there may be sockets.
const MOST_EVENTS: usize = 80;

// Notes at each socket what it is ready for. An error of the system and the end of what a peer sends are read.
fn note(events: &Events, listeners: &mut [Option<Listener>], links: &mut Links)
    ensures { KeepsAll links.old.table links.new.table }
{
    for event in events.iter() {
        let Token(number) = event.token();
        if number == LISTENERS {
            for listener in listeners.iter_mut().flatten() {
                listener.waiting = true;
            }
        } else {
            let readable = event.is_readable() || event.is_read_closed() || event.is_error();
            links.mark(number as u64, readable, event.is_writable());
        }
    }
}

impl Sockets {
    ghost use Rattle.mio_wire.specs.Tables.{IsEmpty, IsHeld, KeepsAll, KeepsOthers, SeesHeld};

    /// No socket.
    pub fn new(alloc: Global) -> Result<Sockets, AllocError>
        ensures { IfOk result (λ sockets. IsEmpty sockets.links.table) }
    {
        Ok(Sockets {
            poll: None,
            events: Events::with_capacity(alloc, MOST_EVENTS)?,
            listeners: ArrayVec::new(),
            links: Links::new(alloc)?,
        })
    }

    /// Listens at these ports, or at none of them.
    pub fn listen<R: Net>(&mut self, rt: &R, ports: &[u16]) -> Result<(), PollFault>
        ensures { self.new.links ≡ self.old.links }
    {
        let poll = Poll::new(rt).map_err(|_| PollFault)?;
        let mut listeners = ArrayVec::new();
        for port in ports {
            let listener = Listener::bind(rt, &poll, *port).map_err(|_| PollFault)?;
            listeners.try_push(Some(listener)).map_err(|_| PollFault)?;
        }
        self.listeners = listeners;
        self.poll = Some(poll);
        Ok(())
    }

    // Whether somebody may wait at a listener.
    fn is_awaited(&self) -> bool {
        self.listeners
            .iter()
            .flatten()
            .any(|listener| listener.waiting)
    }

    // Fetches what the sockets are ready for. It waits for that only where nobody may wait at a listener already.
    fn fetch(&mut self, wait: bool) -> Result<(), PollFault>
        ensures { KeepsAll self.old.links.table self.new.links.table }
    {
        let timeout = if wait && !self.is_awaited() {
            None
        } else {
            Some(Duration::ZERO)
        };
        let Some(poll) = self.poll.as_mut() else {
            return Err(PollFault);
        };
        poll.poll(&mut self.events, timeout).map_err(|_| PollFault)?;
        note(&self.events, self.listeners.as_mut_slice(), &mut self.links);
        Ok(())
    }

    // Adds a connection that was accepted under this number. One that is too many is dropped, and is not told.
    fn add(&mut self, number: Conn, mut stream: TcpStream) -> Result<bool, PollFault>
        ensures held { IfOk result (λ added. added ≡ true → IsHeld number self.new.links.table) }
        ensures others { KeepsOthers number self.old.links.table self.new.links.table }
    {
        if self.links.is_full() {
            return Ok(false);
        }
        let Some(poll) = &self.poll else {
            return Err(PollFault);
        };
        // Replies are short and are waited for. Where the system does not know the option, they only come later.
        let _ = stream.set_nodelay(true);
        poll.registry()
            .register(
                &mut stream,
                Token(number as usize),
                Interest::READABLE | Interest::WRITABLE,
            )
            .map_err(|_| PollFault)?;
        self.links.add(number, stream);
        Ok(true)
    }

    // Accepts a connection at the next listener, and tells its port. The listeners take turns, so that no port keeps the others waiting.
    fn accept_next(&mut self, number: Conn) -> Result<Option<u16>, PollFault>
        ensures held { IfOk result (λ accepted. IfSome accepted (λ _. IsHeld number self.new.links.table)) }
        ensures others { KeepsOthers number self.old.links.table self.new.links.table }
    {
        let listeners = self.listeners.as_mut_slice();
        if !listeners.is_empty() {
            listeners.rotate_left(1);
        }
        let Some(Some(listener)) = listeners.first_mut() else {
            return Ok(None);
        };
        let port = listener.port;
        let Some(stream) = listener.accept()? else {
            return Ok(None);
        };
        Ok(self.add(number, stream)?.then_some(port))
    }

    // Accepts a connection at one of the listeners.
    fn accept(&mut self, number: Conn) -> Result<Option<Seen>, PollFault>
        ensures held { IfOk result (SeesHeld number self.new.links.table) }
        ensures others { KeepsOthers number self.old.links.table self.new.links.table }
    {
        for _ in 0..self.listeners.len() {
            if let Some(port) = self.accept_next(number)? {
                return Ok(Some(Seen::Accepted(port)));
            }
        }
        Ok(None)
    }

    /// Something that is to be done now, if there is. A connection that is accepted is given this number. With `wait` it may wait.
    pub fn look(&mut self, number: Conn, wait: bool) -> Result<Option<Seen>, PollFault>
        ensures held { IfOk result (SeesHeld number self.new.links.table) }
        ensures others { KeepsOthers number self.old.links.table self.new.links.table }
    {
        if let Some(seen) = self.links.tell() {
            return Ok(Some(seen));
        }
        self.fetch(wait)?;
        if let Some(seen) = self.accept(number)? {
            return Ok(Some(seen));
        }
        Ok(self.links.tell())
    }

    /// Waits until something is to be done. A connection that is accepted is given this number.
    pub fn wait(&mut self, number: Conn) -> Result<Seen, PollFault>
        ensures held { IfOk result (λ seen. SeesHeld number self.new.links.table (Some seen)) }
        ensures others { KeepsOthers number self.old.links.table self.new.links.table }
    {
        for _ in 0..u64::MAX {
            if let Some(seen) = self.look(number, true)? {
                return Ok(seen);
            }
        }
        Err(PollFault)
    }
}
