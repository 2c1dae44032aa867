// A socket that listens at a port.
use crate::results::is_harmless;
use mio::net::{TcpListener, TcpStream};
use mio::{Interest, Poll, Token};
use std::io;
use std::io::ErrorKind;
use std::net::{Ipv4Addr, Net, SocketAddr};
use wire_port::PollFault;

/// The token of all listeners. A connection's is its number, which is at least 1.
pub const LISTENERS: usize = 0;

/// A socket that listens at a port, and whether somebody may wait there.
#[derive(Drop)]
pub struct Listener {
    pub port: u16,
    socket: TcpListener,
    pub waiting: bool,
}

impl Listener {
    /// Listens at this port of every IPv4 address of the machine.
    pub fn bind<R: Net>(rt: &R, poll: &Poll, port: u16) -> io::Result<Listener> {
        let mut socket = TcpListener::bind(rt, SocketAddr::from((Ipv4Addr::UNSPECIFIED, port)))?;
        poll.registry()
            .register(&mut socket, Token(LISTENERS), Interest::READABLE)?;
        Ok(Listener {
            port,
            socket,
            waiting: false,
        })
    }

    /// The next connection, where somebody waits. Somebody may wait until an `accept` would block.
    pub fn accept(&mut self) -> Result<Option<TcpStream>, PollFault> {
        if !self.waiting {
            return Ok(None);
        }
        match self.socket.accept() {
            Ok((stream, _)) => Ok(Some(stream)),
            Err(error) if is_harmless(error.kind()) => {
                self.waiting = error.kind() != ErrorKind::WouldBlock;
                Ok(None)
            }
            Err(_) => Err(PollFault),
        }
    }
}
