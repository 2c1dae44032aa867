// What is told of a connection at the end of a replay.
ghost use Rattle.std.specs.Prelude.{◌≡◌, ◌≤◌, ◌+◌, ◌++◌, length};
ghost use Rattle.report_lines.specs.Connections.{bytes_text, connection_head, connection_line, connection_tail, standing_text};
ghost use Rattle.text_lines.specs.Hex.{hex_bytes};
ghost use Rattle.text_lines.specs.Printed.{Prints};

use crate::ends::push_end;
use client_session::End;
use ports::{PortFault, Sink};
use std::marker::Model;
use text_lines::{Line, push_hex_bytes, push_number, push_text, put, text_line};

/// How a connection stands.
#[derive(Clone, Copy, Debug, Drop, PartialEq, Eq)]
pub enum Standing {
    /// Its session is open and does not wait.
    Live,
    /// Its session waits for the chain, also where its peer is gone.
    Waits,
    /// It was turned away, since the grant of its port has a session already.
    Away,
    /// Its session ended so.
    Ended(End),
}

/// A connection at the end of a replay.
#[derive(Drop)]
pub struct Connection<'a> {
    /// Its number in the script.
    pub conn: u64,
    /// The port at which it came.
    pub port: u16,
    /// The grant that admitted it, counted from 1; 0 where it was turned away.
    pub grant: u64,
    /// How many bytes were taken from it.
    pub took: u64,
    /// The bytes that its peer was given.
    pub gave: &'a [u8],
    /// How it stands.
    pub standing: Standing,
}

impl<'a> Model for Connection<'a> {
    ghost use Rattle.report_lines.specs.Connections.{ConnectionView};

    ghost Value = { ConnectionView };

    ghost view = { λ c. record { conn = c.conn; port = c.port; grant = c.grant; took = c.took; gave = c.gave.now; standing = c.standing } };
}

// What stands before the bytes that a peer was given.
fn head(connection: &Connection) -> Line
    ensures { result.items ≡ connection_head connection.now }
{
    let mut line = Line::new();
    push_number(&mut line, b"conn ", connection.conn);
    push_number(&mut line, b" port ", u64::from(connection.port));
    push_number(&mut line, b" grant ", connection.grant);
    push_number(&mut line, b" took ", connection.took);
    push_text(&mut line, b" gave ");
    line
}

// Puts behind the line how a connection stands.
fn push_standing(line: &mut Line, standing: Standing)
    requires { length line.old.items ≤ 900 }
    ensures is { line.new.items ≡ line.old.items ++ standing_text standing }
    ensures room { length line.new.items ≤ length line.old.items + 60 }
{
    match standing {
        Standing::Live => push_text(line, b"live"),
        Standing::Waits => push_text(line, b"waits"),
        Standing::Away => push_text(line, b"away"),
        Standing::Ended(end) => push_end(line, end),
    }
}

// What stands behind the bytes that a peer was given.
fn tail(standing: Standing) -> Line
    ensures { result.items ≡ connection_tail standing }
{
    let mut line = text_line(b" ");
    push_standing(&mut line, standing);
    push_text(&mut line, b"\n");
    line
}

// Bytes in base 16, two digits each.
fn hex_line(bytes: &[u8]) -> Line
    requires { length bytes.now ≤ 512 }
    ensures { result.items ≡ hex_bytes bytes.now }
{
    let mut line = Line::new();
    push_hex_bytes(&mut line, bytes);
    line
}

// Writes bytes in base 16, two digits each.
fn put_hex<O: Sink>(out: &mut O, bytes: &[u8]) -> Result<(), PortFault>
    ensures { Prints result (O.sent out.old) (O.sent out.new) (hex_bytes bytes.now) (O.fault_count out.old) (O.fault_count out.new) }
{
    let mut rest = bytes;
    while !rest.is_empty() {
        let (piece, behind) = rest.split_at(rest.len().min(512));
        put(out, &hex_line(piece))?;
        rest = behind;
    }
    Ok(())
}

// Writes bytes in base 16, two digits each, and a dash where there are none.
fn put_bytes<O: Sink>(out: &mut O, bytes: &[u8]) -> Result<(), PortFault>
    ensures { Prints result (O.sent out.old) (O.sent out.new) (bytes_text bytes.now) (O.fault_count out.old) (O.fault_count out.new) }
{
    if bytes.is_empty() {
        return put(out, b"-");
    }
    put_hex(out, bytes)
}

/// Writes the line of a connection. The fault comes only where the sink's count of faults rose, and then a front of the line is out.
pub fn put_connection<O: Sink>(out: &mut O, connection: &Connection) -> Result<(), PortFault>
    ensures { Prints result (O.sent out.old) (O.sent out.new) (connection_line connection.now) (O.fault_count out.old) (O.fault_count out.new) }
{
    put(out, &head(connection))?;
    put_bytes(out, connection.gave)?;
    put(out, &tail(connection.standing))
}
