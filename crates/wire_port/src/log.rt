// The steps that a script wire tells, in memory that is made once.
ghost use Rattle.std.specs.Prelude.{◌≡◌, ◌≤◌, ◌<◌, ◌+◌, [], ◌∷◌, ◌++◌, length, IfOk, vec_len, vec_capacity};
ghost use Rattle.wire_port.specs.Steps.Step.{Opened, Gone, Shut};
ghost use Rattle.wire_port.specs.Calls.{TakenWithin, take_answered, give_answered};
ghost use Rattle.wire_port.specs.Links.{logged, logged_bytes, log_after_take, log_after_give, RoomForTake, RoomForGive};

use crate::{Conn, Given, Taken};
use std::alloc::{AllocError, Global};
use std::marker::Model;

/// A step; of bytes that were taken, how many.
#[derive(Clone, Copy)]
pub enum Mark {
    Opened(Conn, u16),
    Took(Conn, usize),
    Gone(Conn),
    Shut(Conn),
}

/// The steps so far, and all bytes that were taken, one behind the other.
#[derive(Drop)]
pub struct StepLog {
    marks: Vec<Mark>,
    bytes: Vec<u8>,
    room: usize,
    byte_room: usize,
}

impl Model for StepLog {
    ghost use Rattle.std.specs.Prelude.{◌-◌, vec_len};
    ghost use Rattle.wire_port.specs.Links.{LogView, steps_of};
    ghost use Rattle.wire_port.specs.Playing.{FitsLog};

    ghost Value = { LogView };

    ghost view = { λ log. record { steps = steps_of log.marks.items log.bytes.items; left = log.room - vec_len log.marks; bytes_left = log.byte_room - vec_len log.bytes } };

    ghost invariant = { λ log. FitsLog log.marks log.bytes log.room log.byte_room };
}

impl StepLog {
    /// No step, with memory for so many steps and taken bytes.
    pub fn with_room(alloc: Global, room: usize, byte_room: usize) -> Result<StepLog, AllocError>
        ensures { IfOk result (λ log. log ≡ record { steps = []; left = room; bytes_left = byte_room }) }
    {
        Ok(StepLog {
            marks: Vec::with_capacity(alloc, room)?,
            bytes: Vec::with_capacity(alloc, byte_room)?,
            room,
            byte_room,
        })
    }

    // Puts a mark behind the others.
    fn push(marks: &mut Vec<Mark>, mark: Mark)
        requires { vec_len marks.old < vec_capacity marks.old }
        ensures items { marks.new.items ≡ marks.old.items ++ mark ∷ [] }
        ensures len { vec_len marks.new ≡ vec_len marks.old + 1 }
        ensures capacity { vec_capacity marks.old ≤ vec_capacity marks.new }
    {
        match marks.push(mark) {
            Ok(()) => {}
            Err(_) => unreachable!(),
        }
    }

    /// A connection opened at a port.
    pub fn opened(&mut self, conn: Conn, port: u16)
        requires { 0 < self.old.left }
        ensures { self.new ≡ logged (Opened conn port) self.old }
    {
        StepLog::push(&mut self.marks, Mark::Opened(conn, port));
    }

    /// The peer of a connection is gone.
    pub fn gone(&mut self, conn: Conn)
        requires { 0 < self.old.left }
        ensures { self.new ≡ logged (Gone conn) self.old }
    {
        StepLog::push(&mut self.marks, Mark::Gone(conn));
    }

    /// The server shut a connection.
    pub fn shut(&mut self, conn: Conn)
        requires { 0 < self.old.left }
        ensures { self.new ≡ logged (Shut conn) self.old }
    {
        StepLog::push(&mut self.marks, Mark::Shut(conn));
    }

    /// Bytes were taken from a connection.
    pub fn took(&mut self, conn: Conn, bytes: &[u8])
        requires step { 0 < self.old.left }
        requires bytes { length bytes.now ≤ self.old.bytes_left }
        ensures { self.new ≡ logged_bytes conn bytes.now self.old }
    {
        match self.bytes.extend_from_slice(bytes) {
            Ok(()) => {}
            Err(_) => unreachable!(),
        }
        StepLog::push(&mut self.marks, Mark::Took(conn, bytes.len()));
    }

    /// A `take` was answered so, with the bytes in the front of this buffer.
    pub fn after_take(&mut self, conn: Conn, answer: Taken, buf: &[u8])
        requires within { TakenWithin answer (length buf.now) }
        requires room { RoomForTake (take_answered answer buf.now) self.old }
        ensures { self.new ≡ log_after_take conn (take_answered answer buf.now) self.old }
    {
        match answer {
            Taken::Bytes(count) => self.took(conn, &buf[..count]),
            Taken::NotNow => {}
            Taken::Gone => self.gone(conn),
        }
    }

    /// A `give` was answered so.
    pub fn after_give(&mut self, conn: Conn, answer: Given, piece: &[u8])
        requires { RoomForGive (give_answered answer piece.now) self.old }
        ensures { self.new ≡ log_after_give conn (give_answered answer piece.now) self.old }
    {
        match answer {
            Given::Gone => self.gone(conn),
            _ => {}
        }
    }
}
