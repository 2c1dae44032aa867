// A sink into memory, of a fixed room, which takes so many bytes a write and fails at the writes that it was given.
ghost use Rattle.std.specs.Prelude.{◌≡◌, ◌≤◌, ◌<◌, [], length, take, Some, IfOk, OnErr};
ghost use Rattle.std.specs.Result.{is_err};
ghost use Rattle.std.specs.Io.KnownBytes.{WriteAppends};
ghost use Rattle.base_types.specs.Counts.{HasCause};
ghost use Rattle.ports.specs.MemPorts.{write_fails, write_size, after_write, after_failed_write};

use crate::{PortFault, Sink};
use base_types::FailingCalls;
use std::alloc::{AllocError, Global};
use std::marker::Model;

/// Room in memory for the bytes that go out. Writes fail where they are to, and where no room is left.
#[derive(Drop)]
pub struct MemSink {
    bytes: Vec<u8>,
    room: usize,
    most: usize,
    writes: FailingCalls,
    faults: u64,
}

impl Model for MemSink {
    ghost use Rattle.std.specs.Prelude.{◌≤◌, ◌<◌, vec_len, vec_capacity};
    ghost use Rattle.ports.specs.Views.{MemSinkView};

    ghost Value = { MemSinkView };

    ghost view = { λ s. record { sent = s.bytes.items; room = s.room; most = s.most; writes = s.writes; faults = s.faults } };

    ghost invariant = { λ s. (0 < s.most) × (vec_len s.bytes ≤ s.room) × (s.room ≤ vec_capacity s.bytes) };
}

impl MemSink {
    /// A sink with room for so many bytes in all, which takes at most `most` bytes a write. Write number i, counted
    /// from 1, fails exactly where its number is in `fails` or no room is left. All memory is taken here.
    pub fn new(
        alloc: Global,
        room: usize,
        most: usize,
        fails: Vec<u64>,
    ) -> Result<MemSink, AllocError>
        requires { 0 < most }
        ensures { IfOk result (λ sink. sink ≡ record { sent = []; room = room; most = most; writes = record { fails = fails.items; made = 0 }; faults = 0 }) }
    {
        let bytes = Vec::with_capacity(alloc, room)?;
        Ok(MemSink {
            bytes,
            room,
            most,
            writes: FailingCalls::new(fails),
            faults: 0,
        })
    }

    /// All bytes that went out.
    pub fn written(&self) -> &[u8]
        ensures { result.now ≡ self.now.sent }
    {
        &self.bytes
    }
}

impl Sink for MemSink {
    ghost sent = { λ s. Some s.sent };

    ghost fault_count = { λ s. s.faults };

    fn write(&mut self, piece: &[u8]) -> Result<usize, PortFault>
        requires { 0 < length piece.now }
        ensures bound { IfOk result (λ n. n ≤ length piece.now) }
        ensures some { IfOk result (λ n. 0 < n) }
        ensures bytes { WriteAppends (Some self.old.sent) (Some self.new.sent) result piece.now }
        ensures cause { HasCause self.old.faults self.new.faults result }
        ensures fails { is_err result ≡ write_fails self.old }
        ensures failed { OnErr result (self.new ≡ after_failed_write self.old) }
        ensures size { IfOk result (λ n. n ≡ write_size self.old (length piece.now)) }
        ensures sent { IfOk result (λ n. self.new ≡ after_write self.old (take n piece.now)) }
    {
        let listed = self.writes.count();
        let room = self.room - self.bytes.len();
        if room == 0 || listed {
            self.faults = self.faults.saturating_add(1);
            return Err(PortFault);
        }
        let count = piece.len().min(self.most.min(room));
        match self.bytes.extend_from_slice(&piece[..count]) {
            Ok(()) => Ok(count),
            Err(_) => unreachable!(),
        }
    }

    fn faults(&self) -> u64 {
        self.faults
    }
}
