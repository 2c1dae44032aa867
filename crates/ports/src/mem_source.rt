// A source over bytes in memory, which gives them in pieces and fails at the reads that it was given.
ghost use Rattle.std.specs.Prelude.{◌≡◌, ◌≤◌, ◌<◌, ◌++◌, ◌-◌, min, max, length, take, drop, slice_index_or, Some, IfOk, OnErr};
ghost use Rattle.std.specs.Result.{is_err};
ghost use Rattle.std.specs.Io.{ReadsAtMost};
ghost use Rattle.std.specs.Io.KnownBytes.{ReadConsumes};
ghost use Rattle.base_types.specs.Counts.{HasCause};
ghost use Rattle.ports.specs.MemPorts.{read_fails, read_size, after_read, after_failed_read};

use crate::{PortFault, Source};
use base_types::FailingCalls;
use std::marker::Model;

/// Bytes in memory, given in pieces of fixed sizes. Reads fail where they are to.
#[derive(Drop)]
pub struct MemSource {
    bytes: Vec<u8>,
    taken: usize,
    pieces: Vec<usize>,
    reads: FailingCalls,
    faults: u64,
}

impl Model for MemSource {
    ghost use Rattle.std.specs.Prelude.{◌≤◌, drop, vec_len};
    ghost use Rattle.ports.specs.Views.{MemSourceView};

    ghost Value = { MemSourceView };

    ghost view = { λ s. record { left = drop s.taken s.bytes.items; pieces = s.pieces.items; reads = s.reads; faults = s.faults } };

    ghost invariant = { λ s. s.taken ≤ vec_len s.bytes };
}

impl MemSource {
    /// A source of these bytes. Read number i, counted from 1, gives at most `pieces[i - 1]` of them (0 counts as 1),
    /// and after the list as many as the buffer holds. It fails exactly where its number is in `fails`.
    pub fn new(bytes: Vec<u8>, pieces: Vec<usize>, fails: Vec<u64>) -> MemSource
        ensures { result ≡ record { left = bytes.items; pieces = pieces.items; reads = record { fails = fails.items; made = 0 }; faults = 0 } }
    {
        MemSource {
            bytes,
            taken: 0,
            pieces,
            reads: FailingCalls::new(fails),
            faults: 0,
        }
    }
}

// How many bytes read number `call` may give, or `all` after the list.
fn piece_limit(pieces: &[usize], call: u64, all: usize) -> usize
    ensures { result ≡ max 1 (slice_index_or pieces.now (call - 1) all) }
{
    let index = call.saturating_sub(1) as usize;
    pieces.get(index).copied().unwrap_or(all).max(1)
}

// Copies as many bytes of the front as both hold, and at most `most`.
fn copy_front(from: &[u8], to: &mut [u8], most: usize) -> usize
    ensures count { result ≡ min (length from.now) (min (length to.old) most) }
    ensures copied { to.new ≡ take result from.now ++ drop result to.old }
{
    let count = from.len().min(to.len().min(most));
    to[..count].copy_from_slice(&from[..count]);
    count
}

impl Source for MemSource {
    ghost left = { λ s. Some s.left };

    ghost fault_count = { λ s. s.faults };

    fn read(&mut self, buf: &mut [u8]) -> Result<usize, PortFault>
        requires { 0 < length buf.old }
        ensures bound { ReadsAtMost result buf.new }
        ensures bytes { ReadConsumes (Some self.old.left) (Some self.new.left) result buf.new }
        ensures cause { HasCause self.old.faults self.new.faults result }
        ensures fails { is_err result ≡ read_fails self.old }
        ensures failed { OnErr result (self.new ≡ after_failed_read self.old) }
        ensures unread { OnErr result (buf.new ≡ buf.old) }
        ensures size { IfOk result (λ n. n ≡ read_size self.old (length buf.old)) }
        ensures taken { IfOk result (λ n. self.new ≡ after_read self.old n) }
        ensures given { IfOk result (λ n. buf.new ≡ take n self.old.left ++ drop n buf.old) }
    {
        if self.reads.count() {
            self.faults = self.faults.saturating_add(1);
            return Err(PortFault);
        }
        let most = piece_limit(&self.pieces, self.reads.made(), buf.len());
        let (_, left) = self.bytes.split_at(self.taken);
        let count = copy_front(left, buf, most);
        self.taken += count;
        Ok(count)
    }

    fn faults(&self) -> u64 {
        self.faults
    }
}
