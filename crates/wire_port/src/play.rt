// A script that is played, line by line.
ghost use Rattle.std.specs.Prelude.{◌≡◌, ◌<◌, ◌≤◌, ◌+◌, ◌++◌, ◌∷◌, [], length, map, false, true, Ok, IfOk, if◌then◌else◌, vec_len, vec_capacity};
ghost use Rattle.std.specs.Result.{is_ok, is_err};
ghost use Rattle.base_types.specs.Calls.{after_call};
ghost use Rattle.base_types.specs.Counts.{HasCause};
ghost use Rattle.wire_port.specs.Steps.{taken_from};
ghost use Rattle.wire_port.specs.Offers.{lines_open_once, peer_of, take_answer, limited_answer};
ghost use Rattle.wire_port.specs.Calls as c;
ghost use Rattle.wire_port.specs.Scripts.{line_of};
ghost use Rattle.wire_port.specs.Slots.{peers_of};
ghost use Rattle.wire_port.specs.Playing.{IsPlay, opened_in};
ghost use Rattle.wire_port.specs.Played as p;

use crate::log::StepLog;
use crate::ready::all_offers;
use crate::script::Line;
use crate::slots::Slots;
use crate::{Conn, Found, Given, PollFault, Taken};
use base_types::FailingCalls;
use std::alloc::{AllocError, Global};
use std::marker::Model;

/// The lines of a script and how many of them were played, with the connections and the steps.
#[derive(Drop)]
pub struct Play {
    lines: Vec<Line>,
    played: usize,
    slots: Slots,
    log: StepLog,
    opened: Vec<(Conn, u16)>,
    calls: FailingCalls,
    faults: u64,
    ports: Vec<u16>,
    up: bool,
    over: bool,
}

impl Model for Play {
    ghost use Rattle.std.specs.Prelude.{◌≤◌, ◌+◌, length, drop, map, vec_len, vec_capacity};
    ghost use Rattle.wire_port.specs.Scripts.{line_of};
    ghost use Rattle.wire_port.specs.Played.{PlayView};
    ghost use Rattle.wire_port.specs.Playing.{FitsPlay};

    ghost Value = { PlayView };

    ghost view = { λ play. record {
      lines = map line_of (drop play.played play.lines.items);
      slots = play.slots;
      log = play.log;
      opened = play.opened.items;
      calls = play.calls;
      faults = play.faults;
      ports = play.ports.items;
      up = play.up;
      over = play.over;
    } };

    ghost invariant = { λ play. FitsPlay play.lines play.played play.log play.slots play.opened play.ports };
}

// Plays the next line.
fn next_line(
    lines: &[Line],
    slots: &mut Slots,
    log: &mut StepLog,
    opened: &mut Vec<(Conn, u16)>,
) -> Found
    requires play { IsPlay (map line_of lines.now) log.old slots.old.links slots.old.waiting opened.old.items }
    requires memory { vec_len opened.old + length slots.old.waiting ≤ vec_capacity opened.old }
    ensures found { result ≡ p.line_found (peers_of slots.old.links) (map line_of lines.now) }
    ensures peers { peers_of slots.new.links ≡ p.line_peers (peers_of slots.old.links) (map line_of lines.now) }
    ensures wire { p.told_of log.new slots.new.links ≡ c.after_poll (Ok result) (p.told_of log.old slots.old.links) }
    ensures fresh { c.OpensFresh (Ok result) (p.told_of log.old slots.old.links) }
    ensures play { IsPlay (p.lines_behind (map line_of lines.now)) log.new slots.new.links slots.new.waiting opened.new.items }
    ensures memory { vec_len opened.new + length slots.new.waiting ≤ vec_capacity opened.new }
{
    let Some((line, _)) = lines.split_first() else {
        return Found::End;
    };
    match line {
        Line::Open(conn, port) => {
            let conn = Conn::from(*conn);
            let _ = slots.open();
            log.opened(conn, *port);
            push_opened(opened, conn, *port);
            Found::Opened(conn, *port)
        }
        Line::Send(conn, bytes) => {
            let conn = Conn::from(*conn);
            if slots.is_shut(conn) {
                return Found::Nothing;
            }
            slots.offer(conn, bytes);
            Found::Ready(conn)
        }
        Line::Drop(conn) => {
            let conn = Conn::from(*conn);
            if slots.is_shut(conn) {
                return Found::Nothing;
            }
            slots.drop_peer(conn);
            Found::Ready(conn)
        }
        Line::Room(conn, room) => {
            let conn = Conn::from(*conn);
            if slots.is_shut(conn) {
                return Found::Nothing;
            }
            slots.set_room(conn, room_of(*room));
            Found::Room(conn)
        }
    }
}

// A room of a line.
fn room_of(room: Option<u32>) -> Option<usize>
    ensures { result ≡ room }
{
    match room {
        Some(count) => Some(count as usize),
        None => None,
    }
}

// Puts a connection and its port behind the others.
fn push_opened(opened: &mut Vec<(Conn, u16)>, conn: Conn, port: u16)
    requires { vec_len opened.old < vec_capacity opened.old }
    ensures items { opened.new.items ≡ opened.old.items ++ (conn, port) ∷ [] }
    ensures len { vec_len opened.new ≡ vec_len opened.old + 1 }
    ensures capacity { vec_capacity opened.old ≤ vec_capacity opened.new }
{
    match opened.push((conn, port)) {
        Ok(()) => {}
        Err(_) => unreachable!(),
    }
}

impl Play {
    // All memory is made here.
    pub fn new(alloc: Global, lines: Vec<Line>, fails: Vec<u64>) -> Result<Play, AllocError>
        requires { lines_open_once (map line_of lines.items) ≡ true }
        ensures { IfOk result (p.IsNew (map line_of lines.items) fails.items) }
    {
        let slots = Slots::ready(alloc, &lines)?;
        let opens = slots.waiting();
        let sent = all_offers(&lines)?;
        let Some(told) = opens.checked_mul(3) else {
            return Err(AllocError);
        };
        let Some(room) = sent.checked_add(told) else {
            return Err(AllocError);
        };
        let log = StepLog::with_room(alloc, room, sent)?;
        let opened = Vec::with_capacity(alloc, opens)?;
        let ports = Vec::with_capacity(alloc, 16)?;
        Ok(Play {
            lines,
            played: 0,
            slots,
            log,
            opened,
            calls: FailingCalls::new(fails),
            faults: 0,
            ports,
            up: false,
            over: false,
        })
    }

    pub fn take(&mut self, conn: Conn, buf: &mut [u8]) -> Taken
        requires some { 0 < length buf.old }
        requires open { c.IsOpen conn (p.wire_of self.old) }
        ensures bound { c.TakenWithin result (length buf.new) }
        ensures wire { p.wire_of self.new ≡ c.after_take conn (c.take_answered result buf.new) (p.wire_of self.old) }
        ensures answer { c.take_answered result buf.new ≡ take_answer (length buf.old) (peer_of (p.peers_in self.old) conn) }
        ensures peers { p.peers_in self.new ≡ c.peers_after_take conn (c.take_answered result buf.new) (p.peers_in self.old) }
        ensures door { p.door_of self.new ≡ p.door_of self.old }
        ensures faults { self.new.faults ≡ self.old.faults }
        ensures lines { self.new.lines ≡ self.old.lines }
        ensures calls { self.new.calls ≡ self.old.calls }
        ensures sound { c.IsWire (p.wire_of self.new) }
    {
        let answer = self.slots.take(conn, buf);
        self.log.after_take(conn, answer, buf);
        answer
    }

    pub fn give(&mut self, conn: Conn, piece: &[u8]) -> Given
        requires some { 0 < length piece.now }
        requires open { c.IsOpen conn (p.wire_of self.old) }
        ensures bound { c.GivenWithin result (length piece.now) }
        ensures wire { p.wire_of self.new ≡ c.after_give conn (length piece.now) (c.give_answered result piece.now) (p.wire_of self.old) }
        ensures answer { c.give_answered result piece.now ≡ limited_answer (taken_from conn (p.wire_of self.old).steps) piece.now (peer_of (p.peers_in self.old) conn) }
        ensures peers { p.peers_in self.new ≡ c.peers_after_give conn piece.now (c.give_answered result piece.now) (p.peers_in self.old) }
        ensures door { p.door_of self.new ≡ p.door_of self.old }
        ensures faults { self.new.faults ≡ self.old.faults }
        ensures lines { self.new.lines ≡ self.old.lines }
        ensures calls { self.new.calls ≡ self.old.calls }
        ensures sound { c.IsWire (p.wire_of self.new) }
    {
        let answer = self.slots.give(conn, piece);
        self.log.after_give(conn, answer, piece);
        answer
    }

    pub fn shut(&mut self, conn: Conn)
        requires open { c.CanBeShut conn (p.wire_of self.old) }
        ensures wire { p.wire_of self.new ≡ c.after_shut conn (p.wire_of self.old) }
        ensures peers { p.peers_in self.new ≡ c.peers_after_shut conn (p.peers_in self.old) }
        ensures door { p.door_of self.new ≡ p.door_of self.old }
        ensures faults { self.new.faults ≡ self.old.faults }
        ensures lines { self.new.lines ≡ self.old.lines }
        ensures calls { self.new.calls ≡ self.old.calls }
        ensures sound { c.IsWire (p.wire_of self.new) }
    {
        self.slots.shut(conn);
        self.log.shut(conn);
    }

    pub fn listen(&mut self, ports: &[u16]) -> Result<(), PollFault>
        requires once { self.old.ports ≡ [] }
        requires down { self.old.up ≡ false }
        requires few { length ports.now ≤ 16 }
        ensures wire { p.wire_of self.new ≡ p.wire_of self.old }
        ensures peers { p.peers_in self.new ≡ p.peers_in self.old }
        ensures door { p.door_of self.new ≡ record (p.door_of self.old) { ports = ports.now; up = is_ok result } }
        ensures cause { HasCause self.old.faults self.new.faults result }
        ensures fails { is_err result ≡ p.fails_next self.old }
        ensures faults { self.new.faults ≡ p.faults_after (is_err result) self.old.faults }
        ensures calls { self.new.calls ≡ after_call self.old.calls }
        ensures lines { self.new.lines ≡ self.old.lines }
        ensures sound { c.IsWire (p.wire_of self.new) }
    {
        match self.ports.extend_from_slice(ports) {
            Ok(()) => {}
            Err(_) => unreachable!(),
        }
        if self.calls.count() {
            self.faults = self.faults.saturating_add(1);
            return Err(PollFault);
        }
        self.up = true;
        Ok(())
    }

    pub fn poll(&mut self) -> Result<Found, PollFault>
        requires not_over { self.old.over ≡ false }
        ensures wire { p.wire_of self.new ≡ c.after_poll result (p.wire_of self.old) }
        ensures fresh { c.OpensFresh result (p.wire_of self.old) }
        ensures found { IfOk result (λ found. found ≡ p.line_found (p.peers_in self.old) self.old.lines) }
        ensures peers { p.peers_in self.new ≡ (if is_err result then p.peers_in self.old else p.line_peers (p.peers_in self.old) self.old.lines) }
        ensures lines { self.new.lines ≡ (if is_err result then self.old.lines else p.lines_behind self.old.lines) }
        ensures door { p.door_of self.new ≡ record (p.door_of self.old) { over = c.is_end result } }
        ensures cause { HasCause self.old.faults self.new.faults result }
        ensures fails { is_err result ≡ p.fails_next self.old }
        ensures faults { self.new.faults ≡ p.faults_after (is_err result) self.old.faults }
        ensures calls { self.new.calls ≡ after_call self.old.calls }
        ensures sound { c.IsWire (p.wire_of self.new) }
    {
        if self.calls.count() {
            self.faults = self.faults.saturating_add(1);
            return Err(PollFault);
        }
        let (_, lines) = self.lines.split_at(self.played);
        let found = next_line(lines, &mut self.slots, &mut self.log, &mut self.opened);
        self.played = self.lines.len().min(self.played + 1);
        self.over = matches!(found, Found::End);
        Ok(found)
    }

    pub fn faults(&self) -> u64
        ensures { result ≡ self.now.faults }
    {
        self.faults
    }

    pub fn opened(&self) -> &[(Conn, u16)]
        ensures { result.now ≡ opened_in self.now.log.steps }
    {
        &self.opened
    }

    pub fn given(&self, conn: Conn) -> &[u8]
        ensures { result.now ≡ (p.wire_of self.now).given conn }
    {
        match self.slots.link(conn) {
            Some(link) => link.given(),
            None => &[],
        }
    }

    pub fn took(&self, conn: Conn) -> u64
        ensures { result ≡ taken_from conn self.now.log.steps }
    {
        let taken = match self.slots.link(conn) {
            Some(link) => link.taken(),
            None => 0,
        };
        taken as u64
    }
}
