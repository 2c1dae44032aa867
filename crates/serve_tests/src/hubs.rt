// Several clients over one shared chain, as a script plays them.
ghost use Rattle.std.specs.Prelude.{◌≡◌, ◌<◌, ◌+◌, ◌-◌, ◌^◌, min, length, [], Ok, true, false, if◌then◌else◌, IfOk, OnOk};
ghost use Rattle.std.specs.declared.option.Option.{Option};
ghost use Rattle.base_types.specs.Tellings.{Told};
ghost use Rattle.wire_port.specs.Wires.{WireView};
ghost use Rattle.wire_port.specs.Calls.{is_end};
ghost use Rattle.wire_port.specs.Played.{wire_of};
ghost use Rattle.plays.specs.Outcomes.{SeatsOpen};
ghost use Rattle.hub.specs.Served.{OnlyTellsOpened, OpensIn};

use base_types::Items;
use chain_model::{Bench, Board, Cable, CableFault, Chain, demo_board};
use grant_table::{Grant, Layout, Protocol, layout_fault};
use hub::Hub;
use scan_share::Parked;
use std::alloc::{AllocError, Global};
use std::marker::Model;
use std::test::Fail;
use wire_port::{Conn, Found, Poller, ScriptWire, Wire, read_script};

// A chain of devices that is not told.
#[derive(Drop)]
struct Hidden {
    chain: Chain,
    faults: u64,
}

impl Model for Hidden {
    ghost use Rattle.std.specs.Prelude.{◌≡◌, ◌<◌, ℕ, true, length};

    ghost Value = { ℕ };

    ghost view = { λ h. h.faults };

    ghost invariant = { λ h. (0 < length h.chain.chain.devices) × (h.chain.trst ≡ true) };
}

// One fault more, where there is one.
fn counted(faults: u64, failed: bool) -> u64
    ensures { result ≡ (if failed then min (faults + 1) (2 ^ 64 - 1) else faults) }
{
    if failed {
        faults.saturating_add(1)
    } else {
        faults
    }
}

impl Cable for Hidden {
    ghost use Rattle.std.specs.Prelude.{[], true, None};

    ghost chain = { λ _. None };

    ghost fault_count = { λ h. h };

    ghost ahead = { λ _. None };

    ghost mark = { λ _. [] };

    ghost trst = { λ _. true };

    fn cycles(&mut self, n: u32, tms: u64, tdi: u64) -> Result<u64, CableFault> {
        let word = self.chain.cycles(n, tms, tdi);
        self.faults = counted(self.faults, word.is_err());
        word
    }

    fn has_trst(&self) -> bool {
        true
    }

    fn reset(&mut self) -> Result<(), CableFault> {
        let done = self.chain.reset();
        self.faults = counted(self.faults, done.is_err());
        done
    }

    fn faults(&self) -> u64 {
        self.faults
    }
}

// A chain of two demo devices at power-up.
fn two_devices(alloc: Global) -> Result<Hidden, Fail> {
    let mut chain = Chain::empty();
    let first = demo_board(alloc)?;
    let second = demo_board(alloc)?;
    if chain.assemble(alloc, &[first, second], &[]).is_err() {
        return Err(Fail::from("assemble"));
    }
    Ok(Hidden { chain, faults: 0 })
}

// A grant of a device, which is counted from 1, at a port.
fn grant_of(alloc: Global, device: u16, port: u16) -> Result<Grant, AllocError> {
    let mut devices = Vec::new(alloc);
    devices.push(device)?;
    Ok(Grant {
        devices: Items::from_vec(devices),
        port,
        protocol: Protocol::Xvc,
    })
}

// A layout of two demo devices with a grant of each.
fn two_grants(alloc: Global) -> Result<Layout, Fail> {
    let mut parts = Vec::new(alloc);
    let Board { part, pins: _ } = demo_board(alloc)?;
    parts.push(part)?;
    let Board { part, pins: _ } = demo_board(alloc)?;
    parts.push(part)?;
    let mut grants = Vec::new(alloc);
    grants.push(grant_of(alloc, 1, 2542)?)?;
    grants.push(grant_of(alloc, 2, 2543)?)?;
    let nets = Vec::new(alloc);
    if layout_fault(parts.len(), &grants, &nets).is_some() {
        return Err(Fail::from("layout"));
    }
    Ok(Layout::new(alloc, parts, grants, nets)?)
}

// A hub over two demo devices with a grant of each.
fn two_seats(alloc: Global) -> Result<Hub<Hidden>, Fail>
    ensures fit { IfOk result (λ made. made.hub.broken ≡ false) }
    ensures free { IfOk result (λ made. (a : Option WireView) → Told a (SeatsOpen made.hub)) }
{
    let layout = two_grants(alloc)?;
    let cable = two_devices(alloc)?;
    match Parked::start(cable, &layout) {
        Ok(parked) => match Hub::new(alloc, layout, parked, 2048, false) {
            Ok(hub) => Ok(hub),
            Err(parked) => {
                parked.into_cable();
                Err(Fail::from("hub"))
            }
        },
        Err(broken) => {
            broken.into_cable();
            Err(Fail::from("start"))
        }
    }
}

// A wire that plays a text.
fn playing(alloc: Global, text: &str) -> Result<ScriptWire, Fail>
    ensures ports { IfOk result (λ wire. wire.play.ports ≡ []) }
    ensures over { IfOk result (λ wire. wire.play.over ≡ false) }
    ensures tells { IfOk result (λ wire. OnlyTellsOpened (wire_of wire.play)) }
{
    match read_script(alloc, text.as_bytes()) {
        Ok(script) => Ok(ScriptWire::new(alloc, script)?),
        Err(_) => Err(Fail::from("script")),
    }
}

// Serves until no session is ready.
fn settle<C: Cable, W: Wire>(hub: &mut Hub<C>, wire: &mut W) -> Result<(), Fail>
    requires fit { hub.old.hub.broken ≡ false }
    requires open { Told (W.told wire.old) (SeatsOpen hub.old.hub) }
    requires tells { Told (W.told wire.old) OnlyTellsOpened }
    ensures fit { OnOk result (hub.new.hub.broken ≡ false) }
    ensures open { OnOk result (Told (W.told wire.new) (SeatsOpen hub.new.hub)) }
    ensures tells { OnOk result (Told (W.told wire.new) OnlyTellsOpened) }
    ensures door { OnOk result (W.door wire.new ≡ W.door wire.old) }
{
    for _ in 0..100 {
        if hub.idle() {
            return Ok(());
        }
        rest(hub, wire)?;
    }
    Err(Fail::from("ready for ever"))
}

// Whether it is the end.
fn is_end(found: Found) -> bool
    ensures { result ≡ is_end (Ok found) }
{
    matches!(found, Found::End)
}

// What the next `poll` finds.
#[tactic(auto, using(hub::proofs::Polling::polled_seats, hub::proofs::Polling::polled_tells, hub::proofs::Polling::polled_in))]
fn polled<C: Cable, W: Poller>(hub: &Hub<C>, wire: &mut W) -> Result<Found, Fail>
    requires up { (W.door wire.old).up ≡ true }
    requires not_over { (W.door wire.old).over ≡ false }
    requires open { Told (W.told wire.old) (SeatsOpen hub.now.hub) }
    requires tells { Told (W.told wire.old) OnlyTellsOpened }
    ensures open { OnOk result (Told (W.told wire.new) (SeatsOpen hub.now.hub)) }
    ensures tells { OnOk result (Told (W.told wire.new) OnlyTellsOpened) }
    ensures opens { IfOk result (λ found. Told (W.told wire.new) (OpensIn found hub.now.hub)) }
    ensures up { OnOk result ((W.door wire.new).up ≡ true) }
    ensures over { IfOk result (λ found. (W.door wire.new).over ≡ is_end (Ok found)) }
{
    match wire.poll(false) {
        Ok(found) => Ok(found),
        Err(_) => Err(Fail::from("poll")),
    }
}

// Serves what was found.
#[tactic(auto, using(hub::proofs::Polling::served_tells))]
fn turn<C: Cable, W: Wire>(hub: &mut Hub<C>, wire: &mut W, found: Found) -> Result<(), Fail>
    requires fit { hub.old.hub.broken ≡ false }
    requires found { is_end (Ok found) ≡ false }
    requires opens { Told (W.told wire.old) (OpensIn found hub.old.hub) }
    requires open { Told (W.told wire.old) (SeatsOpen hub.old.hub) }
    requires tells { Told (W.told wire.old) OnlyTellsOpened }
    ensures fit { OnOk result (hub.new.hub.broken ≡ false) }
    ensures open { OnOk result (Told (W.told wire.new) (SeatsOpen hub.new.hub)) }
    ensures tells { OnOk result (Told (W.told wire.new) OnlyTellsOpened) }
    ensures door { OnOk result (W.door wire.new ≡ W.door wire.old) }
{
    match hub.turn(wire, found) {
        Ok(()) => Ok(()),
        Err(_) => Err(Fail::from("cable")),
    }
}

// Serves the sessions that are ready.
#[tactic(auto, using(hub::proofs::Polling::served_tells))]
fn rest<C: Cable, W: Wire>(hub: &mut Hub<C>, wire: &mut W) -> Result<(), Fail>
    requires fit { hub.old.hub.broken ≡ false }
    requires open { Told (W.told wire.old) (SeatsOpen hub.old.hub) }
    requires tells { Told (W.told wire.old) OnlyTellsOpened }
    ensures fit { OnOk result (hub.new.hub.broken ≡ false) }
    ensures open { OnOk result (Told (W.told wire.new) (SeatsOpen hub.new.hub)) }
    ensures tells { OnOk result (Told (W.told wire.new) OnlyTellsOpened) }
    ensures door { OnOk result (W.door wire.new ≡ W.door wire.old) }
{
    match hub.rest(wire) {
        Ok(()) => Ok(()),
        Err(_) => Err(Fail::from("cable")),
    }
}

// Serves what a `poll` finds; true where it is the end.
fn step<C: Cable, W: Poller>(hub: &mut Hub<C>, wire: &mut W) -> Result<bool, Fail>
    requires up { (W.door wire.old).up ≡ true }
    requires not_over { (W.door wire.old).over ≡ false }
    requires fit { hub.old.hub.broken ≡ false }
    requires open { Told (W.told wire.old) (SeatsOpen hub.old.hub) }
    requires tells { Told (W.told wire.old) OnlyTellsOpened }
    ensures fit { OnOk result (hub.new.hub.broken ≡ false) }
    ensures open { OnOk result (Told (W.told wire.new) (SeatsOpen hub.new.hub)) }
    ensures tells { OnOk result (Told (W.told wire.new) OnlyTellsOpened) }
    ensures up { OnOk result ((W.door wire.new).up ≡ true) }
    ensures over { IfOk result (λ ended. (W.door wire.new).over ≡ ended) }
{
    let found = polled(hub, wire)?;
    if is_end(found) {
        return Ok(true);
    }
    turn(hub, wire, found)?;
    settle(hub, wire)?;
    Ok(false)
}

// Serves all that the lines of a script say.
fn serve<C: Cable, W: Poller>(hub: &mut Hub<C>, wire: &mut W) -> Result<(), Fail>
    requires once { (W.door wire.old).ports ≡ [] }
    requires not_over { (W.door wire.old).over ≡ false }
    requires fit { hub.old.hub.broken ≡ false }
    requires open { Told (W.told wire.old) (SeatsOpen hub.old.hub) }
    requires tells { Told (W.told wire.old) OnlyTellsOpened }
{
    if wire.listen(&[2542, 2543]).is_err() {
        return Err(Fail::from("listen"));
    }
    for _ in 0..40 {
        if step(hub, wire)? {
            return Ok(());
        }
    }
    Err(Fail::from("no end"))
}

// How often a session began to wait, and the connection of the second grant's session.
#[derive(Clone, Copy, Debug, Drop, PartialEq, Eq)]
struct Outcome {
    waits: u64,
    second: Option<Conn>,
}

// The connection of the second grant's session.
fn second_conn<C: Cable>(hub: &Hub<C>) -> Option<Conn> {
    if hub.layout().grants() < 2 {
        return None;
    }
    match hub.seat(1) {
        Some((conn, _)) => Some(conn),
        None => None,
    }
}

// The outcome of what a wire plays.
fn served(alloc: Global, wire: &mut ScriptWire) -> Result<Outcome, Fail>
    requires ports { wire.old.play.ports ≡ [] }
    requires over { wire.old.play.over ≡ false }
    requires tells { OnlyTellsOpened (wire_of wire.old.play) }
{
    let mut hub = two_seats(alloc)?;
    let done = serve(&mut hub, wire);
    let waits = hub.waits();
    let second = second_conn(&hub);
    hub.finish();
    done?;
    Ok(Outcome { waits, second })
}

const UNTOUCHED: &str = "open 1 2542\nopen 2 2543
send 1 73686966743a1700000006073000a114
send 2 73686966743a17000000060730008107
send 1 73686966743a17000000060730000100
send 2 73686966743a17000000060730000100";

const HANDED_ON: &str = "open 1 2542\nopen 2 2543
send 1 73686966743a0d00000006070001
send 2 73686966743a2600000002000000180000000000
send 1 73686966743a0a0000008001a500";

const RESUMED: &str = "open 1 2542\nopen 2 2543
send 1 73686966743a0d00000006070001
send 2 73686966743a2600000002000000180000000000
send 1 73686966743a0c0000008003a500";

const DROPPED: &str = "open 1 2542\nopen 2 2543
send 1 73686966743a0d00000006070001
send 2 73686966743a2600000002000000180000000000
drop 2\nopen 3 2543
send 1 73686966743a0a0000008001a500
open 4 2543";

const SLOW: &str = "open 1 2542\nroom 1 2
send 1 676574696e666f3a\nsend 1 676574696e666f3a
room 1 all";

#[test]
fn clients_share_a_chain(rt: HostRuntime) -> Result<(), Fail> {
    let alloc = rt.alloc();
    let identified: &[u8] = b"\xff\0\xcd\xab\x31";
    let rows: [(&str, &[u8], &[u8], u64, Option<Conn>); 5] = [
        (
            UNTOUCHED,
            b"\x3f\x1e\x60\x3f\xbe\x74",
            b"\x3f\x1e\x60\x3f\x9e\x67",
            0,
            Some(2),
        ),
        (HANDED_ON, b"\x3f\x1e\0\x03", identified, 1, Some(2)),
        (RESUMED, b"\x3f\x1e\0\x0f", identified, 2, Some(2)),
        (DROPPED, b"\x3f\x1e\0\x03", &[], 1, Some(4)),
        (
            SLOW,
            b"xvcServer_v1.0:2048\nxvcServer_v1.0:2048\n",
            &[],
            0,
            None,
        ),
    ];
    for (text, first, other, waits, second) in rows {
        let mut wire = playing(alloc, text)?;
        assert_eq!(rt; served(alloc, &mut wire)?, Outcome { waits, second });
        assert_eq!(rt; wire.given(1), first);
        assert_eq!(rt; wire.given(2), other);
        assert_eq!(rt; wire.given(3), b"".as_slice());
    }
    Ok(())
}
