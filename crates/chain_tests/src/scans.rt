// Scans of chains of demo devices: the cycles that they make, what they read and leave, and what comes of a call that fails.
ghost use Rattle.std.specs.Prelude.{◌≡◌, ◌≤◌, ◌<◌, [], ◌∷◌, true, None, length, IfOk};
ghost use Rattle.grant_table.specs.Layouts.{group_of};
ghost use Rattle.scan_share.specs.PrivateChains.{entries_at};
ghost use Rattle.scan_share.specs.Codes.{AreCodes};
ghost use Rattle.scan_share.specs.Views.{IsLoadedFor};

use base_types::Items;
use chain_model::{Bench, Board, Cable, CableFault, Chain, demo_board};
use grant_table::{Grant, Layout, Protocol, layout_fault};
use scan_bits::Bits;
use scan_share::{Open, Parked, are_codes, own_width};
use std::alloc::{AllocError, Global};
use std::marker::Model;
use std::test::Fail;

// A cable over a chain that it does not tell. It counts its calls of `cycles`, of which one fails, and the cycles that were made.
#[derive(Drop)]
struct Probe {
    chain: Chain,
    devices: usize,
    calls: u64,
    made: u64,
    failing: u64,
    faults: u64,
}

impl Model for Probe {
    ghost use Rattle.std.specs.Prelude.{◌≡◌, ◌≤◌, ℕ, true, length};

    ghost Value = { ℕ };

    ghost view = { λ p. p.faults };

    ghost invariant = { λ p. (p.devices ≤ length p.chain.chain.devices) × (p.chain.trst ≡ true) };
}

impl Probe {
    // How often registers of a device were captured and updated.
    fn counts(&self, device: usize) -> (u64, u64) {
        if device >= self.devices {
            return (0, 0);
        }
        (self.chain.captures(device), self.chain.updates(device))
    }
}

impl Cable for Probe {
    ghost chain = { λ _. None };

    ghost fault_count = { λ p. p };

    ghost ahead = { λ _. None };

    ghost mark = { λ _. [] };

    ghost trst = { λ _. true };

    fn cycles(&mut self, n: u32, tms: u64, tdi: u64) -> Result<u64, CableFault> {
        self.calls = self.calls.saturating_add(1);
        if self.devices == 0 || self.calls == self.failing {
            self.faults = self.faults.saturating_add(1);
            return Err(CableFault);
        }
        match self.chain.cycles(n, tms, tdi) {
            Ok(word) => {
                self.made = self.made.saturating_add(u64::from(n));
                Ok(word)
            }
            Err(fault) => {
                self.devices = 0;
                self.faults = self.faults.saturating_add(1);
                Err(fault)
            }
        }
    }

    fn has_trst(&self) -> bool {
        true
    }

    fn reset(&mut self) -> Result<(), CableFault> {
        if self.devices == 0 {
            self.faults = self.faults.saturating_add(1);
            return Err(CableFault);
        }
        match self.chain.reset() {
            Ok(()) => Ok(()),
            Err(fault) => {
                self.devices = 0;
                self.faults = self.faults.saturating_add(1);
                Err(fault)
            }
        }
    }

    fn faults(&self) -> u64 {
        self.faults
    }
}

// This chain at power-up, of so many devices, behind a cable of which this call of `cycles` fails, counted from 1.
fn over(chain: Chain, devices: usize, failing: u64) -> Probe
    requires devices { devices ≤ length chain.chain.devices }
    requires trst { chain.trst ≡ true }
{
    Probe {
        chain,
        devices,
        calls: 0,
        made: 0,
        failing,
        faults: 0,
    }
}

// A chain of one demo device.
fn one_device(alloc: Global) -> Result<Probe, AllocError> {
    let mut chain = Chain::empty();
    let board = demo_board(alloc)?;
    if chain.assemble(alloc, &[board], &[]).is_err() {
        return Err(AllocError);
    }
    Ok(over(chain, 1, 0))
}

// A chain of two demo devices.
fn two_devices(alloc: Global, failing: u64) -> Result<Probe, AllocError> {
    let mut chain = Chain::empty();
    let first = demo_board(alloc)?;
    let second = demo_board(alloc)?;
    if chain.assemble(alloc, &[first, second], &[]).is_err() {
        return Err(AllocError);
    }
    Ok(over(chain, 2, failing))
}

// A grant of one device.
fn grant(alloc: Global, device: u16) -> Result<Grant, AllocError> {
    let mut devices = Vec::new(alloc);
    devices.push(device)?;
    Ok(Grant {
        devices: Items::from_vec(devices),
        port: 2542,
        protocol: Protocol::Xvc,
    })
}

// A layout of so many demo devices, each of a grant of its own.
fn layout_of(alloc: Global, devices: u16) -> Result<Layout, AllocError> {
    let mut parts = Vec::new(alloc);
    let mut grants = Vec::new(alloc);
    for device in 0..devices {
        let Board { part, pins: _ } = demo_board(alloc)?;
        parts.push(part)?;
        let mut grant = grant(alloc, device.saturating_add(1))?;
        grant.port = device.saturating_add(2542);
        grants.push(grant)?;
    }
    let nets = Vec::new(alloc);
    if layout_fault(parts.len(), &grants, &nets).is_some() {
        return Err(AllocError);
    }
    Layout::new(alloc, parts, grants, nets)
}

// These bits of a word.
fn bits(alloc: Global, count: u32, word: u64) -> Result<Bits, AllocError>
    requires { count ≤ 64 }
{
    let mut bits = Bits::with_room(alloc, count as usize)?;
    bits.push_word(count, word);
    Ok(bits)
}

fn started(probe: Probe, layout: &Layout) -> Result<Parked<Probe>, Probe> {
    match Parked::start(probe, layout) {
        Ok(parked) => Ok(parked),
        Err(broken) => Err(broken.into_cable()),
    }
}

// A capture for a grant of one device. The cable alone where the word is no code or its bits have no room, or where a call failed.
fn captured(
    parked: Parked<Probe>,
    layout: &Layout,
    grant: usize,
    code: u64,
    into: &mut Bits,
) -> Result<Open<Probe>, Probe>
    ensures grant { IfOk result (λ _. grant < length layout.now.grants) }
    ensures codes { IfOk result (λ _. AreCodes (entries_at layout.now.parts (group_of layout.now.grants grant)) (code ∷ [])) }
    ensures loaded { IfOk result (λ held. IsLoadedFor layout.now grant (code ∷ []) held.loaded) }
{
    let codes = [code];
    if grant >= layout.grants() || !are_codes(layout, grant, &codes) {
        return Err(parked.into_cable());
    }
    if own_width(layout, grant, &codes) > into.room() {
        return Err(parked.into_cable());
    }
    match parked.capture(layout, grant, &codes, into) {
        Ok(open) => Ok(open),
        Err(broken) => Err(broken.into_cable()),
    }
}

// A capture for a grant of one device, and an update from these bits where they are as many.
fn scanned(
    parked: Parked<Probe>,
    layout: &Layout,
    grant: usize,
    code: u64,
    bits: &Bits,
    into: &mut Bits,
) -> Result<Parked<Probe>, Probe> {
    let open = captured(parked, layout, grant, code, into)?;
    let codes = [code];
    if own_width(layout, grant, &codes) != bits.len() {
        return Err(open.leave());
    }
    match open.update(layout, grant, &codes, bits) {
        Ok(parked) => Ok(parked),
        Err(broken) => Err(broken.into_cable()),
    }
}

// A start, a capture and an update for each of these grants, and a capture for the last one where there is one. The cable comes back
// as an error where a call failed.
fn run(
    probe: Probe,
    layout: &Layout,
    scans: &[usize],
    last: Option<usize>,
    code: u64,
    bits: &Bits,
    into: &mut Bits,
) -> Result<Probe, Probe> {
    let mut parked = started(probe, layout)?;
    for grant in scans {
        parked = scanned(parked, layout, *grant, code, bits, into)?;
    }
    match last {
        None => Ok(parked.into_cable()),
        Some(grant) => {
            let open = captured(parked, layout, grant, code, into)?;
            Ok(open.leave())
        }
    }
}

// How many cycles a run made, 0 where a call failed.
fn made(ran: Result<Probe, Probe>) -> u64 {
    match ran {
        Ok(probe) => probe.made,
        Err(_) => 0,
    }
}

// Under 1000, the code of USER1, a scan has 9 bits. The register USER captures what it was updated with.
#[test]
fn two_grants_share_a_chain(rt: HostRuntime) -> Result<(), Fail> {
    let alloc = rt.alloc();
    let layout = layout_of(alloc, 2)?;
    let user = bits(alloc, 8, 0xa5)?;
    let mut into = Bits::with_room(alloc, 8)?;
    let two = two_devices(alloc, 0)?;
    assert_eq!(rt; made(run(two, &layout, &[], None, 8, &user, &mut into)), 6);
    let two = two_devices(alloc, 0)?;
    assert_eq!(rt;
        made(run(two, &layout, &[], Some(0), 8, &user, &mut into)),
        32
    );
    assert_eq!(rt; into.len(), 8);
    assert_eq!(rt; into.word(0, 8), 0);
    let two = two_devices(alloc, 0)?;
    assert_eq!(rt;
        made(run(two, &layout, &[0], None, 8, &user, &mut into)),
        45
    );
    let two = two_devices(alloc, 0)?;
    assert_eq!(rt;
        made(run(two, &layout, &[0], Some(0), 8, &user, &mut into)),
        58
    );
    assert_eq!(rt; into.len(), 8);
    assert_eq!(rt; into.word(0, 8), 0xa5);
    let two = two_devices(alloc, 0)?;
    assert_eq!(rt;
        made(run(two, &layout, &[0, 0], None, 8, &user, &mut into)),
        71
    );
    let two = two_devices(alloc, 0)?;
    assert_eq!(rt;
        made(run(two, &layout, &[0, 0], Some(1), 8, &user, &mut into)),
        97
    );
    assert_eq!(rt; into.len(), 8);
    assert_eq!(rt; into.word(0, 8), 0);
    Ok(())
}

// Each device's counts of captures and updates, after a scan for the first.
#[test]
fn other_devices_are_untouched(rt: HostRuntime) -> Result<(), Fail> {
    let alloc = rt.alloc();
    let layout = layout_of(alloc, 2)?;
    let user = bits(alloc, 8, 0xa5)?;
    let mut into = Bits::with_room(alloc, 8)?;
    let two = two_devices(alloc, 0)?;
    let (Ok(probe) | Err(probe)) = run(two, &layout, &[0], None, 8, &user, &mut into);
    let (captures, updates) = probe.counts(0);
    assert_eq!(rt; captures, 1);
    assert_eq!(rt; updates, 1);
    let (captures, updates) = probe.counts(1);
    assert_eq!(rt; captures, 0);
    assert_eq!(rt; updates, 0);
    Ok(())
}

// Test-Logic-Reset loaded 0010, the code of IDCODE, so that no instruction scan is needed.
#[test]
fn a_loaded_code_is_not_loaded_again(rt: HostRuntime) -> Result<(), Fail> {
    let alloc = rt.alloc();
    let layout = layout_of(alloc, 1)?;
    let zeros = bits(alloc, 32, 0)?;
    let mut into = Bits::with_room(alloc, 32)?;
    let one = one_device(alloc)?;
    assert_eq!(rt; made(run(one, &layout, &[], None, 2, &zeros, &mut into)), 6);
    let one = one_device(alloc)?;
    assert_eq!(rt;
        made(run(one, &layout, &[], Some(0), 2, &zeros, &mut into)),
        42
    );
    assert_eq!(rt; into.len(), 32);
    assert_eq!(rt; into.word(0, 32), 0x1abc_d00f);
    let one = one_device(alloc)?;
    assert_eq!(rt;
        made(run(one, &layout, &[0], None, 2, &zeros, &mut into)),
        78
    );
    Ok(())
}

// A start, a capture and an update for one grant call the cable nine times. Whichever fails, no call comes after it.
#[test]
fn any_call_may_fail(rt: HostRuntime) -> Result<(), Fail> {
    let alloc = rt.alloc();
    let layout = layout_of(alloc, 2)?;
    let user = bits(alloc, 8, 0xa5)?;
    let mut into = Bits::with_room(alloc, 8)?;
    for failing in 1..=9 {
        let two = two_devices(alloc, failing)?;
        let ran = run(two, &layout, &[0], None, 8, &user, &mut into);
        assert!(rt; ran.is_err());
        let (Ok(probe) | Err(probe)) = ran;
        assert_eq!(rt; probe.calls, failing);
        assert_eq!(rt; probe.faults, 1);
    }
    let two = two_devices(alloc, 10)?;
    let ran = run(two, &layout, &[0], None, 8, &user, &mut into);
    assert!(rt; ran.is_ok());
    Ok(())
}

// A scan, and a capture that is abandoned. Then, where it is to be so, another capture.
fn abandoned(
    probe: Probe,
    layout: &Layout,
    again: bool,
    bits: &Bits,
    into: &mut Bits,
) -> Result<Probe, Probe> {
    let parked = scanned(started(probe, layout)?, layout, 0, 8, bits, into)?;
    let open = captured(parked, layout, 0, 8, into)?;
    let parked = match open.abandon(layout) {
        Ok(parked) => parked,
        Err(broken) => return Err(broken.into_cable()),
    };
    if !again {
        return Ok(parked.into_cable());
    }
    let open = captured(parked, layout, 0, 8, into)?;
    Ok(open.leave())
}

// One cycle more, and nothing is updated. The next capture loads the codes again.
#[test]
fn a_capture_is_abandoned(rt: HostRuntime) -> Result<(), Fail> {
    let alloc = rt.alloc();
    let layout = layout_of(alloc, 2)?;
    let user = bits(alloc, 8, 0xa5)?;
    let mut into = Bits::with_room(alloc, 8)?;
    let two = two_devices(alloc, 0)?;
    let (Ok(probe) | Err(probe)) = abandoned(two, &layout, false, &user, &mut into);
    assert_eq!(rt; probe.made, 59);
    let (captures, updates) = probe.counts(0);
    assert_eq!(rt; captures, 2);
    assert_eq!(rt; updates, 1);
    let two = two_devices(alloc, 0)?;
    assert_eq!(rt; made(abandoned(two, &layout, true, &user, &mut into)), 85);
    assert_eq!(rt; into.len(), 8);
    assert_eq!(rt; into.word(0, 8), 0xa5);
    Ok(())
}
