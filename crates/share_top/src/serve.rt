// The command `serve`: the sessions of all grants, over a polled wire.
ghost use Rattle.std.specs.Prelude.{◌≡◌, ℕ, [], true};
ghost use Rattle.base_types.specs.Tellings.{Told};
ghost use Rattle.chain_model.specs.Cables.{empty_chain};
ghost use Rattle.hub.specs.Resting.{Rests};
ghost use Rattle.hub.specs.Standing.{HubStands};
ghost use Rattle.hub_server.specs.Serving as serving;
ghost use Rattle.scan_share.specs.Scans.{Starts};
ghost use Rattle.setup_read.specs.declared.setup.Setup.{Setup};
ghost use Rattle.setup_read.specs.Setups.{IsWhole};
ghost use Rattle.share_top.specs.Pipes.{uses_trst, whole_chain};
ghost use Rattle.share_top.specs.Serves.{HasNoSteps, ServeCauses, Serves, ServesSetup, WhereTold, setting_of};
ghost use Rattle.share_top.specs.Sessions.{IsSound};
ghost use Rattle.share_top.specs.Setups.{LoadsListed};

use crate::pipe::{lacks_trst, sound, uses_trst};
use crate::serve_outcome::ServeOutcome;
use crate::setup::load_setup;
use chain_model::{AssembleFault, Bench};
use hub::Hub;
use hub_server::ServeFault;
use ports::{Shelf, Sink};
use scan_share::Parked;
use setup_read::Setup;
use std::alloc::Global;
use std::sync::Wait;
use wire_port::Poller;

/// What a run of `serve` leaves, before its last line is written: what it comes to, and the bench.
pub struct ServedAll<B> {
    pub outcome: ServeOutcome,
    pub bench: B,
}

// Serves the hub, and hands the bench back.
fn serve_to_end<R: Wait, B: Bench, W: Poller, O: Sink>(
    rt: &R,
    hub: Hub<B>,
    wire: &mut W,
    out: &mut O,
) -> ServedAll<B>
    requires sound { serving.IsSound hub.hub (W.told wire.old) }
    requires once { (W.door wire.old).ports ≡ [] }
    requires unstepped { Told (W.told wire.old) HasNoSteps }
    requires rests { Told (W.told wire.old) (Rests hub.hub) }
    ensures ran { (setup : Setup) → hub.hub.layout ≡ setup.layout → WhereTold (B.chain hub.cable) (W.told wire.old) (HubStands (setting_of setup) hub.hub (B.chain hub.cable) (W.told wire.old))
        → ServesSetup result.outcome setup (record { chain = B.chain hub.cable; wire = W.told wire.old; door = W.door wire.old; sent = O.sent out.old }) (record { chain = B.chain result.bench; wire = W.told wire.new; door = W.door wire.new; sent = O.sent out.new }) }
    ensures mark { B.mark result.bench ≡ B.mark hub.cable }
    ensures causes { (shelf : ℕ) → ServeCauses result.outcome (record { shelf = shelf; poller = W.fault_count wire.old; cable = B.fault_count hub.cable; sink = O.fault_count out.old }) (record { shelf = shelf; poller = W.fault_count wire.new; cable = B.fault_count result.bench; sink = O.fault_count out.new }) }
{
    let mut hub = hub;
    match hub_server::serve(rt, &mut hub, wire, out) {
        Ok(()) => ServedAll {
            outcome: ServeOutcome::Ended,
            bench: hub.finish(),
        },
        Err(fault) => ServedAll {
            outcome: ServeOutcome::Faulted(fault),
            bench: hub.finish(),
        },
    }
}

// Makes the sessions over the chain at rest, and serves them.
fn serve_parked<R: Wait, B: Bench, W: Poller, O: Sink>(
    rt: &R,
    alloc: Global,
    setup: Setup,
    parked: Parked<B>,
    wire: &mut W,
    out: &mut O,
) -> ServedAll<B>
    requires whole { IsWhole setup }
    requires sound { IsSound setup }
    requires trst { uses_trst setup ≡ true → B.trst parked.cable ≡ true }
    requires started { Told (B.chain parked.cable) (Starts setup.layout (whole_chain setup)) }
    requires once { (W.door wire.old).ports ≡ [] }
    requires unstepped { Told (W.told wire.old) HasNoSteps }
    ensures ran { ServesSetup result.outcome setup (record { chain = B.chain parked.cable; wire = W.told wire.old; door = W.door wire.old; sent = O.sent out.old }) (record { chain = B.chain result.bench; wire = W.told wire.new; door = W.door wire.new; sent = O.sent out.new }) }
    ensures mark { B.mark result.bench ≡ B.mark parked.cable }
    ensures causes { (shelf : ℕ) → ServeCauses result.outcome (record { shelf = shelf; poller = W.fault_count wire.old; cable = B.fault_count parked.cable; sink = O.fault_count out.old }) (record { shelf = shelf; poller = W.fault_count wire.new; cable = B.fault_count result.bench; sink = O.fault_count out.new }) }
{
    let trst = uses_trst(&setup);
    match Hub::new(alloc, setup.layout, parked, setup.vector, trst) {
        Ok(hub) => serve_to_end(rt, hub, wire, out),
        Err(parked) => ServedAll {
            outcome: ServeOutcome::Memory,
            bench: parked.into_cable(),
        },
    }
}

// Brings the chain to rest, and serves the sessions over it.
fn serve_powered<R: Wait, B: Bench, W: Poller, O: Sink>(
    rt: &R,
    alloc: Global,
    setup: Setup,
    bench: B,
    wire: &mut W,
    out: &mut O,
) -> ServedAll<B>
    requires whole { IsWhole setup }
    requires sound { IsSound setup }
    requires trst { uses_trst setup ≡ true → B.trst bench ≡ true }
    requires powered { Told (B.chain bench) (λ chain. chain ≡ whole_chain setup) }
    requires once { (W.door wire.old).ports ≡ [] }
    requires unstepped { Told (W.told wire.old) HasNoSteps }
    ensures ran { ServesSetup result.outcome setup (record { chain = B.chain bench; wire = W.told wire.old; door = W.door wire.old; sent = O.sent out.old }) (record { chain = B.chain result.bench; wire = W.told wire.new; door = W.door wire.new; sent = O.sent out.new }) }
    ensures mark { B.mark result.bench ≡ B.mark bench }
    ensures causes { (shelf : ℕ) → ServeCauses result.outcome (record { shelf = shelf; poller = W.fault_count wire.old; cable = B.fault_count bench; sink = O.fault_count out.old }) (record { shelf = shelf; poller = W.fault_count wire.new; cable = B.fault_count result.bench; sink = O.fault_count out.new }) }
{
    match Parked::start(bench, &setup.layout) {
        Ok(parked) => serve_parked(rt, alloc, setup, parked, wire, out),
        Err(broken) => ServedAll {
            outcome: ServeOutcome::Faulted(ServeFault::Cable),
            bench: broken.into_cable(),
        },
    }
}

// Assembles the chain, and serves the sessions of all grants over it.
fn serve_setup<R: Wait, B: Bench, W: Poller, O: Sink>(
    rt: &R,
    alloc: Global,
    setup: Setup,
    bench: B,
    wire: &mut W,
    out: &mut O,
) -> ServedAll<B>
    requires whole { IsWhole setup }
    requires trst { uses_trst setup ≡ true → B.trst bench ≡ true }
    requires empty { Told (B.chain bench) (λ chain. chain ≡ empty_chain) }
    requires once { (W.door wire.old).ports ≡ [] }
    requires unstepped { Told (W.told wire.old) HasNoSteps }
    ensures ran { ServesSetup result.outcome setup (record { chain = B.chain bench; wire = W.told wire.old; door = W.door wire.old; sent = O.sent out.old }) (record { chain = B.chain result.bench; wire = W.told wire.new; door = W.door wire.new; sent = O.sent out.new }) }
    ensures mark { B.mark result.bench ≡ B.mark bench }
    ensures causes { (shelf : ℕ) → ServeCauses result.outcome (record { shelf = shelf; poller = W.fault_count wire.old; cable = B.fault_count bench; sink = O.fault_count out.old }) (record { shelf = shelf; poller = W.fault_count wire.new; cable = B.fault_count result.bench; sink = O.fault_count out.new }) }
{
    let mut bench = bench;
    sound(&setup);
    match bench.assemble(alloc, setup.boards.as_slice(), setup.layout.nets()) {
        Ok(()) => serve_powered(rt, alloc, setup, bench, wire, out),
        Err(AssembleFault::Memory) => ServedAll {
            outcome: ServeOutcome::Memory,
            bench,
        },
        Err(AssembleFault::Cable) => ServedAll {
            outcome: ServeOutcome::Faulted(ServeFault::Cable),
            bench,
        },
    }
}

/// Runs `serve SETUP` up to its last line: reads the setup of that name, assembles its chain on the bench, makes a session for each grant, listens
/// at the ports of all grants, and serves their clients until the wire comes to its end. At its end the bench is handed back as the sessions left
/// it; a scan that is open stays open.
///
/// The refusals come in this order: the setup's, TRST that the cable has not.
pub fn serve<R: Wait, B: Bench, S: Shelf, W: Poller, O: Sink>(
    rt: &R,
    alloc: Global,
    name: &str,
    bench: B,
    shelf: &mut S,
    wire: &mut W,
    out: &mut O,
) -> ServedAll<B>
    requires empty { Told (B.chain bench) (λ chain. chain ≡ empty_chain) }
    requires once { (W.door wire.old).ports ≡ [] }
    requires unstepped { Told (W.told wire.old) HasNoSteps }
    ensures serves { Serves result.outcome (S.files shelf.old) name.now (B.trst bench) (record { chain = B.chain bench; wire = W.told wire.old; door = W.door wire.old; sent = O.sent out.old }) (record { chain = B.chain result.bench; wire = W.told wire.new; door = W.door wire.new; sent = O.sent out.new }) }
    ensures mark { B.mark result.bench ≡ B.mark bench }
    ensures causes { ServeCauses result.outcome (record { shelf = S.fault_count shelf.old; poller = W.fault_count wire.old; cable = B.fault_count bench; sink = O.fault_count out.old }) (record { shelf = S.fault_count shelf.new; poller = W.fault_count wire.new; cable = B.fault_count result.bench; sink = O.fault_count out.new }) }
    ensures files { S.files shelf.new ≡ S.files shelf.old }
    ensures loads { LoadsListed (S.loads shelf.old) (S.loads shelf.new) name.now }
{
    let setup = match load_setup(alloc, name, shelf) {
        Ok(setup) => setup,
        Err(none) => {
            return ServedAll {
                outcome: ServeOutcome::NoSetup(none),
                bench,
            };
        }
    };
    if lacks_trst(&setup, &bench) {
        return ServedAll {
            outcome: ServeOutcome::NoTrst,
            bench,
        };
    }
    serve_setup(rt, alloc, setup, bench, wire, out)
}
