// A hub is served over a polled wire.
ghost use Rattle.std.specs.Prelude.{◌≡◌, ◌≤◌, [], true, false, length, OnOk};
ghost use Rattle.std.specs.List.{list_any};
ghost use Rattle.std.specs.Result.{is_ok};
ghost use Rattle.base_types.specs.Counts.{HasCause};
ghost use Rattle.hub.specs.Served.{KeepsMade};
ghost use Rattle.hub_server.specs.Serving.{CausesOf, IsSound, KeepsDoor, ServedSo, ServesSo, ports_of};

use crate::ServeFault;
use crate::turns::step;
use arrayvec::ArrayVec;
use chain_model::Cable;
use grant_table::Layout;
use hub::Hub;
use ports::Sink;
use std::sync::Wait;
use text_lines::put;
use wire_port::{PollFault, Poller};

// The ports of all grants, in order.
fn ports_of(layout: &Layout) -> ArrayVec<u16, 16>
    ensures is { result.items ≡ ports_of layout.now }
    ensures some { 1 ≤ length result.items }
    ensures few { length result.items ≤ 16 }
{
    let mut ports: ArrayVec<u16, 16> = ArrayVec::new();
    for grant in 0..layout.grants() {
        ports.push(layout.port(grant));
    }
    ports
}

// Listens at the ports of all grants, in order.
fn listen<C: Cable, W: Poller>(hub: &Hub<C>, wire: &mut W) -> Result<(), PollFault>
    requires once { (W.door wire.old).ports ≡ [] }
    ensures door { W.door wire.new ≡ record (W.door wire.old) { ports = ports_of hub.now.hub.layout; up = is_ok result } }
    ensures told { W.told wire.new ≡ W.told wire.old }
    ensures cause { HasCause (W.fault_count wire.old) (W.fault_count wire.new) result }
{
    wire.listen(&ports_of(hub.layout()))
}

// Serves a hub over a wire that listens, until nothing will come any more and no session is ready.
fn run<R: Wait, C: Cable, W: Poller, O: Sink>(
    rt: &R,
    hub: &mut Hub<C>,
    wire: &mut W,
    out: &mut O,
) -> Result<(), ServeFault>
    requires sound { IsSound hub.old.hub (W.told wire.old) }
    requires up { (W.door wire.old).up ≡ true }
    requires not_over { (W.door wire.old).over ≡ false }
    ensures serves { ServesSo result hub.old.hub hub.new.hub (C.chain hub.old.cable) (C.chain hub.new.cable) (W.told wire.old) (W.told wire.new) (O.sent out.old) (O.sent out.new) }
    ensures made { KeepsMade hub.old.hub hub.new.hub }
    ensures mark { C.mark hub.new.cable ≡ C.mark hub.old.cable }
    ensures trst { C.trst hub.new.cable ≡ C.trst hub.old.cable }
    ensures door { KeepsDoor (W.door wire.old) (W.door wire.new) }
    ensures over { OnOk result ((W.door wire.new).over ≡ true) }
    ensures idle { OnOk result (list_any (λ ready. ready) hub.new.hub.ready ≡ false) }
    ensures causes { CausesOf result (W.fault_count wire.old) (W.fault_count wire.new) (C.fault_count hub.old.cable) (C.fault_count hub.new.cable) (O.fault_count out.old) (O.fault_count out.new) }
{
    let mut over = false;
    for _ in rt.forever() {
        over = step(hub, wire, out, over)?;
        if over && hub.idle() {
            return Ok(());
        }
    }
    unreachable!()
}

/// Serves a hub over a wire that was not told to listen yet: listens at the ports of all grants in order, writes `serving`, and then finds one
/// thing to do after another, attends to it, serves each ready session once, and writes a line for each session that ended. It waits for
/// something to do where no session is ready. It returns once the wire came to its end and no session is ready, or at a fault.
///
/// `Poll` comes only where the wire's count of faults rose in the call, `Cable` only where the cable's did, and `Write` only where the sink's did.
pub fn serve<R: Wait, C: Cable, W: Poller, O: Sink>(
    rt: &R,
    hub: &mut Hub<C>,
    wire: &mut W,
    out: &mut O,
) -> Result<(), ServeFault>
    requires sound { IsSound hub.old.hub (W.told wire.old) }
    requires once { (W.door wire.old).ports ≡ [] }
    ensures served { ServedSo result hub.old.hub hub.new.hub (C.chain hub.old.cable) (C.chain hub.new.cable) (W.told wire.old) (W.told wire.new) (O.sent out.old) (O.sent out.new) (W.door wire.new).up }
    ensures over { OnOk result ((W.door wire.new).over ≡ true) }
    ensures idle { OnOk result (list_any (λ ready. ready) hub.new.hub.ready ≡ false) }
    ensures ports { (W.door wire.new).ports ≡ ports_of hub.old.hub.layout }
    ensures made { KeepsMade hub.old.hub hub.new.hub }
    ensures mark { C.mark hub.new.cable ≡ C.mark hub.old.cable }
    ensures trst { C.trst hub.new.cable ≡ C.trst hub.old.cable }
    ensures causes { CausesOf result (W.fault_count wire.old) (W.fault_count wire.new) (C.fault_count hub.old.cable) (C.fault_count hub.new.cable) (O.fault_count out.old) (O.fault_count out.new) }
{
    listen(hub, wire)?;
    put(out, b"serving\n")?;
    run(rt, hub, wire, out)
}
