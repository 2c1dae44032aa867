// What a hub does between two calls of `poll`.
ghost use Rattle.std.specs.Prelude.{◌≡◌, true, false, IfOk, OnOk, OnErr, Ok};
ghost use Rattle.std.specs.declared.option.Option.{Option};
ghost use Rattle.base_types.specs.Counts.{HasCause};
ghost use Rattle.base_types.specs.Tellings.{Told};
ghost use Rattle.wire_port.specs.Calls.{is_end};
ghost use Rattle.wire_port.specs.Wires.{WireView};
ghost use Rattle.hub.specs.Served.{KeepsMade, OpensIn};
ghost use Rattle.hub_server.specs.Serving.{CausesOf, IsSound, KeepsDoor, Polled, ServesSo};

use crate::ServeFault;
use crate::told::tell_ended;
use chain_model::Cable;
use hub::Hub;
use ports::Sink;
use wire_port::{Found, PollFault, Poller, Wire};

// Finds one thing to do. It waits for it where no session is ready.
fn find<C: Cable, W: Poller>(hub: &Hub<C>, wire: &mut W) -> Result<Found, PollFault>
    requires sound { IsSound hub.now.hub (W.told wire.old) }
    requires up { (W.door wire.old).up ≡ true }
    requires not_over { (W.door wire.old).over ≡ false }
    ensures polled { IfOk result (λ found. Polled found (W.told wire.old) (W.told wire.new)) }
    ensures opens { IfOk result (λ found. Told (W.told wire.new) (OpensIn found hub.now.hub)) }
    ensures none { OnErr result (W.told wire.new ≡ W.told wire.old) }
    ensures sound { IsSound hub.now.hub (W.told wire.new) }
    ensures door { W.door wire.new ≡ record (W.door wire.old) { over = is_end result } }
    ensures cause { HasCause (W.fault_count wire.old) (W.fault_count wire.new) result }
{
    wire.poll(hub.idle())
}

// Whether it is the end.
fn is_end(found: Found) -> bool
    ensures { result ≡ is_end (Ok found) }
{
    matches!(found, Found::End)
}

// Attends to what was found, and tells those that ended.
fn attend_to<C: Cable, W: Wire, O: Sink>(
    hub: &mut Hub<C>,
    wire: &mut W,
    out: &mut O,
    found: Found,
) -> Result<(), ServeFault>
    requires sound { IsSound hub.old.hub (W.told wire.old) }
    requires found { is_end (Ok found) ≡ false }
    requires opens { Told (W.told wire.old) (OpensIn found hub.old.hub) }
    ensures sound { OnOk result (IsSound hub.new.hub (W.told wire.new)) }
    ensures serves { (before : Option WireView) → Polled found before (W.told wire.old) → ServesSo result hub.old.hub hub.new.hub (C.chain hub.old.cable) (C.chain hub.new.cable) before (W.told wire.new) (O.sent out.old) (O.sent out.new) }
    ensures made { KeepsMade hub.old.hub hub.new.hub }
    ensures mark { C.mark hub.new.cable ≡ C.mark hub.old.cable }
    ensures trst { C.trst hub.new.cable ≡ C.trst hub.old.cable }
    ensures door { W.door wire.new ≡ W.door wire.old }
    ensures causes { CausesOf result (W.fault_count wire.old) (W.fault_count wire.new) (C.fault_count hub.old.cable) (C.fault_count hub.new.cable) (O.fault_count out.old) (O.fault_count out.new) }
{
    hub.turn(wire, found)?;
    tell_ended(out, hub.ended())?;
    Ok(())
}

// Attends to one thing more, unless nothing will come any more. It answers whether nothing will come any more.
fn attend<C: Cable, W: Poller, O: Sink>(
    hub: &mut Hub<C>,
    wire: &mut W,
    out: &mut O,
    over: bool,
) -> Result<bool, ServeFault>
    requires sound { IsSound hub.old.hub (W.told wire.old) }
    requires up { (W.door wire.old).up ≡ true }
    requires over { (W.door wire.old).over ≡ over }
    ensures sound { OnOk result (IsSound hub.new.hub (W.told wire.new)) }
    ensures serves { ServesSo result hub.old.hub hub.new.hub (C.chain hub.old.cable) (C.chain hub.new.cable) (W.told wire.old) (W.told wire.new) (O.sent out.old) (O.sent out.new) }
    ensures made { KeepsMade hub.old.hub hub.new.hub }
    ensures mark { C.mark hub.new.cable ≡ C.mark hub.old.cable }
    ensures trst { C.trst hub.new.cable ≡ C.trst hub.old.cable }
    ensures door { KeepsDoor (W.door wire.old) (W.door wire.new) }
    ensures over { IfOk result (λ over. (W.door wire.new).over ≡ over) }
    ensures causes { CausesOf result (W.fault_count wire.old) (W.fault_count wire.new) (C.fault_count hub.old.cable) (C.fault_count hub.new.cable) (O.fault_count out.old) (O.fault_count out.new) }
{
    if over {
        return Ok(true);
    }
    let found = find(hub, wire)?;
    if is_end(found) {
        return Ok(true);
    }
    attend_to(hub, wire, out, found)?;
    Ok(false)
}

// Serves the sessions that are ready once each, and tells those that ended.
fn serve_ready<C: Cable, W: Wire, O: Sink>(
    hub: &mut Hub<C>,
    wire: &mut W,
    out: &mut O,
) -> Result<(), ServeFault>
    requires sound { IsSound hub.old.hub (W.told wire.old) }
    ensures sound { OnOk result (IsSound hub.new.hub (W.told wire.new)) }
    ensures serves { ServesSo result hub.old.hub hub.new.hub (C.chain hub.old.cable) (C.chain hub.new.cable) (W.told wire.old) (W.told wire.new) (O.sent out.old) (O.sent out.new) }
    ensures made { KeepsMade hub.old.hub hub.new.hub }
    ensures mark { C.mark hub.new.cable ≡ C.mark hub.old.cable }
    ensures trst { C.trst hub.new.cable ≡ C.trst hub.old.cable }
    ensures door { W.door wire.new ≡ W.door wire.old }
    ensures causes { CausesOf result (W.fault_count wire.old) (W.fault_count wire.new) (C.fault_count hub.old.cable) (C.fault_count hub.new.cable) (O.fault_count out.old) (O.fault_count out.new) }
{
    hub.rest(wire)?;
    tell_ended(out, hub.ended())?;
    Ok(())
}

// Attends to one thing more, unless nothing will come any more, and serves the sessions that are ready. It answers whether nothing will
// come any more.
pub fn step<C: Cable, W: Poller, O: Sink>(
    hub: &mut Hub<C>,
    wire: &mut W,
    out: &mut O,
    over: bool,
) -> Result<bool, ServeFault>
    requires sound { IsSound hub.old.hub (W.told wire.old) }
    requires up { (W.door wire.old).up ≡ true }
    requires over { (W.door wire.old).over ≡ over }
    ensures sound { OnOk result (IsSound hub.new.hub (W.told wire.new)) }
    ensures serves { ServesSo result hub.old.hub hub.new.hub (C.chain hub.old.cable) (C.chain hub.new.cable) (W.told wire.old) (W.told wire.new) (O.sent out.old) (O.sent out.new) }
    ensures made { KeepsMade hub.old.hub hub.new.hub }
    ensures mark { C.mark hub.new.cable ≡ C.mark hub.old.cable }
    ensures trst { C.trst hub.new.cable ≡ C.trst hub.old.cable }
    ensures door { KeepsDoor (W.door wire.old) (W.door wire.new) }
    ensures over { IfOk result (λ over. (W.door wire.new).over ≡ over) }
    ensures causes { CausesOf result (W.fault_count wire.old) (W.fault_count wire.new) (C.fault_count hub.old.cable) (C.fault_count hub.new.cable) (O.fault_count out.old) (O.fault_count out.new) }
{
    let over = attend(hub, wire, out, over)?;
    serve_ready(hub, wire, out)?;
    Ok(over)
}
