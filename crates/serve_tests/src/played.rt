// Scripts that are played: each answer is what the lines up to it say.
ghost use Rattle.std.specs.Prelude.{◌≡◌, ◌<◌, ◌≤◌, [], length, Ok, IfOk, OnOk, true, false};
ghost use Rattle.wire_port.specs.Calls.{IsOpen, is_end};
ghost use Rattle.wire_port.specs.Played.{wire_of};

use std::alloc::Global;
use std::test::Fail;
use wire_port::{Found, Given, PollFault, Poller, Script, ScriptWire, Taken, Wire, read_script};

// The script that a text is.
fn script(alloc: Global, text: &str) -> Result<Script, Fail> {
    match read_script(alloc, text.as_bytes()) {
        Ok(script) => Ok(script),
        Err(_) => Err(Fail::from("refused")),
    }
}

// The wire, which listens at port 2542.
fn listening(wire: ScriptWire) -> Result<ScriptWire, Fail>
    requires ports { wire.play.ports ≡ [] }
    requires over { wire.play.over ≡ false }
    ensures up { IfOk result (λ listening. listening.play.up ≡ true) }
    ensures over { IfOk result (λ listening. listening.play.over ≡ false) }
    ensures told { IfOk result (λ listening. wire_of listening.play ≡ wire_of wire.play) }
{
    let mut wire = wire;
    match wire.listen(&[2542]) {
        Ok(()) => Ok(wire),
        Err(_) => Err(Fail::from("listen")),
    }
}

// The wire, which listens and played its first line: connection 1 opened at port 2542.
fn opened(wire: ScriptWire) -> Result<ScriptWire, Fail>
    requires ports { wire.play.ports ≡ [] }
    requires over { wire.play.over ≡ false }
    requires steps { (wire_of wire.play).steps ≡ [] }
    ensures up { IfOk result (λ wire. wire.play.up ≡ true) }
    ensures over { IfOk result (λ wire. wire.play.over ≡ false) }
    ensures stays { IfOk result (λ wire. IsOpen 1 (wire_of wire.play)) }
{
    let mut wire = listening(wire)?;
    match wire.poll(false) {
        Ok(Found::Opened(1, 2542)) => Ok(wire),
        _ => Err(Fail::from("open")),
    }
}

// A wire that plays a text, and played its first line.
fn playing(alloc: Global, text: &str) -> Result<ScriptWire, Fail>
    ensures up { IfOk result (λ wire. wire.play.up ≡ true) }
    ensures over { IfOk result (λ wire. wire.play.over ≡ false) }
    ensures stays { IfOk result (λ wire. IsOpen 1 (wire_of wire.play)) }
{
    opened(ScriptWire::new(alloc, script(alloc, text)?)?)
}

// What the next `poll` finds.
fn polled(wire: &mut ScriptWire) -> Result<Found, Fail>
    requires up { wire.old.play.up ≡ true }
    requires over { wire.old.play.over ≡ false }
    ensures up { wire.new.play.up ≡ true }
    ensures over { IfOk result (λ found. wire.new.play.over ≡ is_end (Ok found)) }
    ensures stays { IsOpen 1 (wire_of wire.old.play) → IsOpen 1 (wire_of wire.new.play) }
{
    match wire.poll(false) {
        Ok(found) => Ok(found),
        Err(_) => Err(Fail::from("poll")),
    }
}

fn is_end(found: Found) -> bool
    ensures { result ≡ is_end (Ok found) }
{
    matches!(found, Found::End)
}

// The next line, and there is one, is answered so.
fn plays(wire: &mut ScriptWire, answer: Found) -> Result<(), Fail>
    requires up { wire.old.play.up ≡ true }
    requires over { wire.old.play.over ≡ false }
    ensures up { wire.new.play.up ≡ true }
    ensures over { OnOk result (wire.new.play.over ≡ false) }
    ensures stays { IsOpen 1 (wire_of wire.old.play) → IsOpen 1 (wire_of wire.new.play) }
{
    let found = polled(wire)?;
    if is_end(found) {
        return Err(Fail::from("no line"));
    }
    if found != answer {
        return Err(Fail::from("line"));
    }
    Ok(())
}

// There are no more lines.
fn ends(wire: &mut ScriptWire) -> Result<(), Fail>
    requires up { wire.old.play.up ≡ true }
    requires over { wire.old.play.over ≡ false }
{
    if is_end(polled(wire)?) {
        return Ok(());
    }
    Err(Fail::from("a line"))
}

// A `take` into a buffer of so many bytes answers these, all that are taken.
fn takes(wire: &mut ScriptWire, room: usize, bytes: &[u8]) -> Result<(), Fail>
    requires some { 0 < room }
    requires few { room ≤ 16 }
    requires is_open { IsOpen 1 (wire_of wire.old.play) }
    ensures up { wire.new.play.up ≡ wire.old.play.up }
    ensures over { wire.new.play.over ≡ wire.old.play.over }
    ensures stays { OnOk result (IsOpen 1 (wire_of wire.new.play)) }
{
    let mut buffer = [0; 16];
    let Taken::Bytes(count) = wire.take(1, &mut buffer[..room]) else {
        return Err(Fail::from("take of nothing"));
    };
    if &buffer[..count] != bytes {
        return Err(Fail::from("take"));
    }
    Ok(())
}

// A `take` answers that there is nothing now.
fn takes_nothing(wire: &mut ScriptWire) -> Result<(), Fail>
    requires is_open { IsOpen 1 (wire_of wire.old.play) }
    ensures up { wire.new.play.up ≡ wire.old.play.up }
    ensures over { wire.new.play.over ≡ wire.old.play.over }
    ensures stays { OnOk result (IsOpen 1 (wire_of wire.new.play)) }
{
    match wire.take(1, &mut [0; 16]) {
        Taken::NotNow => Ok(()),
        _ => Err(Fail::from("take")),
    }
}

// A `take` answers that the peer is gone.
fn takes_gone(wire: &mut ScriptWire) -> Result<(), Fail>
    requires is_open { IsOpen 1 (wire_of wire.old.play) }
    ensures up { wire.new.play.up ≡ wire.old.play.up }
    ensures over { wire.new.play.over ≡ wire.old.play.over }
{
    match wire.take(1, &mut [0; 16]) {
        Taken::Gone => Ok(()),
        _ => Err(Fail::from("take of one that is gone")),
    }
}

// A `give` of a piece gives so many of its bytes.
fn gives(wire: &mut ScriptWire, piece: &[u8], count: usize) -> Result<(), Fail>
    requires some { 0 < length piece.now }
    requires is_open { IsOpen 1 (wire_of wire.old.play) }
    ensures up { wire.new.play.up ≡ wire.old.play.up }
    ensures over { wire.new.play.over ≡ wire.old.play.over }
    ensures stays { OnOk result (IsOpen 1 (wire_of wire.new.play)) }
{
    match wire.give(1, piece) {
        Given::Bytes(given) if given == count => Ok(()),
        _ => Err(Fail::from("give")),
    }
}

// A `give` of a piece gives nothing now.
fn gives_nothing(wire: &mut ScriptWire, piece: &[u8]) -> Result<(), Fail>
    requires some { 0 < length piece.now }
    requires is_open { IsOpen 1 (wire_of wire.old.play) }
    ensures up { wire.new.play.up ≡ wire.old.play.up }
    ensures over { wire.new.play.over ≡ wire.old.play.over }
    ensures stays { OnOk result (IsOpen 1 (wire_of wire.new.play)) }
{
    match wire.give(1, piece) {
        Given::NotNow => Ok(()),
        _ => Err(Fail::from("give of nothing")),
    }
}

#[test]
fn bytes_on_offer_are_taken(rt: HostRuntime) -> Result<(), Fail> {
    let alloc = rt.alloc();
    let text = "# a greeting\nopen 1 2542\n\nsend 1 48656C6c6F\r\n";
    let mut wire = playing(alloc, text)?;
    takes_nothing(&mut wire)?;
    plays(&mut wire, Found::Ready(1))?;
    takes(&mut wire, 2, b"He")?;
    takes(&mut wire, 16, b"llo")?;
    takes_nothing(&mut wire)?;
    assert_eq!(rt; wire.took(1), 5);
    ends(&mut wire)
}

#[test]
fn a_peer_takes_what_it_has_room_for(rt: HostRuntime) -> Result<(), Fail> {
    let alloc = rt.alloc();
    let text = "open 1 2542\nroom 1 3\nroom 1 all";
    let mut wire = playing(alloc, text)?;
    gives(&mut wire, b"12", 2)?;
    plays(&mut wire, Found::Room(1))?;
    gives(&mut wire, b"34567", 3)?;
    gives_nothing(&mut wire, b"67")?;
    plays(&mut wire, Found::Room(1))?;
    gives(&mut wire, b"67", 2)?;
    assert_eq!(rt; wire.given(1), b"1234567".as_slice());
    ends(&mut wire)
}

#[test]
fn what_is_on_offer_is_taken_before_a_peer_is_gone(rt: HostRuntime) -> Result<(), Fail> {
    let alloc = rt.alloc();
    let text = "open 1 2542\nsend 1 aAfF\ndrop 1";
    let mut wire = playing(alloc, text)?;
    plays(&mut wire, Found::Ready(1))?;
    plays(&mut wire, Found::Ready(1))?;
    takes(&mut wire, 16, &[0xaa, 0xff])?;
    takes_gone(&mut wire)?;
    assert_eq!(rt; wire.took(1), 2);
    ends(&mut wire)
}

#[test]
fn a_peer_that_is_gone_takes_nothing(rt: HostRuntime) -> Result<(), Fail> {
    let alloc = rt.alloc();
    let mut wire = playing(alloc, "open 1 2542\ndrop 1")?;
    plays(&mut wire, Found::Ready(1))?;
    let answer = wire.give(1, b"1");
    assert_eq!(rt; answer, Given::Gone);
    assert_eq!(rt; wire.given(1), b"".as_slice());
    ends(&mut wire)
}

#[test]
fn lines_on_a_connection_that_was_shut_do_nothing(rt: HostRuntime) -> Result<(), Fail> {
    let alloc = rt.alloc();
    let text = "open 1 2542\nsend 1 00\nroom 1 all\ndrop 1";
    let mut wire = playing(alloc, text)?;
    wire.shut(1);
    plays(&mut wire, Found::Nothing)?;
    plays(&mut wire, Found::Nothing)?;
    plays(&mut wire, Found::Nothing)?;
    assert_eq!(rt; wire.took(1), 0);
    ends(&mut wire)
}

#[test]
fn connections_are_told_with_their_ports(rt: HostRuntime) -> Result<(), Fail> {
    let alloc = rt.alloc();
    let text = "open 1 2542\nopen 65535 0\n# open 2 2543";
    let mut wire = playing(alloc, text)?;
    assert_eq!(rt; wire.opened(), [(1, 2542)].as_slice());
    plays(&mut wire, Found::Opened(65535, 0))?;
    assert_eq!(rt; wire.opened(), [(1, 2542), (65535, 0)].as_slice());
    ends(&mut wire)
}

// The third call is the second `poll`, and the line behind the first is played by the third.
#[test]
fn a_call_that_fails_plays_no_line(rt: HostRuntime) -> Result<(), Fail> {
    let alloc = rt.alloc();
    let script = script(alloc, "open 1 2542\nsend 1 48")?;
    let mut wire = opened(ScriptWire::with_fails(alloc, script, vec![in alloc; 3]?)?)?;
    assert_eq!(rt; wire.faults(), 0);
    let answer = wire.poll(true);
    assert_eq!(rt; answer, Err(PollFault));
    assert_eq!(rt; wire.faults(), 1);
    takes_nothing(&mut wire)?;
    plays(&mut wire, Found::Ready(1))?;
    takes(&mut wire, 1, b"H")?;
    assert_eq!(rt; wire.faults(), 1);
    ends(&mut wire)
}

#[test]
fn the_first_call_fails(rt: HostRuntime) -> Result<(), Fail> {
    let alloc = rt.alloc();
    let script = script(alloc, "open 1 2542")?;
    let mut wire = ScriptWire::with_fails(alloc, script, vec![in alloc; 1]?)?;
    assert!(rt; wire.listen(&[2542]).is_err());
    assert_eq!(rt; wire.faults(), 1);
    assert_eq!(rt; wire.opened(), [].as_slice());
    Ok(())
}
