// The command `serve` by its words.
ghost use Rattle.std.specs.Prelude.{◌≡◌, ℕ, List, [], codes, map};
ghost use Rattle.std.specs.declared.option.Option.TheVariants.{Some};
ghost use Rattle.std.specs.String.{string_bytes};
ghost use Rattle.base_types.specs.Tellings.{Told};
ghost use Rattle.chain_model.specs.Cables.{empty_chain};
ghost use Rattle.share_top.specs.Commands.{ServesSo};
ghost use Rattle.share_top.specs.Outcomes.{Counts, Tells};
ghost use Rattle.share_top.specs.Serves.{HasNoSteps, IsServedStatus, RunsServe};
ghost use Rattle.share_top.specs.Setups.{LoadsListed};
ghost use Rattle.share_top.specs.Words.{NoServe, serve_words};

use crate::command::{RanLocal, no_command};
use crate::serve::{ServedAll, serve};
use crate::tell::tell;
use crate::words::served_setup;
use chain_model::Bench;
use ports::{Shelf, Sink};
use std::alloc::Global;
use std::sync::Wait;
use wire_port::Poller;

/// What a command leaves: its status, and the bench, the sink and the wire that it was given.
pub struct Ran<B, O, W> {
    pub status: u8,
    pub bench: B,
    pub out: O,
    pub wire: W,
}

/// Runs `serve` of the setup of this name.
pub fn serve_named<R: Wait, B: Bench, S: Shelf, O: Sink, W: Poller>(
    rt: &R,
    alloc: Global,
    name: &str,
    bench: B,
    shelf: &mut S,
    out: O,
    wire: W,
) -> Ran<B, O, W>
    requires empty { Told (B.chain bench) (λ chain. chain ≡ empty_chain) }
    requires once { (W.door wire).ports ≡ [] }
    requires unstepped { Told (W.told wire) HasNoSteps }
    ensures runs { RunsServe result.status (S.files shelf.old) name.now (B.trst bench)
        (record { chain = B.chain bench; wire = W.told wire; door = W.door wire; sent = O.sent out })
        (record { chain = B.chain result.bench; wire = W.told result.wire; door = W.door result.wire; sent = O.sent result.out })
        (record { shelf = S.fault_count shelf.old; poller = W.fault_count wire; cable = B.fault_count bench; sink = O.fault_count out })
        (record { shelf = S.fault_count shelf.new; poller = W.fault_count result.wire; cable = B.fault_count result.bench; sink = O.fault_count result.out }) }
    ensures mark { B.mark result.bench ≡ B.mark bench }
    ensures files { S.files shelf.new ≡ S.files shelf.old }
    ensures loads { LoadsListed (S.loads shelf.old) (S.loads shelf.new) name.now }
{
    let mut out = out;
    let mut wire = wire;
    let ServedAll { outcome, bench } = serve(rt, alloc, name, bench, shelf, &mut wire, &mut out);
    let status = tell(&mut out, &outcome.line(), outcome.status());
    Ran {
        status,
        bench,
        out,
        wire,
    }
}

/// Runs `serve SETUP`: reads the setup file of that name from the shelf, with the BSDL files that it names, assembles its chain on the bench,
/// and makes a session for each grant. It then listens at the ports of all grants, in order, writes `serving`, and serves the clients that come
/// there, each over the private chain of its grant, which it cannot tell from the shared one but by waiting. A session that ended is told by a
/// line with its grant, how it ended and the place in its bytes: `quit`, `gone`, `cut` or `long`, or `refused` with the cause.
/// All memory is taken before it listens. It returns once the wire comes to its end and all is done that was to be done.
///
/// | Status | Comes | Last line of the output |
/// |---|---|---|
/// | 0 | nothing will come any more, and no session is ready | that of the last session that ended, or `serving` |
/// | 2 | the words are others | `words` |
/// | 3 | the files are refused, or the setup has version 2 and the cable no TRST | `setup`, `layout`, `bsdl`, `pins` or `cell`, with the cause and the place; `trst` |
/// | 4 | the shelf's count of faults rose | `read fault` |
/// | 5 | the sink's count of faults rose | a front of what had to be written |
/// | 6 | the wire's count of faults rose: it could not listen, or not find what there is to do | `poll fault` |
/// | 7 | the cable's count of faults rose | `cable fault` |
/// | 9 | memory was wanting; it did not listen | `memory` |
/// | 12 | the setup file or that of a device is not there | `absent setup`, or `absent device` with its number from 1 |
///
/// Each line ends with a newline. Where more than one row holds, they stand in this order: 2, those of the setup file and of each device's file
/// in turn, `trst`, 9 and 7 of the assembly and of the sessions, 6 of listening, and then what comes first; 5 stands before the row of its line.
/// The bench stays empty at 2, 3, 4 and 12.
pub fn serve_command<R: Wait, B: Bench, S: Shelf, O: Sink, W: Poller>(
    rt: &R,
    alloc: Global,
    words: &[String],
    bench: B,
    shelf: &mut S,
    out: O,
    wire: W,
) -> Ran<B, O, W>
    requires empty { Told (B.chain bench) (λ chain. chain ≡ empty_chain) }
    requires unsent { Told (O.sent out) (λ sent. sent ≡ []) }
    requires once { (W.door wire).ports ≡ [] }
    requires unstepped { Told (W.told wire) HasNoSteps }

    // `serve SETUP`: the sessions that were served to the end, or why they were not; and what was loaded.
    ensures served { (name : List ℕ) → map string_bytes words.now ≡ serve_words name → ServesSo result.status name (B.trst bench)
        (record { files = S.files shelf.old; loads = S.loads shelf.old; outside = record { chain = B.chain bench; wire = W.told wire; door = W.door wire; sent = O.sent out }; faults = record { shelf = S.fault_count shelf.old; poller = W.fault_count wire; cable = B.fault_count bench; sink = O.fault_count out } })
        (record { files = S.files shelf.new; loads = S.loads shelf.new; outside = record { chain = B.chain result.bench; wire = W.told result.wire; door = W.door result.wire; sent = O.sent result.out }; faults = record { shelf = S.fault_count shelf.new; poller = W.fault_count result.wire; cable = B.fault_count result.bench; sink = O.fault_count result.out } }) }

    // All other words are told, and then nothing else is done.
    ensures others { NoServe (map string_bytes words.now) → Tells 2 (codes "words\n") result.status (O.sent out) (O.sent result.out) (O.fault_count out) (O.fault_count result.out) }
    ensures idle { NoServe (map string_bytes words.now) → (S.loads shelf.new ≡ S.loads shelf.old) × (S.fault_count shelf.new ≡ S.fault_count shelf.old)
        × (result.bench ≡ bench) × (result.wire ≡ wire) }
    ensures mark { B.mark result.bench ≡ B.mark bench }
    ensures files { S.files shelf.new ≡ S.files shelf.old }

    // Statuses 4, 5, 6 and 7 have their causes.
    ensures read { Counts 4 result.status (S.fault_count shelf.old) (S.fault_count shelf.new) }
    ensures sink { Counts 5 result.status (O.fault_count out) (O.fault_count result.out) }
    ensures poll { Counts 6 result.status (W.fault_count wire) (W.fault_count result.wire) }
    ensures cable { Counts 7 result.status (B.fault_count bench) (B.fault_count result.bench) }

    // There is no other status.
    ensures known { IsServedStatus result.status }
{
    match served_setup(words) {
        Some(name) => serve_named(rt, alloc, name, bench, shelf, out, wire),
        None => {
            let RanLocal { status, bench, out } = no_command(bench, out);
            Ran {
                status,
                bench,
                out,
                wire,
            }
        }
    }
}
