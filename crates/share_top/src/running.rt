// All commands by their words.
ghost use Rattle.std.specs.Prelude.{◌≡◌, ℕ, List, [], map};
ghost use Rattle.std.specs.declared.option.Option.TheVariants.{Some};
ghost use Rattle.std.specs.String.{string_bytes};
ghost use Rattle.base_types.specs.Tellings.{Told};
ghost use Rattle.chain_model.specs.Cables.{empty_chain};
ghost use Rattle.share_top.specs.Commands.{IsRunStatus, RunsLocal, ServesSo};
ghost use Rattle.share_top.specs.Outcomes.{Counts, CountsEither};
ghost use Rattle.share_top.specs.Serves.{HasNoSteps};
ghost use Rattle.share_top.specs.Words.{NoServe, serve_words};

use crate::command::{RanLocal, local_command};
use crate::serving::{Ran, serve_command};
use crate::words::served_setup;
use chain_model::Bench;
use ports::{Shelf, Sink, Source};
use std::alloc::Global;
use std::sync::Wait;
use wire_port::Poller;

/// Runs a command by its words: `serve SETUP` by [`serve_command`], which leaves the input as it is, and all other words by [`local_command`],
/// which leaves the wire as it is. The statuses are those of the two.
pub fn run<R: Wait, B: Bench, S: Shelf, I: Source, O: Sink, W: Poller>(
    rt: &R,
    alloc: Global,
    words: &[String],
    bench: B,
    shelf: &mut S,
    input: &mut I,
    out: O,
    wire: W,
) -> Ran<B, O, W>
    requires empty { Told (B.chain bench) (λ chain. chain ≡ empty_chain) }
    requires unsent { Told (O.sent out) (λ sent. sent ≡ []) }
    requires once { (W.door wire).ports ≡ [] }
    requires unstepped { Told (W.told wire) HasNoSteps }

    // `serve SETUP`: the sessions that were served to the end, or why they were not; and what was loaded. The input is as it was.
    ensures served { (name : List ℕ) → map string_bytes words.now ≡ serve_words name → ServesSo result.status name (B.trst bench)
        (record { files = S.files shelf.old; loads = S.loads shelf.old; outside = record { chain = B.chain bench; wire = W.told wire; door = W.door wire; sent = O.sent out }; faults = record { shelf = S.fault_count shelf.old; poller = W.fault_count wire; cable = B.fault_count bench; sink = O.fault_count out } })
        (record { files = S.files shelf.new; loads = S.loads shelf.new; outside = record { chain = B.chain result.bench; wire = W.told result.wire; door = W.door result.wire; sent = O.sent result.out }; faults = record { shelf = S.fault_count shelf.new; poller = W.fault_count result.wire; cable = B.fault_count result.bench; sink = O.fault_count result.out } }) }
    ensures unread { (name : List ℕ) → map string_bytes words.now ≡ serve_words name → (I.left input.new ≡ I.left input.old) × (I.fault_count input.new ≡ I.fault_count input.old) }

    // All other words: `check SETUP`, `pipe SETUP GRANT`, or no command. The wire is as it was.
    ensures local { NoServe (map string_bytes words.now) → RunsLocal (map string_bytes words.now) result.status (B.trst bench)
        (record { files = S.files shelf.old; loads = S.loads shelf.old; left = I.left input.old; chain = B.chain bench; sent = O.sent out; faults = record { shelf = S.fault_count shelf.old; source = I.fault_count input.old; cable = B.fault_count bench; sink = O.fault_count out } })
        (record { files = S.files shelf.new; loads = S.loads shelf.new; left = I.left input.new; chain = B.chain result.bench; sent = O.sent result.out; faults = record { shelf = S.fault_count shelf.new; source = I.fault_count input.new; cable = B.fault_count result.bench; sink = O.fault_count result.out } }) }
    ensures apart { NoServe (map string_bytes words.now) → result.wire ≡ wire }
    ensures mark { B.mark result.bench ≡ B.mark bench }
    ensures files { S.files shelf.new ≡ S.files shelf.old }

    // Statuses 4, 5, 6 and 7 have their causes.
    ensures read { CountsEither 4 result.status (S.fault_count shelf.old) (S.fault_count shelf.new) (I.fault_count input.old) (I.fault_count input.new) }
    ensures sink { Counts 5 result.status (O.fault_count out) (O.fault_count result.out) }
    ensures poll { Counts 6 result.status (W.fault_count wire) (W.fault_count result.wire) }
    ensures cable { Counts 7 result.status (B.fault_count bench) (B.fault_count result.bench) }

    // There is no other status.
    ensures known { IsRunStatus result.status }
{
    match served_setup(words) {
        Some(_) => serve_command(rt, alloc, words, bench, shelf, out, wire),
        None => {
            let RanLocal { status, bench, out } = local_command(
                alloc, words, bench, shelf, input, out,
            );
            Ran {
                status,
                bench,
                out,
                wire,
            }
        }
    }
}
