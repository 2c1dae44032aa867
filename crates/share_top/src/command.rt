// The commands by their words.
ghost use Rattle.std.specs.Prelude.{◌≡◌, ◌≤◌, ◌⊎◌, ℕ, List, [], codes, map};
ghost use Rattle.std.specs.declared.option.Option.TheVariants.{Some};
ghost use Rattle.std.specs.String.{string_bytes};
ghost use Rattle.base_types.specs.Counts.{Rose};
ghost use Rattle.base_types.specs.Tellings.{Told};
ghost use Rattle.chain_model.specs.Cables.{empty_chain};
ghost use Rattle.grant_table.specs.Layouts.{GrantShape};
ghost use Rattle.ports.specs.Shelves.{NamedBytes};
ghost use Rattle.setup_read.specs.declared.setup.Setup.{Setup};
ghost use Rattle.share_top.specs.Words.{IsGrantNumber, NoCheck, NoPipe, check_words, pipe_words};
ghost use Rattle.share_top.specs.Outcomes.{Counts, CountsEither, IsCheckStatus, IsPipeStatus, IsStatus, Tells};
ghost use Rattle.share_top.specs.Setups.{LoadsListed};
ghost use Rattle.share_top.specs.CheckRuns.{RunsCheck};
ghost use Rattle.share_top.specs.Pipes.{Fits, IsEndStatus, RunsPipe};

use crate::check::check;
use crate::pipe::{Piped, pipe};
use crate::tell::tell;
use crate::words::{checked_setup, piped_grant};
use chain_model::Bench;
use ports::{Shelf, Sink, Source};
use std::alloc::Global;

/// The status where the words are no command.
const NO_COMMAND: u8 = 2;

/// What a command leaves: its status, and the bench and the sink that it was given.
pub struct RanLocal<B, O> {
    pub status: u8,
    pub bench: B,
    pub out: O,
}

// Runs `check` of the setup of this name.
fn check_command<B, S: Shelf, O: Sink>(
    alloc: Global,
    name: &str,
    bench: B,
    shelf: &mut S,
    out: O,
) -> RanLocal<B, O>
    ensures runs { RunsCheck result.status (S.files shelf.old) name.now (O.sent out) (O.sent result.out) (S.fault_count shelf.old) (S.fault_count shelf.new) (O.fault_count out) (O.fault_count result.out) }
    ensures files { S.files shelf.new ≡ S.files shelf.old }
    ensures loads { LoadsListed (S.loads shelf.old) (S.loads shelf.new) name.now }
    ensures bench { result.bench ≡ bench }
{
    let mut out = out;
    let status = check(alloc, name, shelf, &mut out);
    RanLocal { status, bench, out }
}

// Runs `pipe` of the setup of this name, for the grant of this number.
fn pipe_command<B: Bench, S: Shelf, I: Source, O: Sink>(
    alloc: Global,
    name: &str,
    number: u8,
    bench: B,
    shelf: &mut S,
    input: &mut I,
    out: O,
) -> RanLocal<B, O>
    requires number { 1 ≤ number }
    requires empty { Told (B.chain bench) (λ chain. chain ≡ empty_chain) }
    ensures runs { RunsPipe result.status (S.files shelf.old) name.now number (B.trst bench) (I.left input.old) (I.left input.new) (B.chain bench) (B.chain result.bench) (O.sent out) (O.sent result.out)
        (record { shelf = S.fault_count shelf.old; source = I.fault_count input.old; cable = B.fault_count bench; sink = O.fault_count out })
        (record { shelf = S.fault_count shelf.new; source = I.fault_count input.new; cable = B.fault_count result.bench; sink = O.fault_count result.out }) }
    ensures mark { B.mark result.bench ≡ B.mark bench }
    ensures files { S.files shelf.new ≡ S.files shelf.old }
    ensures loads { LoadsListed (S.loads shelf.old) (S.loads shelf.new) name.now }
{
    let mut out = out;
    let Piped { outcome, bench } = pipe(alloc, name, number, bench, shelf, input, &mut out);
    let status = tell(&mut out, &outcome.line(), outcome.status());
    RanLocal { status, bench, out }
}

/// Tells that the words are no command.
pub fn no_command<B, O: Sink>(bench: B, out: O) -> RanLocal<B, O>
    ensures tells { Tells 2 (codes "words\n") result.status (O.sent out) (O.sent result.out) (O.fault_count out) (O.fault_count result.out) }
    ensures bench { result.bench ≡ bench }
{
    let mut out = out;
    let status = tell(&mut out, b"words\n", NO_COMMAND);
    RanLocal { status, bench, out }
}

/// Runs a command by its words.
///
/// `check SETUP` reads the setup file of that name from the shelf, with the BSDL files that it names, and writes a line for each device,
/// each grant and each net, and `ok`; or the line of what is wrong. The bench and the input stay as they are.
///
/// `pipe SETUP GRANT` reads the setup in the same way and assembles its chain on the bench. The input is then one session of the grant of
/// that number, 1 to 99 in decimal without zeros in front, and the output its replies: those that the grant's private chain makes to these
/// bytes. The reply to bytes goes out before more of the input is read. At its end the session closes a scan that is open.
///
/// | Status | Comes | Last line of the output |
/// |---|---|---|
/// | 0 | `check`: the files say a setup; `pipe`: the input ended between two messages, or the letter `Q` ended the session | `ok`; the replies alone |
/// | 1 | `pipe`: bytes are refused at a place, counted from 0: cause 1, no word goes on so; cause 2, a `shift:` longer than the vector length; cause 3, no letter; or the input ended within a message, cause 4 | `refused` with the place and the cause |
/// | 2 | the words are others | `words` |
/// | 3 | the files are refused; `pipe`: the setup has version 2 and the cable no TRST, or the setup has no grant of that number | `setup`, `layout`, `bsdl`, `pins` or `cell`, with the cause and the place; `trst`; `grant` with the number |
/// | 4 | the shelf's count of faults rose, or in `pipe` the source's | `read fault` |
/// | 5 | the sink's count of faults rose | a front of what had to be written |
/// | 7 | `pipe`: the cable's count of faults rose | `cable fault` |
/// | 8 | `pipe`: 2^62 bytes were taken | `too long` |
/// | 9 | memory was wanting; nothing of the input was taken | `memory` |
/// | 12 | the setup file or that of a device is not there | `absent setup`, or `absent device` with its number from 1 |
///
/// Each line ends with a newline; in `pipe` it stands behind the replies. Where more than one row holds, they stand in this order: 2, those of
/// the setup file and of each device's file in turn, `trst`, `grant`, 9, 7 of the assembly, the session's own; a cable that fails when the session is
/// closed gives 7; and 5 stands before the row of its line. The bench stays empty at 2, 3, 9 and 12, and at 4 of the shelf.
pub fn local_command<B: Bench, S: Shelf, I: Source, O: Sink>(
    alloc: Global,
    words: &[String],
    bench: B,
    shelf: &mut S,
    input: &mut I,
    out: O,
) -> RanLocal<B, O>
    requires empty { Told (B.chain bench) (λ chain. chain ≡ empty_chain) }
    requires unsent { Told (O.sent out) (λ sent. sent ≡ []) }

    // `check SETUP`: what went out, and what was loaded; the bench and the input are as they were.
    ensures checked { (name : List ℕ) → map string_bytes words.now ≡ check_words name → RunsCheck result.status (S.files shelf.old) name (O.sent out) (O.sent result.out) (S.fault_count shelf.old) (S.fault_count shelf.new) (O.fault_count out) (O.fault_count result.out) }
    ensures loaded { (name : List ℕ) → map string_bytes words.now ≡ check_words name → LoadsListed (S.loads shelf.old) (S.loads shelf.new) name × IsCheckStatus result.status }
    ensures unmoved { (name : List ℕ) → map string_bytes words.now ≡ check_words name → (I.left input.new ≡ I.left input.old) × (I.fault_count input.new ≡ I.fault_count input.old)
        × (B.chain result.bench ≡ B.chain bench) × (B.fault_count result.bench ≡ B.fault_count bench) }

    // `pipe SETUP GRANT`: the session that was run, or why there was none; and what was loaded.
    ensures piped { (name : List ℕ) (number : ℕ) → IsGrantNumber number → map string_bytes words.now ≡ pipe_words name number
        → RunsPipe result.status (S.files shelf.old) name number (B.trst bench) (I.left input.old) (I.left input.new) (B.chain bench) (B.chain result.bench) (O.sent out) (O.sent result.out)
        (record { shelf = S.fault_count shelf.old; source = I.fault_count input.old; cable = B.fault_count bench; sink = O.fault_count out })
        (record { shelf = S.fault_count shelf.new; source = I.fault_count input.new; cable = B.fault_count result.bench; sink = O.fault_count result.out }) }
    ensures listed { (name : List ℕ) (number : ℕ) → IsGrantNumber number → map string_bytes words.now ≡ pipe_words name number → LoadsListed (S.loads shelf.old) (S.loads shelf.new) name × IsPipeStatus result.status }

    // Where the files say a setup with that grant, which the cable can serve, no count rose and memory was not wanting, the session ends.
    ensures well { (name : List ℕ) (number : ℕ) (setup : Setup) (grant : GrantShape) (told : List NamedBytes) → IsGrantNumber number → map string_bytes words.now ≡ pipe_words name number
        → S.files shelf.old ≡ Some told → Fits (Some told) name number (B.trst bench) setup grant → (Rose (S.fault_count shelf.old) (S.fault_count shelf.new) → ⊥)
        → (Rose (I.fault_count input.old) (I.fault_count input.new) → ⊥) → (Rose (B.fault_count bench) (B.fault_count result.bench) → ⊥) → (Rose (O.fault_count out) (O.fault_count result.out) → ⊥)
        → IsEndStatus result.status ⊎ (result.status ≡ 9) }

    // All other words are told, and then nothing else is done.
    ensures others { NoCheck (map string_bytes words.now) → NoPipe (map string_bytes words.now) → Tells 2 (codes "words\n") result.status (O.sent out) (O.sent result.out) (O.fault_count out) (O.fault_count result.out) }
    ensures idle { NoCheck (map string_bytes words.now) → NoPipe (map string_bytes words.now) → (S.loads shelf.new ≡ S.loads shelf.old) × (S.fault_count shelf.new ≡ S.fault_count shelf.old)
        × (I.left input.new ≡ I.left input.old) × (I.fault_count input.new ≡ I.fault_count input.old) × (B.chain result.bench ≡ B.chain bench) × (B.fault_count result.bench ≡ B.fault_count bench) }
    ensures mark { B.mark result.bench ≡ B.mark bench }
    ensures files { S.files shelf.new ≡ S.files shelf.old }

    // Statuses 4, 5 and 7 have their causes.
    ensures read { CountsEither 4 result.status (S.fault_count shelf.old) (S.fault_count shelf.new) (I.fault_count input.old) (I.fault_count input.new) }
    ensures sink { Counts 5 result.status (O.fault_count out) (O.fault_count result.out) }
    ensures cable { Counts 7 result.status (B.fault_count bench) (B.fault_count result.bench) }

    // There is no other status.
    ensures known { IsStatus result.status }
{
    if let Some(name) = checked_setup(words) {
        return check_command(alloc, name, bench, shelf, out);
    }
    match piped_grant(words) {
        Some((name, number)) => pipe_command(alloc, name, number, bench, shelf, input, out),
        None => no_command(bench, out),
    }
}
