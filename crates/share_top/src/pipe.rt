// The command `pipe`: a session of a grant, from the input to the output.
ghost use Rattle.std.specs.Prelude.{◌≡◌, ◌≤◌, ◌<◌, ℕ, true, false, length, IfOk, slice_get};
ghost use Rattle.std.specs.declared.option.Option.TheVariants.{Some};
ghost use Rattle.base_types.specs.Tellings.{Told};
ghost use Rattle.chain_model.specs.Cables.{empty_chain};
ghost use Rattle.grant_table.specs.Layouts.{GrantShape};
ghost use Rattle.scan_share.specs.Scans.{Starts};
ghost use Rattle.setup_read.specs.Setups.{IsWhole};
ghost use Rattle.share_top.specs.Pipes.{PipeCauses, Pipes, RunsSession, ServesSession, SessionCauses, uses_trst, whole_chain};
ghost use Rattle.share_top.specs.Sessions.{AreWords, IsFreeFor, IsSound};
ghost use Rattle.share_top.specs.Setups.{LoadsListed};

use crate::outcome::Outcome;
use crate::setup::load_setup;
use chain_model::{AssembleFault, Bench};
use chain_token::Token;
use client_session::{Session, leave};
use lone_session::serve;
use ports::{Shelf, Sink, Source};
use scan_share::Parked;
use setup_read::Setup;
use std::alloc::{AllocError, Global};

/// The most bytes of one read.
const READ_SIZE: usize = 4096;

/// What a run of `pipe` leaves, before its last line is written: what it comes to, and the bench.
pub struct Piped<B> {
    pub outcome: Outcome,
    pub bench: B,
}

/// Whether the letters of TRST count.
pub fn uses_trst(setup: &Setup) -> bool
    ensures { result ≡ uses_trst setup.now }
{
    setup.version == 2
}

/// Whether the setup needs TRST, and the cable has none.
pub fn lacks_trst<B: Bench>(setup: &Setup, bench: &B) -> bool
    ensures lacks { result ≡ true → (uses_trst setup.now ≡ true) × (B.trst bench.now ≡ false) }
    ensures serves { result ≡ false → uses_trst setup.now ≡ true → B.trst bench.now ≡ true }
{
    uses_trst(setup) && !bench.has_trst()
}

// The counts of faults have 64 bits.
fn counted<B: Bench, I: Source, O: Sink>(bench: &B, input: &I, out: &O)
    ensures { AreWords (B.fault_count bench.now) (I.fault_count input.now) (O.fault_count out.now) }
{
    let _bench = bench.faults();
    let _input = input.faults();
    let _out = out.faults();
}

/// What always holds of a setup.
pub fn sound(setup: &Setup)
    requires { IsWhole setup.now }
    ensures { IsSound setup.now }
{
    let _devices = setup.layout.devices();
}

// The session of a grant, which is not open yet, and the buffer of the reads.
fn memory(alloc: Global, setup: &Setup, grant: usize) -> Result<(Session, Vec<u8>), AllocError>
    requires whole { IsWhole setup.now }
    requires grant { grant < length setup.now.layout.grants }
    ensures session { IfOk result (λ made. IsFreeFor setup.now grant made.0) }
    ensures buffer { IfOk result (λ made. 0 < length made.1.items) }
{
    let session = Session::new(alloc, &setup.layout, grant, setup.vector, uses_trst(setup))?;
    let buffer = vec![in alloc; 0u8; READ_SIZE]?;
    Ok((session, buffer))
}

// Opens the session, and serves it over the shared chain at rest.
fn serve_parked<B: Bench, I: Source, O: Sink>(
    session: &mut Session,
    parked: Parked<B>,
    setup: &Setup,
    buffer: &mut [u8],
    input: &mut I,
    out: &mut O,
) -> Piped<B>
    requires sound { IsSound setup.now }
    requires grant { session.old.grant < length setup.now.layout.grants }
    requires session { IsFreeFor setup.now session.old.grant session.old }
    requires trst { uses_trst setup.now ≡ true → B.trst parked.cable ≡ true }
    requires buffer { 0 < length buffer.old }
    requires started { Told (B.chain parked.cable) (Starts setup.now.layout (whole_chain setup.now)) }
    requires counts { AreWords (B.fault_count parked.cable) (I.fault_count input.old) (O.fault_count out.old) }
    ensures ran { (shape : GrantShape) → slice_get setup.now.layout.grants session.old.grant ≡ Some shape → ServesSession result.outcome setup.now shape (I.left input.old) (I.left input.new) (B.chain parked.cable) (B.chain result.bench) (O.sent out.old) (O.sent out.new) }
    ensures mark { B.mark result.bench ≡ B.mark parked.cable }
    ensures causes { (shelf : ℕ) → SessionCauses result.outcome (record { shelf = shelf; source = I.fault_count input.old; cable = B.fault_count parked.cable; sink = O.fault_count out.old }) (record { shelf = shelf; source = I.fault_count input.new; cable = B.fault_count result.bench; sink = O.fault_count out.new }) }
{
    session.open(&setup.layout);
    match serve(
        session,
        Token::new(parked),
        &setup.layout,
        buffer,
        input,
        out,
    ) {
        Ok((served, desk)) => Piped {
            outcome: Outcome::Served(served),
            bench: leave(desk),
        },
        Err(broken) => Piped {
            outcome: Outcome::CableFault,
            bench: broken.into_cable(),
        },
    }
}

// Brings the chain to rest, and serves the session over it.
fn serve_powered<B: Bench, I: Source, O: Sink>(
    session: &mut Session,
    bench: B,
    setup: &Setup,
    buffer: &mut [u8],
    input: &mut I,
    out: &mut O,
) -> Piped<B>
    requires sound { IsSound setup.now }
    requires grant { session.old.grant < length setup.now.layout.grants }
    requires session { IsFreeFor setup.now session.old.grant session.old }
    requires trst { uses_trst setup.now ≡ true → B.trst bench ≡ true }
    requires buffer { 0 < length buffer.old }
    requires powered { Told (B.chain bench) (λ chain. chain ≡ whole_chain setup.now) }
    ensures ran { (shape : GrantShape) → slice_get setup.now.layout.grants session.old.grant ≡ Some shape → ServesSession result.outcome setup.now shape (I.left input.old) (I.left input.new) (B.chain bench) (B.chain result.bench) (O.sent out.old) (O.sent out.new) }
    ensures mark { B.mark result.bench ≡ B.mark bench }
    ensures causes { (shelf : ℕ) → SessionCauses result.outcome (record { shelf = shelf; source = I.fault_count input.old; cable = B.fault_count bench; sink = O.fault_count out.old }) (record { shelf = shelf; source = I.fault_count input.new; cable = B.fault_count result.bench; sink = O.fault_count out.new }) }
{
    counted(&bench, input, out);
    match Parked::start(bench, &setup.layout) {
        Ok(parked) => serve_parked(session, parked, setup, buffer, input, out),
        Err(broken) => Piped {
            outcome: Outcome::CableFault,
            bench: broken.into_cable(),
        },
    }
}

// Assembles the chain, and serves a session of a grant, which counts from 0. All memory but that of the chain is taken first.
fn serve_grant<B: Bench, I: Source, O: Sink>(
    alloc: Global,
    setup: &Setup,
    grant: usize,
    bench: B,
    input: &mut I,
    out: &mut O,
) -> Piped<B>
    requires whole { IsWhole setup.now }
    requires grant { grant < length setup.now.layout.grants }
    requires trst { uses_trst setup.now ≡ true → B.trst bench ≡ true }
    requires empty { Told (B.chain bench) (λ chain. chain ≡ empty_chain) }
    ensures ran { (shape : GrantShape) → slice_get setup.now.layout.grants grant ≡ Some shape → RunsSession result.outcome setup.now shape (I.left input.old) (I.left input.new) (B.chain bench) (B.chain result.bench) (O.sent out.old) (O.sent out.new) }
    ensures mark { B.mark result.bench ≡ B.mark bench }
    ensures causes { (shelf : ℕ) → SessionCauses result.outcome (record { shelf = shelf; source = I.fault_count input.old; cable = B.fault_count bench; sink = O.fault_count out.old }) (record { shelf = shelf; source = I.fault_count input.new; cable = B.fault_count result.bench; sink = O.fault_count out.new }) }
{
    let mut bench = bench;
    sound(setup);
    let Ok((mut session, mut buffer)) = memory(alloc, setup, grant) else {
        return Piped {
            outcome: Outcome::Memory,
            bench,
        };
    };
    match bench.assemble(alloc, setup.boards.as_slice(), setup.layout.nets()) {
        Ok(()) => serve_powered(&mut session, bench, setup, &mut buffer, input, out),
        Err(AssembleFault::Memory) => Piped {
            outcome: Outcome::Memory,
            bench,
        },
        Err(AssembleFault::Cable) => Piped {
            outcome: Outcome::CableFault,
            bench,
        },
    }
}

/// Runs `pipe SETUP GRANT` up to its last line: reads the setup of that name, assembles its chain on the bench, and serves one session of
/// the grant, which counts from 1, from the input to the output. At its end the bench is handed back as the session left it.
///
/// The refusals come in this order: the setup's, TRST that the cable has not, the grant's number. All memory but that of the chain is taken
/// before the chain is assembled, so that the bench is empty where memory was wanting.
pub fn pipe<B: Bench, S: Shelf, I: Source, O: Sink>(
    alloc: Global,
    name: &str,
    number: u8,
    bench: B,
    shelf: &mut S,
    input: &mut I,
    out: &mut O,
) -> Piped<B>
    requires number { 1 ≤ number }
    requires empty { Told (B.chain bench) (λ chain. chain ≡ empty_chain) }
    ensures pipes { Pipes result.outcome (S.files shelf.old) name.now number (B.trst bench) (I.left input.old) (I.left input.new) (B.chain bench) (B.chain result.bench) (O.sent out.old) (O.sent out.new) }
    ensures mark { B.mark result.bench ≡ B.mark bench }
    ensures causes { PipeCauses result.outcome (record { shelf = S.fault_count shelf.old; source = I.fault_count input.old; cable = B.fault_count bench; sink = O.fault_count out.old }) (record { shelf = S.fault_count shelf.new; source = I.fault_count input.new; cable = B.fault_count result.bench; sink = O.fault_count out.new }) }
    ensures files { S.files shelf.new ≡ S.files shelf.old }
    ensures loads { LoadsListed (S.loads shelf.old) (S.loads shelf.new) name.now }
{
    let setup = match load_setup(alloc, name, shelf) {
        Ok(setup) => setup,
        Err(none) => {
            return Piped {
                outcome: Outcome::NoSetup(none),
                bench,
            };
        }
    };
    if lacks_trst(&setup, &bench) {
        return Piped {
            outcome: Outcome::NoTrst,
            bench,
        };
    }
    let grant = usize::from(number) - 1;
    if grant >= setup.layout.grants() {
        return Piped {
            outcome: Outcome::NoGrant(number),
            bench,
        };
    }
    serve_grant(alloc, &setup, grant, bench, input, out)
}
