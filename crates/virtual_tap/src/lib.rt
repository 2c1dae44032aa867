//! A virtual TAP: what a private chain is, without what its devices hold.
#![tactic(auto)]

ghost use Rattle.std.specs.Prelude.{◌≡◌, true, false, Bool, List};
ghost use Rattle.tap_states.specs.declared.Tap.{Tap};
ghost use Rattle.tap_states.specs.States.{is_capture_dr, next};
ghost use Rattle.scan_bits.specs.Registers.{joined};
ghost use Rattle.chain_model.specs.Chains.{ChainState};
ghost use Rattle.chain_model.specs.Cycles.{rise, on_rise, dr_stages};
ghost use Rattle.scan_share.specs.Timing.{may_scan};
ghost use Rattle.virtual_tap.specs.Taps.{ends_scan};
ghost use Rattle.virtual_tap.specs.Views.{TapView, StandsFor, opened_view};

mod edges;
mod instruction;
mod instruction_registers;
mod instructions;
mod vtap;

pub use vtap::VTap;

/// The rising edge in Capture-DR is, for a virtual TAP, a capture into the register and then a move of the state alone.
pub fn capture_edge_in_parts()
    ensures { (view : TapView) (chain : ChainState) (tms tdi : Bool) → StandsFor view chain → is_capture_dr chain.state ≡ true
        → StandsFor (record (opened_view (joined (dr_stages (rise chain tms tdi).devices)) view) { state = next view.state tms }) (rise chain tms tdi) }
{}

/// Where rising and falling edges take turns, a scan is open exactly in the states of one: each edge keeps that, but for the scan that is
/// opened in Capture-DR and the one that is closed in Update-DR. So behind a falling edge no scan waits to be closed.
pub fn scans_have_their_states()
    ensures rise { (state : Tap) (tms is_open : Bool) → is_capture_dr state ≡ false → is_open ≡ may_scan false state → is_open ≡ may_scan true (next state tms) }
    ensures opened { (state : Tap) (tms : Bool) → is_capture_dr state ≡ true → true ≡ may_scan true (next state tms) }
    ensures fall { (state : Tap) (is_open : Bool) → ends_scan state is_open ≡ false → is_open ≡ may_scan true state → is_open ≡ may_scan false state }
    ensures closed { (state : Tap) (is_open : Bool) → ends_scan state is_open ≡ true → false ≡ may_scan false state }
    ensures low { (state : Tap) (is_open : Bool) → is_open ≡ may_scan false state → ends_scan state is_open ≡ false }
{}
