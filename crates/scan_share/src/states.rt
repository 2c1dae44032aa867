// The states of a shared chain between two calls. Each owns the cable.
ghost use Rattle.std.specs.Prelude.{◌≡◌, ◌≤◌, ◌<◌, List, Bool, length, false, true, IfOk, OnOk};
ghost use Rattle.base_types.specs.Counts.{HasCause};
ghost use Rattle.base_types.specs.Tellings.{Told, Both};
ghost use Rattle.tap_states.specs.declared.Tap.TheVariants.{TestLogicReset};
ghost use Rattle.grant_table.specs.Layouts.{group_of};
ghost use Rattle.scan_share.specs.PrivateChains.{entries_at};
ghost use Rattle.scan_share.specs.Scans.{Starts, Captures, IsReadOut, Updates, Abandons, IsWhole};
ghost use Rattle.scan_share.specs.Codes.{AreCodes};
ghost use Rattle.scan_share.specs.Views.{parked_or_broken, open_or_broken, AsksAtMost, IsLoadedFor, codes_for, own_width, capture_calls, update_calls};

use crate::codes::{Codes, codes_at, reset_codes};
use crate::group_scans::{capture_for, update_for};
use crate::members::{PlaceMask, mask_of, members, places_of};
use chain_model::Cable;
use grant_table::Layout;
use scan_bits::Bits;
use std::marker::Model;

// The cable, and the instruction code of each device of its chain, from TDI on.
struct Line<C: Cable> {
    cable: C,
    loaded: Codes,
}

/// A shared chain at rest: its TAP controllers are in Run-Test/Idle, and no scan is open. It owns the cable, and knows the instruction
/// code of each device.
pub struct Parked<C: Cable> {
    line: Line<C>,
}

impl<C: Cable> Model for Parked<C> {
    ghost use Rattle.base_types.specs.Tellings.{Told};
    ghost use Rattle.chain_model.specs.Cables.{HasDevice};
    ghost use Rattle.scan_share.specs.Views.{ParkedView, RestsWith};

    ghost Value = { ParkedView C };

    ghost view = { λ p. record { cable = p.line.cable; loaded = p.line.loaded.items } };

    ghost invariant = { λ p. Told (C.chain p.line.cable) HasDevice × Told (C.chain p.line.cable) (RestsWith p.line.loaded.items) };
}

/// A shared chain in Pause-DR with the open scan of a grant. It owns the cable, and knows the instruction code of each device.
pub struct Open<C: Cable> {
    line: Line<C>,
    grant: usize,
    places: PlaceMask,
}

impl<C: Cable> Model for Open<C> {
    ghost use Rattle.base_types.specs.Tellings.{Told};
    ghost use Rattle.chain_model.specs.Cables.{HasDevice};
    ghost use Rattle.scan_share.specs.PrivateChains.{entries_at};
    ghost use Rattle.scan_share.specs.PlaceMasks.{places_in};
    ghost use Rattle.scan_share.specs.Views.{OpenView, OpenWith};

    ghost Value = { OpenView C };

    ghost view = { λ o. record { cable = o.line.cable; loaded = o.line.loaded.items; grant = o.grant; codes = entries_at o.line.loaded.items (places_in o.places) } };

    ghost invariant = { λ o. Told (C.chain o.line.cable) HasDevice × Told (C.chain o.line.cable) (OpenWith o.line.loaded.items) };
}

/// A cable that failed within a call. Nothing is told of its chain any more.
pub struct Broken<C: Cable> {
    cable: C,
}

impl<C: Cable> Model for Broken<C> {
    ghost use Rattle.scan_share.specs.Views.{BrokenView};

    ghost Value = { BrokenView C };

    ghost view = { λ b. record { cable = b.cable } };
}

impl<C: Cable> Line<C> {
    // Hands the cable back.
    fn into_cable(self) -> C
        ensures { result ≡ self.cable }
    {
        let Line { cable, loaded: _ } = self;
        cable
    }

    // The cable failed.
    fn broken(self) -> Broken<C>
        ensures { result ≡ record { cable = self.cable } }
    {
        let Line { cable, loaded: _ } = self;
        Broken { cable }
    }
}

impl<C: Cable> Parked<C> {
    /// Brings a chain at power-up to rest in one call of six cycles: TMS 1, 1, 1, 1, 1, 0. No content changes.
    ///
    /// `Broken` comes only where the cable's count of faults rose in the call.
    pub fn start(cable: C, layout: &Layout) -> Result<Parked<C>, Broken<C>>
        requires whole { Told (C.chain cable) (IsWhole layout.now) }
        requires reset { Told (C.chain cable) (λ chain. (chain.state ≡ TestLogicReset) × (chain.scan_open ≡ false)) }
        ensures started { IfOk result (λ parked. Both (C.chain cable) (C.chain parked.cable) (Starts layout.now)) }
        ensures whole { IfOk result (λ parked. Told (C.chain parked.cable) (IsWhole layout.now)) }
        ensures asked { IfOk result (λ parked. Both (C.chain cable) (C.chain parked.cable) (AsksAtMost 1)) }
        ensures mark { C.mark (parked_or_broken result) ≡ C.mark cable }
        ensures trst { C.trst (parked_or_broken result) ≡ C.trst cable }
        ensures cause { HasCause (C.fault_count cable) (C.fault_count (parked_or_broken result)) result }
    {
        let loaded = reset_codes(layout);
        let mut line = Line { cable, loaded };
        match line.cable.cycles(6, 0b01_1111, 0) {
            Ok(_) => Ok(Parked { line }),
            Err(_) => Err(line.broken()),
        }
    }

    /// Captures for a grant under these instruction codes of its devices, from TDI on, bit 0 nearest TDO: the devices hold and give what
    /// their private chain would, and all others hold what they held. The captured bits, bit 0 nearest TDO, replace what `into` held.
    ///
    /// The instruction scan is left out where the codes are loaded, with all ones in the devices of no or another grant. The cable is
    /// called once for 64 bits of each scan at most, and three times more.
    ///
    /// `Broken` comes only where the cable's count of faults rose in the call.
    #[inline(always)]
    pub fn capture(
        mut self,
        layout: &Layout,
        grant: usize,
        codes: &[u64],
        into: &mut Bits,
    ) -> Result<Open<C>, Broken<C>>
        requires grant { grant < length layout.now.grants }
        requires codes { AreCodes (entries_at layout.now.parts (group_of layout.now.grants grant)) codes.now }
        requires room { own_width layout.now grant codes.now ≤ into.old.room }
        requires whole { Told (C.chain self.cable) (IsWhole layout.now) }
        ensures captured { IfOk result (λ held. Both (C.chain self.cable) (C.chain held.cable) (Captures layout.now (group_of layout.now.grants grant) (codes_for layout.now grant codes.now) into.new.bits)) }
        ensures whole { IfOk result (λ held. Told (C.chain held.cable) (IsWhole layout.now)) }
        ensures loaded { IfOk result (λ held. IsLoadedFor layout.now grant codes.now held.loaded) }
        ensures told { IfOk result (λ held. (held.grant ≡ grant) × (held.codes ≡ codes.now)) }
        ensures asked { IfOk result (λ held. Both (C.chain self.cable) (C.chain held.cable) (AsksAtMost (capture_calls layout.now grant codes.now))) }
        ensures read { IfOk result (λ held. Both (C.ahead self.cable) (C.ahead held.cable) (λ before after. IsReadOut layout.now (group_of layout.now.grants grant) (codes_for layout.now grant codes.now) before after into.new.bits)) }
        ensures length { OnOk result (length into.new.bits ≡ own_width layout.now grant codes.now) }
        ensures room { into.new.room ≡ into.old.room }
        ensures mark { C.mark (open_or_broken result) ≡ C.mark self.cable }
        ensures trst { C.trst (open_or_broken result) ≡ C.trst self.cable }
        ensures cause { HasCause (C.fault_count self.cable) (C.fault_count (open_or_broken result)) result }
    {
        // The line is used where it lies, and moved but once.
        let captured = capture_for(
            &mut self.line.cable,
            layout,
            grant,
            codes,
            &mut self.line.loaded,
            into,
        );
        let Parked { line } = self;
        match captured {
            Ok(()) => {}
            Err(_) => return Err(line.broken()),
        }
        Ok(Open {
            line,
            grant,
            places: mask_of(members(layout, grant)),
        })
    }

    /// Hands the cable back.
    pub fn into_cable(self) -> C
        ensures { result ≡ self.cable }
    {
        let Parked { line } = self;
        line.into_cable()
    }
}

impl<C: Cable> Open<C> {
    /// The number of the grant that holds the scan.
    pub fn grant(&self) -> usize
        ensures { result ≡ self.now.grant }
    {
        self.grant
    }

    /// The instruction codes of the grant's devices under which it captured, from TDI on, bit 0 nearest TDO.
    pub fn codes(&self) -> Codes
        ensures { result.items ≡ self.now.codes }
    {
        codes_at(&self.line.loaded, &places_of(self.places))
    }

    /// Updates the registers of a grant's devices from these bits, bit 0 nearest TDO, under the codes that are loaded: the devices hold
    /// what their private chain would, and all others hold what they held. No scan is open afterwards. The cable is called once for 64
    /// bits of the scan at most, and twice more.
    ///
    /// `Broken` comes only where the cable's count of faults rose in the call.
    #[inline(always)]
    pub fn update(
        mut self,
        layout: &Layout,
        grant: usize,
        codes: &[u64],
        bits: &Bits,
    ) -> Result<Parked<C>, Broken<C>>
        requires grant { grant < length layout.now.grants }
        requires codes { AreCodes (entries_at layout.now.parts (group_of layout.now.grants grant)) codes.now }
        requires loaded { IsLoadedFor layout.now grant codes.now self.loaded }
        requires long { length bits.now.bits ≡ own_width layout.now grant codes.now }
        requires whole { Told (C.chain self.cable) (IsWhole layout.now) }
        ensures updated { IfOk result (λ parked. Both (C.chain self.cable) (C.chain parked.cable) (Updates layout.now (group_of layout.now.grants grant) (codes_for layout.now grant codes.now) bits.now.bits)) }
        ensures whole { IfOk result (λ parked. Told (C.chain parked.cable) (IsWhole layout.now)) }
        ensures asked { IfOk result (λ parked. Both (C.chain self.cable) (C.chain parked.cable) (AsksAtMost (update_calls layout.now grant codes.now))) }
        ensures mark { C.mark (parked_or_broken result) ≡ C.mark self.cable }
        ensures trst { C.trst (parked_or_broken result) ≡ C.trst self.cable }
        ensures cause { HasCause (C.fault_count self.cable) (C.fault_count (parked_or_broken result)) result }
    {
        let updated = update_for(&mut self.line.cable, layout, grant, codes, bits);
        let Open {
            line,
            grant: _,
            places: _,
        } = self;
        match updated {
            Ok(()) => {}
            Err(_) => return Err(line.broken()),
        }
        Ok(Parked { line })
    }

    /// Ends the scan by a reset of the whole chain and one cycle with TMS 0: nothing is updated, and no content changes.
    ///
    /// `Broken` comes only where the cable's count of faults rose in the call.
    pub fn abandon(self, layout: &Layout) -> Result<Parked<C>, Broken<C>>
        requires trst { C.trst self.cable ≡ true }
        requires whole { Told (C.chain self.cable) (IsWhole layout.now) }
        ensures abandoned { IfOk result (λ parked. Both (C.chain self.cable) (C.chain parked.cable) (Abandons layout.now)) }
        ensures whole { IfOk result (λ parked. Told (C.chain parked.cable) (IsWhole layout.now)) }
        ensures asked { IfOk result (λ parked. Both (C.chain self.cable) (C.chain parked.cable) (AsksAtMost 1)) }
        ensures mark { C.mark (parked_or_broken result) ≡ C.mark self.cable }
        ensures trst { C.trst (parked_or_broken result) ≡ C.trst self.cable }
        ensures cause { HasCause (C.fault_count self.cable) (C.fault_count (parked_or_broken result)) result }
    {
        let Open {
            mut line,
            grant: _,
            places: _,
        } = self;
        line.loaded = reset_codes(layout);
        match line.cable.reset() {
            Ok(()) => {}
            Err(_) => return Err(line.broken()),
        }
        match line.cable.cycles(1, 0, 0) {
            Ok(_) => Ok(Parked { line }),
            Err(_) => Err(line.broken()),
        }
    }

    /// Leaves the scan open, and hands the cable back.
    pub fn leave(self) -> C
        ensures { result ≡ self.cable }
    {
        let Open {
            line,
            grant: _,
            places: _,
        } = self;
        line.into_cable()
    }
}

impl<C: Cable> Broken<C> {
    /// Hands the cable back.
    pub fn into_cable(self) -> C
        ensures { result ≡ self.cable }
    {
        let Broken { cable } = self;
        cable
    }
}
