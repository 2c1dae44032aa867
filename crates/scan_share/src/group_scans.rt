// Captures and updates for a grant, over the cable of the shared chain.
ghost use Rattle.std.specs.Prelude.{◌≡◌, ◌≤◌, ◌<◌, ◌^◌, List, Bool, length, OnOk};
ghost use Rattle.base_types.specs.Counts.{HasCause};
ghost use Rattle.base_types.specs.Tellings.{Told, Both};
ghost use Rattle.scan_bits.specs.Registers.{joined};
ghost use Rattle.chain_model.specs.Cables.{HasDevice};
ghost use Rattle.grant_table.specs.Layouts.{group_of};
ghost use Rattle.scan_share.specs.PrivateChains.{entries_at};
ghost use Rattle.scan_share.specs.Scans.{Captures, IsReadOut, Updates, IsWhole, scan_length};
ghost use Rattle.scan_share.specs.Written.{written};
ghost use Rattle.scan_share.specs.Codes.{AreCodes};
ghost use Rattle.scan_share.specs.Laws.{own_bits};
ghost use Rattle.scan_share.specs.Parts.{IsOpenUnder, IsReady};
ghost use Rattle.scan_share.specs.Views.{AsksAtMost, IsLoadedFor, OpenWith, RestsWith, codes_for, own_width, capture_calls, update_calls};

use crate::code_bits::CodeBits;
use crate::codes::Codes;
use crate::members::members;
use crate::neighbours::{Neighbours, are_neighbours};
use crate::own_bits::OwnBits;
use crate::runs::{Runs, ScanRuns};
use crate::scan::Scan;
use crate::scan_length::scan_length;
use crate::walks::{scan_out, write};
use crate::write_bits::WriteBits;
use chain_model::{Cable, CableFault};
use grant_table::Layout;
use scan_bits::Bits;
use scan_walks::{BitSink, BitSource};

/// Captures for a grant whose registers have so many bits, from Run-Test/Idle to Pause-DR, and hands the bits read out to a sink. The
/// codes of the scan are loaded before, unless they are loaded already.
pub fn capture_to<'a, C: Cable, R: ScanRuns>(
    cable: &mut C,
    layout: &Layout,
    grant: usize,
    codes: &[u64],
    loaded: &[u64],
    is_loaded: bool,
    own: usize,
    sink: &mut OwnBits<'a, R>,
) -> Result<(), CableFault>
    requires grant { grant < length layout.now.grants }
    requires codes { AreCodes (entries_at layout.now.parts (group_of layout.now.grants grant)) codes.now }
    requires own { own ≡ own_width layout.now grant codes.now }
    requires few { own < 2 ^ 63 }
    requires room { scan_length layout.now (group_of layout.now.grants grant) (codes_for layout.now grant codes.now) ≤ ⟦<OwnBits<'a, R> as BitSink>⟧.room sink.old }
    requires kept { (out : List Bool) → length out ≡ scan_length layout.now (group_of layout.now.grants grant) (codes_for layout.now grant codes.now) → ⟦<OwnBits<'a, R> as BitSink>⟧.holds sink.old out ≡ own_bits layout.now (group_of layout.now.grants grant) (codes_for layout.now grant codes.now) out }
    requires whole { Told (C.chain cable.old) (IsWhole layout.now) }
    requires devices { Told (C.chain cable.old) HasDevice }
    requires loaded { IsLoadedFor layout.now grant codes.now loaded.now }
    requires ready { IsReady is_loaded loaded.now (C.chain cable.old) }
    ensures captured { OnOk result (Both (C.chain cable.old) (C.chain cable.new) (Captures layout.now (group_of layout.now.grants grant) (codes_for layout.now grant codes.now) sink.new.into.now.bits)) }
    ensures whole { OnOk result (Told (C.chain cable.new) (IsWhole layout.now)) }
    ensures devices { OnOk result (Told (C.chain cable.new) HasDevice) }
    ensures open { OnOk result (Told (C.chain cable.new) (OpenWith loaded.now)) }
    ensures asked { OnOk result (Both (C.chain cable.old) (C.chain cable.new) (AsksAtMost (capture_calls layout.now grant codes.now))) }
    ensures read { OnOk result (Both (C.ahead cable.old) (C.ahead cable.new) (λ before after. IsReadOut layout.now (group_of layout.now.grants grant) (codes_for layout.now grant codes.now) before after sink.new.into.now.bits)) }
    ensures length { OnOk result (length sink.new.into.now.bits ≡ own_width layout.now grant codes.now) }
    ensures room { sink.new.into.now.room ≡ sink.old.into.now.room }
    ensures reference { sink.new.into.ghost_name ≡ sink.old.into.ghost_name }
    ensures mark { C.mark cable.new ≡ C.mark cable.old }
    ensures trst { C.trst cable.new ≡ C.trst cable.old }
    ensures cause { HasCause (C.fault_count cable.old) (C.fault_count cable.new) result }
{
    let count = scan_length(layout, grant, codes, own);
    let mut source = CodeBits::new(layout, loaded);
    scan_out(
        cable,
        &mut source,
        layout.ir_total(),
        is_loaded,
        sink,
        count,
    )?;
    Ok(())
}

/// Captures for a grant, from Run-Test/Idle to Pause-DR: the captured bits replace what `into` held. The codes that are loaded are then
/// those of the scan.
#[inline(never)]
pub fn capture_for<C: Cable>(
    cable: &mut C,
    layout: &Layout,
    grant: usize,
    codes: &[u64],
    loaded: &mut Codes,
    into: &mut Bits,
) -> Result<(), CableFault>
    requires grant { grant < length layout.now.grants }
    requires codes { AreCodes (entries_at layout.now.parts (group_of layout.now.grants grant)) codes.now }
    requires room { own_width layout.now grant codes.now ≤ into.old.room }
    requires whole { Told (C.chain cable.old) (IsWhole layout.now) }
    requires devices { Told (C.chain cable.old) HasDevice }
    requires rests { Told (C.chain cable.old) (RestsWith loaded.old.items) }
    ensures captured { OnOk result (Both (C.chain cable.old) (C.chain cable.new) (Captures layout.now (group_of layout.now.grants grant) (codes_for layout.now grant codes.now) into.new.bits)) }
    ensures whole { OnOk result (Told (C.chain cable.new) (IsWhole layout.now)) }
    ensures devices { OnOk result (Told (C.chain cable.new) HasDevice) }
    ensures loaded { IsLoadedFor layout.now grant codes.now loaded.new.items }
    ensures open { OnOk result (Told (C.chain cable.new) (OpenWith loaded.new.items)) }
    ensures asked { OnOk result (Both (C.chain cable.old) (C.chain cable.new) (AsksAtMost (capture_calls layout.now grant codes.now))) }
    ensures read { OnOk result (Both (C.ahead cable.old) (C.ahead cable.new) (λ before after. IsReadOut layout.now (group_of layout.now.grants grant) (codes_for layout.now grant codes.now) before after into.new.bits)) }
    ensures length { OnOk result (length into.new.bits ≡ own_width layout.now grant codes.now) }
    ensures room { into.new.room ≡ into.old.room }
    ensures mark { C.mark cable.new ≡ C.mark cable.old }
    ensures trst { C.trst cable.new ≡ C.trst cable.old }
    ensures cause { HasCause (C.fault_count cable.old) (C.fault_count cable.new) result }
{
    let group = members(layout, grant);
    let scan = Scan::new(layout, group, codes);
    into.clear();
    if are_neighbours(group) {
        let own = scan.neighbours_length();
        let is_loaded = scan.load_neighbours(loaded);
        let mut runs = Neighbours::new(&scan, own);
        let mut sink = OwnBits::new(&mut runs, into);
        return capture_to(
            cable, layout, grant, codes, loaded, is_loaded, own, &mut sink,
        );
    }
    let mut widths = [0; 32];
    let own = scan.put_widths(&mut widths);
    let is_loaded = scan.load(loaded);
    let mut runs = Runs::new(&scan, &widths[..group.len()]);
    let mut sink = OwnBits::new(&mut runs, into);
    capture_to(
        cable, layout, grant, codes, loaded, is_loaded, own, &mut sink,
    )
}

/// Updates a grant's registers from a source of all bits of the scan, from Pause-DR to Run-Test/Idle.
pub fn update_from<C: Cable, S: BitSource>(
    cable: &mut C,
    layout: &Layout,
    grant: usize,
    codes: &[u64],
    bits: &Bits,
    source: &mut S,
) -> Result<(), CableFault>
    requires grant { grant < length layout.now.grants }
    requires codes { AreCodes (entries_at layout.now.parts (group_of layout.now.grants grant)) codes.now }
    requires long { length bits.now.bits ≡ own_width layout.now grant codes.now }
    requires source { S.left source.old ≡ joined (written layout.now (group_of layout.now.grants grant) (codes_for layout.now grant codes.now) bits.now.bits) }
    requires whole { Told (C.chain cable.old) (IsWhole layout.now) }
    requires devices { Told (C.chain cable.old) HasDevice }
    requires open { IsOpenUnder layout.now grant codes.now (C.chain cable.old) }
    ensures updated { OnOk result (Both (C.chain cable.old) (C.chain cable.new) (Updates layout.now (group_of layout.now.grants grant) (codes_for layout.now grant codes.now) bits.now.bits)) }
    ensures whole { OnOk result (Told (C.chain cable.new) (IsWhole layout.now)) }
    ensures devices { OnOk result (Told (C.chain cable.new) HasDevice) }
    ensures asked { OnOk result (Both (C.chain cable.old) (C.chain cable.new) (AsksAtMost (update_calls layout.now grant codes.now))) }
    ensures mark { C.mark cable.new ≡ C.mark cable.old }
    ensures trst { C.trst cable.new ≡ C.trst cable.old }
    ensures cause { HasCause (C.fault_count cable.old) (C.fault_count cable.new) result }
{
    let _room = bits.room();
    let count = scan_length(layout, grant, codes, bits.len());
    write(cable, source, count)?;
    Ok(())
}

/// Updates a grant's registers from these bits, from Pause-DR to Run-Test/Idle.
#[inline(never)]
pub fn update_for<C: Cable>(
    cable: &mut C,
    layout: &Layout,
    grant: usize,
    codes: &[u64],
    bits: &Bits,
) -> Result<(), CableFault>
    requires grant { grant < length layout.now.grants }
    requires codes { AreCodes (entries_at layout.now.parts (group_of layout.now.grants grant)) codes.now }
    requires long { length bits.now.bits ≡ own_width layout.now grant codes.now }
    requires whole { Told (C.chain cable.old) (IsWhole layout.now) }
    requires devices { Told (C.chain cable.old) HasDevice }
    requires open { IsOpenUnder layout.now grant codes.now (C.chain cable.old) }
    ensures updated { OnOk result (Both (C.chain cable.old) (C.chain cable.new) (Updates layout.now (group_of layout.now.grants grant) (codes_for layout.now grant codes.now) bits.now.bits)) }
    ensures whole { OnOk result (Told (C.chain cable.new) (IsWhole layout.now)) }
    ensures devices { OnOk result (Told (C.chain cable.new) HasDevice) }
    ensures asked { OnOk result (Both (C.chain cable.old) (C.chain cable.new) (AsksAtMost (update_calls layout.now grant codes.now))) }
    ensures mark { C.mark cable.new ≡ C.mark cable.old }
    ensures trst { C.trst cable.new ≡ C.trst cable.old }
    ensures cause { HasCause (C.fault_count cable.old) (C.fault_count cable.new) result }
{
    let group = members(layout, grant);
    let scan = Scan::new(layout, group, codes);
    if are_neighbours(group) {
        let mut source = WriteBits::new(Neighbours::new(&scan, bits.len()), bits);
        return update_from(cable, layout, grant, codes, bits, &mut source);
    }
    let mut widths = [0; 32];
    scan.put_widths(&mut widths);
    let mut source = WriteBits::new(Runs::new(&scan, &widths[..group.len()]), bits);
    update_from(cable, layout, grant, codes, bits, &mut source)
}
