// The parts of a scan, from one state of the TAP controllers to another.
ghost use Rattle.std.specs.Prelude.{◌≡◌, ◌≤◌, ◌+◌, ◌++◌, length, OnOk};
ghost use Rattle.base_types.specs.Counts.{HasCause};
ghost use Rattle.base_types.specs.Tellings.{Told};
ghost use Rattle.chain_model.specs.Cables.{HasDevice};
ghost use Rattle.scan_walks.specs.Walks.{calls_for};
ghost use Rattle.scan_share.specs.Walks.{load_walk, capture_walk, write_walk};
ghost use Rattle.scan_share.specs.Parts.{Makes, Reads, ScansOut, TakesAny, entry_walk, entry_calls};

use chain_model::{Cable, CableFault};
use scan_walks::{BitSink, BitSource, shift_in, shift_out};

// From Run-Test/Idle an instruction scan of `count` bits, and on to Shift-DR past Capture-DR.
#[inline(never)]
fn load<C: Cable, S: BitSource>(
    cable: &mut C,
    codes: &mut S,
    count: usize,
) -> Result<(), CableFault>
    requires some { 1 ≤ count }
    requires whole { length (S.left codes.old) ≡ count }
    requires devices { Told (C.chain cable.old) HasDevice }
    ensures made { OnOk result (Makes (calls_for count + 2) (load_walk (S.left codes.old) ++ capture_walk) (C.chain cable.old) (C.chain cable.new)) }
    ensures ahead { OnOk result (TakesAny (C.ahead cable.old) (C.ahead cable.new)) }
    ensures devices { OnOk result (Told (C.chain cable.new) HasDevice) }
    ensures mark { C.mark cable.new ≡ C.mark cable.old }
    ensures trst { C.trst cable.new ≡ C.trst cable.old }
    ensures cause { HasCause (C.fault_count cable.old) (C.fault_count cable.new) result }
{
    cable.cycles(4, 0b0011, 0)?; // to Shift-IR
    shift_in(cable, codes, count)?;
    cable.cycles(4, 0b0011, 0)?; // by way of Update-IR and Capture-DR
    Ok(())
}

// From Run-Test/Idle to Shift-DR past Capture-DR, by way of an instruction scan of `count` bits unless they are loaded.
#[inline(always)]
fn enter<C: Cable, S: BitSource>(
    cable: &mut C,
    codes: &mut S,
    count: usize,
    is_loaded: bool,
) -> Result<(), CableFault>
    requires some { 1 ≤ count }
    requires whole { length (S.left codes.old) ≡ count }
    requires devices { Told (C.chain cable.old) HasDevice }
    ensures made { OnOk result (Makes (entry_calls is_loaded count) (entry_walk is_loaded (S.left codes.old)) (C.chain cable.old) (C.chain cable.new)) }
    ensures ahead { OnOk result (TakesAny (C.ahead cable.old) (C.ahead cable.new)) }
    ensures devices { OnOk result (Told (C.chain cable.new) HasDevice) }
    ensures mark { C.mark cable.new ≡ C.mark cable.old }
    ensures trst { C.trst cable.new ≡ C.trst cable.old }
    ensures cause { HasCause (C.fault_count cable.old) (C.fault_count cable.new) result }
{
    if !is_loaded {
        return load(cable, codes, count);
    }
    cable.cycles(3, 0b001, 0)?; // by way of Capture-DR
    Ok(())
}

// From Shift-DR `count` bits out to the sink, and on to Pause-DR.
fn read<C: Cable, S: BitSink>(cable: &mut C, sink: &mut S, count: usize) -> Result<(), CableFault>
    requires some { 1 ≤ count }
    requires room { count ≤ S.room sink.old }
    requires devices { Told (C.chain cable.old) HasDevice }
    ensures read { OnOk result (Reads (C.chain cable.old) (C.chain cable.new) (C.ahead cable.old) (C.ahead cable.new) (S.holds sink.old) (S.holds sink.new) count) }
    ensures sink { S.mark sink.new ≡ S.mark sink.old }
    ensures devices { OnOk result (Told (C.chain cable.new) HasDevice) }
    ensures mark { C.mark cable.new ≡ C.mark cable.old }
    ensures trst { C.trst cable.new ≡ C.trst cable.old }
    ensures cause { HasCause (C.fault_count cable.old) (C.fault_count cable.new) result }
{
    shift_out(cable, sink, count)?;
    cable.cycles(1, 0, 0)?; // to Pause-DR
    Ok(())
}

// From Run-Test/Idle to Pause-DR: the codes loaded unless they are, a capture, and `count` bits out to the sink.
pub fn scan_out<C: Cable, S: BitSource, K: BitSink>(
    cable: &mut C,
    codes: &mut S,
    ir_count: usize,
    is_loaded: bool,
    sink: &mut K,
    count: usize,
) -> Result<(), CableFault>
    requires codes { (1 ≤ ir_count) × (length (S.left codes.old) ≡ ir_count) }
    requires some { 1 ≤ count }
    requires room { count ≤ K.room sink.old }
    requires devices { Told (C.chain cable.old) HasDevice }
    ensures scanned { OnOk result (ScansOut is_loaded (S.left codes.old) (C.chain cable.old) (C.chain cable.new) (C.ahead cable.old) (C.ahead cable.new) (K.holds sink.old) (K.holds sink.new) count) }
    ensures sink { K.mark sink.new ≡ K.mark sink.old }
    ensures devices { OnOk result (Told (C.chain cable.new) HasDevice) }
    ensures mark { C.mark cable.new ≡ C.mark cable.old }
    ensures trst { C.trst cable.new ≡ C.trst cable.old }
    ensures cause { HasCause (C.fault_count cable.old) (C.fault_count cable.new) result }
{
    enter(cable, codes, ir_count, is_loaded)?;
    read(cable, sink, count)?;
    Ok(())
}

// From Pause-DR `count` bits in, and on to Run-Test/Idle past Update-DR.
pub fn write<C: Cable, S: BitSource>(
    cable: &mut C,
    bits: &mut S,
    count: usize,
) -> Result<(), CableFault>
    requires some { 1 ≤ count }
    requires whole { length (S.left bits.old) ≡ count }
    requires devices { Told (C.chain cable.old) HasDevice }
    ensures made { OnOk result (Makes (calls_for count + 2) (write_walk (S.left bits.old)) (C.chain cable.old) (C.chain cable.new)) }
    ensures devices { OnOk result (Told (C.chain cable.new) HasDevice) }
    ensures mark { C.mark cable.new ≡ C.mark cable.old }
    ensures trst { C.trst cable.new ≡ C.trst cable.old }
    ensures cause { HasCause (C.fault_count cable.old) (C.fault_count cable.new) result }
{
    cable.cycles(2, 0b01, 0)?; // to Shift-DR
    shift_in(cable, bits, count)?;
    cable.cycles(2, 0b01, 0)?; // by way of Update-DR
    Ok(())
}
