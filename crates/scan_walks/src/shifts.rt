// Shifts over a cable whose chain is in a Shift state.
ghost use Rattle.std.specs.Prelude.{◌≡◌, ◌≤◌, ◌+◌, ◌-◌, ◌^◌, [], length, OnOk};
ghost use Rattle.base_types.specs.Counts.{HasCause};
ghost use Rattle.base_types.specs.Tellings.{Told};
ghost use Rattle.chain_model.specs.Cables.{HasDevice};
ghost use Rattle.scan_walks.specs.ReadOuts.{ShiftsIn, TakesSome, ReadsOut};

use crate::streams::{BitSink, BitSource};
use chain_model::{Cable, CableFault};

/// How many cycles one call of a cable makes at most.
const MOST_CYCLES: u32 = 64;

// The word with the highest of its `n` bits set (1 to 64): TMS of cycles of which the last leaves the Shift state.
fn last_of(n: u32) -> u64
    requires some { 1 ≤ n }
    requires few { n ≤ 64 }
    ensures { result ≡ 2 ^ (n - 1) }
{
    1 << (n - 1)
}

/// Shifts the `count` bits that are left in `source` in, the first of them first, in a Shift state of the chain: as many cycles, of which
/// the last has TMS 1 and leaves that state. What TDO answers is let go.
///
/// The fault comes only where the cable's count of faults rose in the call.
pub fn shift_in<C: Cable, S: BitSource>(
    cable: &mut C,
    source: &mut S,
    count: usize,
) -> Result<(), CableFault>
    requires some { 1 ≤ count }
    requires whole { length (S.left source.old) ≡ count }
    requires devices { Told (C.chain cable.old) HasDevice }
    ensures shifted { OnOk result (ShiftsIn (C.chain cable.old) (C.chain cable.new) (S.left source.old)) }
    ensures ahead { OnOk result (TakesSome (C.ahead cable.old) (C.ahead cable.new) count) }
    ensures used { OnOk result (S.left source.new ≡ []) }
    ensures devices { OnOk result (Told (C.chain cable.new) HasDevice) }
    ensures mark { C.mark cable.new ≡ C.mark cable.old }
    ensures trst { C.trst cable.new ≡ C.trst cable.old }
    ensures cause { HasCause (C.fault_count cable.old) (C.fault_count cable.new) result }
{
    let mut left = count;
    while left > MOST_CYCLES as usize {
        cable.cycles(MOST_CYCLES, 0, source.take(MOST_CYCLES))?;
        left -= MOST_CYCLES as usize;
    }
    let last = left as u32;
    cable.cycles(last, last_of(last), source.take(last))?;
    Ok(())
}

/// Shifts `count` zeros in, in a Shift state of the chain: as many cycles, of which the last has TMS 1 and leaves that state. What TDO
/// answers goes to `sink`, the first answer first.
///
/// The fault comes only where the cable's count of faults rose in the call.
pub fn shift_out<C: Cable, S: BitSink>(
    cable: &mut C,
    sink: &mut S,
    count: usize,
) -> Result<(), CableFault>
    requires some { 1 ≤ count }
    requires room { count ≤ S.room sink.old }
    requires devices { Told (C.chain cable.old) HasDevice }
    ensures read { OnOk result (ReadsOut (C.chain cable.old) (C.chain cable.new) (C.ahead cable.old) (C.ahead cable.new) (S.holds sink.old) (S.holds sink.new) count) }
    ensures room { OnOk result (S.room sink.new + count ≡ S.room sink.old) }
    ensures sink { S.mark sink.new ≡ S.mark sink.old }
    ensures devices { OnOk result (Told (C.chain cable.new) HasDevice) }
    ensures mark { C.mark cable.new ≡ C.mark cable.old }
    ensures trst { C.trst cable.new ≡ C.trst cable.old }
    ensures cause { HasCause (C.fault_count cable.old) (C.fault_count cable.new) result }
{
    let mut left = count;
    while left > MOST_CYCLES as usize {
        let word = cable.cycles(MOST_CYCLES, 0, 0)?;
        sink.put(MOST_CYCLES, word);
        left -= MOST_CYCLES as usize;
    }
    let last = left as u32;
    let word = cable.cycles(last, last_of(last), 0)?;
    sink.put(last, word);
    Ok(())
}
