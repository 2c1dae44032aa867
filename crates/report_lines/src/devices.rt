// What is told of a device at the end of a replay.
ghost use Rattle.std.specs.Prelude.{◌≡◌, ◌≤◌, ◌+◌, ◌*◌, ◌/◌, ◌^◌, length};
ghost use Rattle.scan_bits.specs.Words.{number_of};
ghost use Rattle.report_lines.specs.Devices.{bits_text, counts_line, digit_count, latch_head, latch_line, value_text};
ghost use Rattle.text_lines.specs.Hex.{hex_digits};
ghost use Rattle.text_lines.specs.Printed.{Prints};

use ports::{PortFault, Sink};
use scan_bits::Bits;
use text_lines::{Line, push_hex_digits, push_number, push_text, put};

// How often registers of a device were captured and updated.
fn counts_line(device: u64, captures: u64, updates: u64) -> Line
    ensures { result.items ≡ counts_line device captures updates }
{
    let mut line = Line::new();
    push_number(&mut line, b"device ", device);
    push_number(&mut line, b" captures ", captures);
    push_number(&mut line, b" updates ", updates);
    push_text(&mut line, b"\n");
    line
}

/// Writes how often registers of a device other than BYPASS were captured and updated. Devices count from 1, the one nearest TDI. The fault
/// comes only where the sink's count of faults rose, and then a front of the line is out.
pub fn put_counts<O: Sink>(
    out: &mut O,
    device: u64,
    captures: u64,
    updates: u64,
) -> Result<(), PortFault>
    ensures { Prints result (O.sent out.old) (O.sent out.new) (counts_line device captures updates) (O.fault_count out.old) (O.fault_count out.new) }
{
    put(out, &counts_line(device, captures, updates))
}

// How many digits of base 16 so many bits take.
fn digit_count(bits: usize) -> usize
    ensures { result ≡ digit_count bits }
{
    bits / 4 + (bits % 4 + 3) / 4
}

// So many digits of the number of these bits (1 to 16), above so many others.
fn digits_line(bits: &Bits, below: usize, count: usize) -> Line
    requires some { 1 ≤ count }
    requires few { count ≤ 16 }
    requires within { below + count ≤ digit_count (length bits.now.bits) }
    ensures { result.items ≡ hex_digits count (number_of bits.now.bits / 2 ^ (4 * below)) }
{
    let length = bits.len();
    let from = 4 * below;
    let width = (length - from).min(4 * count) as u32;
    let mut line = Line::new();
    push_hex_digits(&mut line, count as u32, bits.word(from, width));
    line
}

// Writes the number of these bits in base 16, with all its digits.
fn put_bits<O: Sink>(out: &mut O, bits: &Bits) -> Result<(), PortFault>
    ensures { Prints result (O.sent out.old) (O.sent out.new) (bits_text bits.now.bits) (O.fault_count out.old) (O.fault_count out.new) }
{
    let mut left = digit_count(bits.len());
    while left > 0 {
        let count = (left - 1) % 16 + 1;
        let below = left - count;
        put(out, &digits_line(bits, below, count))?;
        left = below;
    }
    Ok(())
}

// Writes what stands behind the name of a register.
fn put_value<O: Sink>(out: &mut O, bits: &Bits) -> Result<(), PortFault>
    ensures { Prints result (O.sent out.old) (O.sent out.new) (value_text bits.now.bits) (O.fault_count out.old) (O.fault_count out.new) }
{
    put(out, b" ")?;
    put_bits(out, bits)?;
    put(out, b"\n")
}

// What stands before the name of a register.
fn latch_head(device: u64) -> Line
    ensures { result.items ≡ latch_head device }
{
    let mut line = Line::new();
    push_number(&mut line, b"latch ", device);
    push_text(&mut line, b" ");
    line
}

/// Writes what the latch of a device's register holds, as a number in base 16 with a digit for each four bits and for what is left of them;
/// bit 0, the lowest, is nearest TDO. Devices count from 1, the one nearest TDI. The fault comes only where the sink's count of faults rose,
/// and then a front of the line is out.
pub fn put_latch<O: Sink>(
    out: &mut O,
    device: u64,
    name: &[u8],
    bits: &Bits,
) -> Result<(), PortFault>
    ensures { Prints result (O.sent out.old) (O.sent out.new) (latch_line device name.now bits.now.bits) (O.fault_count out.old) (O.fault_count out.new) }
{
    put(out, &latch_head(device))?;
    put(out, name)?;
    put_value(out, bits)
}
