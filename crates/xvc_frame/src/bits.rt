//! Bits of a vector, up to 64 at a time: the first bit is the lowest of the first byte.

ghost use Rattle.std.specs.Prelude.{◌≡◌, ◌≤◌, ◌<◌, ◌+◌, ◌*◌, ◌/◌, ◌%◌, ◌^◌, take, drop, length};
ghost use Rattle.scan_bits.specs.Words.{number_of, number_of_bytes, bits_of, unpacked};
ghost use Rattle.xvc_frame.specs.Messages.{AreBytes};
ghost use Rattle.xvc_frame.specs.Frames.{replaced};

/// Sixteen bytes from a place on as one number of the same bits.
fn load(bytes: &[u8], from: usize) -> u128
    requires { from + 16 ≤ length bytes.now }
    ensures { unpacked (take 16 (drop from bytes.now)) ≡ bits_of 128 result }
{
    let Some((chunk, _)) = bytes[from..].split_first_chunk::<16>() else {
        unreachable!()
    };
    u128::from_le_bytes(*chunk)
}

/// The lowest bits of a word, so many of them.
fn lowest(word: u128, width: u32) -> u128
    requires { width ≤ 64 }
    ensures { result ≡ word % 2 ^ width }
{
    word & ((1 << width) - 1)
}

/// So many bits from a place on, the first lowest.
pub(crate) fn read_bits(bytes: &[u8], at: usize, width: u32) -> u64
    requires width { width ≤ 64 }
    requires within { at / 8 + 16 ≤ length bytes.now }
    ensures value { result ≡ number_of (take width (drop at (unpacked bytes.now))) }
    ensures bound { result < 2 ^ width }
{
    lowest(load(bytes, at / 8) >> (at % 8), width) as u64
}

/// The word with so many bits from a place on replaced by the lowest of a value.
fn merged(word: u128, at: u32, width: u32, value: u64) -> u128
    requires at { at < 8 }
    requires width { width ≤ 64 }
    ensures { result ≡ word / 2 ^ (at + width) * 2 ^ (at + width) + (value % 2 ^ width * 2 ^ at + word % 2 ^ at) }
{
    let above = word >> (at + width) << (at + width);
    let between = lowest(u128::from(value), width) << at;
    above | (between | lowest(word, at))
}

/// Puts the lowest bits of a value in the place of so many bits from a place on.
pub(crate) fn write_bits(bytes: &mut [u8], at: usize, width: u32, value: u64)
    requires width { width ≤ 64 }
    requires within { at / 8 + 16 ≤ length bytes.old }
    ensures bits { unpacked bytes.new ≡ replaced (unpacked bytes.old) at (bits_of width value) }
    ensures before { take (at / 8) bytes.new ≡ take (at / 8) bytes.old }
    ensures bytes { AreBytes bytes.new }
{
    let from = at / 8;
    let word = merged(load(bytes, from), (at % 8) as u32, width, value);
    bytes[from..from + 16].copy_from_slice(&word.to_le_bytes());
}
