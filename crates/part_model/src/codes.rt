// Codes as numbers. Bit 0 is nearest TDO.
ghost use Rattle.std.specs.Prelude.{◌≡◌, ◌≤◌, ◌<◌, ◌^◌, true, replicate, length};
ghost use Rattle.std.specs.List.{list_all};
ghost use Rattle.scan_bits.specs.Words.{bits_of};
ghost use Rattle.part_model.specs.Plans as plans;

use crate::Digit;
use crate::patterns::CodePattern;

// Whether all bits of a code are 1.
pub fn all_ones(count: u32, code: u64) -> bool
    requires some { 1 ≤ count }
    requires most { count ≤ 64 }
    ensures { result ≡ list_all (λ bit. bit) (bits_of count code) }
{
    let mask = ones(count);
    code & mask == mask
}

// The number of so many ones.
pub fn ones(count: u32) -> u64
    requires some { 1 ≤ count }
    requires most { count ≤ 64 }
    ensures is { bits_of count result ≡ replicate count true }
    ensures bound { result < 2 ^ count }
{
    u64::MAX >> (64 - count)
}

// The code of a pattern of so many digits, X read as 0.
pub fn code_of(count: u32, digits: &[Digit]) -> u64
    requires most { count ≤ 64 }
    requires length { length digits.now ≡ count }
    ensures is { bits_of count result ≡ plans.bits_of_pattern digits.now }
    ensures bound { result < 2 ^ count }
{
    CodePattern::pack(count, digits).code()
}

// The number of a pattern of 32 digits, X read as 0.
pub fn word_of(digits: &[Digit]) -> u32
    requires { length digits.now ≡ 32 }
    ensures { bits_of 32 result ≡ plans.bits_of_pattern digits.now }
{
    code_of(32, digits) as u32
}

// Whether the lowest digit is 1, X read as 0.
pub fn is_odd(digits: &[Digit]) -> bool
    ensures { result ≡ plans.is_odd (plans.bits_of_pattern digits.now) }
{
    match digits.first() {
        Some(digit) => *digit == Digit::One,
        None => false,
    }
}
