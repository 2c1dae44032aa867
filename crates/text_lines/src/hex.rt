// Numbers of base 16 in a line.
ghost use Rattle.std.specs.Prelude.{◌≡◌, ◌≤◌, ◌<◌, ◌+◌, ◌*◌, ◌++◌, ◌∷◌, [], length};
ghost use Rattle.text_lines.specs.Hex.{hex_digit, hex_digits, without_zeros, hex, hex_bytes};

use crate::{Line, push_text};

// A digit of base 16.
fn hex_digit(value: u8) -> u8
    requires { value < 16 }
    ensures { result ≡ hex_digit value }
{
    if value < 10 {
        b'0' + value
    } else {
        b'a' + (value - 10)
    }
}

/// Puts so many digits of base 16 behind the line, the lowest last.
pub fn push_hex_digits(line: &mut Line, count: u32, value: u64)
    requires { length line.old.items + count ≤ 1024 }
    ensures is { line.new.items ≡ line.old.items ++ hex_digits count value }
    ensures room { length line.new.items ≡ length line.old.items + count }
{
    if count > 0 {
        push_hex_digits(line, count - 1, value / 16);
        push_text(line, &[hex_digit((value % 16) as u8)]);
    }
}

// The digits without the zeros in front; the last digit stays.
fn without_zeros(digits: &[u8]) -> &[u8]
    ensures is { result.now ≡ without_zeros digits.now }
    ensures room { length result.now ≤ length digits.now }
{
    match digits.split_first() {
        Some((digit, rest)) if *digit == b'0' && !rest.is_empty() => without_zeros(rest),
        _ => digits,
    }
}

/// Puts a text and a number of base 16 behind the line, in small letters and without zeros in front.
pub fn push_hex(line: &mut Line, text: &[u8], number: u64)
    requires { length line.old.items + length text.now + 16 ≤ 1024 }
    ensures is { line.new.items ≡ line.old.items ++ text.now ++ hex number }
    ensures room { length line.new.items ≤ length line.old.items + length text.now + 16 }
{
    let mut digits = Line::new();
    push_hex_digits(&mut digits, 16, number);
    push_text(line, text);
    push_text(line, without_zeros(&digits));
}

/// Puts bytes behind the line, two digits of base 16 each, in small letters.
pub fn push_hex_bytes(line: &mut Line, bytes: &[u8])
    requires { length line.old.items + 2 * length bytes.now ≤ 1024 }
    ensures is { line.new.items ≡ line.old.items ++ hex_bytes bytes.now }
    ensures room { length line.new.items ≡ length line.old.items + 2 * length bytes.now }
{
    for byte in bytes {
        push_hex_digits(line, 2, u64::from(*byte));
    }
}
