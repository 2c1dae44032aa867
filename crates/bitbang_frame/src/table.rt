//! Letters as bytes.

ghost use Rattle.std.specs.Prelude.{◌≡◌, ◌<◌, ◌+◌, IfOk, OnErr};
ghost use Rattle.bitbang_frame.specs.Letters.{letter};

use crate::{Letter, UnknownLetter};

/// The letter of a byte; an error exactly where the protocol has none.
pub fn letter(byte: u8) -> Result<Letter, UnknownLetter>
    ensures ok { IfOk result (λ meant. letter byte ≡ Some meant) }
    ensures unknown { OnErr result (letter byte ≡ None) }
{
    match byte {
        b'0'..=b'7' => Ok(lines(byte - b'0')),
        b'R' => Ok(Letter::Read),
        b'Q' => Ok(Letter::Quit),
        b'B' => Ok(Letter::Light(true)),
        b'b' => Ok(Letter::Light(false)),
        b'r' => Ok(Letter::Reset {
            trst: false,
            srst: false,
        }),
        b's' => Ok(Letter::Reset {
            trst: false,
            srst: true,
        }),
        b't' => Ok(Letter::Reset {
            trst: true,
            srst: false,
        }),
        b'u' => Ok(Letter::Reset {
            trst: true,
            srst: true,
        }),
        _ => Err(UnknownLetter {}),
    }
}

/// The lines that a digit sets.
fn lines(digit: u8) -> Letter
    requires { digit < 8 }
    ensures { letter (48 + digit) ≡ Some result }
{
    Letter::Lines {
        tck: digit / 4 == 1,
        tms: digit / 2 % 2 == 1,
        tdi: digit % 2 == 1,
    }
}

/// The byte of a letter.
pub fn byte_of(meant: Letter) -> u8
    ensures { letter result ≡ Some meant }
{
    match meant {
        Letter::Lines { tck, tms, tdi } => digit_of(tck, tms, tdi),
        Letter::Read => b'R',
        Letter::Quit => b'Q',
        Letter::Light(true) => b'B',
        Letter::Light(false) => b'b',
        Letter::Reset {
            trst: false,
            srst: false,
        } => b'r',
        Letter::Reset {
            trst: false,
            srst: true,
        } => b's',
        Letter::Reset {
            trst: true,
            srst: false,
        } => b't',
        Letter::Reset {
            trst: true,
            srst: true,
        } => b'u',
    }
}

/// The digit that sets the lines so.
fn digit_of(tck: bool, tms: bool, tdi: bool) -> u8
    ensures { letter result ≡ Some (Letter.Lines tck tms tdi) }
{
    b'0' + 4 * u8::from(tck) + 2 * u8::from(tms) + u8::from(tdi)
}
