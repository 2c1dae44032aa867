//! Letters as the remote_bitbang manual of OpenOCD has them.

use crate::table::{byte_of, letter};
use crate::{Letter, UnknownLetter};

#[test]
fn bytes_and_letters(rt: HostRuntime) {
    let rise = Letter::Lines {
        tck: true,
        tms: true,
        tdi: false,
    };
    let reset = Letter::Reset {
        trst: false,
        srst: true,
    };
    for (byte, meant) in [
        (b'6', rise),
        (b'R', Letter::Read),
        (b'Q', Letter::Quit),
        (b'b', Letter::Light(false)),
        (b's', reset),
    ] {
        assert_eq!(rt; letter(byte), Ok(meant));
        assert_eq!(rt; byte_of(meant), byte);
    }
    assert_eq!(rt; letter(b'x'), Err(UnknownLetter {}));
}
