//! Lines of text that are put together without memory, and written one after another.
#![tactic(auto)]

ghost use Rattle.std.specs.Prelude.{◌≡◌, ◌≤◌, ◌<◌, ◌+◌, ◌++◌, ◌∷◌, [], length};
ghost use Rattle.std.specs.Fmt.{decimal};
ghost use Rattle.text_lines.specs.Printed.{Prints};

mod hex;

use arrayvec::ArrayVec;
pub use hex::{push_hex, push_hex_bytes, push_hex_digits};
use ports::{PortFault, Sink, write_all};

/// A line, or a piece of one, of at most 1,024 bytes.
pub type Line = ArrayVec<u8, 1024>;

/// Puts a text behind the line.
pub fn push_text(line: &mut Line, text: &[u8])
    requires { length line.old.items + length text.now ≤ 1024 }
    ensures { line.new.items ≡ line.old.items ++ text.now }
{
    match line.try_extend_from_slice(text) {
        Ok(()) => (),
        Err(_) => unreachable!(),
    }
}

/// Puts a text and a number, in decimal, behind the line.
pub fn push_number(line: &mut Line, text: &[u8], number: u64)
    requires { length line.old.items + length text.now + 20 ≤ 1024 }
    ensures is { line.new.items ≡ line.old.items ++ text.now ++ decimal number }
    ensures room { length line.new.items ≤ length line.old.items + length text.now + 20 }
{
    push_text(line, text);
    push_text(line, itoa::Buffer::new().format(number).as_bytes());
}

/// A line of this text.
pub fn text_line(text: &[u8]) -> Line
    requires { length text.now ≤ 1024 }
    ensures { result.items ≡ text.now }
{
    let mut line = Line::new();
    push_text(&mut line, text);
    line
}

/// A line of a text and a number, with its newline.
pub fn number_line(text: &[u8], number: u64) -> Line
    requires { length text.now ≤ 1000 }
    ensures { result.items ≡ text.now ++ decimal number ++ 10 ∷ [] }
{
    let mut line = Line::new();
    push_number(&mut line, text, number);
    push_text(&mut line, b"\n");
    line
}

/// Writes a text. The fault comes only where the sink's count of faults rose, and then a front of the text is out.
pub fn put<O: Sink>(out: &mut O, text: &[u8]) -> Result<(), PortFault>
    ensures { Prints result (O.sent out.old) (O.sent out.new) text.now (O.fault_count out.old) (O.fault_count out.new) }
{
    write_all(out, text)
}

#[cfg(test)]
mod tests {
    use super::*;
    use std::test::Fail;

    #[test]
    fn numbers_are_decimal(rt: HostRuntime) -> Result<(), Fail> {
        assert_eq!(rt;
            number_line(b"grant ", 12).as_slice(),
            b"grant 12\n".as_slice()
        );
        assert_eq!(rt;
            number_line(b"", u64::MAX).as_slice(),
            b"18446744073709551615\n".as_slice()
        );
        Ok(())
    }

    #[test]
    fn pieces_stand_in_order(rt: HostRuntime) -> Result<(), Fail> {
        let mut line = text_line(b"refused");
        push_number(&mut line, b" ", 0);
        push_text(&mut line, b"\n");
        assert_eq!(rt; line.as_slice(), b"refused 0\n".as_slice());
        Ok(())
    }
}
