// Texts that are refused, each at its place, and the tokens of others.
use crate::{LexRefusal, Token, TokenKind, tokens};
use std::alloc::{AllocError, Global};

fn refusal(alloc: Global, text: &[u8]) -> Option<LexRefusal> {
    match tokens(alloc, text) {
        Ok(_) => None,
        Err(refusal) => Some(refusal),
    }
}

#[test]
fn refuses_at_the_first_place(rt: HostRuntime) -> Result<(), AllocError> {
    let alloc = rt.alloc();
    for (text, at, cause) in [
        (b"\x7f".as_slice(), 0, 1),
        (b"port \x00".as_slice(), 5, 1),
        (b"a \xc3\xa4 1e".as_slice(), 2, 1),
        (b"a \"b\x0b\"".as_slice(), 4, 1),
        (b"\"\x80 and no end".as_slice(), 1, 1),
        (b"a \"b".as_slice(), 2, 2),
        (b"\"b\n\"".as_slice(), 0, 2),
        (b"\"a\" \"b\r\n\"".as_slice(), 4, 2),
        (b"\"a -- \n b\"".as_slice(), 0, 2),
        (b"1e".as_slice(), 0, 3),
        (b" 1e+;".as_slice(), 1, 3),
        (b"1e--5".as_slice(), 0, 3),
        (b"20.0x6".as_slice(), 0, 3),
        (b"a 12x3".as_slice(), 2, 3),
        (b"1.5_0".as_slice(), 0, 3),
        (b"1e5e".as_slice(), 0, 3),
        (b"1e\x01".as_slice(), 0, 3),
        (b"\"0123456789abcdef\x7f\"".as_slice(), 17, 1),
        (b"a \"0123456789 ABCDEFGHIJ\tabcdefghij\n".as_slice(), 2, 2),
    ] {
        assert!(rt; refusal(alloc, text) == Some(LexRefusal::Refused { at, cause }));
    }
    for (byte, count, at, cause) in [
        (b' ', 4_194_305, 4_194_304, 4),
        (1, 4_194_305, 4_194_304, 4),
        (1, 4_194_304, 0, 1),
    ] {
        let text = vec![in alloc; byte; count]?;
        assert!(rt; refusal(alloc, &text) == Some(LexRefusal::Refused { at, cause }));
    }
    assert!(rt; refusal(alloc, &vec![in alloc; b' '; 4_194_304]?).is_none());
    Ok(())
}

// How many tokens a text has, and the last of them.
#[test]
fn reads_the_forms(rt: HostRuntime) -> Result<(), LexRefusal> {
    let alloc = rt.alloc();
    for (text, count, kind, start, end) in [
        (b"20.0e6".as_slice(), 1, TokenKind::Number, 0, 6),
        (b"20.0E-6;".as_slice(), 2, TokenKind::Sign, 7, 8),
        (b"1_000_".as_slice(), 1, TokenKind::Number, 0, 6),
        (b"1.x".as_slice(), 3, TokenKind::Word, 2, 3),
        (b".5".as_slice(), 2, TokenKind::Number, 1, 2),
        (b"1.5.5".as_slice(), 3, TokenKind::Number, 4, 5),
        (b"_a".as_slice(), 2, TokenKind::Word, 1, 2),
        (b"Entity_2 x9_".as_slice(), 2, TokenKind::Word, 9, 12),
        (b"\t\"a -- b\t(;\" ".as_slice(), 1, TokenKind::Text, 1, 12),
        (b"\"\"\"\"".as_slice(), 2, TokenKind::Text, 2, 4),
        (b":=".as_slice(), 2, TokenKind::Sign, 1, 2),
        (b"a-b".as_slice(), 3, TokenKind::Word, 2, 3),
        (
            b"a--\"\x00\xff b\r\nb".as_slice(),
            2,
            TokenKind::Word,
            10,
            11,
        ),
        (b"a --- b\rc".as_slice(), 2, TokenKind::Word, 8, 9),
        (b"5--".as_slice(), 1, TokenKind::Number, 0, 1),
        (b"a\x0b\x0cb".as_slice(), 2, TokenKind::Word, 3, 4),
        (b"x_ABCDEFGHIJKLMN;".as_slice(), 2, TokenKind::Sign, 16, 17),
        (
            b"Zabcdefghijklmnopqrstuvwxyz_0123456789A".as_slice(),
            1,
            TokenKind::Word,
            0,
            39,
        ),
        (
            b"12345678901234567890.5e10 ".as_slice(),
            1,
            TokenKind::Number,
            0,
            25,
        ),
        (
            b"\"~ 0123456789 ABCDEFGHIJ\" !".as_slice(),
            2,
            TokenKind::Sign,
            26,
            27,
        ),
        (
            b"-- 0123456789 0123456789\r;".as_slice(),
            1,
            TokenKind::Sign,
            25,
            26,
        ),
    ] {
        let found = tokens(alloc, text)?;
        assert!(rt; found.len() == count);
        assert!(rt; found.last() == Some(&Token { kind, start, end }));
    }
    Ok(())
}
