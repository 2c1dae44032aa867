// Words, signs and names among the tokens of a BSDL text. Words ignore case.
ghost use Rattle.std.specs.Prelude.{◌≡◌};
ghost use Rattle.bsdl_read.specs.Words as w;

use bsdl_lex::{Token, TokenKind};
use part_model::Field;

pub fn capital(byte: u8) -> u8
    ensures { result ≡ w.capital byte }
{
    if byte >= b'a' && byte <= b'z' {
        byte - 32
    } else {
        byte
    }
}

// Whether two words are equal, whatever their case.
pub fn same_word(left: &[u8], right: &[u8]) -> bool
    ensures { result ≡ w.same_word left.now right.now }
{
    let mut rest = left;
    let mut other = right;
    loop {
        let Some((x, more)) = rest.split_first() else {
            return other.is_empty();
        };
        let Some((y, others)) = other.split_first() else {
            return false;
        };
        if capital(*x) != capital(*y) {
            return false;
        }
        rest = more;
        other = others;
    }
}

// The bytes of a token.
pub fn spelled(text: &[u8], token: Token) -> &[u8]
    requires { w.Lies text.now token }
    ensures { result.now ≡ w.spelled text.now token }
{
    text.split_at(token.start)
        .1
        .split_at(token.end - token.start)
        .0
}

pub fn is_word(text: &[u8], token: Token, word: &[u8]) -> bool
    requires { w.Lies text.now token }
    ensures { result ≡ w.is_word text.now token word.now }
{
    match token.kind {
        TokenKind::Word => same_word(spelled(text, token), word),
        _ => false,
    }
}

pub fn is_sign(text: &[u8], token: Token, byte: u8) -> bool
    requires { w.Lies text.now token }
    ensures { result ≡ w.is_sign text.now token byte }
{
    match token.kind {
        TokenKind::Sign => same_word(spelled(text, token), &[byte]),
        _ => false,
    }
}

pub fn is_kind(kind: TokenKind, wanted: TokenKind) -> bool
    ensures { result ≡ w.is_kind kind wanted }
{
    match kind {
        TokenKind::Word => matches!(wanted, TokenKind::Word),
        TokenKind::Number => matches!(wanted, TokenKind::Number),
        TokenKind::Text => matches!(wanted, TokenKind::Text),
        TokenKind::Sign => matches!(wanted, TokenKind::Sign),
    }
}

pub fn field_of(text: &[u8], token: Token) -> Option<Field>
    requires { w.Lies text.now token }
    ensures { result ≡ w.field_of text.now token }
{
    if is_word(text, token, "INSTRUCTION_LENGTH".as_bytes()) {
        return Some(Field::InstructionLength);
    }
    if is_word(text, token, "INSTRUCTION_OPCODE".as_bytes()) {
        return Some(Field::InstructionOpcode);
    }
    if is_word(text, token, "INSTRUCTION_CAPTURE".as_bytes()) {
        return Some(Field::InstructionCapture);
    }
    if is_word(text, token, "IDCODE_REGISTER".as_bytes()) {
        return Some(Field::IdcodeRegister);
    }
    if is_word(text, token, "USERCODE_REGISTER".as_bytes()) {
        return Some(Field::UsercodeRegister);
    }
    if is_word(text, token, "REGISTER_ACCESS".as_bytes()) {
        return Some(Field::RegisterAccess);
    }
    if is_word(text, token, "BOUNDARY_LENGTH".as_bytes()) {
        return Some(Field::BoundaryLength);
    }
    None
}

pub fn value_kind(field: Field) -> TokenKind
    ensures { result ≡ w.value_kind field }
{
    match field {
        Field::InstructionLength | Field::BoundaryLength => TokenKind::Number,
        _ => TokenKind::Text,
    }
}
