// What stands between the quotes of a VALUE, and numbers.
ghost use Rattle.std.specs.Prelude.{ℕ, Bool, ◌≡◌, ◌==◌, ◌<◌, ◌≤◌, ◌-◌, ◌++◌, ◌∷◌, ◌^◌, [], true, false, length, take, map, reverse, if◌then◌else◌, OnOk, IfOk, IfSome};
ghost use Rattle.std.specs.List.{list_all};
ghost use Rattle.std.specs.Option.{is_some};
ghost use Rattle.bsdl_lex.specs.Tokens as t;
ghost use Rattle.bsdl_read.specs.Words as w;
ghost use Rattle.bsdl_read.specs.Contents as c;
ghost use Rattle.bsdl_read.specs.declared.contents.ContentFault.TheVariants.{Memory};

use crate::words::{capital, spelled};
use base_types::Text;
use bsdl_lex::{Token, TokenKind, is_digit, word_length};
use part_model::{CodePattern, Digit};
use std::alloc::{AllocError, AllocFailed, Global};

// Why a content is not read on: it departs from its form for a cause of the text, 8 or 9.
#[derive(Clone, Copy)]
pub enum ContentFault {
    Memory,
    Departs(u8),
}

impl<T: Drop> From<AllocFailed<T>> for ContentFault {
    ghost from_gives = { λ _ e. e ≡ Memory };

    fn from(_: AllocFailed<T>) -> ContentFault {
        ContentFault::Memory
    }
}

impl From<AllocError> for ContentFault {
    ghost from_gives = { λ _ e. e ≡ Memory };

    fn from(_: AllocError) -> ContentFault {
        ContentFault::Memory
    }
}

#[inline(always)]
pub fn is_space(byte: u8) -> bool
    ensures { result ≡ c.is_space byte }
{
    byte == b' ' || byte == 9
}

pub fn is_pattern_digit(byte: u8) -> bool
    ensures { result ≡ c.is_pattern_digit byte }
{
    byte == b'0' || byte == b'1' || byte == b'X' || byte == b'x'
}

pub fn digit_of(byte: u8) -> Digit
    ensures { result ≡ c.digit_of byte }
{
    match byte {
        b'0' => Digit::Zero,
        b'1' => Digit::One,
        _ => Digit::Any,
    }
}

// Goes on where a byte is allowed, with nothing changed.
pub fn departs_unless(allowed: bool) -> Result<(), ContentFault>
    ensures { result ≡ c.departs_unless allowed }
{
    if allowed {
        Ok(())
    } else {
        Err(ContentFault::Departs(8))
    }
}

// A letter, a digit or `_` joins a name, in capitals.
pub fn add_letter(alloc: Global, name: &mut Text, byte: u8) -> Result<(), AllocError>
    requires { t.in_word byte ≡ true }
    ensures { OnOk result (name.new ≡ name.old ++ w.capital byte ∷ []) }
{
    name.push(alloc, capital(byte) as char)
}

// The bytes at the front that pass a test, and those behind them.
#[inline(always)]
pub fn split_run<F: Fn(u8) -> bool>(bytes: &[u8], passes: F) -> (&[u8], &[u8])
    requires { F.IsAlwaysCallable passes }
    ensures whole { bytes.now ≡ result.0.now ++ result.1.now }
    ensures front { (test : ℕ → Bool) → c.Tests (F.post passes) test → list_all test result.0.now ≡ true }
    ensures behind { (test : ℕ → Bool) → c.Tests (F.post passes) test → t.starts test result.1.now ≡ false }
{
    let mut count = 0;
    while count < bytes.len() && passes(bytes[count]) {
        count += 1;
    }
    bytes.split_at(count)
}

// The bytes at the front that may stand in a word, and those behind them.
#[inline(always)]
pub fn split_word(bytes: &[u8]) -> (&[u8], &[u8])
    ensures whole { bytes.now ≡ result.0.now ++ result.1.now }
    ensures letters { list_all t.in_word result.0.now ≡ true }
{
    bytes.split_at(word_length(bytes))
}

// The bytes behind a sign, where it stands at the front.
#[inline(always)]
pub fn behind_sign(bytes: &[u8], sign: u8) -> Option<&[u8]>
    ensures behind { IfSome result (λ behind. bytes.now ≡ sign ∷ behind.now) }
    ensures there { is_some result ≡ t.starts (λ byte. byte == sign) bytes.now }
{
    match bytes.split_first() {
        Some((byte, behind)) if *byte == sign => Some(behind),
        _ => None,
    }
}

// The first letters of these bytes, so many of them, in capitals.
#[inline(always)]
pub fn front_name_of(alloc: Global, bytes: &[u8], count: usize) -> Result<Text, AllocError>
    requires within { count ≤ length bytes.now }
    requires letters { list_all t.in_word (take count bytes.now) ≡ true }
    ensures { IfOk result (λ name. name ≡ map w.capital (take count bytes.now)) }
{
    Text::front_capitals(alloc, bytes, count)
}

// The letters of a name in capitals.
pub fn name_of(alloc: Global, letters: &[u8]) -> Result<Text, AllocError>
    requires { list_all t.in_word letters.now ≡ true }
    ensures { IfOk result (λ name. name ≡ map w.capital letters.now) }
{
    Text::capitals(alloc, letters)
}

// A pattern of these digits, of which the rightmost is the lowest.
pub fn pattern_of(digits: &[u8]) -> CodePattern
    requires { length digits.now ≤ 64 }
    ensures { result ≡ reverse (map c.digit_of digits.now) }
{
    let mut pattern = CodePattern::empty();
    for digit in digits {
        pattern = pattern.with_lowest(digit_of(*digit));
    }
    pattern
}

// What stands between the quotes of a Text.
pub fn inside(text: &[u8], token: Token) -> &[u8]
    requires { w.Lies text.now token }
    ensures is { result.now ≡ c.inside text.now token }
    ensures bound { length result.now ≤ token.end - token.start }
{
    match token.kind {
        TokenKind::Text => match text
            .split_at(token.start)
            .1
            .split_at((token.end - token.start).saturating_sub(1))
            .0
        {
            [_, rest @ ..] => rest,
            [] => &[],
        },
        _ => &[],
    }
}

fn all_digits(bytes: &[u8]) -> bool
    ensures { result ≡ list_all t.is_digit bytes.now }
{
    for byte in bytes {
        if !is_digit(*byte) {
            return false;
        }
    }
    true
}

#[inline(always)]
pub fn digit_value(byte: u8) -> u32
    requires { t.is_digit byte ≡ true }
    ensures is { result ≡ byte - 48 }
    ensures bound { result < 10 }
{
    u32::from(byte - b'0')
}

// The number of so many digits, the first the highest.
#[inline(always)]
pub fn number_of(bytes: &[u8]) -> u32
    requires short { length bytes.now < 10 }
    requires digits { list_all t.is_digit bytes.now ≡ true }
    ensures { result ≡ c.number_from 0 bytes.now }
{
    let mut value = 0;
    for byte in bytes {
        value = value * 10 + digit_value(*byte);
    }
    value
}

// A whole number of one to nine digits.
pub fn whole_number(bytes: &[u8]) -> Result<u32, ContentFault>
    ensures { c.Gives (λ value. value) result (c.whole_number bytes.now) }
{
    if !bytes.is_empty() && bytes.len() < 10 && all_digits(bytes) {
        Ok(number_of(bytes))
    } else {
        Err(ContentFault::Departs(8))
    }
}

// The number that a token spells.
pub fn token_number(text: &[u8], token: Token) -> Result<u32, ContentFault>
    requires { w.Lies text.now token }
    ensures { c.Gives (λ value. value) result (c.whole_number (w.spelled text.now token)) }
{
    whole_number(spelled(text, token))
}
