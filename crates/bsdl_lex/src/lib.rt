//! The tokens of a BSDL text (IEEE 1149.1, Annex B): words, numbers, quoted texts and signs, without blanks and comments.
#![tactic(auto)]

ghost use Rattle.std.specs.Prelude.{◌≡◌, ◌<◌, ◌≤◌, ◌==◌, ◌+◌, ◌^◌, false, length, drop, IfOk, IfErr, IsOk, Ok, Err, [], zero};
ghost use Rattle.std.specs.List.{prefix_len};
ghost use Rattle.bsdl_lex.specs.Tokens as t;
ghost use Rattle.bsdl_lex.specs.Laws as l;
ghost use Rattle.bsdl_lex.specs.declared.LexRefusal.TheVariants.{Memory};

mod lanes;
#[cfg(test)]
mod tests;

use crate::lanes::{LANES, leading};
use std::alloc::{AllocFailed, Global};
use std::simd::prelude::*;
use thiserror::Error;

/// What a token is.
#[derive(Clone, Copy, Debug, PartialEq, Eq)]
pub enum TokenKind {
    /// A letter, then letters, digits and `_`.
    Word,
    /// A digit, then digits and `_`, and perhaps a fraction and an exponent.
    Number,
    /// What stands between two `"`, these included.
    Text,
    /// Any other single visible byte.
    Sign,
}

/// A token and where it stands in its text: from byte `start` on, counted from 0, up to byte `end`, which is not its own.
#[derive(Clone, Copy, Debug, PartialEq, Eq)]
pub struct Token {
    pub kind: TokenKind,
    pub start: usize,
    pub end: usize,
}

/// Why a text has no tokens. In `Refused` the byte `at` is counted from 0, and `cause` is
/// 1 for a byte that may not stand there, 2 for a quoted text that its line does not end, both at that byte or at the opening quote,
/// 3 for a number that ends in a letter, a `_` or an exponent without digits, at the number's start, and
/// 4 for a text of more than 4,194,304 bytes, at that count.
#[derive(Clone, Copy, Debug, PartialEq, Eq, Error)]
pub enum LexRefusal {
    #[error("out of memory")]
    Memory,
    #[error("no tokens of a BSDL text")]
    Refused { at: usize, cause: u8 },
}

impl<T: Drop> From<AllocFailed<T>> for LexRefusal {
    ghost from_gives = { λ _ e. e ≡ Memory };

    fn from(_: AllocFailed<T>) -> LexRefusal {
        LexRefusal::Memory
    }
}

/// What stands at the front of a text.
#[derive(Clone, Copy)]
enum Piece {
    /// Blanks and comments.
    Gap(usize),
    /// A token of so many bytes.
    Found(TokenKind, usize),
    /// A refusal so many bytes ahead.
    Bad(usize, u8),
}

fn is_blank(byte: u8) -> bool
    ensures { result ≡ t.is_blank byte }
{
    matches!(byte, b' ' | 9..=13)
}

/// Whether a byte is a letter of ASCII.
pub fn is_letter(byte: u8) -> bool
    ensures { result ≡ t.is_letter byte }
{
    (b'A' <= byte && byte <= b'Z') || (b'a' <= byte && byte <= b'z')
}

/// Whether a byte is a decimal digit.
pub fn is_digit(byte: u8) -> bool
    ensures { result ≡ t.is_digit byte }
{
    matches!(byte, b'0'..=b'9')
}

/// Whether a byte may stand in a word behind its first letter.
pub fn in_word(byte: u8) -> bool
    ensures { result ≡ t.in_word byte }
{
    is_letter(byte) || is_digit(byte) || byte == b'_'
}

/// Bytes that stand in a row.
#[derive(Clone, Copy)]
enum Class {
    Word,
    Number,
    Digit,
    Comment,
    Text,
}

/// How many bytes of a class stand at the front.
fn run(class: Class, text: &[u8]) -> usize
    ensures is { result ≡ prefix_len (t.belongs class) text.now }
    ensures bound { result ≤ length text.now }
{
    let mut count = 0;
    while text.len() - count >= LANES {
        let more = leading(class, u8x16::from_slice(text.split_at(count).1));
        count += more;
        if more < LANES {
            return count;
        }
    }
    count + short_run(class, text.split_at(count).1)
}

/// The same for a text of at most sixteen, with zeros behind it.
fn short_run(class: Class, text: &[u8]) -> usize
    requires { length text.now ≤ 16 }
    ensures is { result ≡ prefix_len (t.belongs class) text.now }
    ensures bound { result ≤ length text.now }
{
    let mut lanes = [0; LANES];
    lanes[..text.len()].copy_from_slice(text);
    leading(class, u8x16::from_array(lanes)).min(text.len())
}

/// How many bytes that may stand in a word stand at the front.
pub fn word_length(text: &[u8]) -> usize
    ensures is { result ≡ prefix_len t.in_word text.now }
    ensures bound { result ≤ length text.now }
{
    run(Class::Word, text)
}

fn starts_digit(text: &[u8]) -> bool
    ensures { result ≡ t.starts t.is_digit text.now }
{
    match text.first() {
        Some(byte) => is_digit(*byte),
        None => false,
    }
}

fn fraction(text: &[u8]) -> usize
    ensures is { result ≡ t.fraction text.now }
    ensures bound { result ≤ length text.now }
{
    let Some((byte, rest)) = text.split_first() else {
        return 0;
    };
    if *byte == b'.' && starts_digit(rest) {
        1 + run(Class::Digit, rest)
    } else {
        0
    }
}

fn exponent_sign(text: &[u8]) -> usize
    ensures is { result ≡ t.exponent_sign text.now }
    ensures bound { result ≤ length text.now }
{
    let Some((byte, rest)) = text.split_first() else {
        return 0;
    };
    if *byte != b'e' && *byte != b'E' {
        return 0;
    }
    match rest.first() {
        Some(next) => if *next == b'+' || *next == b'-' { 2 } else { 1 },
        None => 1,
    }
}

/// The first piece of a text that does not begin with a blank.
fn first_piece(text: &[u8]) -> Piece
    requires some { 0 < length text.now }
    requires no_blank { t.starts t.is_blank text.now ≡ false }
    ensures is { result ≡ t.first_piece text.now }
    ensures bound { t.Reaches result (length text.now) }
{
    match text[0] {
        byte if is_letter(byte) => Piece::Found(TokenKind::Word, run(Class::Word, text)),
        b'"' => quoted(text.split_at(1).1),
        byte if is_digit(byte) => number(text.split_at(1).1),
        b'-' if starts_dash(text.split_at(1).1) => Piece::Gap(run(Class::Comment, text)),
        33..=126 => Piece::Found(TokenKind::Sign, 1),
        _ => Piece::Bad(0, 1),
    }
}

fn starts_dash(text: &[u8]) -> bool
    ensures { result ≡ t.starts (λ next. next == 45) text.now }
{
    match text.first() {
        Some(byte) => *byte == b'-',
        None => false,
    }
}

/// A Number behind its first digit.
fn number(text: &[u8]) -> Piece
    requires { length text.now + 1 < 2 ^ 63 }
    ensures is { result ≡ t.number text.now }
    ensures bound { t.Reaches result (length text.now + 1) }
{
    let whole = run(Class::Number, text);
    after_whole(1 + whole, text.split_at(whole).1)
}

/// A Number behind its whole part, which ends after so many bytes.
fn after_whole(count: usize, text: &[u8]) -> Piece
    requires some { 0 < count }
    requires room { count + length text.now < 2 ^ 63 }
    ensures is { result ≡ t.after_whole count text.now }
    ensures bound { t.Reaches result (count + length text.now) }
{
    let part = fraction(text);
    exponent(count + part, text.split_at(part).1)
}

/// A Number behind its fraction.
fn exponent(count: usize, text: &[u8]) -> Piece
    requires some { 0 < count }
    requires room { count + length text.now < 2 ^ 63 }
    ensures is { result ≡ t.exponent count text.now }
    ensures bound { t.Reaches result (count + length text.now) }
{
    let sign = exponent_sign(text);
    if sign == 0 {
        return ended(count, text);
    }
    exponent_digits(count + sign, text.split_at(sign).1)
}

/// A Number behind `e` and the sign.
fn exponent_digits(count: usize, text: &[u8]) -> Piece
    requires some { 0 < count }
    requires room { count + length text.now < 2 ^ 63 }
    ensures is { result ≡ t.exponent_digits count text.now }
    ensures bound { t.Reaches result (count + length text.now) }
{
    if !starts_digit(text) {
        return Piece::Bad(0, 3);
    }
    let digits = run(Class::Digit, text);
    ended(count + digits, text.split_at(digits).1)
}

/// A Number of so many bytes, where neither a letter nor `_` follows.
fn ended(count: usize, text: &[u8]) -> Piece
    requires some { 0 < count }
    ensures is { result ≡ t.ended count text.now }
    ensures bound { t.Reaches result (count + length text.now) }
{
    match text.first() {
        Some(byte) => if in_word(*byte) {
            Piece::Bad(0, 3)
        } else {
            Piece::Found(TokenKind::Number, count)
        },
        None => Piece::Found(TokenKind::Number, count),
    }
}

/// A Text behind its opening quote.
fn quoted(text: &[u8]) -> Piece
    requires { length text.now + 1 < 2 ^ 63 }
    ensures is { result ≡ t.quoted text.now }
    ensures bound { t.Reaches result (length text.now + 1) }
{
    let inside = run(Class::Text, text);
    closed(inside, text.split_at(inside).1)
}

/// The end of a Text, of which so many bytes stand between the quotes.
fn closed(inside: usize, text: &[u8]) -> Piece
    requires { inside + length text.now + 1 < 2 ^ 63 }
    ensures is { result ≡ t.closed inside text.now }
    ensures bound { t.Reaches result (inside + length text.now + 1) }
{
    match text.first() {
        None => Piece::Bad(0, 2),
        Some(byte) => match *byte {
            b'"' => Piece::Found(TokenKind::Text, inside + 2),
            10 | 13 => Piece::Bad(0, 2),
            _ => Piece::Bad(inside + 1, 1),
        },
    }
}

/// A text has at most so many bytes.
const LONGEST: usize = 4194304;

/// The tokens of a text, in order. `Refused` tells the first thing that is none, reading from the front, and a text that is too long
/// before all others. `Memory` comes where the list of tokens finds no room, and says nothing of the text but that it is not without
/// tokens.
pub fn tokens(alloc: Global, text: &[u8]) -> Result<Vec<Token>, LexRefusal>
    ensures ok { IfOk result (λ found. t.lexed text.now ≡ Ok found.items) }
    ensures refused { IfErr result (λ refusal. t.RefusesAs refusal (t.lexed text.now)) }
    ensures spans { IfOk result (λ found. t.SpansRise 0 found.items (length text.now)) }
    ensures none { t.lexed text.now ≡ Ok [] → IsOk result }
{
    if text.len() > LONGEST {
        return Err(LexRefusal::Refused {
            at: LONGEST,
            cause: 4,
        });
    }
    all_tokens(alloc, text)
}

/// The tokens of a text of any length.
fn all_tokens(alloc: Global, text: &[u8]) -> Result<Vec<Token>, LexRefusal>
    ensures ok { IfOk result (λ found. t.lexed_from 0 0 text.now ≡ Ok found.items) }
    ensures refused { IfErr result (λ refusal. t.RefusesAs refusal (t.lexed_from 0 0 text.now)) }
    ensures spans { IfOk result (λ found. t.SpansRise 0 found.items (length text.now)) }
    ensures none { t.lexed_from 0 0 text.now ≡ Ok [] → IsOk result }
{
    let mut found = Vec::new(alloc);
    let mut at = 0;
    while at < text.len() {
        if is_blank(text[at]) {
            at += 1;
            continue;
        }
        match first_piece(text.split_at(at).1) {
            Piece::Gap(count) => at += count,
            Piece::Found(kind, count) => {
                found.push(Token {
                    kind,
                    start: at,
                    end: at + count,
                })?;
                at += count;
            }
            Piece::Bad(ahead, cause) => return Err(LexRefusal::Refused {
                at: at + ahead,
                cause,
            }),
        }
    }
    Ok(found)
}

/// Every text is read as its forms say: portions one behind the other, each a blank, a comment or a token of its kind and as long as
/// its form allows. The tokens that are read are those portions' tokens, in order.
pub fn tokens_have_forms()
    ensures { l.TokensHaveForms }
{}

/// Every refusal is the one that the forms say: the text is too long, or portions stand in front and something behind them is refused.
pub fn refusals_have_forms()
    ensures { l.RefusalsHaveForms }
{}

/// Every text either has tokens or is refused, and never both.
pub fn accepted_or_refused()
    ensures one { l.OneOfBoth }
    ensures never_both { l.NeverBoth }
{}
