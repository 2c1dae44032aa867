// What stands in a text from a place on, up to an end: blanks, words, numbers and signs.
ghost use Rattle.std.specs.Prelude.{◌≡◌, ◌≤◌, ◌<◌, ◌+◌, ◌∷◌, length, IfSome, IsTrue};
ghost use Rattle.bsdl_read.specs.Words as w;
ghost use Rattle.bsdl_read.specs.Contents as c;
ghost use Rattle.bsdl_read.specs.Places as p;

use crate::contents::{digit_value, is_space};
use bsdl_lex::{Token, TokenKind, is_digit, is_letter, word_length};

// A number, and the place behind its digits.
#[derive(Clone, Copy)]
pub struct NumberAt {
    pub value: u32,
    pub stop: usize,
}

// Where what stands between the quotes of a Text begins and ends.
pub fn places_inside(text: &[u8], token: Token) -> (usize, usize)
    requires { w.Lies text.now token }
    ensures is { p.between text.now result.0 result.1 ≡ c.inside text.now token }
    ensures rises { result.0 ≤ result.1 }
    ensures ends { result.1 ≤ length text.now }
{
    match token.kind {
        TokenKind::Text if token.end - token.start >= 2 => (token.start + 1, token.end - 1),
        _ => (token.start, token.start),
    }
}

// The byte at a place.
#[inline(always)]
pub fn byte_at(text: &[u8], start: usize, end: usize) -> u8
    requires before { start < end }
    requires ends { end ≤ length text.now }
    ensures { p.between text.now start end ≡ result ∷ p.between text.now (start + 1) end }
{
    text[start]
}

// Whether a sign stands at a place.
#[inline(always)]
pub fn has_sign(text: &[u8], start: usize, end: usize, sign: u8) -> bool
    requires { end ≤ length text.now }
    ensures { IsTrue result → p.HasSign text.now sign start end }
{
    start < end && text[start] == sign
}

// The place behind the blanks.
#[inline(always)]
pub fn behind_blanks(text: &[u8], start: usize, end: usize) -> usize
    requires rises { start ≤ end }
    requires ends { end ≤ length text.now }
    ensures { p.AreBlanks text.now start result end }
{
    if start < end && text[start] <= b' ' {
        blanks_end(text, start, end)
    } else {
        start
    }
}

#[inline(never)]
fn blanks_end(text: &[u8], start: usize, end: usize) -> usize
    requires rises { start ≤ end }
    requires ends { end ≤ length text.now }
    ensures { p.AreBlanks text.now start result end }
{
    let mut stop = start;
    while stop < end && is_space(text[stop]) {
        stop += 1;
    }
    stop
}

// The place behind the word, where one begins.
#[inline(always)]
pub fn word_end(text: &[u8], start: usize, end: usize) -> Option<usize>
    requires { end ≤ length text.now }
    ensures word { IfSome result (λ stop. p.IsWord text.now start stop) }
    ensures ends { IfSome result (λ stop. stop ≤ end) }
{
    if start >= end || !is_letter(text[start]) {
        return None;
    }
    let count = word_length(text.split_at(start).1);
    Some(start + count.min(end - start))
}

// The number of at most nine digits, where one begins.
#[inline(always)]
pub fn number_at(text: &[u8], start: usize, end: usize) -> Option<NumberAt>
    requires rises { start ≤ end }
    requires ends { end ≤ length text.now }
    ensures { IfSome result (λ number. p.IsNumber text.now start number.stop end number.value) }
{
    let mut value = 0;
    let mut stop = start;
    while stop < end && is_digit(text[stop]) {
        if stop - start == 9 {
            return None;
        }
        value = value * 10 + digit_value(text[stop]);
        stop += 1;
    }
    if stop == start {
        return None;
    }
    Some(NumberAt { value, stop })
}
