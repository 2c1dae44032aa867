// What a line of a script says, by its words.
ghost use Rattle.std.specs.Prelude.{◌≡◌, ◌≤◌, length, IfOk, true};
ghost use Rattle.std.specs.Str.{bytes_eq, all_ascii_digits};
ghost use Rattle.wire_port.specs.Words.{words_of};
ghost use Rattle.wire_port.specs.Lines as l;
ghost use Rattle.wire_port.specs.Scripts.{line_of};
ghost use Rattle.wire_port.specs.Reading.{ReadsLine};
ghost use Rattle.wire_port.specs.declared.lines.LineRefusal.TheVariants.{Memory, Cause};

use crate::script::Line;
use crate::words::next_word;
use hex::FromHexError;
use std::alloc::{AllocError, AllocFailed, Global};

/// Why a line is refused: memory is wanting, or the cause by its number.
#[derive(Clone, Copy, PartialEq, Eq)]
pub enum LineRefusal {
    Memory,
    Cause(u8),
}

impl From<u8> for LineRefusal {
    ghost from_gives = { λ cause e. e ≡ Cause cause };

    fn from(cause: u8) -> LineRefusal {
        LineRefusal::Cause(cause)
    }
}

impl<T: Drop> From<AllocFailed<T>> for LineRefusal {
    ghost from_gives = { λ _ e. e ≡ Memory };

    fn from(_: AllocFailed<T>) -> LineRefusal {
        LineRefusal::Memory
    }
}

// The only word.
fn one_word(words: &[u8]) -> Result<&[u8], LineRefusal>
    ensures { ReadsLine (λ word. word.now) result (l.one_word (words_of words.now)) }
{
    let Some((word, rest)) = next_word(words) else {
        return Err(LineRefusal::Cause(2));
    };
    match next_word(rest) {
        None => Ok(word),
        Some(_) => Err(LineRefusal::Cause(2)),
    }
}

// The only two words.
fn two_words(words: &[u8]) -> Result<(&[u8], &[u8]), LineRefusal>
    ensures { ReadsLine (λ pair. (pair.0.now, pair.1.now)) result (l.two_words (words_of words.now)) }
{
    let Some((first, rest)) = next_word(words) else {
        return Err(LineRefusal::Cause(2));
    };
    let Some((second, rest)) = next_word(rest) else {
        return Err(LineRefusal::Cause(2));
    };
    match next_word(rest) {
        None => Ok((first, second)),
        Some(_) => Err(LineRefusal::Cause(2)),
    }
}

fn are_digits(word: &[u8]) -> bool
    ensures { result ≡ all_ascii_digits word.now }
{
    for byte in word {
        if !byte.is_ascii_digit() {
            return false;
        }
    }
    true
}

fn leads_well(word: &[u8]) -> bool
    ensures { result ≡ l.leads_well word.now }
{
    match word.split_first() {
        None => false,
        Some((first, rest)) => rest.is_empty() || *first != b'0',
    }
}

// The number that at most seven digits are.
fn value_of(word: &[u8]) -> u32
    requires { length word.now ≤ 7 }
    ensures { result ≡ l.value_from 0 word.now }
{
    let mut value = 0;
    for byte in word {
        value = 10 * value + u32::from(byte.saturating_sub(b'0'));
    }
    value
}

// A number of a range, in decimal without leading zeros.
fn number(word: &[u8], low: u32, high: u32) -> Result<u32, LineRefusal>
    ensures is { ReadsLine (λ value. value) result (l.number low high word.now) }
    ensures most { IfOk result (λ value. value ≤ high) }
{
    if word.len() > 7 || !leads_well(word) || !are_digits(word) {
        return Err(LineRefusal::Cause(3));
    }
    let value = value_of(word);
    if value < low || high < value {
        return Err(LineRefusal::Cause(3));
    }
    Ok(value)
}

// A number of 16 bits that is not below `low`.
fn short(word: &[u8], low: u32) -> Result<u16, LineRefusal>
    ensures { ReadsLine (λ value. value) result (l.number low 65535 word.now) }
{
    match number(word, low, 65535) {
        Ok(value) => Ok(value as u16),
        Err(refusal) => Err(refusal),
    }
}

// At least one byte in hex.
fn bytes_in_hex(alloc: Global, word: &[u8]) -> Result<Vec<u8>, LineRefusal>
    ensures { ReadsLine (λ bytes. bytes.items) result (l.hex word.now) }
{
    match hex::decode(alloc, word) {
        Ok(bytes) if bytes.is_empty() => Err(LineRefusal::Cause(4)),
        Ok(bytes) => Ok(bytes),
        Err(FromHexError::OutOfMemory) => Err(LineRefusal::Memory),
        Err(_) => Err(LineRefusal::Cause(4)),
    }
}

fn is_word(word: &[u8], other: &[u8]) -> bool
    ensures { result ≡ bytes_eq word.now other.now }
{
    word == other
}

// `all`, or a number of bytes.
fn room(word: &[u8]) -> Result<Option<u32>, LineRefusal>
    ensures { ReadsLine (λ room. room) result (l.room word.now) }
{
    if is_word(word, b"all") {
        return Ok(None);
    }
    match number(word, 0, 1000000) {
        Ok(count) => Ok(Some(count)),
        Err(refusal) => Err(refusal),
    }
}

fn open_line(words: &[u8]) -> Result<Line, LineRefusal>
    ensures { ReadsLine line_of result (l.open_line (words_of words.now)) }
{
    let (conn, port) = two_words(words)?;
    Ok(Line::Open(short(conn, 1)?, short(port, 0)?))
}

fn send_line(alloc: Global, words: &[u8]) -> Result<Line, LineRefusal>
    ensures { ReadsLine line_of result (l.send_line (words_of words.now)) }
{
    let (conn, bytes) = two_words(words)?;
    Ok(Line::Send(short(conn, 1)?, bytes_in_hex(alloc, bytes)?))
}

fn drop_line(words: &[u8]) -> Result<Line, LineRefusal>
    ensures { ReadsLine line_of result (l.drop_line (words_of words.now)) }
{
    let conn = one_word(words)?;
    Ok(Line::Drop(short(conn, 1)?))
}

fn room_line(words: &[u8]) -> Result<Line, LineRefusal>
    ensures { ReadsLine line_of result (l.room_line (words_of words.now)) }
{
    let (conn, count) = two_words(words)?;
    Ok(Line::Room(short(conn, 1)?, room(count)?))
}

/// What the line says that begins with this word, before these.
pub fn line_said(alloc: Global, command: &[u8], words: &[u8]) -> Result<Line, LineRefusal>
    ensures { ReadsLine line_of result (l.line_said command.now (words_of words.now)) }
{
    if is_word(command, b"open") {
        return open_line(words);
    }
    if is_word(command, b"send") {
        return send_line(alloc, words);
    }
    if is_word(command, b"drop") {
        return drop_line(words);
    }
    if is_word(command, b"room") {
        return room_line(words);
    }
    Err(LineRefusal::Cause(1))
}
