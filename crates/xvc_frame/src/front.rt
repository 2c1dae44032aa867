//! The message at the front of bytes.

ghost use Rattle.std.specs.Prelude.{◌≡◌, ◌≤◌, ◌<◌, ◌+◌, ◌*◌, ◌^◌, ℕ, true, nat_le, if◌then◌else◌, take, drop, length};
ghost use Rattle.scan_bits.specs.Words.{number_of_bytes, byte_count};
ghost use Rattle.xvc_frame.specs.Messages.{begins, shared, furthest, agrees, front, refused, shortest, want, getinfo_word, settck_word, shift_word, cycle_count};
ghost use Rattle.xvc_frame.specs.Frames.{Tells, EndsAtFront};

use crate::words::{GETINFO, SETTCK, SHIFT};
use crate::{FrameStep, Msg};

/// Whether the bytes begin with the word.
fn begins_with(held: &[u8], word: &[u8]) -> bool
    ensures { result ≡ begins word.now held.now }
{
    held.starts_with(word)
}

/// How many bytes from the front the word and the bytes share.
fn shared_len(word: &[u8], held: &[u8]) -> usize
    requires { length word.now ≤ 8 }
    ensures value { result ≡ shared word.now held.now }
    ensures bound { result ≤ length word.now }
{
    let Some((letter, word)) = word.split_first() else {
        return 0;
    };
    let Some((byte, held)) = held.split_first() else {
        return 0;
    };
    if letter == byte {
        1 + shared_len(word, held)
    } else {
        0
    }
}

/// How many bytes from the front go on with some word.
fn furthest_len(held: &[u8]) -> usize
    ensures { result ≡ furthest held.now }
{
    shared_len(GETINFO, held).max(shared_len(SETTCK, held).max(shared_len(SHIFT, held)))
}

/// Whether the bytes and the word are the same as far as both go.
fn agrees_with(held: &[u8], word: &[u8]) -> bool
    ensures { result ≡ agrees held.now word.now }
{
    begins_with(word, held) || begins_with(held, word)
}

/// The number of little-endian bytes, at most four.
fn number(bytes: &[u8]) -> u32
    requires { length bytes.now ≤ 4 }
    ensures value { result ≡ number_of_bytes bytes.now }
    ensures bound { result < 256 ^ length bytes.now }
{
    match bytes.split_first() {
        None => 0,
        Some((byte, rest)) => u32::from(*byte) + 256 * number(rest),
    }
}

/// The number of the four bytes from a place on, or of those of them that are there.
pub(crate) fn number_at(held: &[u8], from: usize) -> u32
    requires { from ≤ length held.now }
    ensures { result ≡ number_of_bytes (take 4 (drop from held.now)) }
{
    let rest = &held[from..];
    number(&rest[..rest.len().min(4)])
}

/// How many bytes a vector of so many bits has.
pub(crate) fn vector_len(bits: u32) -> usize
    ensures { result ≡ byte_count bits }
{
    (bits as usize + 7) / 8
}

/// The length of the shortest message that begins with the bytes, where they are the front of some; as `shortest` says.
fn shortest_len(vector: u32, held: &[u8]) -> usize
    requires { vector ≤ 65536 }
    ensures { result ≡ shortest vector held.now }
{
    if begins_with(held, SHIFT) {
        return shortest_shift(vector, number_at(held, 6));
    }
    if agrees_with(held, GETINFO) {
        return 8;
    }
    if agrees_with(held, SHIFT) {
        return 10;
    }
    if agrees_with(held, SETTCK) { 11 } else { 0 }
}

/// How many bytes are wanted behind those that are held; some, where no message is whole and nothing is refused.
pub(crate) fn wanted(vector: u32, held: &[u8]) -> usize
    requires { vector ≤ 65536 }
    ensures value { result ≡ want vector held.now }
    ensures some { front vector held.now ≡ None → refused vector held.now ≡ None → 1 ≤ result }
{
    shortest_len(vector, held).saturating_sub(held.len())
}

/// The length of a `shift:` of at least so many cycles.
fn shortest_shift(vector: u32, count: u32) -> usize
    requires { vector ≤ 65536 }
    ensures { result ≡ (if nat_le count (8 * vector) then 10 + 2 * byte_count count else 10) }
{
    if count <= 8 * vector {
        10 + 2 * vector_len(count)
    } else {
        10
    }
}

/// What the bytes make, where no message ends before them.
pub(crate) fn step_of(vector: u32, held: &[u8]) -> FrameStep
    requires vector { vector ≤ 65536 }
    requires ends { EndsAtFront vector held.now }
    ensures { Tells vector held.now result }
{
    if begins_with(held, GETINFO) {
        return FrameStep::Whole(Msg::GetInfo);
    }
    if begins_with(held, SETTCK) {
        return settck_step(vector, held);
    }
    if begins_with(held, SHIFT) {
        return shift_step(vector, held);
    }
    let at = furthest_len(held);
    if at < held.len() {
        FrameStep::Refused { at, cause: 1 }
    } else {
        FrameStep::More
    }
}

/// What the bytes make behind the word `settck:`.
fn settck_step(vector: u32, held: &[u8]) -> FrameStep
    requires word { begins settck_word held.now ≡ true }
    requires ends { EndsAtFront vector held.now }
    ensures { Tells vector held.now result }
{
    if held.len() < 11 {
        return FrameStep::More;
    }
    FrameStep::Whole(Msg::SetTck(number_at(held, 7)))
}

/// What the bytes make behind the word `shift:`.
fn shift_step(vector: u32, held: &[u8]) -> FrameStep
    requires vector { vector ≤ 65536 }
    requires word { begins shift_word held.now ≡ true }
    requires ends { EndsAtFront vector held.now }
    ensures { Tells vector held.now result }
{
    if held.len() < 10 {
        return FrameStep::More;
    }
    let count = number_at(held, 6);
    if count > 8 * vector {
        return FrameStep::Refused { at: 6, cause: 2 };
    }
    if held.len() < 10 + 2 * vector_len(count) {
        return FrameStep::More;
    }
    FrameStep::Whole(Msg::Shift(count))
}
