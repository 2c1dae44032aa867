// The letters of a short text.
ghost use Rattle.std.specs.Prelude.{◌≡◌, ◌+◌, ◌≤◌, ◌<◌, [], ◌∷◌, ◌++◌, length, take, map, encode_utf8, ◌↔◌, true, false};
ghost use Rattle.std.specs.Str.{IsAscii};
ghost use Rattle.std.specs.Char.{to_ascii_uppercase};

use std::marker::Model;
use std::simd::prelude::*;
use std::str;

/// At most so many bytes take no memory.
pub(crate) const INLINE: usize = 16;

/// A text of at most sixteen bytes, which lie in the value itself. Contracts see it as the plain list of its bytes.
#[derive(Drop)]
pub(crate) struct ShortLetters {
    // What stands behind the first `count` is never read.
    bytes: [u8; INLINE],
    count: usize,
}

impl Model for ShortLetters {
    ghost use Rattle.std.specs.Prelude.{List, ℕ, ◌≤◌, take, IsUtf8};

    ghost Value = { List ℕ };

    ghost view = { λ short. take short.count short.bytes };

    ghost invariant = { λ short. (short.count ≤ 16) × ∥ IsUtf8 (take short.count short.bytes) ∥₁ };
}

impl ShortLetters {
    /// The text of no letters.
    pub(crate) fn new() -> Self
        ensures { result ≡ [] }
    {
        ShortLetters {
            bytes: [0; INLINE],
            count: 0,
        }
    }

    /// An equal text.
    pub(crate) fn from_str(text: &str) -> Self
        requires { length text.now ≤ 16 }
        ensures { result ≡ text.now }
    {
        ShortLetters {
            bytes: padded(text.as_bytes()),
            count: text.len(),
        }
    }

    /// The text of the first `count` of these ASCII bytes, its letters in capitals.
    #[inline(always)]
    pub(crate) fn front_capitals(bytes: &[u8], count: usize) -> Self
        requires within { count ≤ length bytes.now }
        requires short { count ≤ 16 }
        requires ascii { IsAscii (take count bytes.now) }
        ensures { result ≡ map to_ascii_uppercase (take count bytes.now) }
    {
        ShortLetters {
            bytes: in_capitals(front(bytes, count)).to_array(),
            count,
        }
    }

    /// An equal text.
    #[inline]
    pub(crate) fn copy(&self) -> Self
        ensures { result ≡ self.now }
    {
        ShortLetters {
            bytes: self.bytes,
            count: self.count,
        }
    }

    /// The text, to be read.
    #[inline]
    pub(crate) fn as_str(&self) -> &str
        ensures { result.now ≡ self.now }
    {
        // SAFETY: the first `count` bytes are UTF-8 in every `ShortLetters`.
        unsafe { str::from_utf8_unchecked(&self.bytes[..self.count]) }
    }

    /// How many bytes the text has.
    #[inline]
    pub(crate) fn len(&self) -> usize
        ensures { result ≡ length self.now }
    {
        self.count
    }

    /// Puts a letter behind the others where there is room for it, and says whether there is.
    pub(crate) fn try_push(&mut self, letter: char) -> bool
        ensures room { (result ≡ true) ↔ (length self.old + length (encode_utf8 letter) ≤ 16) }
        ensures added { result ≡ true → self.new ≡ self.old ++ encode_utf8 letter }
        ensures kept { result ≡ false → self.new ≡ self.old }
        ensures ascii { letter < 128 → encode_utf8 letter ≡ letter ∷ [] }
    {
        if letter.len_utf8() > INLINE - self.count {
            return false;
        }
        if letter.is_ascii() {
            self.push_ascii(letter as u8);
        } else {
            let mut buffer = [0; 4];
            self.push_str(letter.encode_utf8(&mut buffer));
        }
        true
    }

    fn push_ascii(&mut self, letter: u8)
        requires ascii { letter < 128 }
        requires room { length self.old < 16 }
        ensures { self.new ≡ self.old ++ letter ∷ [] }
    {
        self.bytes[self.count] = letter;
        self.count += 1;
    }

    fn push_str(&mut self, text: &str)
        requires { length self.old + length text.now ≤ 16 }
        ensures { self.new ≡ self.old ++ text.now }
    {
        let end = self.count + text.len();
        self.bytes[self.count..end].copy_from_slice(text.as_bytes());
        self.count = end;
    }
}

// Sixteen bytes, their letters in capitals.
#[inline(always)]
fn in_capitals(bytes: u8x16) -> u8x16
    ensures { result ≡ map to_ascii_uppercase bytes }
{
    let from_letter = bytes - u8x16::splat(b'a');
    from_letter
        .simd_lt(u8x16::splat(26))
        .select(bytes - u8x16::splat(b'a' - b'A'), bytes)
}

// Sixteen bytes that begin with the first `count` of these. Where there are sixteen, all are loaded at once.
#[inline(always)]
fn front(bytes: &[u8], count: usize) -> u8x16
    requires within { count ≤ length bytes.now }
    requires short { count ≤ 16 }
    ensures { take count result ≡ take count bytes.now }
{
    if bytes.len() < INLINE {
        return u8x16::from_array(padded(&bytes[..count]));
    }
    u8x16::from_slice(bytes)
}

// Sixteen bytes that begin with these.
#[inline(never)]
fn padded(bytes: &[u8]) -> [u8; INLINE]
    requires { length bytes.now ≤ 16 }
    ensures { take (length bytes.now) result ≡ bytes.now }
{
    let mut all = [0; INLINE];
    all[..bytes.len()].copy_from_slice(bytes);
    all
}
