// A text that is seen as its bytes.
ghost use Rattle.std.specs.Prelude.{◌≡◌, ◌+◌, ◌≤◌, ◌<◌, [], ◌∷◌, ◌++◌, length, take, map, eqb, string_bytes, encode_utf8, IsOk, IfOk, OnOk, OnErr};
ghost use Rattle.std.specs.Str.{IsAscii};
ghost use Rattle.std.specs.Char.{to_ascii_uppercase};
ghost use Rattle.base_types.specs.Texts.{bytes_of, HasPlace};

use crate::short_letters::{INLINE, ShortLetters};
use std::alloc::{AllocError, Global};
use std::marker::Model;

// The letters of a text: in the value itself where they are few.
#[derive(Drop)]
enum Letters {
    Short(ShortLetters),
    Long(String),
}

/// A text that owns its bytes. At most 16 lie in the value itself, and take no memory. Contracts see it as the plain list of its
/// bytes, in UTF-8.
#[derive(Drop)]
pub struct Text {
    letters: Letters,
}

impl Model for Text {
    ghost use Rattle.std.specs.Prelude.{List, ℕ};

    ghost Value = { List ℕ };

    ghost use Rattle.base_types.specs.Texts.{bytes_of, HasPlace};

    ghost view = { λ text. bytes_of text.letters };

    ghost invariant = { λ text. HasPlace text.letters };
}

impl Text {
    /// The text of no letters.
    pub fn new() -> Self
        ensures { result ≡ [] }
    {
        Text {
            letters: Letters::Short(ShortLetters::new()),
        }
    }

    /// An equal text. Takes no memory for at most 16 bytes.
    pub fn from_str(alloc: Global, text: &str) -> Result<Text, AllocError>
        ensures ok { IfOk result (λ made. made ≡ text.now) }
        ensures short { length text.now ≤ 16 → IsOk result }
    {
        let letters = if text.len() <= INLINE {
            Letters::Short(ShortLetters::from_str(text))
        } else {
            Letters::Long(String::from_str(alloc, text)?)
        };
        Ok(Text { letters })
    }

    /// The text of these ASCII bytes, its letters in capitals. Takes no memory for at most 16 bytes.
    #[inline]
    pub fn capitals(alloc: Global, letters: &[u8]) -> Result<Text, AllocError>
        requires { IsAscii letters.now }
        ensures ok { IfOk result (λ made. made ≡ map to_ascii_uppercase letters.now) }
        ensures short { length letters.now ≤ 16 → IsOk result }
    {
        Text::front_capitals(alloc, letters, letters.len())
    }

    /// The text of the first `count` of these ASCII bytes, its letters in capitals. Takes no memory for at most 16 bytes.
    #[inline]
    pub fn front_capitals(alloc: Global, bytes: &[u8], count: usize) -> Result<Text, AllocError>
        requires within { count ≤ length bytes.now }
        requires ascii { IsAscii (take count bytes.now) }
        ensures ok { IfOk result (λ made. made ≡ map to_ascii_uppercase (take count bytes.now)) }
        ensures short { count ≤ 16 → IsOk result }
    {
        let letters = if count <= INLINE {
            Letters::Short(ShortLetters::front_capitals(bytes, count))
        } else {
            Letters::Long(long_capitals(alloc, &bytes[..count])?)
        };
        Ok(Text { letters })
    }

    /// An equal text. Takes no memory for at most 16 bytes.
    pub fn copy(&self, alloc: Global) -> Result<Text, AllocError>
        ensures ok { IfOk result (λ copy. copy ≡ self.now) }
        ensures short { length self.now ≤ 16 → IsOk result }
    {
        let letters = match &self.letters {
            Letters::Short(short) => Letters::Short(short.copy()),
            Letters::Long(long) => Letters::Long(String::from_str(alloc, long.as_str())?),
        };
        Ok(Text { letters })
    }

    /// The text, to be read.
    #[inline]
    pub fn as_str(&self) -> &str
        ensures { result.now ≡ self.now }
    {
        match &self.letters {
            Letters::Short(short) => short.as_str(),
            Letters::Long(long) => long.as_str(),
        }
    }

    /// How many bytes the text has.
    #[inline]
    pub fn len(&self) -> usize
        ensures { result ≡ length self.now }
    {
        match &self.letters {
            Letters::Short(short) => short.len(),
            Letters::Long(long) => long.len(),
        }
    }

    /// Whether it has no byte.
    #[inline]
    pub fn is_empty(&self) -> bool
        ensures { result ≡ eqb (length self.now) 0 }
    {
        self.len() == 0
    }

    /// Puts a letter behind the others. Takes no memory where at most 16 bytes come of it. Where there is no memory the text stays as
    /// it was.
    pub fn push(&mut self, alloc: Global, letter: char) -> Result<(), AllocError>
        ensures added { OnOk result (self.new ≡ self.old ++ encode_utf8 letter) }
        ensures ascii { letter < 128 → OnOk result (self.new ≡ self.old ++ letter ∷ []) }
        ensures short { length self.old + length (encode_utf8 letter) ≤ 16 → IsOk result }
        ensures kept { OnErr result (self.new ≡ self.old) }
    {
        push_letter(alloc, &mut self.letters, letter)
    }
}

impl Default for Text {
    ghost use Rattle.std.specs.Prelude.{◌≡◌, []};

    ghost is_default = { λ text. text ≡ [] };

    fn default() -> Self {
        Text::new()
    }
}

fn push_letter(alloc: Global, letters: &mut Letters, letter: char) -> Result<(), AllocError>
    requires { HasPlace letters.old }
    ensures place { HasPlace letters.new }
    ensures added { OnOk result (bytes_of letters.new ≡ bytes_of letters.old ++ encode_utf8 letter) }
    ensures ascii { letter < 128 → encode_utf8 letter ≡ letter ∷ [] }
    ensures short { length (bytes_of letters.old) + length (encode_utf8 letter) ≤ 16 → IsOk result }
    ensures kept { OnErr result (bytes_of letters.new ≡ bytes_of letters.old) }
{
    match letters {
        Letters::Short(short) => {
            if !short.try_push(letter) {
                let long = with_letter(alloc, short.as_str(), letter)?;
                *letters = Letters::Long(long);
            }
            Ok(())
        }
        Letters::Long(long) => long.push(letter),
    }
}

// A string with one more letter, and with room for more.
fn with_letter(alloc: Global, front: &str, letter: char) -> Result<String, AllocError>
    ensures { IfOk result (λ string. string_bytes string ≡ front.now ++ encode_utf8 letter) }
{
    let mut string = String::with_capacity(alloc, 2 * INLINE)?;
    string.push_str(front)?;
    string.push(letter)?;
    Ok(string)
}

#[inline(never)]
fn long_capitals(alloc: Global, letters: &[u8]) -> Result<String, AllocError>
    requires { IsAscii letters.now }
    ensures { IfOk result (λ string. string_bytes string ≡ map to_ascii_uppercase letters.now) }
{
    let mut bytes = Vec::with_capacity(alloc, letters.len())?;
    for letter in letters {
        bytes.push_reserved(letter.to_ascii_uppercase());
    }
    // SAFETY: capitals of ASCII bytes are ASCII, and so UTF-8.
    Ok(unsafe { String::from_utf8_unchecked(bytes) })
}

#[cfg(test)]
mod tests {
    use super::*;
    use std::mem;
    use std::test::Fail;

    #[test]
    fn a_text_has_32_bytes(rt: HostRuntime) -> Result<(), Fail> {
        assert_eq!(rt; mem::size_of::<Text>(), 32);
        Ok(())
    }

    #[test]
    fn letters_in_capitals_stay_where_they_are_few(rt: HostRuntime) -> Result<(), Fail> {
        let few = Text::capitals(rt.alloc(), b"Bypass_register1")?;
        assert_eq!(rt; few.as_str(), "BYPASS_REGISTER1");
        let many = Text::capitals(rt.alloc(), b"Bypass_register12")?;
        assert_eq!(rt; many.as_str(), "BYPASS_REGISTER12");
        Ok(())
    }

    #[test]
    fn capitals_of_a_front_end_with_it(rt: HostRuntime) -> Result<(), Fail> {
        let line = "reg1 : in bit; -- é".as_bytes();
        let few = Text::front_capitals(rt.alloc(), line, 4)?;
        assert_eq!(rt; few.as_str(), "REG1");
        assert_eq!(rt; few.len(), 4);
        let last = Text::front_capitals(rt.alloc(), b"end reg1;", 8)?;
        assert_eq!(rt; last.as_str(), "END REG1");
        let many = Text::front_capitals(rt.alloc(), b"Bypass_register12: in", 17)?;
        assert_eq!(rt; many.as_str(), "BYPASS_REGISTER12");
        Ok(())
    }

    #[test]
    fn a_text_grows_beyond_its_place(rt: HostRuntime) -> Result<(), Fail> {
        let mut text = Text::from_str(rt.alloc(), "BYPASS_REGISTER")?;
        text.push(rt.alloc(), 'é')?;
        assert_eq!(rt; text.as_str(), "BYPASS_REGISTERé");
        text.push(rt.alloc(), 'S')?;
        assert_eq!(rt; text.as_str(), "BYPASS_REGISTERéS");
        assert_eq!(rt; text.len(), 18);
        Ok(())
    }
}
