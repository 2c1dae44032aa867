// The content of INSTRUCTION_OPCODE.
ghost use Rattle.std.specs.Prelude.{◌≡◌, ◌<◌, ◌≤◌, true, length, IfOk, IfErr, IfSome, IsTrue, Ok};
ghost use Rattle.std.specs.List.{list_all};
ghost use Rattle.bsdl_lex.specs.Tokens as t;
ghost use Rattle.bsdl_lex.specs.Tokens.{SpansRise};
ghost use Rattle.part_model.specs.Plans as plans;
ghost use Rattle.bsdl_read.specs.Contents as c;
ghost use Rattle.bsdl_read.specs.Opcodes as o;

use crate::contents::{
    ContentFault, add_letter, behind_sign, departs_unless, digit_of, inside, is_pattern_digit,
    is_space, name_of, pattern_of, split_run, split_word,
};
use base_types::{Items, Text};
use bsdl_lex::{Token, in_word, is_letter};
use part_model::{Digit, Opcode, Pattern, Patterns};
use std::alloc::Global;
use std::mem;

// What may come next.
#[derive(Clone, Copy)]
pub enum OpcodeStage {
    Entry,
    Name,
    Named,
    Pattern,
    Digits,
    Joined,
    Closed,
}

// Whole entries, and the parts of the one that is open.
#[derive(Drop)]
pub struct OpcodeReading {
    pub stage: OpcodeStage,
    pub done: Vec<Opcode>,
    pub name: Text,
    pub patterns: Vec<Pattern>,
    pub digits: Vec<Digit>,
}

// An entry of one pattern that stands whole in a text, and the bytes behind it.
#[derive(Clone, Copy)]
struct WholeEntry<'a> {
    name: &'a [u8],
    digits: &'a [u8],
    behind: &'a [u8],
}

// A pattern in words has at most so many digits.
const LONGEST: usize = 64;

// The entry at the front, where it stands there whole, has one pattern of at most 64 digits, and has blanks behind its name alone.
fn whole_entry(bytes: &[u8]) -> Option<WholeEntry<'_>>
    ensures is { IfSome result (λ entry. o.BeginsWith bytes.now entry.name.now entry.digits.now entry.behind.now) }
    ensures few { IfSome result (λ entry. length entry.digits.now ≤ 64) }
{
    let (name, behind_name) = split_word(bytes);
    let (first, _) = name.split_first()?;
    let (_, list) = split_run(behind_name, is_space);
    let (digits, end) = split_run(behind_sign(list, b'(')?, is_pattern_digit);
    let behind = behind_sign(end, b')')?;
    if digits.len() > LONGEST {
        return None;
    }
    if !is_letter(*first) || digits.is_empty() {
        return None;
    }
    Some(WholeEntry {
        name,
        digits,
        behind,
    })
}

impl OpcodeReading {
    fn to(&mut self, stage: OpcodeStage) -> Result<(), ContentFault>
        ensures { c.Steps (o.view self.new) result (Ok (o.at_stage (o.view self.old) stage)) }
    {
        self.stage = stage;
        Ok(())
    }

    fn letter(&mut self, alloc: Global, byte: u8) -> Result<(), ContentFault>
        requires { t.in_word byte ≡ true }
        ensures { c.Steps (o.view self.new) result (Ok (o.with_letter (o.view self.old) byte)) }
    {
        self.stage = OpcodeStage::Name;
        add_letter(alloc, &mut self.name, byte)?;
        Ok(())
    }

    fn digit(&mut self, byte: u8) -> Result<(), ContentFault>
        ensures { c.Steps (o.view self.new) result (Ok (o.with_digit (o.view self.old) byte)) }
    {
        self.stage = OpcodeStage::Digits;
        self.digits.push(digit_of(byte))?;
        Ok(())
    }

    // A pattern ends, and another is due.
    fn pattern(&mut self, alloc: Global) -> Result<(), ContentFault>
        ensures { c.Steps (o.view self.new) result (Ok (o.with_pattern (o.view self.old))) }
    {
        self.stage = OpcodeStage::Pattern;
        let mut digits = Vec::from_slice(alloc, &self.digits)?;
        digits.reverse();
        self.digits.clear();
        self.patterns.push(Pattern {
            digits: Items::from_vec(digits),
        })?;
        Ok(())
    }

    // An entry ends with its last pattern.
    fn entry(&mut self, alloc: Global) -> Result<(), ContentFault>
        ensures { c.Steps (o.view self.new) result (Ok (o.with_entry (o.view self.old))) }
    {
        self.pattern(alloc)?;
        self.stage = OpcodeStage::Closed;
        let patterns = mem::replace(&mut self.patterns, Vec::new(alloc));
        self.done.push(Opcode {
            name: mem::replace(&mut self.name, Text::new()),
            patterns: Patterns::from_vec(patterns),
        })?;
        Ok(())
    }

    fn behind_name(&mut self, byte: u8) -> Result<(), ContentFault>
        ensures { c.Steps (o.view self.new) result (o.behind_name (o.view self.old) byte) }
    {
        if is_space(byte) {
            return self.to(OpcodeStage::Named);
        }
        if byte == b'(' {
            return self.to(OpcodeStage::Pattern);
        }
        Err(ContentFault::Departs(8))
    }

    fn behind_pattern(&mut self, alloc: Global, byte: u8) -> Result<(), ContentFault>
        ensures { c.Steps (o.view self.new) result (o.behind_pattern (o.view self.old) byte) }
    {
        if is_space(byte) {
            return self.to(OpcodeStage::Joined);
        }
        if byte == b',' {
            return self.pattern(alloc);
        }
        if byte == b')' {
            return self.entry(alloc);
        }
        Err(ContentFault::Departs(8))
    }

    // One more byte of the content.
    fn byte(&mut self, alloc: Global, byte: u8) -> Result<(), ContentFault>
        ensures { c.Steps (o.view self.new) result (o.next_byte (o.view self.old) byte) }
    {
        match self.stage {
            OpcodeStage::Entry if is_letter(byte) => self.letter(alloc, byte),
            OpcodeStage::Name if in_word(byte) => self.letter(alloc, byte),
            OpcodeStage::Name | OpcodeStage::Named => self.behind_name(byte),
            OpcodeStage::Pattern | OpcodeStage::Digits if is_pattern_digit(byte) => self.digit(
                byte,
            ),
            OpcodeStage::Digits | OpcodeStage::Joined => self.behind_pattern(alloc, byte),
            OpcodeStage::Closed if byte == b',' => self.to(OpcodeStage::Entry),
            OpcodeStage::Entry | OpcodeStage::Pattern | OpcodeStage::Closed => departs_unless(
                is_space(byte),
            ),
        }
    }

    // Whether nothing of the next entry was read.
    fn is_between(&self) -> bool
        ensures { IsTrue result → o.view self.now ≡ o.with_entries self.now.done.items }
    {
        matches!(self.stage, OpcodeStage::Entry)
            && self.name.is_empty()
            && self.patterns.is_empty()
            && self.digits.is_empty()
    }

    // An entry that stands whole in a text.
    fn whole(&mut self, alloc: Global, letters: &[u8], digits: &[u8]) -> Result<(), ContentFault>
        requires name { list_all t.in_word letters.now ≡ true }
        requires few { length digits.now ≤ 64 }
        ensures { c.Steps (o.view self.new) result (Ok (o.with_whole (o.view self.old) letters.now digits.now)) }
    {
        let name = name_of(alloc, letters)?;
        self.stage = OpcodeStage::Closed;
        self.done.push(Opcode {
            name,
            patterns: Patterns::one(alloc, pattern_of(digits)),
        })?;
        Ok(())
    }

    // What stands at the front, a whole entry or one byte. Answers the bytes behind it.
    fn next<'a>(&mut self, alloc: Global, bytes: &'a [u8]) -> Result<&'a [u8], ContentFault>
        requires { 0 < length bytes.now }
        ensures goes { IfOk result (λ behind. c.through o.next_byte (o.view self.new) behind.now ≡ c.through o.next_byte (o.view self.old) bytes.now) }
        ensures less { IfOk result (λ behind. length behind.now < length bytes.now) }
        ensures fault { IfErr result (λ fault. c.Refuses fault (c.through o.next_byte (o.view self.old) bytes.now)) }
    {
        if self.is_between() {
            if let Some(entry) = whole_entry(bytes) {
                self.whole(alloc, entry.name, entry.digits)?;
                return Ok(entry.behind);
            }
        }
        let Some((byte, behind)) = bytes.split_first() else {
            unreachable!()
        };
        self.byte(alloc, *byte)?;
        Ok(behind)
    }

    // The bytes of one text of the content.
    fn bytes(&mut self, alloc: Global, bytes: &[u8]) -> Result<(), ContentFault>
        ensures { c.Steps (o.view self.new) result (c.through o.next_byte (o.view self.old) bytes.now) }
    {
        let mut rest = bytes;
        while !rest.is_empty() {
            rest = self.next(alloc, rest)?;
        }
        Ok(())
    }

    // The texts of the content.
    fn tokens(&mut self, alloc: Global, text: &[u8], tokens: &[Token]) -> Result<(), ContentFault>
        requires { SpansRise 0 tokens.now (length text.now) }
        ensures { c.Steps (o.view self.new) result (c.through_all o.next_byte text.now (o.view self.old) tokens.now) }
    {
        for token in tokens {
            self.bytes(alloc, inside(text, *token))?;
        }
        Ok(())
    }
}

// The entries of the tokens of a VALUE.
pub fn opcodes(alloc: Global, text: &[u8], tokens: &[Token]) -> Result<Vec<Opcode>, ContentFault>
    requires { SpansRise 0 tokens.now (length text.now) }
    ensures { c.Gives (λ found. found.items) result (o.opcodes text.now tokens.now) }
{
    let mut reading = OpcodeReading {
        stage: OpcodeStage::Entry,
        done: Vec::new(alloc),
        name: Text::new(),
        patterns: Vec::new(alloc),
        digits: Vec::new(alloc),
    };
    reading.tokens(alloc, text, tokens)?;
    match reading.stage {
        OpcodeStage::Closed => Ok(reading.done),
        _ => Err(ContentFault::Departs(8)),
    }
}
