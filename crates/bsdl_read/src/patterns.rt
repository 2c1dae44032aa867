// The contents of INSTRUCTION_CAPTURE, IDCODE_REGISTER and USERCODE_REGISTER.
ghost use Rattle.std.specs.Prelude.{◌≡◌, length, Ok};
ghost use Rattle.bsdl_lex.specs.Tokens.{SpansRise};
ghost use Rattle.bsdl_read.specs.Contents as c;
ghost use Rattle.bsdl_read.specs.Patterns as p;

use crate::contents::{ContentFault, digit_of, inside, is_pattern_digit, is_space};
use base_types::Items;
use bsdl_lex::Token;
use part_model::{Digit, Pattern};
use std::alloc::Global;

// Which pattern is read: the first, or a later one, which may have a digit.
#[derive(Clone, Copy)]
pub enum PatternStage {
    First,
    Later(bool),
}

// Whether several may stand there, and the digits of the first.
#[derive(Drop)]
pub struct PatternReading {
    pub many: bool,
    pub stage: PatternStage,
    pub digits: Vec<Digit>,
}

impl PatternReading {
    fn may_join(&self) -> bool
        ensures { result ≡ p.may_join (p.view self.now).stage (p.view self.now) }
    {
        match self.stage {
            PatternStage::First => self.many && !self.digits.is_empty(),
            PatternStage::Later(some) => some,
        }
    }

    fn is_closed(&self) -> bool
        ensures { result ≡ p.is_closed (p.view self.now).stage (p.view self.now) }
    {
        match self.stage {
            PatternStage::First => !self.digits.is_empty(),
            PatternStage::Later(some) => some,
        }
    }

    fn digit(&mut self, byte: u8) -> Result<(), ContentFault>
        ensures { c.Steps (p.view self.new) result (Ok (p.digit_at (p.view self.old).stage (p.view self.old) byte)) }
    {
        match self.stage {
            PatternStage::First => self.digits.push(digit_of(byte))?,
            PatternStage::Later(_) => self.stage = PatternStage::Later(true),
        }
        Ok(())
    }

    // One more byte of the content.
    fn byte(&mut self, byte: u8) -> Result<(), ContentFault>
        ensures { c.Steps (p.view self.new) result (p.next_byte (p.view self.old) byte) }
    {
        if is_space(byte) {
            return Ok(());
        }
        if is_pattern_digit(byte) {
            return self.digit(byte);
        }
        if byte == b',' && self.may_join() {
            self.stage = PatternStage::Later(false);
            return Ok(());
        }
        Err(ContentFault::Departs(8))
    }

    // The bytes of one text of the content.
    fn bytes(&mut self, bytes: &[u8]) -> Result<(), ContentFault>
        ensures { c.Steps (p.view self.new) result (c.through p.next_byte (p.view self.old) bytes.now) }
    {
        for byte in bytes {
            self.byte(*byte)?;
        }
        Ok(())
    }

    // The texts of the content.
    fn tokens(&mut self, text: &[u8], tokens: &[Token]) -> Result<(), ContentFault>
        requires { SpansRise 0 tokens.now (length text.now) }
        ensures { c.Steps (p.view self.new) result (c.through_all p.next_byte text.now (p.view self.old) tokens.now) }
    {
        for token in tokens {
            self.bytes(inside(text, *token))?;
        }
        Ok(())
    }
}

// The pattern of the tokens of a VALUE: of one alone, or the first of several where there may be many.
pub fn pattern(
    alloc: Global,
    many: bool,
    text: &[u8],
    tokens: &[Token],
) -> Result<Pattern, ContentFault>
    requires { SpansRise 0 tokens.now (length text.now) }
    ensures { c.Gives (λ found. found) result (p.pattern many text.now tokens.now) }
{
    let mut reading = PatternReading {
        many,
        stage: PatternStage::First,
        digits: Vec::new(alloc),
    };
    reading.tokens(text, tokens)?;
    if !reading.is_closed() {
        return Err(ContentFault::Departs(8));
    }
    let mut digits = reading.digits;
    digits.reverse();
    Ok(Pattern {
        digits: Items::from_vec(digits),
    })
}
