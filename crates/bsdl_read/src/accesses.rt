// The content of REGISTER_ACCESS.
ghost use Rattle.std.specs.Prelude.{◌≡◌, true, length, Ok};
ghost use Rattle.bsdl_lex.specs.Tokens as t;
ghost use Rattle.bsdl_lex.specs.Tokens.{SpansRise};
ghost use Rattle.bsdl_read.specs.Contents as c;
ghost use Rattle.bsdl_read.specs.Accesses as a;

use crate::contents::{ContentFault, add_letter, departs_unless, is_space, whole_number};
use crate::words::same_word;
use base_types::Text;
use bsdl_lex::{Token, in_word, is_digit, is_letter};
use part_model::{Access, Names};
use std::alloc::Global;
use std::mem;

// What may come next.
#[derive(Clone, Copy)]
pub enum AccessStage {
    Entry,
    Register,
    Registered,
    Open,
    Number,
    Numbered,
    Bracketed,
    Instruction,
    Name,
    Named,
    Word,
    Closed,
}

// Whole entries, and the parts of the one that is open.
#[derive(Drop)]
pub struct AccessReading {
    pub stage: AccessStage,
    pub done: Vec<Access>,
    pub register: Text,
    pub length: Option<u32>,
    pub number: Vec<u8>,
    pub name: Text,
    pub instructions: Names,
}

// The cause of a word behind a name.
fn word_cause(word: &[u8]) -> u8
    ensures { result ≡ a.word_cause word.now }
{
    if same_word(word, b"CAPTURES") { 9 } else { 8 }
}

impl AccessReading {
    fn to(&mut self, stage: AccessStage) -> Result<(), ContentFault>
        ensures { c.Steps (a.view self.new) result (Ok (a.at_stage (a.view self.old) stage)) }
    {
        self.stage = stage;
        Ok(())
    }

    fn register_letter(&mut self, alloc: Global, byte: u8) -> Result<(), ContentFault>
        requires { t.in_word byte ≡ true }
        ensures { c.Steps (a.view self.new) result (Ok (a.with_register (a.view self.old) byte)) }
    {
        self.stage = AccessStage::Register;
        add_letter(alloc, &mut self.register, byte)?;
        Ok(())
    }

    fn letter(&mut self, alloc: Global, stage: AccessStage, byte: u8) -> Result<(), ContentFault>
        requires { t.in_word byte ≡ true }
        ensures { c.Steps (a.view self.new) result (Ok (a.with_letter (a.view self.old) stage byte)) }
    {
        self.stage = stage;
        add_letter(alloc, &mut self.name, byte)?;
        Ok(())
    }

    // The first letter of a word that stands behind a name.
    fn word(&mut self, alloc: Global, byte: u8) -> Result<(), ContentFault>
        requires { t.in_word byte ≡ true }
        ensures { c.Steps (a.view self.new) result (Ok (a.with_word (a.view self.old) byte)) }
    {
        self.stage = AccessStage::Word;
        self.name = Text::new();
        add_letter(alloc, &mut self.name, byte)?;
        Ok(())
    }

    fn digit(&mut self, byte: u8) -> Result<(), ContentFault>
        ensures { c.Steps (a.view self.new) result (Ok (a.with_digit (a.view self.old) byte)) }
    {
        self.stage = AccessStage::Number;
        self.number.push(byte)?;
        Ok(())
    }

    // The number ends.
    fn number(&mut self, stage: AccessStage) -> Result<(), ContentFault>
        ensures { c.Steps (a.view self.new) result (a.with_number (a.view self.old) stage) }
    {
        let value = whole_number(&self.number)?;
        self.stage = stage;
        self.length = Some(value);
        self.number.clear();
        Ok(())
    }

    // A name ends, and another is due.
    pub fn name(&mut self) -> Result<(), ContentFault>
        ensures { c.Steps (a.view self.new) result (Ok (a.with_name (a.view self.old))) }
    {
        self.stage = AccessStage::Instruction;
        self.instructions
            .push(mem::replace(&mut self.name, Text::new()))?;
        Ok(())
    }

    // An entry ends with its last name.
    pub fn entry(&mut self, alloc: Global) -> Result<(), ContentFault>
        ensures { c.Steps (a.view self.new) result (Ok (a.with_entry (a.view self.old))) }
    {
        self.name()?;
        self.stage = AccessStage::Closed;
        self.done.push(Access {
            register: mem::replace(&mut self.register, Text::new()),
            length: self.length,
            instructions: mem::replace(&mut self.instructions, Names::new(alloc)),
        })?;
        self.length = None;
        Ok(())
    }

    fn behind_register(&mut self, alloc: Global, byte: u8) -> Result<(), ContentFault>
        ensures { c.Steps (a.view self.new) result (a.behind_register (a.view self.old) byte) }
    {
        if is_space(byte) {
            return self.to(AccessStage::Registered);
        }
        if byte == b'[' {
            return self.to(AccessStage::Open);
        }
        if byte == b'(' {
            return self.to(AccessStage::Instruction);
        }
        if is_letter(byte) {
            return self.word(alloc, byte);
        }
        Err(ContentFault::Departs(8))
    }

    fn behind_number(&mut self, byte: u8) -> Result<(), ContentFault>
        ensures { c.Steps (a.view self.new) result (a.behind_number (a.view self.old) byte) }
    {
        if is_space(byte) {
            return self.number(AccessStage::Numbered);
        }
        if byte == b']' {
            return self.number(AccessStage::Bracketed);
        }
        Err(ContentFault::Departs(8))
    }

    fn behind_name(&mut self, alloc: Global, byte: u8) -> Result<(), ContentFault>
        ensures { c.Steps (a.view self.new) result (a.behind_name (a.view self.old) byte) }
    {
        if is_space(byte) {
            return self.to(AccessStage::Named);
        }
        if byte == b',' {
            return self.name();
        }
        if byte == b')' {
            return self.entry(alloc);
        }
        if is_letter(byte) {
            return self.word(alloc, byte);
        }
        Err(ContentFault::Departs(8))
    }

    // A name is whole.
    fn whole_name(&mut self, alloc: Global, byte: u8) -> Result<(), ContentFault>
        ensures { c.Steps (a.view self.new) result (a.whole_name (a.view self.old) byte) }
    {
        if same_word(self.name.as_str().as_bytes(), b"RUNBIST") {
            return Err(ContentFault::Departs(9));
        }
        self.behind_name(alloc, byte)
    }

    // One more byte of a register.
    pub fn register_byte(&mut self, alloc: Global, byte: u8) -> Result<(), ContentFault>
        ensures { c.Steps (a.view self.new) result (a.next_byte (a.view self.old) byte) }
    {
        match self.stage {
            AccessStage::Register if in_word(byte) => self.register_letter(alloc, byte),
            AccessStage::Register | AccessStage::Registered => self.behind_register(alloc, byte),
            AccessStage::Open | AccessStage::Number if is_digit(byte) => self.digit(byte),
            AccessStage::Number => self.behind_number(byte),
            AccessStage::Numbered if byte == b']' => self.to(AccessStage::Bracketed),
            AccessStage::Bracketed if byte == b'(' => self.to(AccessStage::Instruction),
            AccessStage::Open | AccessStage::Numbered | AccessStage::Bracketed => departs_unless(
                is_space(byte),
            ),
            _ => self.list_byte(alloc, byte),
        }
    }

    // One more byte where an entry begins or ends, or of the names.
    fn list_byte(&mut self, alloc: Global, byte: u8) -> Result<(), ContentFault>
        requires { a.is_listed (a.view self.old).stage }
        ensures { c.Steps (a.view self.new) result (a.next_byte (a.view self.old) byte) }
    {
        match self.stage {
            AccessStage::Entry if is_letter(byte) => self.register_letter(alloc, byte),
            AccessStage::Instruction if is_letter(byte) => self.letter(
                alloc,
                AccessStage::Name,
                byte,
            ),
            AccessStage::Name if in_word(byte) => self.letter(alloc, AccessStage::Name, byte),
            AccessStage::Name => self.whole_name(alloc, byte),
            AccessStage::Named => self.behind_name(alloc, byte),
            AccessStage::Word if in_word(byte) => self.letter(alloc, AccessStage::Word, byte),
            AccessStage::Word => Err(ContentFault::Departs(word_cause(
                self.name.as_str().as_bytes(),
            ))),
            AccessStage::Closed if byte == b',' => self.to(AccessStage::Entry),
            _ => departs_unless(is_space(byte)),
        }
    }

    // The content ends.
    fn closed(self) -> Result<Vec<Access>, ContentFault>
        ensures { c.Gives (λ found. found.items) result (a.closed (a.view self)) }
    {
        match self.stage {
            AccessStage::Closed => Ok(self.done),
            AccessStage::Name => Err(ContentFault::Departs(name_cause(
                self.name.as_str().as_bytes(),
            ))),
            AccessStage::Word => Err(ContentFault::Departs(word_cause(
                self.name.as_str().as_bytes(),
            ))),
            _ => Err(ContentFault::Departs(8)),
        }
    }
}

// The cause of a content that ends in a name.
fn name_cause(name: &[u8]) -> u8
    ensures { result ≡ a.name_cause name.now }
{
    if same_word(name, b"RUNBIST") { 9 } else { 8 }
}

// The entries of the tokens of a VALUE.
pub fn accesses(alloc: Global, text: &[u8], tokens: &[Token]) -> Result<Vec<Access>, ContentFault>
    requires { SpansRise 0 tokens.now (length text.now) }
    ensures { c.Gives (λ found. found.items) result (a.accesses text.now tokens.now) }
{
    let mut reading = AccessReading {
        stage: AccessStage::Entry,
        done: Vec::new(alloc),
        register: Text::new(),
        length: None,
        number: Vec::new(alloc),
        name: Text::new(),
        instructions: Names::new(alloc),
    };
    reading.tokens(alloc, text, tokens)?;
    reading.closed()
}
