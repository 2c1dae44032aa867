// The structure of a BSDL file: which token may follow which.
ghost use Rattle.std.specs.Prelude.{◌≡◌, ◌<◌, ◌≤◌, ◌+◌, ◌^◌, length, IfOk, OnOk};
ghost use Rattle.bsdl_lex.specs.declared.TokenKind.TheVariants.{Word};
ghost use Rattle.bsdl_lex.specs.Tokens.{SpansRise};
ghost use Rattle.bsdl_read.specs.Words as w;
ghost use Rattle.bsdl_read.specs.Structure as s;
ghost use Rattle.bsdl_read.specs.declared.structure.Stage.TheVariants.{Is, Joined};

use crate::words::{field_of, is_kind, is_sign, is_word, spelled, value_kind};
use bsdl_lex::{Token, TokenKind};
use part_model::Field;

// What may come next in a file.
#[derive(Clone, Copy)]
pub enum Stage {
    Entity,
    Name,
    Is,
    Item,
    Attribute,
    Passed(usize),
    Of(Field),
    Owner(Field),
    Colon(Field),
    Kind(Field),
    Has(Field),
    First(Field),
    Joined(Field),
    Part(Field),
    EndName,
    EndSign,
    Done,
}

// Where the VALUE of an attribute stands: its place, its first token, and the first token behind it.
#[derive(Clone, Copy)]
pub struct Value {
    pub at: usize,
    pub first: usize,
    pub behind: usize,
}

// The VALUEs that were met.
#[derive(Clone, Copy)]
pub struct Values {
    pub ir_length: Option<Value>,
    pub opcodes: Option<Value>,
    pub capture: Option<Value>,
    pub idcode: Option<Value>,
    pub usercode: Option<Value>,
    pub access: Option<Value>,
    pub boundary: Option<Value>,
}

// What was met so far.
#[derive(Clone, Copy)]
pub struct Seen {
    pub stage: Stage,
    pub name: Token,
    pub end: usize,
    pub values: Values,
}

// A refusal.
#[derive(Clone, Copy, Debug, PartialEq, Eq)]
pub struct Fault {
    pub at: usize,
    pub cause: u8,
}

impl Values {
    pub fn get(&self, field: Field) -> Option<Value>
        ensures { result ≡ s.value_of self.now field }
    {
        match field {
            Field::InstructionLength => self.ir_length,
            Field::InstructionOpcode => self.opcodes,
            Field::InstructionCapture => self.capture,
            Field::IdcodeRegister => self.idcode,
            Field::UsercodeRegister => self.usercode,
            Field::RegisterAccess => self.access,
            Field::BoundaryLength => self.boundary,
        }
    }

    fn set(&mut self, field: Field, value: Value)
        ensures { self.new ≡ s.with_value self.old field value }
    {
        match field {
            Field::InstructionLength => self.ir_length = Some(value),
            Field::InstructionOpcode => self.opcodes = Some(value),
            Field::InstructionCapture => self.capture = Some(value),
            Field::IdcodeRegister => self.idcode = Some(value),
            Field::UsercodeRegister => self.usercode = Some(value),
            Field::RegisterAccess => self.access = Some(value),
            Field::BoundaryLength => self.boundary = Some(value),
        }
    }
}

impl Seen {
    // A token that is allowed leads to a stage, and any other is the refusal.
    fn go(&mut self, allowed: bool, cause: u8, token: Token, stage: Stage) -> Result<(), Fault>
        ensures is { s.Steps self.new result (s.go allowed cause token (s.to self.old stage)) }
        ensures stage { OnOk result (self.new.stage ≡ stage) }
        ensures name { self.new.name ≡ self.old.name }
    {
        if !allowed {
            return Err(Fault {
                at: token.start,
                cause,
            });
        }
        self.stage = stage;
        Ok(())
    }

    // A word has to stand there.
    fn word(
        &mut self,
        text: &[u8],
        token: Token,
        word: &[u8],
        cause: u8,
        stage: Stage,
    ) -> Result<(), Fault>
        requires { w.Lies text.now token }
        ensures is { s.Steps self.new result (s.go (w.is_word text.now token word.now) cause token (s.to self.old stage)) }
        ensures stage { OnOk result (self.new.stage ≡ stage) }
        ensures name { self.new.name ≡ self.old.name }
    {
        self.go(is_word(text, token, word), cause, token, stage)
    }

    fn passed(&mut self, text: &[u8], token: Token, depth: usize) -> Result<(), Fault>
        requires lies { w.Lies text.now token }
        requires room { depth + 1 < 2 ^ 64 }
        ensures is { s.Steps self.new result (s.passed text.now token self.old depth) }
        ensures room { OnOk result (s.Shallow self.new.stage (depth + 1)) }
        ensures name { self.new.name ≡ self.old.name }
    {
        if is_sign(text, token, b'(') {
            return self.go(true, 5, token, Stage::Passed(depth + 1));
        }
        if is_sign(text, token, b')') {
            return self.go(depth != 0, 5, token, Stage::Passed(depth.saturating_sub(1)));
        }
        if is_sign(text, token, b';') && depth == 0 {
            return self.go(true, 5, token, Stage::Item);
        }
        self.go(true, 5, token, Stage::Passed(depth))
    }

    fn item(&mut self, text: &[u8], token: Token) -> Result<(), Fault>
        requires { w.Lies text.now token }
        ensures is { s.Steps self.new result (s.item text.now token self.old) }
        ensures room { OnOk result (s.Shallow self.new.stage 0) }
        ensures name { self.new.name ≡ self.old.name }
    {
        if is_word(text, token, "END".as_bytes()) {
            self.stage = Stage::EndName;
            self.end = token.start;
            return Ok(());
        }
        if is_word(text, token, "ATTRIBUTE".as_bytes()) {
            return self.go(true, 5, token, Stage::Attribute);
        }
        self.go(
            is_kind(token.kind, TokenKind::Word),
            5,
            token,
            Stage::Passed(0),
        )
    }

    fn attribute(&mut self, text: &[u8], token: Token, field: Option<Field>) -> Result<(), Fault>
        requires { w.Lies text.now token }
        ensures is { s.Steps self.new result (s.attribute text.now token self.old field) }
        ensures room { OnOk result (s.Shallow self.new.stage 1) }
        ensures name { self.new.name ≡ self.old.name }
    {
        match field {
            Some(field) => {
                let first = self.values.get(field).is_none();
                self.go(first, 7, token, Stage::Of(field))
            }
            None => self.passed(text, token, 0),
        }
    }

    fn part(&mut self, token: Token, field: Field, new: Value) -> Result<(), Fault>
        ensures is { s.Steps self.new result (s.part token self.old field new) }
        ensures stage { OnOk result (self.new.stage ≡ Joined field) }
        ensures name { self.new.name ≡ self.old.name }
    {
        if !is_kind(token.kind, value_kind(field)) {
            return Err(Fault {
                at: token.start,
                cause: 8,
            });
        }
        self.values.set(field, new);
        self.stage = Stage::Joined(field);
        Ok(())
    }

    fn joined(&mut self, text: &[u8], token: Token, field: Field) -> Result<(), Fault>
        requires { w.Lies text.now token }
        ensures is { s.Steps self.new result (s.joined text.now token self.old field) }
        ensures room { OnOk result (s.Shallow self.new.stage 0) }
        ensures name { self.new.name ≡ self.old.name }
    {
        if is_sign(text, token, b'&') && is_kind(value_kind(field), TokenKind::Text) {
            return self.go(true, 8, token, Stage::Part(field));
        }
        self.go(is_sign(text, token, b';'), 8, token, Stage::Item)
    }

    // The name of the entity.
    fn named(&mut self, token: Token) -> Result<(), Fault>
        ensures is { s.Steps self.new result (s.go (w.is_kind token.kind Word) 5 token (record self.old { stage = Is; name = token })) }
        ensures stage { OnOk result (self.new.stage ≡ Is) }
        ensures name { OnOk result (self.new.name ≡ token) }
    {
        if !is_kind(token.kind, TokenKind::Word) {
            return Err(Fault {
                at: token.start,
                cause: 5,
            });
        }
        self.stage = Stage::Is;
        self.name = token;
        Ok(())
    }

    // What one more token leads to.
    fn next(&mut self, text: &[u8], token: Token, index: usize) -> Result<(), Fault>
        requires lies { w.Lies text.now token }
        requires name { w.Lies text.now self.old.name }
        requires room { s.Shallow self.old.stage index }
        requires count { index + 1 < 2 ^ 64 }
        ensures is { s.Steps self.new result (s.next text.now self.old token index) }
        ensures name { OnOk result (w.Lies text.now self.new.name) }
        ensures room { OnOk result (s.Shallow self.new.stage (index + 1)) }
    {
        match self.stage {
            Stage::Passed(depth) => self.passed(text, token, depth),
            Stage::Item => self.item(text, token),
            Stage::Attribute => self.attribute(text, token, field_of(text, token)),
            Stage::Entity => self.word(text, token, b"ENTITY", 5, Stage::Name),
            Stage::Name => self.named(token),
            Stage::Is => self.word(text, token, b"IS", 5, Stage::Item),
            Stage::EndName => self.word(text, token, spelled(text, self.name), 5, Stage::EndSign),
            Stage::EndSign => self.go(is_sign(text, token, b';'), 5, token, Stage::Done),
            Stage::Done => self.go(false, 5, token, Stage::Done),
            _ => self.next_of_value(text, token, index),
        }
    }

    // What one more token leads to in an item that is read.
    fn next_of_value(&mut self, text: &[u8], token: Token, index: usize) -> Result<(), Fault>
        requires stage { s.is_read self.old.stage }
        requires lies { w.Lies text.now token }
        requires name { w.Lies text.now self.old.name }
        requires count { index + 1 < 2 ^ 64 }
        ensures is { s.Steps self.new result (s.next text.now self.old token index) }
        ensures room { OnOk result (s.Shallow self.new.stage 0) }
        ensures name { self.new.name ≡ self.old.name }
    {
        match self.stage {
            Stage::Of(field) => self.word(text, token, b"OF", 8, Stage::Owner(field)),
            Stage::Owner(field) => self.word(
                text,
                token,
                spelled(text, self.name),
                8,
                Stage::Colon(field),
            ),
            Stage::Colon(field) => self.go(
                is_sign(text, token, b':'),
                8,
                token,
                Stage::Kind(field),
            ),
            Stage::Kind(field) => self.word(text, token, b"ENTITY", 8, Stage::Has(field)),
            Stage::Has(field) => self.word(text, token, b"IS", 8, Stage::First(field)),
            Stage::First(field) => self.part(
                token,
                field,
                Value {
                    at: token.start,
                    first: index,
                    behind: index + 1,
                },
            ),
            Stage::Joined(field) => self.joined(text, token, field),
            Stage::Part(field) => {
                let new = extended(self.values.get(field), index + 1);
                self.part(token, field, new)
            }
            _ => unreachable!(),
        }
    }
}

fn extended(old: Option<Value>, behind: usize) -> Value
    ensures { result ≡ s.extended old behind }
{
    match old {
        None => Value {
            at: 0,
            first: 0,
            behind,
        },
        Some(old) => Value { behind, ..old },
    }
}

fn is_whole(values: &Values) -> bool
    ensures { result ≡ s.is_whole values.now }
{
    values.ir_length.is_some()
        && values.opcodes.is_some()
        && values.capture.is_some()
        && values.boundary.is_some()
}

fn finished(text: &[u8], seen: Seen) -> Result<Seen, Fault>
    ensures is { result ≡ s.finished text.now seen }
    ensures name { IfOk result (λ after. after.name ≡ seen.name) }
{
    match seen.stage {
        Stage::Done => if is_whole(&seen.values) {
            Ok(seen)
        } else {
            Err(Fault {
                at: seen.end,
                cause: 6,
            })
        },
        _ => Err(Fault {
            at: text.len(),
            cause: 5,
        }),
    }
}

// The structure of the tokens of a text.
pub fn structure(text: &[u8], tokens: &[Token]) -> Result<Seen, Fault>
    requires { SpansRise 0 tokens.now (length text.now) }
    ensures is { result ≡ s.structure text.now tokens.now }
    ensures name { IfOk result (λ seen. w.Lies text.now seen.name) }
{
    let none = Values {
        ir_length: None,
        opcodes: None,
        capture: None,
        idcode: None,
        usercode: None,
        access: None,
        boundary: None,
    };
    let mut seen = Seen {
        stage: Stage::Entity,
        name: Token {
            kind: TokenKind::Word,
            start: 0,
            end: 0,
        },
        end: 0,
        values: none,
    };
    let mut index = 0;
    while index < tokens.len() {
        match seen.next(text, tokens[index], index) {
            Ok(()) => {}
            Err(fault) => return Err(fault),
        }
        index += 1;
    }
    finished(text, seen)
}
