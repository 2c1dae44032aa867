// What stands whole in a text of REGISTER_ACCESS from a place on is read at once, and the rest byte by byte.
ghost use Rattle.std.specs.Prelude.{◌≡◌, ℕ, ◌<◌, ◌≤◌, [], true, false, length, map, codes, IsTrue, IfOk, IfErr, IfSome, Result, Ok};
ghost use Rattle.bsdl_lex.specs.Tokens.{SpansRise};
ghost use Rattle.bsdl_read.specs.Words as w;
ghost use Rattle.bsdl_read.specs.Contents as c;
ghost use Rattle.bsdl_read.specs.Places as p;
ghost use Rattle.bsdl_read.specs.Accesses as a;
ghost use Rattle.bsdl_read.specs.declared.accesses.AccessStage.TheVariants.{Entry};

use crate::accesses::{AccessReading, AccessStage};
use crate::contents::{ContentFault, front_name_of};
use crate::places::{
    NumberAt, behind_blanks, byte_at, has_sign, number_at, places_inside, word_end,
};
use crate::words::same_word;
use base_types::Text;
use bsdl_lex::Token;
use part_model::{Access, Names};
use std::alloc::{AllocError, Global};

// A length in brackets, or none, and the place behind it.
#[derive(Clone, Copy)]
struct FrontLength {
    length: Option<u32>,
    behind: usize,
}

// Where a register begins and ends, its length or none, and the place behind the `(` of its names.
#[derive(Clone, Copy)]
struct FrontRegister {
    start: usize,
    stop: usize,
    length: Option<u32>,
    behind: usize,
}

// Where a name begins and ends, whether its list ends with it, and the place behind the `)` or the `,`.
#[derive(Clone, Copy)]
struct FrontName {
    start: usize,
    stop: usize,
    is_last: bool,
    behind: usize,
}

// The length, where there is one and it stands whole.
#[inline(always)]
fn front_length(text: &[u8], start: usize, end: usize) -> Option<FrontLength>
    requires rises { start ≤ end }
    requires ends { end ≤ length text.now }
    ensures is { IfSome result (λ front. a.HasLength (p.between text.now start end) front.length (p.between text.now front.behind end)) }
    ensures rises { IfSome result (λ front. start ≤ front.behind) }
    ensures ends { IfSome result (λ front. front.behind ≤ end) }
{
    if !has_sign(text, start, end, b'[') {
        return Some(FrontLength {
            length: None,
            behind: start,
        });
    }
    let digits = behind_blanks(text, start + 1, end);
    let NumberAt { value, stop } = number_at(text, digits, end)?;
    let close = behind_blanks(text, stop, end);
    if !has_sign(text, close, end, b']') {
        return None;
    }
    Some(FrontLength {
        length: Some(value),
        behind: behind_blanks(text, close + 1, end),
    })
}

// The register, where it stands whole.
#[inline(always)]
fn front_register(text: &[u8], start: usize, end: usize) -> Option<FrontRegister>
    requires rises { start ≤ end }
    requires ends { end ≤ length text.now }
    ensures is { IfSome result (λ front. a.OpensWith (p.between text.now start end) (p.between text.now front.start front.stop) front.length (p.between text.now front.behind end)) }
    ensures word { IfSome result (λ front. p.IsWord text.now front.start front.stop) }
    ensures rises { IfSome result (λ front. start < front.behind) }
    ensures ends { IfSome result (λ front. front.behind ≤ end) }
{
    let first = behind_blanks(text, start, end);
    let stop = word_end(text, first, end)?;
    let list = behind_blanks(text, stop, end);
    let FrontLength { length, behind } = front_length(text, list, end)?;
    if !has_sign(text, behind, end, b'(') {
        return None;
    }
    Some(FrontRegister {
        start: first,
        stop,
        length,
        behind: behind + 1,
    })
}

// Whether a list ends with the sign that stands behind a name.
#[inline(always)]
fn ends_list(sign: u8) -> Option<bool>
    ensures { IfSome result (λ is_last. sign ≡ a.sign_behind is_last) }
{
    match sign {
        b')' => Some(true),
        b',' => Some(false),
        _ => None,
    }
}

// Whether a name is that of the instruction RUNBIST.
#[inline(always)]
fn is_runbist(text: &[u8], start: usize, stop: usize) -> bool
    requires { p.IsWord text.now start stop }
    ensures { result ≡ w.same_word (p.between text.now start stop) (codes "RUNBIST") }
{
    let count = stop - start;
    count == 7 && same_word(text.split_at(start).1.split_at(count).0, b"RUNBIST")
}

// The name and the sign behind it, where both stand there and the name is not RUNBIST.
#[inline(always)]
fn front_name(text: &[u8], start: usize, end: usize) -> Option<FrontName>
    requires rises { start ≤ end }
    requires ends { end ≤ length text.now }
    ensures is { IfSome result (λ front. a.NamesOne (p.between text.now start end) (p.between text.now front.start front.stop) front.is_last (p.between text.now front.behind end)) }
    ensures word { IfSome result (λ front. p.IsWord text.now front.start front.stop) }
    ensures rises { IfSome result (λ front. start < front.behind) }
    ensures ends { IfSome result (λ front. front.behind ≤ end) }
{
    let first = behind_blanks(text, start, end);
    let stop = word_end(text, first, end)?;
    let close = behind_blanks(text, stop, end);
    if close >= end {
        return None;
    }
    let is_last = ends_list(text[close])?;
    if is_runbist(text, first, stop) {
        return None;
    }
    Some(FrontName {
        start: first,
        stop,
        is_last,
        behind: close + 1,
    })
}

// The word between two places, in capitals.
#[inline(always)]
fn name_between(alloc: Global, text: &[u8], start: usize, stop: usize) -> Result<Text, AllocError>
    requires { p.IsWord text.now start stop }
    ensures { IfOk result (λ name. name ≡ map w.capital (p.between text.now start stop)) }
{
    front_name_of(alloc, text.split_at(start).1, stop - start)
}

impl AccessReading {
    // Whether nothing of the next entry was read.
    #[inline(always)]
    fn is_between(&self) -> bool
        ensures { IsTrue result → a.view self.now ≡ a.with_entries self.now.done.items }
    {
        matches!(self.stage, AccessStage::Entry)
            && self.length.is_none()
            && self.number.is_empty()
            && self.instructions.is_empty()
            && self.register.is_empty()
            && self.name.is_empty()
    }

    // Whether an instruction is due, and nothing of its name was read.
    fn awaits_name(&self) -> bool
        ensures { IsTrue result → a.view self.now ≡ a.at_name (a.view self.now) }
    {
        matches!(self.stage, AccessStage::Instruction)
            && self.number.is_empty()
            && self.name.is_empty()
    }

    // Whether an entry is due, and nothing of its register was read.
    fn awaits_register(&self) -> bool
        ensures stage { IsTrue result → self.now.stage ≡ Entry }
        ensures none { IsTrue result → self.now.register ≡ [] }
    {
        matches!(self.stage, AccessStage::Entry) && self.register.is_empty()
    }

    // A register whose names are due.
    fn opened(
        &mut self,
        alloc: Global,
        text: &[u8],
        start: usize,
        stop: usize,
        length: Option<u32>,
    ) -> Result<(), ContentFault>
        requires { p.IsWord text.now start stop }
        ensures { c.Steps (a.view self.new) result (Ok (a.with_opened (a.view self.old) (p.between text.now start stop) length)) }
    {
        self.stage = AccessStage::Instruction;
        self.register = name_between(alloc, text, start, stop)?;
        self.length = length;
        Ok(())
    }

    // A whole entry with one instruction. Another may follow at once.
    #[inline(always)]
    fn entered(
        &mut self,
        alloc: Global,
        text: &[u8],
        front: FrontRegister,
        name: FrontName,
    ) -> Result<(), ContentFault>
        requires between { a.view self.old ≡ a.with_entries self.old.done.items }
        requires register { p.IsWord text.now front.start front.stop }
        requires name { p.IsWord text.now name.start name.stop }
        ensures { c.Steps (a.view self.new) result (Ok (a.at_stage (a.with_named (a.with_opened (a.view self.old) (p.between text.now front.start front.stop) front.length) (p.between text.now name.start name.stop) true) Entry)) }
    {
        let register = name_between(alloc, text, front.start, front.stop)?;
        let instructions = Names::one(alloc, name_between(alloc, text, name.start, name.stop)?);
        self.done.push(Access {
            register,
            length: front.length,
            instructions,
        })?;
        Ok(())
    }

    // Entries that stand whole with one instruction each, and what stands whole of the entry behind them. Answers the place behind
    // what was read.
    fn entries(
        &mut self,
        alloc: Global,
        text: &[u8],
        start: usize,
        end: usize,
    ) -> Result<usize, ContentFault>
        requires between { a.view self.old ≡ a.with_entries self.old.done.items }
        requires rises { start ≤ end }
        requires ends { end ≤ length text.now }
        ensures goes { IfOk result (λ behind. c.through a.next_byte (a.view self.new) (p.between text.now behind end) ≡ c.through a.next_byte (a.view self.old) (p.between text.now start end)) }
        ensures rises { IfOk result (λ behind. start ≤ behind) }
        ensures ends { IfOk result (λ behind. behind ≤ end) }
        ensures fault { (read : Result a.Entries ℕ) → IfErr result (λ fault. c.Refuses fault read) }
    {
        let mut place = start;
        while let Some(front) = front_register(text, place, end) {
            let Some(name) = front_name(text, front.behind, end) else {
                self.opened(alloc, text, front.start, front.stop, front.length)?;
                return Ok(front.behind);
            };
            if !name.is_last {
                self.opened(alloc, text, front.start, front.stop, front.length)?;
                self.named(alloc, text, name.start, name.stop, false)?;
                return Ok(name.behind);
            }
            self.entered(alloc, text, front, name)?;
            if !has_sign(text, name.behind, end, b',') {
                self.stage = AccessStage::Closed;
                return Ok(name.behind);
            }
            place = name.behind + 1;
        }
        Ok(place)
    }

    // A whole name, which may be the last of its entry.
    fn named(
        &mut self,
        alloc: Global,
        text: &[u8],
        start: usize,
        stop: usize,
        is_last: bool,
    ) -> Result<(), ContentFault>
        requires { p.IsWord text.now start stop }
        ensures { c.Steps (a.view self.new) result (Ok (a.with_named (a.view self.old) (p.between text.now start stop) is_last)) }
    {
        self.name = name_between(alloc, text, start, stop)?;
        if is_last {
            return self.entry(alloc);
        }
        self.name()
    }

    // All letters of a register that stand in one text.
    fn register_word(
        &mut self,
        alloc: Global,
        text: &[u8],
        start: usize,
        stop: usize,
    ) -> Result<(), ContentFault>
        requires { p.IsWord text.now start stop }
        ensures { c.Steps (a.view self.new) result (Ok (a.with_register_word (a.view self.old) (p.between text.now start stop))) }
    {
        self.stage = AccessStage::Register;
        self.register = name_between(alloc, text, start, stop)?;
        Ok(())
    }

    // All letters of a name that stand in one text.
    fn name_word(
        &mut self,
        alloc: Global,
        text: &[u8],
        start: usize,
        stop: usize,
    ) -> Result<(), ContentFault>
        requires { p.IsWord text.now start stop }
        ensures { c.Steps (a.view self.new) result (Ok (a.with_name_word (a.view self.old) (p.between text.now start stop))) }
    {
        self.stage = AccessStage::Name;
        self.name = name_between(alloc, text, start, stop)?;
        Ok(())
    }

    // The letters of a register or of a name, or one byte. Answers the place behind it.
    fn next_part(
        &mut self,
        alloc: Global,
        text: &[u8],
        start: usize,
        end: usize,
    ) -> Result<usize, ContentFault>
        requires before { start < end }
        requires ends { end ≤ length text.now }
        ensures goes { IfOk result (λ behind. c.through a.next_byte (a.view self.new) (p.between text.now behind end) ≡ c.through a.next_byte (a.view self.old) (p.between text.now start end)) }
        ensures less { IfOk result (λ behind. start < behind) }
        ensures ends { IfOk result (λ behind. behind ≤ end) }
        ensures fault { IfErr result (λ fault. c.Refuses fault (c.through a.next_byte (a.view self.old) (p.between text.now start end))) }
    {
        if self.awaits_register() {
            if let Some(stop) = word_end(text, start, end) {
                self.register_word(alloc, text, start, stop)?;
                return Ok(stop);
            }
        }
        if self.awaits_name() {
            if let Some(stop) = word_end(text, start, end) {
                self.name_word(alloc, text, start, stop)?;
                return Ok(stop);
            }
        }
        let byte = byte_at(text, start, end);
        self.register_byte(alloc, byte)?;
        Ok(start + 1)
    }

    // What stands whole from a place on, entries or a name, or a part of it. Answers the place behind it.
    fn next(
        &mut self,
        alloc: Global,
        text: &[u8],
        start: usize,
        end: usize,
    ) -> Result<usize, ContentFault>
        requires before { start < end }
        requires ends { end ≤ length text.now }
        ensures goes { IfOk result (λ behind. c.through a.next_byte (a.view self.new) (p.between text.now behind end) ≡ c.through a.next_byte (a.view self.old) (p.between text.now start end)) }
        ensures less { IfOk result (λ behind. start < behind) }
        ensures ends { IfOk result (λ behind. behind ≤ end) }
        ensures fault { IfErr result (λ fault. c.Refuses fault (c.through a.next_byte (a.view self.old) (p.between text.now start end))) }
    {
        if self.is_between() {
            let behind = self.entries(alloc, text, start, end)?;
            if behind > start {
                return Ok(behind);
            }
            return self.next_part(alloc, text, behind, end);
        }
        if self.awaits_name() {
            if let Some(front) = front_name(text, start, end) {
                self.named(alloc, text, front.start, front.stop, front.is_last)?;
                return Ok(front.behind);
            }
        }
        self.next_part(alloc, text, start, end)
    }

    // The bytes between two places.
    fn bytes(
        &mut self,
        alloc: Global,
        text: &[u8],
        start: usize,
        end: usize,
    ) -> Result<(), ContentFault>
        requires rises { start ≤ end }
        requires ends { end ≤ length text.now }
        ensures { c.Steps (a.view self.new) result (c.through a.next_byte (a.view self.old) (p.between text.now start end)) }
    {
        let mut place = start;
        while place < end {
            place = self.next(alloc, text, place, end)?;
        }
        Ok(())
    }

    // The texts of the content.
    pub fn tokens(
        &mut self,
        alloc: Global,
        text: &[u8],
        tokens: &[Token],
    ) -> Result<(), ContentFault>
        requires { SpansRise 0 tokens.now (length text.now) }
        ensures { c.Steps (a.view self.new) result (c.through_all a.next_byte text.now (a.view self.old) tokens.now) }
    {
        for token in tokens {
            let (start, end) = places_inside(text, *token);
            self.bytes(alloc, text, start, end)?;
        }
        Ok(())
    }
}
