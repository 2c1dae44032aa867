// What a BSDL text says, in the order of refusals: its tokens, their structure, the contents, and the plan.
ghost use Rattle.std.specs.Prelude.{◌≡◌, length, take, drop, true, false, Ok, IfOk, IfErr};
ghost use Rattle.bsdl_lex.specs.Tokens.{SpansRise};
ghost use Rattle.part_model.specs.Plans as plans;
ghost use Rattle.bsdl_read.specs.Words as w;
ghost use Rattle.bsdl_read.specs.Structure as s;
ghost use Rattle.bsdl_read.specs.Contents as c;
ghost use Rattle.bsdl_read.specs.Opcodes as o;
ghost use Rattle.bsdl_read.specs.Patterns as p;
ghost use Rattle.bsdl_read.specs.Accesses as a;
ghost use Rattle.bsdl_read.specs.Reading as r;
ghost use Rattle.bsdl_read.specs.declared.read.BsdlRefusal.TheVariants.{Memory};

use crate::accesses::accesses;
use crate::contents::{ContentFault, token_number};
use crate::opcodes::opcodes;
use crate::patterns::pattern;
use crate::structure::{Fault, Seen, Value, Values, structure};
use crate::words::{capital, spelled};
use base_types::{Items, Text};
use bsdl_lex::{LexRefusal, Token, tokens};
use part_model::{Access, Field, Opcode, Part, PartPlan, PartRefusal, Pattern};
use std::alloc::{AllocError, Global};
use thiserror::Error;

/// A device type and the name of its entity, in capitals.
#[derive(Drop)]
pub struct Entity {
    pub name: Text,
    pub part: Part,
}

/// Why a text says no device type. In `Refused` the byte `at` is counted from 0. The causes are 1 to 4 those of the tokens, 5 a token that
/// a file does not allow or the text's length where the file is not whole, 6 a missing attribute at the word `end`, 7 an attribute for the
/// second time at its name, 8 a departure from the form of an item that is read or of its content, 9 a content that names CAPTURES or
/// RUNBIST, and 11 to 19 the causes of a plan plus 10. Causes of contents and plans stand at the first token of the attribute's value.
#[derive(Clone, Copy, Debug, PartialEq, Eq, Error)]
pub enum BsdlRefusal {
    #[error("out of memory")]
    Memory,
    #[error("no BSDL text of a device type")]
    Refused { at: usize, cause: u8 },
}

impl From<AllocError> for BsdlRefusal {
    ghost from_gives = { λ _ e. e ≡ Memory };

    fn from(_: AllocError) -> BsdlRefusal {
        BsdlRefusal::Memory
    }
}

fn refusal_of(at: usize, fault: ContentFault) -> BsdlRefusal
    ensures { result ≡ r.refusal_of at fault }
{
    match fault {
        ContentFault::Memory => BsdlRefusal::Memory,
        ContentFault::Departs(cause) => BsdlRefusal::Refused { at, cause },
    }
}

fn behind(tokens: &[Token], first: usize) -> &[Token]
    ensures { result.now ≡ drop first tokens.now }
{
    if first <= tokens.len() {
        tokens.split_at(first).1
    } else {
        &[]
    }
}

fn front(tokens: &[Token], count: usize) -> &[Token]
    ensures { result.now ≡ take count tokens.now }
{
    if count <= tokens.len() {
        tokens.split_at(count).0
    } else {
        tokens
    }
}

// The tokens of a VALUE.
fn tokens_of<'a>(text: &[u8], tokens: &'a [Token], value: Value) -> &'a [Token]
    requires { SpansRise 0 tokens.now (length text.now) }
    ensures is { result.now ≡ r.tokens_of tokens.now value }
    ensures rises { SpansRise 0 result.now (length text.now) }
{
    front(
        behind(tokens, value.first),
        value.behind.saturating_sub(value.first),
    )
}

// The refusal of a required attribute that is missing.
fn missing(seen: Seen) -> BsdlRefusal
    ensures { result ≡ r.missing seen }
{
    BsdlRefusal::Refused {
        at: seen.end,
        cause: 6,
    }
}

fn number(text: &[u8], tokens: &[Token]) -> Result<u32, ContentFault>
    requires { SpansRise 0 tokens.now (length text.now) }
    ensures { c.Gives (λ value. value) result (r.number text.now tokens.now) }
{
    match tokens.split_first() {
        Some((token, _)) => token_number(text, *token),
        None => Err(ContentFault::Departs(8)),
    }
}

fn number_at(
    text: &[u8],
    tokens: &[Token],
    seen: Seen,
    value: Option<Value>,
) -> Result<u32, BsdlRefusal>
    requires { SpansRise 0 tokens.now (length text.now) }
    ensures { r.Reads (λ found. found) result (r.required tokens.now seen (r.number text.now) value) }
{
    let Some(value) = value else {
        return Err(missing(seen));
    };
    match number(text, tokens_of(text, tokens, value)) {
        Ok(found) => Ok(found),
        Err(fault) => Err(refusal_of(value.at, fault)),
    }
}

fn opcodes_at(
    alloc: Global,
    text: &[u8],
    tokens: &[Token],
    seen: Seen,
) -> Result<Items<Opcode>, BsdlRefusal>
    requires { SpansRise 0 tokens.now (length text.now) }
    ensures is { r.Reads (λ found. found) result (r.required tokens.now seen (o.opcodes text.now) seen.values.opcodes) }
    ensures patterns { IfOk result (λ found. plans.all_have_patterns found ≡ true) }
{
    let Some(value) = seen.values.opcodes else {
        return Err(missing(seen));
    };
    match opcodes(alloc, text, tokens_of(text, tokens, value)) {
        Ok(found) => Ok(Items::from_vec(found)),
        Err(fault) => Err(refusal_of(value.at, fault)),
    }
}

fn capture_at(
    alloc: Global,
    text: &[u8],
    tokens: &[Token],
    seen: Seen,
) -> Result<Pattern, BsdlRefusal>
    requires { SpansRise 0 tokens.now (length text.now) }
    ensures { r.Reads (λ found. found) result (r.required tokens.now seen (p.pattern false text.now) seen.values.capture) }
{
    let Some(value) = seen.values.capture else {
        return Err(missing(seen));
    };
    match pattern(alloc, false, text, tokens_of(text, tokens, value)) {
        Ok(found) => Ok(found),
        Err(fault) => Err(refusal_of(value.at, fault)),
    }
}

fn pattern_at(
    alloc: Global,
    text: &[u8],
    tokens: &[Token],
    value: Option<Value>,
) -> Result<Option<Pattern>, BsdlRefusal>
    requires { SpansRise 0 tokens.now (length text.now) }
    ensures { r.Reads (λ found. found) result (r.optional tokens.now (p.pattern true text.now) value) }
{
    let Some(value) = value else {
        return Ok(None);
    };
    match pattern(alloc, true, text, tokens_of(text, tokens, value)) {
        Ok(found) => Ok(Some(found)),
        Err(fault) => Err(refusal_of(value.at, fault)),
    }
}

fn accesses_at(
    alloc: Global,
    text: &[u8],
    tokens: &[Token],
    value: Option<Value>,
) -> Result<Items<Access>, BsdlRefusal>
    requires { SpansRise 0 tokens.now (length text.now) }
    ensures { r.Reads (λ found. found) result (r.listed tokens.now (a.accesses text.now) value) }
{
    let Some(value) = value else {
        return Ok(Items::from_vec(Vec::new(alloc)));
    };
    match accesses(alloc, text, tokens_of(text, tokens, value)) {
        Ok(found) => Ok(Items::from_vec(found)),
        Err(fault) => Err(refusal_of(value.at, fault)),
    }
}

// The contents, in the order of the attributes.
fn plan(alloc: Global, text: &[u8], tokens: &[Token], seen: Seen) -> Result<PartPlan, BsdlRefusal>
    requires { SpansRise 0 tokens.now (length text.now) }
    ensures is { r.Reads (λ found. found) result (r.plan_of text.now tokens.now seen) }
    ensures patterns { IfOk result (λ found. plans.all_have_patterns found.opcodes ≡ true) }
{
    let values = seen.values;
    Ok(PartPlan {
        ir_len: number_at(text, tokens, seen, values.ir_length)?,
        opcodes: opcodes_at(alloc, text, tokens, seen)?,
        capture: capture_at(alloc, text, tokens, seen)?,
        idcode: pattern_at(alloc, text, tokens, values.idcode)?,
        usercode: pattern_at(alloc, text, tokens, values.usercode)?,
        access: accesses_at(alloc, text, tokens, values.access)?,
        boundary: number_at(text, tokens, seen, values.boundary)?,
    })
}

// The place of the first token of an attribute's VALUE.
fn place(values: &Values, field: Field) -> usize
    ensures { result ≡ r.place (s.value_of values.now field) }
{
    match values.get(field) {
        Some(value) => value.at,
        None => 0,
    }
}

// The device type of a plan.
fn accepted(alloc: Global, values: &Values, plan: PartPlan) -> Result<Part, BsdlRefusal>
    requires { plans.all_have_patterns plan.opcodes ≡ true }
    ensures { r.Reads (λ part. part) result (r.accepted values.now plan (plans.plan_refusal plan)) }
{
    match Part::new(alloc, plan) {
        Ok(part) => Ok(part),
        Err(PartRefusal::Memory) => Err(BsdlRefusal::Memory),
        Err(PartRefusal::Refused { cause, field }) => Err(BsdlRefusal::Refused {
            at: place(values, field),
            cause: 10 + cause,
        }),
    }
}

// A word in capitals.
fn capitals(alloc: Global, word: &[u8]) -> Result<Text, AllocError>
    ensures { IfOk result (λ text. text ≡ r.capitals word.now) }
{
    let mut text = Text::new();
    for byte in word {
        text.push(alloc, capital(*byte) as char)?;
    }
    Ok(text)
}

// The entity of a text whose structure is known.
fn entity_of(
    alloc: Global,
    text: &[u8],
    tokens: &[Token],
    seen: Seen,
) -> Result<Entity, BsdlRefusal>
    requires rises { SpansRise 0 tokens.now (length text.now) }
    requires name { w.Lies text.now seen.name }
    ensures { r.Reads r.shape_of result (r.entity text.now tokens.now seen) }
{
    let plan = plan(alloc, text, tokens, seen)?;
    let part = accepted(alloc, &seen.values, plan)?;
    let name = capitals(alloc, spelled(text, seen.name))?;
    Ok(Entity { name, part })
}

// The entity of a text that has these tokens.
fn read_tokens(alloc: Global, text: &[u8], tokens: &[Token]) -> Result<Entity, BsdlRefusal>
    requires { SpansRise 0 tokens.now (length text.now) }
    ensures { r.Reads r.shape_of result (r.from_tokens text.now (Ok tokens.now)) }
{
    match structure(text, tokens) {
        Ok(seen) => entity_of(alloc, text, tokens, seen),
        Err(Fault { at, cause }) => Err(BsdlRefusal::Refused { at, cause }),
    }
}

/// The name and the device type that a BSDL text says. `Refused` comes exactly where the text is refused, with the first cause in the
/// order of its tokens, of their structure, of the contents and of the plan, and `Memory` where memory is wanting.
pub fn read_part(alloc: Global, text: &[u8]) -> Result<Entity, BsdlRefusal>
    ensures ok { IfOk result (λ entity. r.IsEntity text.now entity.name entity.part) }
    ensures refused { IfErr result (λ refusal. r.RefusesAs refusal (r.read_of text.now)) }
{
    match tokens(alloc, text) {
        Ok(found) => read_tokens(alloc, text, &found),
        Err(LexRefusal::Refused { at, cause }) => Err(BsdlRefusal::Refused { at, cause }),
        Err(LexRefusal::Memory) => Err(BsdlRefusal::Memory),
    }
}
