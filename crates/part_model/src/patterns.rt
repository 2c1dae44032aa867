// Patterns of digits in words.
ghost use Rattle.std.specs.Prelude.{◌≡◌, ◌≤◌, ◌<◌, ◌^◌, [], ◌∷◌, false, length, IfOk};
ghost use Rattle.std.specs.List.{list_any};
ghost use Rattle.scan_bits.specs.Words.{bit_value, bits_of};
ghost use Rattle.part_model.specs.Digits.{is_stated, is_one};
ghost use Rattle.part_model.specs.Parts as parts;
ghost use Rattle.part_model.specs.Plans as plans;

use crate::Digit;
use crate::plan::Pattern;
use base_types::Items;
use std::alloc::{AllocError, Global};
use std::marker::Model;

fn care_value(digit: Digit) -> u64
    ensures { result ≡ bit_value (is_stated digit) }
{
    match digit {
        Digit::Zero | Digit::One => 1,
        Digit::Any => 0,
    }
}

fn one_value(digit: Digit) -> u64
    ensures { result ≡ bit_value (is_one digit) }
{
    match digit {
        Digit::One => 1,
        Digit::Zero | Digit::Any => 0,
    }
}

/// A pattern of at most 64 digits in words: how many digits there are, a 1 for each that is not X, and a 1 for each that is 1. Bit 0 is
/// nearest TDO. Contracts see it as the list of its digits, lowest first.
#[derive(Drop)]
pub struct CodePattern {
    count: u32,
    cares: u64,
    ones: u64,
}

impl Model for CodePattern {
    ghost use Rattle.std.specs.Prelude.{List};
    ghost use Rattle.part_model.specs.declared.Digit.{Digit};

    ghost Value = { List Digit };

    ghost use Rattle.part_model.specs.Digits.{digits_of, IsPacked};

    ghost view = { λ p. digits_of p.count p.cares p.ones };

    ghost invariant = { λ p. IsPacked p.count p.cares p.ones };
}

impl CodePattern {
    /// The pattern of no digits.
    pub fn empty() -> Self
        ensures { result ≡ [] }
    {
        CodePattern {
            count: 0,
            cares: 0,
            ones: 0,
        }
    }

    /// The pattern with one more digit below its lowest.
    pub fn with_lowest(self, digit: Digit) -> Self
        requires { length self < 64 }
        ensures { result ≡ digit ∷ self }
    {
        CodePattern {
            count: self.count + 1,
            cares: care_value(digit) + 2 * self.cares,
            ones: one_value(digit) + 2 * self.ones,
        }
    }

    // How many digits there are.
    fn len(&self) -> u32
        ensures { result ≡ length self.now }
    {
        self.count
    }

    // The pattern of so many digits.
    pub(crate) fn pack(count: u32, digits: &[Digit]) -> CodePattern
        requires most { count ≤ 64 }
        requires length { length digits.now ≡ count }
        ensures { result ≡ digits.now }
    {
        let mut cares = 0;
        let mut ones = 0;
        let mut rest = digits;
        while let Some((digit, lower)) = rest.split_last() {
            cares = care_value(*digit) + 2 * cares;
            ones = one_value(*digit) + 2 * ones;
            rest = lower;
        }
        CodePattern { count, cares, ones }
    }

    // Whether the pattern matches a code of so many bits.
    pub(crate) fn matches(&self, count: u32, code: u64) -> bool
        ensures { result ≡ parts.matches self.now (bits_of count code) }
    {
        (code ^ self.ones) & self.cares == 0 && self.count == count
    }

    // The code of the pattern, X read as 0.
    pub(crate) fn code(&self) -> u64
        ensures is { bits_of (length self.now) result ≡ plans.bits_of_pattern self.now }
        ensures bound { result < 2 ^ length self.now }
    {
        self.ones
    }

    // An equal pattern.
    fn copy(&self) -> CodePattern
        ensures { result ≡ self.now }
    {
        CodePattern {
            count: self.count,
            cares: self.cares,
            ones: self.ones,
        }
    }
}

/// The patterns of an opcode, the first in words where it has at most 64 digits, so that one alone takes no memory. Contracts see them as
/// the list of patterns, each of which is the list of its digits, lowest first.
#[derive(Drop)]
pub struct Patterns {
    first: Option<CodePattern>,
    // The others, and the first too where it is not in words.
    others: Items<Pattern>,
}

impl Model for Patterns {
    ghost use Rattle.std.specs.Prelude.{List, ◌++◌};
    ghost use Rattle.std.specs.Option.{option_to_list};
    ghost use Rattle.part_model.specs.declared.Digit.{Digit};

    ghost Value = { List (List Digit) };

    ghost view = { λ patterns. option_to_list patterns.first ++ patterns.others };
}

impl Patterns {
    /// One pattern alone.
    pub fn one(alloc: Global, pattern: CodePattern) -> Self
        ensures { result ≡ pattern ∷ [] }
    {
        Patterns {
            first: Some(pattern),
            others: Items::from_vec(Vec::new(alloc)),
        }
    }

    /// The patterns of the vector, in order. Takes no memory.
    pub fn from_vec(list: Vec<Pattern>) -> Self
        ensures { result ≡ list.items }
    {
        Patterns {
            first: None,
            others: Items::from_vec(list),
        }
    }

    // Whether one of the patterns has another length.
    pub(crate) fn any_wrong_length(&self, count: u32) -> bool
        ensures { result ≡ list_any (plans.wrong_length count) self.now }
    {
        match &self.first {
            Some(first) => first.len() != count || any_wrong_length(count, self.others.as_slice()),
            None => any_wrong_length(count, self.others.as_slice()),
        }
    }

    // The code of the first pattern, X read as 0.
    pub(crate) fn first_code(&self, count: u32) -> u64
        requires most { count ≤ 64 }
        requires some { 0 < length self.now }
        requires lengths { list_any (plans.wrong_length count) self.now ≡ false }
        ensures is { bits_of count result ≡ plans.bits_of_pattern (plans.first_pattern self.now) }
        ensures bound { result < 2 ^ count }
    {
        match &self.first {
            Some(first) => first.code(),
            None => CodePattern::pack(count, self.others.get(0).digits()).code(),
        }
    }

    // The patterns of so many digits each in words.
    pub(crate) fn pack(&self, alloc: Global, count: u32) -> Result<CodePatterns, AllocError>
        requires some { 0 < length self.now }
        requires most { count ≤ 64 }
        requires lengths { list_any (plans.wrong_length count) self.now ≡ false }
        ensures { IfOk result (λ packed. packed ≡ self.now) }
    {
        match &self.first {
            Some(first) => packed(alloc, count, first.copy(), self.others.as_slice()),
            None => {
                let first = CodePattern::pack(count, self.others.get(0).digits());
                packed(alloc, count, first, &self.others.as_slice()[1..])
            }
        }
    }
}

// A pattern in words, and others of so many digits each.
fn packed(
    alloc: Global,
    count: u32,
    first: CodePattern,
    others: &[Pattern],
) -> Result<CodePatterns, AllocError>
    requires most { count ≤ 64 }
    requires lengths { list_any (plans.wrong_length count) others.now ≡ false }
    ensures { IfOk result (λ packed. packed ≡ first ∷ others.now) }
{
    let others = pack_all(alloc, count, others)?;
    Ok(CodePatterns {
        first,
        others: Items::from_vec(others),
    })
}

// The patterns of an opcode in words, the first one in place. Contracts see them as the list of their digits.
#[derive(Drop)]
pub struct CodePatterns {
    first: CodePattern,
    others: Items<CodePattern>,
}

impl Model for CodePatterns {
    ghost use Rattle.std.specs.Prelude.{List, ◌∷◌};
    ghost use Rattle.part_model.specs.declared.Digit.{Digit};

    ghost Value = { List (List Digit) };

    ghost view = { λ patterns. patterns.first ∷ patterns.others };
}

impl CodePatterns {
    // Equal patterns.
    pub fn copy(&self, alloc: Global) -> Result<CodePatterns, AllocError>
        ensures { IfOk result (λ copy. copy ≡ self.now) }
    {
        let others = copy_all(alloc, self.others.as_slice())?;
        Ok(CodePatterns {
            first: self.first.copy(),
            others: Items::from_vec(others),
        })
    }

    // Whether one of the patterns matches a code of so many bits.
    pub fn any_matches(&self, count: u32, code: u64) -> bool
        ensures { result ≡ list_any (λ pattern. parts.matches pattern (bits_of count code)) self.now }
    {
        self.first.matches(count, code) || any_matches(self.others.as_slice(), count, code)
    }
}

// Whether a pattern has another length.
pub fn wrong_length(count: u32, pattern: &[Digit]) -> bool
    ensures { result ≡ plans.wrong_length count pattern.now }
{
    pattern.len() != count as usize
}

fn any_wrong_length(count: u32, patterns: &[Pattern]) -> bool
    ensures { result ≡ list_any (plans.wrong_length count) patterns.now }
{
    for pattern in patterns {
        if wrong_length(count, pattern.digits()) {
            return true;
        }
    }
    false
}

// Patterns of so many digits each, in order.
fn pack_all(alloc: Global, count: u32, patterns: &[Pattern]) -> Result<Vec<CodePattern>, AllocError>
    requires most { count ≤ 64 }
    requires lengths { list_any (plans.wrong_length count) patterns.now ≡ false }
    ensures { IfOk result (λ packed. packed.items ≡ patterns.now) }
{
    let mut packed = Vec::with_capacity(alloc, patterns.len())?;
    for pattern in patterns {
        packed.push(CodePattern::pack(count, pattern.digits()))?;
    }
    Ok(packed)
}

// Whether one of the patterns matches a code of so many bits.
fn any_matches(patterns: &[CodePattern], count: u32, code: u64) -> bool
    ensures { result ≡ list_any (λ pattern. parts.matches pattern (bits_of count code)) patterns.now }
{
    for pattern in patterns {
        if pattern.matches(count, code) {
            return true;
        }
    }
    false
}

// Equal patterns, in order.
fn copy_all(alloc: Global, patterns: &[CodePattern]) -> Result<Vec<CodePattern>, AllocError>
    ensures { IfOk result (λ copy. copy.items ≡ patterns.now) }
{
    let mut copied = Vec::with_capacity(alloc, patterns.len())?;
    for pattern in patterns {
        copied.push(pattern.copy())?;
    }
    Ok(copied)
}
