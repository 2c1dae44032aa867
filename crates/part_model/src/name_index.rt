// Names with a value each, that are found without a search through all of them.
ghost use Rattle.std.specs.Prelude.{◌≡◌, ℕ, List, true, OnOk, IfOk, None, Some, if◌then◌else◌};
ghost use Rattle.std.specs.Option.{is_some, option_or};
ghost use Rattle.part_model.specs.NameIndexes as indexes;
ghost use Rattle.part_model.specs.Parts as parts;

use crate::names::same_name;
use std::alloc::{AllocError, Global};
use std::collections::BTreeMap;
use std::collections::btree_map::Entry;

// What stands in a slot: a name with its value, two of them, several names in the order of their hashes, where equal hashes are told
// apart by the names, or nothing.
#[derive(Drop)]
pub enum Slot<'a, V: Drop> {
    One(&'a str, V),
    Two(&'a str, V, &'a str, V),
    Several(BTreeMap<(u64, &'a str), V>),
    Empty,
}

// The value that was first added for each name. A name stands in the slot that its hash says.
#[derive(Drop)]
pub struct NameIndex<'a, V: Drop> {
    slots: Vec<Slot<'a, V>>,
}

// The hash of a name: its bytes as digits to the base 1,000,003, the lowest 64 bits of that number.
#[tactic(auto, unfolding(crate::specs::NameIndexes::hash_from))]
fn hash(name: &str) -> u64
    ensures { result ≡ indexes.hash_from 0 name.now }
{
    let mut hash: u64 = 0;
    for byte in name.as_bytes() {
        hash = hash.wrapping_mul(1_000_003).wrapping_add(u64::from(*byte));
    }
    hash
}

// The slot of a name among so many: what the upper half of a product is of 2 ^ 32, it is of the count. The product spreads the hashes of
// short names.
fn place(name: &str, count: usize) -> usize
    ensures { result ≡ indexes.place name.now count }
{
    let spread = hash(name).wrapping_mul(0x9e37_79b9_7f4a_7c15) >> 32;
    (spread.wrapping_mul(count as u64) >> 32) as usize
}

fn is_name(name: &str, kept: &str) -> bool
    ensures { result ≡ parts.same_name name.now kept.now }
{
    same_name(name.as_bytes(), kept.as_bytes())
}

// The value of a name among several. Where it has none, it has this one from now on.
fn add_to<'a, V: Copy + Drop>(
    several: &mut BTreeMap<(u64, &'a str), V>,
    name: &'a str,
    value: V,
) -> Result<Option<V>, AllocError>
    ensures earlier { IfOk result (λ earlier. earlier ≡ indexes.value_among several.old name.now) }
    ensures added { OnOk result ((other : List ℕ) → indexes.value_among several.new other ≡ option_or (indexes.value_among several.old other) (if parts.same_name other name.now then Some value else None)) }
{
    let entry = several.entry((hash(name), name))?;
    match &entry {
        Entry::Occupied(kept) => {
            let earlier = *kept.get();
            entry.or_insert(value);
            Ok(Some(earlier))
        }
        Entry::Vacant(_) => {
            entry.or_insert(value);
            Ok(None)
        }
    }
}

// Three names with their values, of which the first counts where names are equal.
fn three<'a, V: Copy + Drop>(
    alloc: Global,
    first: (&'a str, V),
    second: (&'a str, V),
    third: (&'a str, V),
) -> Result<BTreeMap<(u64, &'a str), V>, AllocError>
    ensures { IfOk result (λ several. (other : List ℕ) → indexes.value_among several other ≡ option_or (option_or (if parts.same_name other first.entry.0.now then Some first.entry.1 else None) (if parts.same_name other second.entry.0.now then Some second.entry.1 else None)) (if parts.same_name other third.entry.0.now then Some third.entry.1 else None)) }
{
    let mut several = BTreeMap::new(alloc);
    add_to(&mut several, first.0, first.1)?;
    add_to(&mut several, second.0, second.1)?;
    add_to(&mut several, third.0, third.1)?;
    Ok(several)
}

impl<'a, V: Copy + Drop> Slot<'a, V> {
    // The value of a name.
    fn find(&self, name: &'a str) -> Option<V>
        ensures { result ≡ indexes.value_at self.now name.now }
    {
        match self {
            Slot::Empty => None,
            Slot::One(kept, value) => if is_name(name, kept) {
                Some(*value)
            } else {
                None
            },
            Slot::Two(first, value, second, other) => if is_name(name, first) {
                Some(*value)
            } else if is_name(name, second) {
                Some(*other)
            } else {
                None
            },
            Slot::Several(several) => several.get(&(hash(name), name)).copied(),
        }
    }

    // The value of a name. Where it has none, it has this one from now on.
    #[inline(always)]
    fn add(&mut self, alloc: Global, name: &'a str, value: V) -> Result<Option<V>, AllocError>
        ensures earlier { IfOk result (λ earlier. earlier ≡ indexes.value_at self.old name.now) }
        ensures added { OnOk result ((other : List ℕ) → indexes.value_at self.new other ≡ option_or (indexes.value_at self.old other) (if parts.same_name other name.now then Some value else None)) }
    {
        match self {
            Slot::Empty => {
                *self = Slot::One(name, value);
                Ok(None)
            }
            _ => self.add_beside(alloc, name, value),
        }
    }

    // The same. It is not inlined, since few slots have a name when one is added.
    #[inline(never)]
    fn add_beside(
        &mut self,
        alloc: Global,
        name: &'a str,
        value: V,
    ) -> Result<Option<V>, AllocError>
        ensures earlier { IfOk result (λ earlier. earlier ≡ indexes.value_at self.old name.now) }
        ensures added { OnOk result ((other : List ℕ) → indexes.value_at self.new other ≡ option_or (indexes.value_at self.old other) (if parts.same_name other name.now then Some value else None)) }
    {
        match self {
            Slot::Empty => {
                *self = Slot::One(name, value);
                Ok(None)
            }
            Slot::One(kept, first) => {
                if is_name(name, kept) {
                    return Ok(Some(*first));
                }
                *self = Slot::Two(kept, *first, name, value);
                Ok(None)
            }
            Slot::Two(first, first_value, second, second_value) => {
                if is_name(name, first) {
                    return Ok(Some(*first_value));
                }
                if is_name(name, second) {
                    return Ok(Some(*second_value));
                }
                let first = (*first, *first_value);
                let second = (*second, *second_value);
                *self = Slot::Several(three(alloc, first, second, (name, value))?);
                Ok(None)
            }
            Slot::Several(several) => add_to(several, name, value),
        }
    }
}

// A value where there is none, if the test passes. The test.
fn fill_if<V: Copy + Drop>(test: bool, kept: &mut Option<V>, value: V) -> bool
    ensures test { result ≡ test }
    ensures filled { kept.new ≡ (if test then option_or kept.old (Some value) else kept.old) }
{
    if test && kept.is_none() {
        *kept = Some(value);
    }
    test
}

// A value for a name that stands without one among several. Whether the name stands there.
fn fill_among<'a, V: Copy + Drop>(
    several: &mut BTreeMap<(u64, &'a str), Option<V>>,
    name: &'a str,
    value: V,
) -> Result<bool, AllocError>
    ensures stands { IfOk result (λ stands. stands ≡ is_some (indexes.value_among several.old name.now)) }
    ensures filled { OnOk result ((other : List ℕ) → indexes.value_among several.new other ≡ indexes.filled (parts.same_name other name.now) value (indexes.value_among several.old other)) }
{
    let key = (hash(name), name);
    match several.get(&key).copied() {
        None => Ok(false),
        Some(Some(_)) => Ok(true),
        Some(None) => {
            several.insert(key, Some(value))?;
            Ok(true)
        }
    }
}

impl<'a, V: Copy + Drop> Slot<'a, Option<V>> {
    // A value for a name that stands without one. Whether the name stands here.
    #[inline(always)]
    fn fill(&mut self, name: &'a str, value: V) -> Result<bool, AllocError>
        ensures stands { IfOk result (λ stands. stands ≡ is_some (indexes.value_at self.old name.now)) }
        ensures filled { OnOk result ((other : List ℕ) → indexes.value_at self.new other ≡ indexes.filled (parts.same_name other name.now) value (indexes.value_at self.old other)) }
    {
        match self {
            Slot::One(kept, own) => {
                if !is_name(name, kept) {
                    return Ok(false);
                }
                Ok(fill_if(true, own, value))
            }
            _ => self.fill_beside(name, value),
        }
    }

    // The same. It is not inlined, since a slot seldom has several names.
    #[inline(never)]
    fn fill_beside(&mut self, name: &'a str, value: V) -> Result<bool, AllocError>
        ensures stands { IfOk result (λ stands. stands ≡ is_some (indexes.value_at self.old name.now)) }
        ensures filled { OnOk result ((other : List ℕ) → indexes.value_at self.new other ≡ indexes.filled (parts.same_name other name.now) value (indexes.value_at self.old other)) }
    {
        match self {
            Slot::Empty => Ok(false),
            Slot::One(kept, own) => Ok(fill_if(is_name(name, kept), own, value)),
            Slot::Two(first, first_own, second, second_own) => {
                if is_name(name, first) {
                    return Ok(fill_if(true, first_own, value));
                }
                Ok(fill_if(is_name(name, second), second_own, value))
            }
            Slot::Several(several) => fill_among(several, name, value),
        }
    }
}

// So many slots stand ready for each name, so that few share one.
const SLOTS: usize = 3;

impl<'a, V: Copy + Drop> NameIndex<'a, V> {
    // No name has a value. There is room for so many names.
    #[tactic(auto, unfolding(crate::specs::NameIndexes::value_of))]
    pub fn new(alloc: Global, count: usize) -> Result<Self, AllocError>
        ensures { IfOk result (λ index. (name : List ℕ) → indexes.value_of index name ≡ None) }
    {
        let count = count.saturating_mul(SLOTS);
        let mut slots = Vec::with_capacity(alloc, count)?;
        for _ in 0..count {
            slots.push_reserved(Slot::Empty);
        }
        Ok(NameIndex { slots })
    }

    // The value of a name.
    #[tactic(auto, unfolding(crate::specs::NameIndexes::value_of))]
    pub fn find(&self, name: &'a str) -> Option<V>
        ensures { result ≡ indexes.value_of self.now name.now }
    {
        if self.slots.is_empty() {
            return None;
        }
        match self.slots.get(place(name, self.slots.len())) {
            Some(slot) => slot.find(name),
            None => None,
        }
    }

    // The value of a name. Where it has none, it has this one from now on. The error comes where memory is wanting, or there is room for
    // no name.
    #[tactic(auto, unfolding(crate::specs::NameIndexes::value_of))]
    pub fn add(&mut self, alloc: Global, name: &'a str, value: V) -> Result<Option<V>, AllocError>
        ensures earlier { IfOk result (λ earlier. earlier ≡ indexes.value_of self.old name.now) }
        ensures added { OnOk result ((other : List ℕ) → indexes.value_of self.new other ≡ option_or (indexes.value_of self.old other) (if parts.same_name other name.now then Some value else None)) }
    {
        let at = place(name, self.slots.len());
        if at >= self.slots.len() {
            return Err(AllocError);
        }
        let earlier = self.slots[at].add(alloc, name, value)?;
        Ok(earlier)
    }
}

impl<'a, V: Copy + Drop> NameIndex<'a, Option<V>> {
    // A value for a name that stands without one. Whether the name stands here. The error comes where memory is wanting, or there is room
    // for no name.
    #[tactic(auto, unfolding(crate::specs::NameIndexes::value_of))]
    pub fn fill(&mut self, name: &'a str, value: V) -> Result<bool, AllocError>
        ensures stands { IfOk result (λ stands. stands ≡ is_some (indexes.value_of self.old name.now)) }
        ensures filled { OnOk result ((other : List ℕ) → indexes.value_of self.new other ≡ indexes.filled (parts.same_name other name.now) value (indexes.value_of self.old other)) }
    {
        let at = place(name, self.slots.len());
        if at >= self.slots.len() {
            return Err(AllocError);
        }
        let stands = self.slots[at].fill(name, value)?;
        Ok(stands)
    }
}
