// A layout: the parts of a chain, who may use them, and the nets between them.
ghost use Rattle.std.specs.Prelude.{◌≡◌, ◌≤◌, ◌<◌, ◌+◌, ◌*◌, length, map, slice_get, None, Some, IfOk};
ghost use Rattle.std.specs.List.{All, sum_by, filter_map};
ghost use Rattle.std.specs.Option.{option_map};
ghost use Rattle.part_model.specs.Parts.{longest};
ghost use Rattle.part_model.specs.Plans.{IsPart};
ghost use Rattle.grant_table.specs.Layouts as layouts;
ghost use Rattle.grant_table.specs.Layouts.{bypass_word, group_of, longest_of, grant_at_port};
ghost use Rattle.grant_table.specs.Faults.{IsLayout, layout_of, shape_for};
ghost use Rattle.grant_table.specs.Faults as faults;
ghost use Rattle.grant_table.specs.Kept.{AllParts};
ghost use Rattle.grant_table.specs.Apart.{KeepsApart, RisesFrom};

use crate::Protocol;
use crate::grant::{Grant, KeptGrant, kept_grant};
use part_model::{Net, Part};
use std::alloc::{AllocError, Global};
use std::marker::Model;

/// A layout without fault: the device types of a chain from TDI on, the grants, and the nets. A device's place counts from 0 at TDI,
/// and a grant's number from 0. Contracts see it as that layout. Only `new` takes memory.
#[derive(Drop)]
pub struct Layout {
    parts: Vec<Part>,
    grants: Vec<KeptGrant>,
    nets: Vec<Net>,
    ir_total: usize,
    bypass_codes: Vec<u64>,
}

impl Model for Layout {
    ghost use Rattle.grant_table.specs.Layouts.{LayoutShape};
    ghost use Rattle.grant_table.specs.Kept.{IsKept};

    ghost Value = { LayoutShape };

    ghost view = { λ l. record { parts = l.parts.items; grants = l.grants.items; nets = l.nets.items } };

    ghost invariant = { λ l. IsKept (record { parts = l.parts.items; grants = l.grants.items; nets = l.nets.items }) l.ir_total l.bypass_codes.items };
}

// The sum of the instruction lengths.
fn ir_sum(parts: &[Part]) -> usize
    requires { length parts.now ≤ 32 }
    ensures sum { result ≡ sum_by (λ part. part.ir_length) parts.now }
    ensures parts { AllParts parts.now }
{
    let mut sum = 0;
    for part in parts {
        sum += part.ir_len() as usize;
    }
    sum
}

/// The code of BYPASS: a one for each bit of the instruction register (IEEE 1149.1), in the lowest bits of the word; bit 0 is nearest TDO.
pub fn bypass_code(part: &Part) -> u64
    ensures { result ≡ bypass_word part.now }
{
    u64::MAX >> (64 - part.ir_len())
}

// The code of BYPASS of each part.
fn bypass_codes(alloc: Global, parts: &[Part]) -> Result<Vec<u64>, AllocError>
    ensures { IfOk result (λ codes. codes.items ≡ map bypass_word parts.now) }
{
    let mut codes = Vec::new(alloc);
    for part in parts {
        codes.push(bypass_code(part))?;
    }
    Ok(codes)
}

// The sum of the greatest register lengths of the parts at these places.
fn longest_sum(parts: &[Part], group: &[usize]) -> usize
    requires few { length group.now ≤ 32 }
    requires within { All (λ place. place < length parts.now) group.now }
    requires parts { AllParts parts.now }
    ensures sum { result ≡ sum_by longest (filter_map (slice_get parts.now) group.now) }
    ensures bound { result ≤ 32 * 65536 }
{
    let mut sum = 0;
    for place in group {
        sum += parts[*place].longest() as usize;
    }
    sum
}

// The grants as they are kept.
fn kept_grants(alloc: Global, count: usize, grants: &[Grant]) -> Result<Vec<KeptGrant>, AllocError>
    ensures { IfOk result (λ all. all.items ≡ map (shape_for count) grants.now) }
{
    let mut all = Vec::new(alloc);
    for grant in grants {
        all.push(kept_grant(alloc, count, grant)?)?;
    }
    Ok(all)
}

// The first grant that has the port.
fn grant_at_port(grants: &[KeptGrant], port: u16) -> Option<usize>
    ensures { result ≡ grant_at_port grants.now port }
{
    for (grant, kept) in grants.iter().enumerate() {
        if kept.port == port {
            return Some(grant);
        }
    }
    None
}

impl Layout {
    /// The layout of these parts, grants and nets. The error comes where memory is wanting.
    pub fn new(
        alloc: Global,
        parts: Vec<Part>,
        grants: Vec<Grant>,
        nets: Vec<Net>,
    ) -> Result<Layout, AllocError>
        requires faultless { faults.layout_fault (length parts.items) grants.items nets.items ≡ None }
        ensures { IfOk result (λ layout. layout ≡ layout_of parts.items grants.items nets.items) }
    {
        let ir_total = ir_sum(&parts);
        let bypass_codes = bypass_codes(alloc, &parts)?;
        let grants = kept_grants(alloc, parts.len(), &grants)?;
        Ok(Layout {
            parts,
            grants,
            nets,
            ir_total,
            bypass_codes,
        })
    }

    /// How many devices the chain has.
    pub fn devices(&self) -> usize
        ensures is { result ≡ length self.now.parts }
        ensures some { (1 ≤ result) × (result ≤ 32) }
        ensures layout { IsLayout self.now }
        ensures apart { KeepsApart self.now }
        ensures parts { AllParts self.now.parts }
    {
        self.parts.len()
    }

    /// How many grants there are.
    pub fn grants(&self) -> usize
        ensures is { result ≡ length self.now.grants }
        ensures some { (1 ≤ result) × (result ≤ 16) }
    {
        self.grants.len()
    }

    /// How many bits an instruction scan of the whole chain has.
    pub fn ir_total(&self) -> usize
        ensures is { result ≡ layouts.ir_total self.now }
        ensures bound { result ≤ 2048 }
    {
        self.ir_total
    }

    /// The TCP port of a grant.
    pub fn port(&self, grant: usize) -> u16
        requires { grant < length self.now.grants }
        ensures { option_map (λ shape. shape.port) (slice_get self.now.grants grant) ≡ Some result }
    {
        self.grants[grant].port
    }

    /// The protocol that a grant's clients speak.
    pub fn protocol(&self, grant: usize) -> Protocol
        requires { grant < length self.now.grants }
        ensures { option_map (λ shape. shape.protocol) (slice_get self.now.grants grant) ≡ Some result }
    {
        self.grants[grant].protocol
    }

    /// The places of a grant's devices, rising.
    pub fn group(&self, grant: usize) -> &[usize]
        requires { grant < length self.now.grants }
        ensures is { result.now ≡ group_of self.now.grants grant }
        ensures some { (1 ≤ length result.now) × (length result.now ≤ 32) }
        ensures rising { RisesFrom 0 result.now }
        ensures within { All (λ place. place < length self.now.parts) result.now }
        ensures low { All (λ place. place < 32) result.now }
    {
        self.grants[grant].group.as_slice()
    }

    /// The device type at a place.
    pub fn part(&self, place: usize) -> &Part
        requires { place < length self.now.parts }
        ensures is { slice_get self.now.parts place ≡ Some result.now }
        ensures part { IsPart result.now }
    {
        &self.parts[place]
    }

    /// The code of BYPASS of each device, from TDI on: in each word bit 0 is nearest TDO.
    pub fn bypass_codes(&self) -> &[u64]
        ensures { result.now ≡ map bypass_word self.now.parts }
    {
        &self.bypass_codes
    }

    /// The most bits that a data register scan of a grant's devices can have: the sum of their greatest register lengths.
    pub fn longest(&self, grant: usize) -> usize
        requires { grant < length self.now.grants }
        ensures is { result ≡ longest_of self.now (group_of self.now.grants grant) }
        ensures bound { result ≤ 32 * 65536 }
    {
        longest_sum(&self.parts, self.group(grant))
    }

    /// The nets, in the order in which they were given. Their devices count from 1.
    pub fn nets(&self) -> &[Net]
        ensures { result.now ≡ self.now.nets }
    {
        &self.nets
    }

    /// The grant that a port belongs to, None exactly where it belongs to none.
    pub fn grant_of(&self, port: u16) -> Option<usize>
        ensures { result ≡ layouts.grant_of self.now port }
    {
        grant_at_port(&self.grants, port)
    }
}
