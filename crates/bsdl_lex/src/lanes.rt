//! How many of sixteen bytes, from the first, are of a class.
ghost use Rattle.std.specs.Prelude.{◌≡◌, map, not};
ghost use Rattle.std.specs.List.{prefix_len};
ghost use Rattle.std.specs.Simd.Lanes.{mask_l};
ghost use Rattle.bsdl_lex.specs.Tokens as t;

use crate::Class;
use std::simd::prelude::*;

/// How many bytes are looked at in one step.
pub(crate) const LANES: usize = 16;

/// How many of the bytes, from the first, are of a class.
#[inline(always)]
pub(crate) fn leading(class: Class, bytes: u8x16) -> usize
    ensures { result ≡ prefix_len (t.belongs class) bytes }
{
    let ends = ends(class, bytes);
    if ends == 0 {
        LANES
    } else {
        ends.trailing_zeros() as usize
    }
}

/// The bytes that are not of a class and so end a run of it: bit `k` tells of byte `k`.
#[inline(always)]
fn ends(class: Class, bytes: u8x16) -> u64
    ensures { result ≡ mask_l (map (λ byte. not (t.belongs class byte)) bytes) }
{
    match class {
        Class::Word => word_ends(bytes),
        Class::Number => number_ends(bytes),
        Class::Digit => digit_ends(bytes),
        Class::Comment => comment_ends(bytes),
        Class::Text => text_ends(bytes),
    }
}

#[inline(always)]
fn word_ends(bytes: u8x16) -> u64
    ensures { result ≡ mask_l (map (λ byte. not (t.in_word byte)) bytes) }
{
    let from_letter = (bytes | u8x16::splat(0x20)) - u8x16::splat(b'a');
    let from_digit = bytes - u8x16::splat(b'0');
    (from_letter.simd_ge(u8x16::splat(26))
        & from_digit.simd_ge(u8x16::splat(10))
        & bytes.simd_ne(u8x16::splat(b'_'))).to_bitmask()
}

#[inline(always)]
fn number_ends(bytes: u8x16) -> u64
    ensures { result ≡ mask_l (map (λ byte. not (t.in_number byte)) bytes) }
{
    let from_digit = bytes - u8x16::splat(b'0');
    (from_digit.simd_ge(u8x16::splat(10)) & bytes.simd_ne(u8x16::splat(b'_'))).to_bitmask()
}

#[inline(always)]
fn digit_ends(bytes: u8x16) -> u64
    ensures { result ≡ mask_l (map (λ byte. not (t.is_digit byte)) bytes) }
{
    let from_digit = bytes - u8x16::splat(b'0');
    from_digit.simd_ge(u8x16::splat(10)).to_bitmask()
}

#[inline(always)]
fn comment_ends(bytes: u8x16) -> u64
    ensures { result ≡ mask_l (map (λ byte. not (t.in_comment byte)) bytes) }
{
    (bytes.simd_eq(u8x16::splat(10)) | bytes.simd_eq(u8x16::splat(13))).to_bitmask()
}

#[inline(always)]
fn text_ends(bytes: u8x16) -> u64
    ensures { result ≡ mask_l (map (λ byte. not (t.in_text byte)) bytes) }
{
    let from_blank = bytes - u8x16::splat(b' ');
    let unseen = from_blank.simd_ge(u8x16::splat(95)) & bytes.simd_ne(u8x16::splat(9));
    (unseen | bytes.simd_eq(u8x16::splat(b'"'))).to_bitmask()
}
