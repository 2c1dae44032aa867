// Shifts over a chain of one demo device.
ghost use Rattle.std.specs.Prelude.{◌≡◌, ◌≤◌, length, drop, IfOk};

use crate::{BitSource, shift_in, shift_out};
use chain_model::{Bench, Cable, Chain, demo_board};
use scan_bits::Bits;
use std::alloc::{AllocError, Global};
use std::test::Fail;

// The bits of a list from a place on.
#[derive(Drop)]
struct FromPlace {
    bits: Bits,
    at: usize,
}

impl BitSource for FromPlace {
    ghost left = { λ s. drop s.at s.bits.bits };

    fn take(&mut self, n: u32) -> u64 {
        let from = self.at;
        self.at = self.bits.len().min(from.saturating_add(n as usize));
        self.bits.word(from, n)
    }
}

// These bits of a word.
fn bits(alloc: Global, count: u32, word: u64) -> Result<FromPlace, AllocError>
    requires { count ≤ 64 }
    ensures { IfOk result (λ source. length (drop source.at source.bits.bits) ≡ count) }
{
    let mut bits = Bits::with_room(alloc, count as usize)?;
    bits.push_word(count, word);
    Ok(FromPlace { bits, at: 0 })
}

// The identification of the demo device, 1ABCD00F, which Test-Logic-Reset selects, and the zeros that were shifted in behind it.
#[test]
fn an_identification_is_shifted_out(rt: HostRuntime) -> Result<(), Fail> {
    let board = demo_board(rt.alloc())?;
    let mut chain = Chain::empty();
    assert!(rt; chain.assemble(rt.alloc(), &[board], &[]).is_ok());
    assert!(rt; chain.cycles(4, 0b0010, 0).is_ok());
    let mut read = Bits::with_room(rt.alloc(), 70)?;
    assert!(rt; shift_out(&mut chain, &mut read, 70).is_ok());
    assert_eq!(rt; read.len(), 70);
    assert_eq!(rt; read.word(0, 64), 0x1abc_d00f);
    assert_eq!(rt; read.word(64, 6), 0);
    Ok(())
}

// The register USER of the demo device, which 1000 selects, keeps what is shifted in.
#[test]
fn a_register_keeps_what_is_shifted_in(rt: HostRuntime) -> Result<(), Fail> {
    let board = demo_board(rt.alloc())?;
    let mut chain = Chain::empty();
    assert!(rt; chain.assemble(rt.alloc(), &[board], &[]).is_ok());
    assert!(rt; chain.cycles(5, 0b00110, 0).is_ok());
    let mut code = bits(rt.alloc(), 4, 0b1000)?;
    assert!(rt; shift_in(&mut chain, &mut code, 4).is_ok());
    assert!(rt; chain.cycles(4, 0b0011, 0).is_ok());
    let mut user = bits(rt.alloc(), 8, 0xa5)?;
    assert!(rt; shift_in(&mut chain, &mut user, 8).is_ok());
    assert!(rt; chain.cycles(4, 0b0011, 0).is_ok());
    let mut read = Bits::with_room(rt.alloc(), 8)?;
    assert!(rt; shift_out(&mut chain, &mut read, 8).is_ok());
    assert_eq!(rt; read.len(), 8);
    assert_eq!(rt; read.word(0, 8), 0xa5);
    Ok(())
}
