// Worked rows on chains of demo devices, and on a tape.
use crate::{AssembleFault, Bench, Cable, Chain, FailBench, Net, TapeBench, demo_board};
use scan_bits::Bits;
use std::test::Fail;

// How often registers of a device were captured and updated.
fn counts(chain: &Chain, device: usize) -> Option<(u64, u64)> {
    let device = chain.chain.device(device)?;
    Some((device.captures(), device.updates()))
}

// Both identifications, 1ABCD00F twice, which Test-Logic-Reset selects, and TDO 1 in the five cycles before them.
#[test]
fn two_identifications_are_read(rt: HostRuntime) -> Result<(), Fail> {
    let first = demo_board(rt.alloc())?;
    let second = demo_board(rt.alloc())?;
    let mut chain = Chain::empty();
    assert!(rt; chain.assemble(rt.alloc(), &[first, second], &[]).is_ok());
    assert_eq!(rt;
        chain.cycles(64, 0x2, 0).unwrap_or(0),
        0xabcd_00f1_abcd_00ff
    );
    assert_eq!(rt; chain.cycles(6, 0x18, 0).unwrap_or(0), 0x31);
    for device in [0, 1] {
        let (captures, updates) = counts(&chain, device).unwrap_or((0, 0));
        assert_eq!(rt; captures, 1);
        assert_eq!(rt; updates, 1);
    }
    Ok(())
}

#[test]
fn a_tape_runs_out(rt: HostRuntime) -> Result<(), Fail> {
    let mut answers = Bits::with_room(rt.alloc(), 3)?;
    answers.push_word(3, 0b101);
    let mut tape = TapeBench::new(answers, Vec::new(rt.alloc()));
    assert_eq!(rt; tape.cycles(2, 0, 0).unwrap_or(0), 1);
    assert!(rt; tape.cycles(2, 0, 0).is_err());
    assert_eq!(rt; tape.faults(), 1);
    Ok(())
}

// Each message loads EXTEST or SAMPLE into both devices, and scans both boundary registers. Under EXTEST the second capture of device 2
// has at cell 3 what the first update gave cell 0 of device 1; under SAMPLE nothing is driven.
#[test]
fn a_net_drives_under_extest_only(rt: HostRuntime) -> Result<(), Fail> {
    let net = Net {
        from_device: 1,
        from_cell: 0,
        to_device: 2,
        to_cell: 3,
    };
    let first = demo_board(rt.alloc())?;
    let second = demo_board(rt.alloc())?;
    let mut chain = Chain::empty();
    assert!(rt; chain.assemble(rt.alloc(), &[first, second], &[net]).is_ok());
    let tms = 0x0300_7006;
    assert_eq!(rt;
        chain.cycles(27, tms, 0x0020_0000).unwrap_or(0),
        0x0601_e23f
    );
    assert_eq!(rt;
        chain.cycles(27, tms, 0x0020_0000).unwrap_or(0),
        0x0611_e23f
    );
    assert_eq!(rt;
        chain.cycles(27, tms, 0x0000_0220).unwrap_or(0),
        0x0601_e23f
    );
    Ok(())
}

#[test]
fn without_a_net_nothing_is_driven(rt: HostRuntime) -> Result<(), Fail> {
    let first = demo_board(rt.alloc())?;
    let second = demo_board(rt.alloc())?;
    let mut chain = Chain::empty();
    assert!(rt; chain.assemble(rt.alloc(), &[first, second], &[]).is_ok());
    let tms = 0x0300_7006;
    assert_eq!(rt;
        chain.cycles(27, tms, 0x0020_0000).unwrap_or(0),
        0x0601_e23f
    );
    assert_eq!(rt;
        chain.cycles(27, tms, 0x0020_0000).unwrap_or(0),
        0x0601_e23f
    );
    assert_eq!(rt;
        chain.cycles(27, tms, 0x0000_0220).unwrap_or(0),
        0x0601_e23f
    );
    Ok(())
}

// The first bits of the latch of USER, the lowest first.
fn user_latch(chain: &Chain) -> u64 {
    let mut word = 0;
    for at in 0..8u32 {
        if let Some(device) = chain.chain.device(0) {
            word |= u64::from(device.latch(4, at as usize)) << at;
        }
    }
    word
}

// USER1 is loaded and A5 is scanned into USER; the next scan is open, four bits into it, when the reset comes. The latch and the counts
// stay, and the identification is selected again.
#[test]
fn reset_abandons_an_open_scan(rt: HostRuntime) -> Result<(), Fail> {
    let board = demo_board(rt.alloc())?;
    let mut chain = Chain::empty();
    assert!(rt; chain.assemble(rt.alloc(), &[board], &[]).is_ok());
    assert!(rt; chain.cycles(29, 0x0070_0706, 0x1e14_a100).is_ok());
    assert_eq!(rt; user_latch(&chain), 0xa5);
    assert!(rt; chain.reset().is_ok());
    assert!(rt; chain.tdo());
    assert_eq!(rt; user_latch(&chain), 0xa5);
    let (captures, updates) = counts(&chain, 0).unwrap_or((0, 0));
    assert_eq!(rt; captures, 2);
    assert_eq!(rt; updates, 1);
    assert_eq!(rt; chain.cycles(36, 0x2, 0).unwrap_or(0), 0x1_abcd_00ff);
    Ok(())
}

// The second call is listed, and it is a reset: both kinds of calls count together.
#[test]
fn a_failed_bench_stays_failed(rt: HostRuntime) -> Result<(), Fail> {
    let board = demo_board(rt.alloc())?;
    let other = demo_board(rt.alloc())?;
    let mut chain = Chain::empty();
    assert!(rt; chain.assemble(rt.alloc(), &[board], &[]).is_ok());
    let fails = vec![in rt.alloc(); 2; 1]?;
    let mut bench = FailBench::new(chain, fails);
    assert_eq!(rt; bench.cycles(5, 0x2, 0).unwrap_or(0), 0x1f);
    assert!(rt; bench.shows());
    assert!(rt; bench.reset().is_err());
    assert!(rt; !bench.shows());
    assert!(rt; bench.cycles(1, 0, 0).is_err());
    assert!(rt; bench.reset().is_err());
    assert_eq!(rt; bench.faults(), 3);
    let again = bench.assemble(rt.alloc(), &[other], &[]);
    assert!(rt; again == Err(AssembleFault::Cable));
    let chain = bench.into_inner();
    assert_eq!(rt; counts(&chain, 0).unwrap_or((9, 9)), (1, 0));
    Ok(())
}
