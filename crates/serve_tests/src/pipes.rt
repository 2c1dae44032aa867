// Worked rows of `pipe`, and each call that fails.
ghost use Rattle.std.specs.Prelude.{◌≡◌};
ghost use Rattle.base_types.specs.Tellings.{Told};
ghost use Rattle.chain_model.specs.Cables.{empty_chain};

use crate::setup_files::{BOTH, DEMO, DEMOS, ONE, shelf};
use chain_model::{Bench, Chain, TapeBench};
use ports::{MemSink, MemSource};
use scan_bits::Bits;
use share_top::{RanLocal, local_command};
use std::alloc::{AllocError, Global};
use std::test::Fail;

// Reads 32 bits of the data register, and goes back to Run-Test/Idle: the identification 1ABCD00F, which Test-Logic-Reset
// selects, stands in cycles 4 to 35, and TDO is 1 in all others.
const READ_IDCODE: [u8; 20] = [
    0x73, 0x68, 0x69, 0x66, 0x74, 0x3a, 0x26, 0, 0, 0, 2, 0, 0, 0, 0x18, 0, 0, 0, 0, 0,
];

const IDCODE_REPLY: [u8; 5] = [0xff, 0, 0xcd, 0xab, 0x31];

// Loads USER1, and scans 0 into USER.
const CLEAR_USER: [u8; 16] = [
    0x73, 0x68, 0x69, 0x66, 0x74, 0x3a, 0x17, 0, 0, 0, 6, 7, 0x30, 0, 1, 0,
];

const SMALL: &str =
    "version = 1\nvector = 1\n[[grant]]\ndevices = [1]\nport = 2542\nprotocol = \"xvc\"\n";

const LETTERS: &str =
    "version = 1\n[[grant]]\ndevices = [1]\nport = 3335\nprotocol = \"bitbang\"\n";

const LETTERS_2: &str =
    "version = 2\n[[grant]]\ndevices = [1]\nport = 3335\nprotocol = \"bitbang\"\n";

const PINS: &str = "[[device]]\nbsdl = \"demo.bsd\"\npins = \"1010\"\n";

// What a command is run with, beside its bench and its input: the setup in two pieces, the grant, the sizes of the pieces in which the input
// comes, and the reads and the writes that fail.
#[derive(Clone, Copy)]
struct Setting<'a> {
    head: &'a str,
    tail: &'a str,
    grant: &'a str,
    pieces: &'a [usize],
    failing_reads: &'a [u64],
    failing_writes: &'a [u64],
}

// The first grant of a setup, with an input in one piece.
fn first_grant<'a>(head: &'a str, tail: &'a str) -> Setting<'a> {
    Setting {
        head,
        tail,
        grant: "1",
        pieces: &[],
        failing_reads: &[],
        failing_writes: &[],
    }
}

// The status and the output of `pipe` on a bench.
fn pipe<B: Bench + Drop>(
    alloc: Global,
    setting: Setting<'_>,
    bench: B,
    input: &[u8],
) -> Result<(u8, MemSink), AllocError>
    requires empty { Told (B.chain bench) (λ chain. chain ≡ empty_chain) }
{
    let mut words = Vec::new(alloc);
    words.push(String::from_str(alloc, "pipe")?)?;
    words.push(String::from_str(alloc, "a.toml")?)?;
    words.push(String::from_str(alloc, setting.grant)?)?;
    let mut files = shelf(alloc, setting.head, setting.tail, &[])?;
    let mut source = MemSource::new(
        input.to_vec(alloc)?,
        setting.pieces.to_vec(alloc)?,
        setting.failing_reads.to_vec(alloc)?,
    );
    let sink = MemSink::new(alloc, 100, 3, setting.failing_writes.to_vec(alloc)?)?;
    let RanLocal {
        status,
        bench: _,
        out,
    } = local_command(alloc, &words, bench, &mut files, &mut source, sink);
    Ok((status, out))
}

#[test]
fn a_session_is_replied_to_its_end(rt: HostRuntime) -> Result<(), Fail> {
    for (head, tail, input, replies) in [
        (ONE, DEMO, b"".as_slice(), b"".as_slice()),
        (ONE, DEMO, b"getinfo:", b"xvcServer_v1.0:2048\n"),
        (ONE, DEMO, b"shift:\0\0\0\0settck:\x64\0\0\0", b"\x64\0\0\0"),
        (SMALL, DEMO, b"shift:\x08\0\0\0\0\0", b"\xff"),
        (LETTERS, DEMO, b"R4062624040R4R0R", b"1110"),
        (LETTERS, DEMO, b"4062404040404040RQ40R", b"0"),
        (LETTERS_2, DEMO, b"4062404040404040RtRrQ", b"01"),
        (
            ONE,
            PINS,
            b"shift:\x13\0\0\0\x06\x07\x03\x20\xa0\0shift:\x13\0\0\0\x06\x07\x03\x20\xa0\0",
            b"\x3f\x5e\x07\x3f\x5e\x07",
        ),
        (
            BOTH,
            DEMOS,
            b"shift:\x46\0\0\0\x02\0\0\0\0\0\0\0\x18\0\0\0\0\0\0\0\0\0",
            b"\xff\0\xcd\xab\xf1\0\xcd\xab\x31",
        ),
    ] {
        let (status, out) = pipe(rt.alloc(), first_grant(head, tail), Chain::empty(), input)?;
        assert_eq!(rt; status, 0);
        assert_eq!(rt; out.written(), replies);
    }
    Ok(())
}

#[test]
fn any_cut_is_replied_the_same(rt: HostRuntime) -> Result<(), Fail> {
    for pieces in [[20].as_slice(), &[1, 0, 7], &[8, 12], &[19], &[1; 20]] {
        let setting = Setting {
            pieces,
            ..first_grant(ONE, DEMO)
        };
        let (status, out) = pipe(rt.alloc(), setting, Chain::empty(), &READ_IDCODE)?;
        assert_eq!(rt; status, 0);
        assert_eq!(rt; out.written(), IDCODE_REPLY.as_slice());
    }
    Ok(())
}

#[test]
fn a_refusal_has_its_place(rt: HostRuntime) -> Result<(), Fail> {
    for (head, input, output) in [
        (ONE, b"shoft:".as_slice(), b"refused 2 1\n".as_slice()),
        (SMALL, b"shift:\x09\0\0\0\0\0\0\0", b"refused 6 2\n"),
        (ONE, &READ_IDCODE[..19], b"refused 19 4\n"),
        (LETTERS, b"4062R40x", b"1refused 7 3\n"),
        (
            ONE,
            b"settck:\x64\0\0\0shift:\x26",
            b"\x64\0\0\0refused 18 4\n",
        ),
    ] {
        let (status, out) = pipe(rt.alloc(), first_grant(head, DEMO), Chain::empty(), input)?;
        assert_eq!(rt; status, 1);
        assert_eq!(rt; out.written(), output);
    }
    Ok(())
}

#[test]
fn what_is_not_there_is_told(rt: HostRuntime) -> Result<(), Fail> {
    for (head, tail, grant, status, line) in [
        (LETTERS_2, DEMO, "1", 3, b"trst\n".as_slice()),
        (ONE, DEMO, "2", 3, b"grant 2\n"),
        (ONE, DEMO, "01", 2, b"words\n"),
        (
            ONE,
            "[[device]]\nbsdl = \"b.bsd\"\n",
            "1",
            12,
            b"absent device 1\n",
        ),
    ] {
        let setting = Setting {
            grant,
            ..first_grant(head, tail)
        };
        let (answered, out) = pipe(rt.alloc(), setting, Chain::without_trst(), &READ_IDCODE)?;
        assert_eq!(rt; answered, status);
        assert_eq!(rt; out.written(), line);
    }
    Ok(())
}

#[test]
fn a_read_or_a_write_that_fails(rt: HostRuntime) -> Result<(), Fail> {
    for (failing_reads, failing_writes, status, output) in [
        ([2].as_slice(), [].as_slice(), 4, b"read fault\n".as_slice()),
        (&[3], &[], 4, b"\xff\0\xcd\xab\x31read fault\n"),
        (&[], &[1], 5, b""),
        (&[], &[2], 5, b"\xff\0\xcd"),
    ] {
        let setting = Setting {
            failing_reads,
            failing_writes,
            ..first_grant(ONE, DEMO)
        };
        let (answered, out) = pipe(rt.alloc(), setting, Chain::empty(), &READ_IDCODE)?;
        assert_eq!(rt; answered, status);
        assert_eq!(rt; out.written(), output);
    }
    Ok(())
}

// A bench that answers from a tape: the capture reads A5 in USER.
#[test]
fn replies_come_from_the_cable(rt: HostRuntime) -> Result<(), Fail> {
    for (fails, status, output) in [
        ([].as_slice(), 0, b"\x3f\xbe\x74".as_slice()),
        (&[1], 7, b"cable fault\n"),
        (&[3], 7, b"cable fault\n"),
    ] {
        let mut answers = Bits::zeros(rt.alloc(), 39)?;
        answers.set(18, true);
        answers.set(20, true);
        answers.set(23, true);
        answers.set(25, true);
        let bench = TapeBench::new(answers, fails.to_vec(rt.alloc())?);
        let (answered, out) = pipe(rt.alloc(), first_grant(ONE, DEMO), bench, &CLEAR_USER)?;
        assert_eq!(rt; answered, status);
        assert_eq!(rt; out.written(), output);
    }
    Ok(())
}
