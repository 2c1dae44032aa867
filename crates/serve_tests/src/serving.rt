// Worked rows of `serve`, and a wire that cannot listen.
use crate::setup_files::{DEMO, DEMOS, TWO, shelf};
use chain_model::Chain;
use ports::MemSink;
use share_top::{Ran, serve_command};
use std::alloc::{AllocError, Global};
use std::sync::Wait;
use std::test::Fail;
use wire_port::{ScriptWire, read_script};

const BITS: &str = "version = 1\n[[grant]]\ndevices = [1]\nport = 3335\nprotocol = \"bitbang\"\n";

// The first client writes A5 into USER, captures, reads the lowest three bits, and goes.
const ALONE: &str = "open 1 2542
send 1 73686966743a1700000006073000a114
send 1 73686966743a0d00000006070001
send 1 73686966743a030000000005
drop 1";

// A client that waits for the chain goes; the next one at its port is admitted, and the one behind that is shut.
const DROPPED: &str = "open 1 2542\nopen 2 2543
send 1 73686966743a0d00000006070001
send 2 73686966743a2600000002000000180000000000
drop 2\nopen 3 2543
send 1 73686966743a0a0000008001a500
open 4 2543";

const QUITS: &str = "open 1 3335\nsend 1 51";

const QUITS_LATE: &str = "open 1 3335\nsend 1 3030303030303030303051";

const QUITS_TWICE: &str = "open 1 3335\nsend 1 51\nopen 2 3335\nsend 2 51";

const REFUSED: &str = "open 1 3350\nsend 1 78";

const GONE_TWICE: &str = "open 1 3336\nsend 1 30303030303030\ndrop 1
open 2 3336\nsend 2 30303030303030\ndrop 2";

// Sixteen devices with a grant of remote_bitbang each, whose ports count from 3335.
fn sixteen_grants(alloc: Global) -> Result<String, AllocError> {
    let mut text = String::from_str(alloc, "version = 1\n")?;
    for place in 0..16u16 {
        let entry = format!(in alloc;
            "[[grant]]\ndevices = [{}]\nport = {}\nprotocol = \"bitbang\"\n",
            place + 1,
            place + 3335
        )?;
        text.push_str(&entry)?;
        text.push_str(DEMO)?;
    }
    Ok(text)
}

// The status of `serve` over a script, whose calls of these numbers fail, and the output, for which there is so much room.
fn served<R: Wait>(
    rt: &R,
    alloc: Global,
    files: (&str, &str),
    script: &str,
    fails: &[u64],
    room: usize,
) -> Result<(u8, MemSink), Fail> {
    let mut words = Vec::new(alloc);
    words.push(String::from_str(alloc, "serve")?)?;
    words.push(String::from_str(alloc, "a.toml")?)?;
    let mut files = shelf(alloc, files.0, files.1, &[])?;
    let Ok(script) = read_script(alloc, script.as_bytes()) else {
        return Err(Fail::from("script"));
    };
    let wire = ScriptWire::with_fails(alloc, script, fails.to_vec(alloc)?)?;
    let sink = MemSink::new(alloc, room, 100, Vec::new(alloc))?;
    let Ran {
        status,
        bench: _,
        out,
        wire: _,
    } = serve_command(rt, alloc, &words, Chain::empty(), &mut files, sink, wire);
    Ok((status, out))
}

#[test]
fn each_session_that_ended_is_told(rt: HostRuntime) -> Result<(), Fail> {
    let alloc = rt.alloc();
    for (files, script, output) in [
        (
            (TWO, DEMOS),
            ALONE,
            b"serving\ngrant 1 gone 42\n".as_slice(),
        ),
        ((TWO, DEMOS), DROPPED, b"serving\ngrant 2 gone 20\n"),
        ((BITS, DEMO), QUITS, b"serving\ngrant 1 quit 0\n"),
        ((BITS, DEMO), QUITS_LATE, b"serving\ngrant 1 quit 10\n"),
        (
            (BITS, DEMO),
            QUITS_TWICE,
            b"serving\ngrant 1 quit 0\ngrant 1 quit 0\n",
        ),
    ] {
        let (status, out) = served(&rt, alloc, files, script, &[], 100)?;
        assert_eq!(rt; status, 0);
        assert_eq!(rt; out.written(), output);
    }
    Ok(())
}

#[test]
fn a_wire_that_fails_is_told(rt: HostRuntime) -> Result<(), Fail> {
    let alloc = rt.alloc();
    for (fails, output) in [
        ([1].as_slice(), b"poll fault\n".as_slice()),
        (&[2], b"serving\npoll fault\n"),
    ] {
        let (status, out) = served(&rt, alloc, (TWO, DEMOS), ALONE, fails, 100)?;
        assert_eq!(rt; status, 6);
        assert_eq!(rt; out.written(), output);
    }
    Ok(())
}

#[test]
fn the_sixteenth_grant_is_told(rt: HostRuntime) -> Result<(), Fail> {
    let alloc = rt.alloc();
    let files = sixteen_grants(alloc)?;
    let (status, out) = served(&rt, alloc, (&files, ""), REFUSED, &[], 100)?;
    assert_eq!(rt; status, 0);
    assert_eq!(rt;
        out.written(),
        b"serving\ngrant 16 refused 0 3\n".as_slice()
    );
    Ok(())
}

#[test]
fn lines_stop_where_the_output_fails(rt: HostRuntime) -> Result<(), Fail> {
    let alloc = rt.alloc();
    let files = sixteen_grants(alloc)?;
    let (status, out) = served(&rt, alloc, (&files, ""), GONE_TWICE, &[], 28)?;
    assert_eq!(rt; status, 5);
    assert_eq!(rt; out.written(), b"serving\ngrant 2 gone 7\ngrant".as_slice());
    Ok(())
}
