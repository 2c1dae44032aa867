// What `check` tells of setups over a shelf with the demo part: the text of those that are right, and what is wrong with the others.
use crate::setup_files::{BOTH, DEMO, DEMOS, ONE, TWO, demo, shelf};
use chain_model::Chain;
use ports::{MemShelf, MemSink, MemSource};
use share_top::{RanLocal, local_command};
use std::alloc::{AllocError, Global};
use std::test::Fail;

// The status and the output of `check`.
fn check(alloc: Global, name: &str, files: &mut MemShelf) -> Result<(u8, MemSink), AllocError> {
    let mut words = Vec::new(alloc);
    words.push(String::from_str(alloc, "check")?)?;
    words.push(String::from_str(alloc, name)?)?;
    let mut input = MemSource::new(Vec::new(alloc), Vec::new(alloc), Vec::new(alloc));
    let sink = MemSink::new(alloc, 500, 3, Vec::new(alloc))?;
    let RanLocal {
        status,
        bench: _,
        out,
    } = local_command(alloc, &words, Chain::empty(), files, &mut input, sink);
    Ok((status, out))
}

#[test]
fn a_setup_is_told(rt: HostRuntime) -> Result<(), Fail> {
    for (head, tail, text) in [
        (
            TWO,
            DEMOS,
            b"device 1 DEMO ir 4 capture 1 reset 2 idcode 1abcd00f boundary 4 longest 32\n\
device 2 DEMO ir 4 capture 1 reset 2 idcode 1abcd00f boundary 4 longest 32\n\
grant 1 xvc 2542 devices 1 ir 4 longest 32\n\
grant 2 xvc 2543 devices 2 ir 4 longest 32\n\
ok\n"
                .as_slice(),
        ),
        (
            ONE,
            "[[device]]\nbsdl = \"any.bsd\"\n",
            b"device 1 DEMO ir 4 capture 1 reset 2 idcode 0abcd00f boundary 4 longest 32\n\
grant 1 xvc 2542 devices 1 ir 4 longest 32\n\
ok\n",
        ),
    ] {
        let mut files = shelf(rt.alloc(), head, tail, &[])?;
        let (status, out) = check(rt.alloc(), "a.toml", &mut files)?;
        assert_eq!(rt; status, 0);
        assert_eq!(rt; out.written(), text);
    }
    Ok(())
}

#[test]
fn a_refusal_is_told(rt: HostRuntime) -> Result<(), Fail> {
    for (head, tail, line) in [
        ("version = = 1\n", "", b"setup 2 top\n".as_slice()),
        (
            "version = 3\n",
            "device = []\ngrant = []\n",
            b"setup 6 top\n",
        ),
        (
            ONE,
            "[[device]]\nbsdl = \"demo.bsd\"\nclock = 1\n",
            b"setup 3 device 1\n",
        ),
        (
            "version = 1\n[[grant]]\ndevices = []\nport = 2542\nprotocol = \"xvc\"\n",
            DEMO,
            b"layout 1 1 0\n",
        ),
        (
            "version = 1\n[[grant]]\ndevices = [1]\nport = 2542\nprotocol = \"xvc\"\n\
[[grant]]\ndevices = [2]\nport = 2542\nprotocol = \"xvc\"\n",
            DEMOS,
            b"layout 4 2 2542\n",
        ),
        (
            "version = 1\n[[grant]]\ndevices = [1]\nport = 2542\nprotocol = \"xvc\"\n\
[[grant]]\ndevices = [2, 1]\nport = 2543\nprotocol = \"xvc\"\n",
            DEMOS,
            b"layout 2 2 1\n",
        ),
        (
            TWO,
            "[[device]]\nbsdl = \"demo.bsd\"\n[[device]]\nbsdl = \"demo.bsd\"\n[[net]]\nfrom = [1, 0]\nto = [2, 0]\n",
            b"layout 6 0 1\n",
        ),
        (
            BOTH,
            "[[device]]\nbsdl = \"demo.bsd\"\n[[device]]\nbsdl = \"demo.bsd\"\n[[net]]\nfrom = [1, 4]\nto = [2, 0]\n",
            b"cell 1\n",
        ),
        (
            ONE,
            "[[device]]\nbsdl = \"demo.bsd\"\npins = \"101\"\n",
            b"pins 1\n",
        ),
        (ONE, "[[device]]\nbsdl = \"bad.bsd\"\n", b"bsdl 1 13 108\n"),
    ] {
        let mut files = shelf(rt.alloc(), head, tail, &[])?;
        let (status, out) = check(rt.alloc(), "a.toml", &mut files)?;
        assert_eq!(rt; status, 3, "{tail}");
        assert_eq!(rt; out.written(), line, "{tail}");
    }
    Ok(())
}

#[test]
fn a_load_without_bytes_is_told(rt: HostRuntime) -> Result<(), Fail> {
    for (name, tail, fails, known, line) in [
        ("b.toml", DEMO, [0], 12, b"absent setup\n".as_slice()),
        (
            "a.toml",
            "[[device]]\nbsdl = \"b.bsd\"\n",
            [0],
            12,
            b"absent device 1\n",
        ),
        ("a.toml", DEMO, [1], 4, b"read fault\n"),
        ("a.toml", DEMO, [2], 4, b"read fault\n"),
    ] {
        let mut files = shelf(rt.alloc(), ONE, tail, &fails)?;
        let (status, out) = check(rt.alloc(), name, &mut files)?;
        assert_eq!(rt; status, known);
        assert_eq!(rt; out.written(), line);
    }
    Ok(())
}

// A byte of a comment more makes the file too long.
#[test]
fn a_setup_has_at_most_a_mebibyte(rt: HostRuntime) -> Result<(), Fail> {
    let alloc = rt.alloc();
    for (length, known) in [(1_048_576, 0), (1_048_577, 3)] {
        let mut text = String::from_str(alloc, ONE)?;
        text.push_str(DEMO)?;
        let mut bytes = text.as_bytes().to_vec(alloc)?;
        bytes.resize(length, b'#')?;
        let mut files = Vec::new(alloc);
        files.push((String::from_str(alloc, "a.toml")?, bytes))?;
        files.push((String::from_str(alloc, "demo.bsd")?, demo(alloc, "0001")?))?;
        let mut shelf = MemShelf::new(alloc, files, Vec::new(alloc));
        let (status, out) = check(alloc, "a.toml", &mut shelf)?;
        assert_eq!(rt; status, known);
        assert!(rt; status == 0 || out.written() == b"setup 1 top\n".as_slice());
    }
    Ok(())
}
