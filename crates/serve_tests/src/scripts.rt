// Scripts that are refused, each for its cause, and scripts that are played.
ghost use Rattle.std.specs.Prelude.{◌≡◌, ◌<◌, length};

use std::alloc::{AllocError, Global};
use std::test::Fail;
use wire_port::{ScriptRefusal, read_script};

fn refusal(alloc: Global, text: &str) -> Option<ScriptRefusal> {
    read_script(alloc, text.as_bytes()).err()
}

#[test]
fn a_text_is_refused_at_its_first_bad_line(rt: HostRuntime) -> Result<(), Fail> {
    let alloc = rt.alloc();
    for (text, line, cause) in [
        ("opens 1 2", 1, 1),
        ("Open 1 2", 1, 1),
        ("open 1", 1, 2),
        ("open 1 2 3", 1, 2),
        ("open 0 2542", 1, 3),
        ("open 65536 2542", 1, 3),
        ("open 01 2542", 1, 3),
        ("open 1 65536", 1, 3),
        ("open 1 +5", 1, 3),
        ("room 1 1000001", 1, 3),
        ("# no line\n\n open 1 0\nsend 1 abc", 4, 4),
        ("open 1 0\nsend 1 0g", 2, 4),
        ("open 1 0\nopen 1 0", 2, 5),
        ("send 1 00", 1, 6),
        ("open 1 0\r\ndrop 1\r\nroom 1 all", 3, 7),
        ("open 1 0\ndrop 1\nopen 1 0", 3, 5),
        ("drop 1\nopen", 1, 6),
        ("open x\nopens", 1, 2),
        ("open x y\nopens", 1, 3),
    ] {
        assert_eq!(rt;
            refusal(alloc, text),
            Some(ScriptRefusal::Refused { line, cause }),
            "{text}"
        );
    }
    Ok(())
}

#[test]
fn a_script_has_at_most_1048576_bytes(rt: HostRuntime) -> Result<(), Fail> {
    let alloc = rt.alloc();
    let mut text = vec![in alloc; b'#'; 1048576]?;
    assert!(rt; read_script(alloc, &text).is_ok());
    text.push(b'#')?;
    assert_eq!(rt;
        read_script(alloc, &text).err(),
        Some(ScriptRefusal::Refused { line: 0, cause: 8 })
    );
    Ok(())
}

#[test]
fn the_lines_of_a_script_are_counted(rt: HostRuntime) -> Result<(), Fail> {
    let text =
        "\topen 1 65535 \r\n  # open 2 1\nopen 65535 0\nsend 1 aAfF\nroom 1 0\nroom 1 1000000\nroom 1 all\ndrop 1";
    let Ok(script) = read_script(rt.alloc(), text.as_bytes()) else {
        return Err(Fail::from("refused"));
    };
    assert_eq!(rt; script.opens(), 2);
    Ok(())
}
