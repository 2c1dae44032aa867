// Setup files that are read, and each cause of refusal at each of its places.
use super::*;
use std::alloc::{AllocError, Global};
use std::test::Fail;

// A text of three pieces.
fn text_of(alloc: Global, before: &str, entry: &str, behind: &str) -> Result<String, AllocError> {
    let mut text = String::from_str(alloc, before)?;
    text.push_str(entry)?;
    text.push_str(behind)?;
    Ok(text)
}

fn cause_of(alloc: Global, bytes: &[u8]) -> Option<DocumentRefusal> {
    read_document(alloc, bytes).err()
}

#[test]
fn a_file_says_its_devices_grants_and_nets(rt: HostRuntime) -> Result<(), Fail> {
    let text =
        "version = 2\nvector = 1\n[[device]]\nbsdl = \"a.bsd\"\n[[device]]\nbsdl = \"b.bsd\"\npins = \"1010\"\n\
        [[grant]]\ndevices = [2, 1]\nport = 2542\nprotocol = \"xvc\"\n[[grant]]\ndevices = []\nport = 0\nprotocol = \"bitbang\"\n\
        [[net]]\nfrom = [1, 0]\nto = [2, 3]\n";
    let Ok(plan) = read_document(rt.alloc(), text.as_bytes()) else {
        return Err(Fail::from("refused"));
    };
    assert_eq!(rt; (plan.version, plan.vector), (2, 1));
    assert_eq!(rt;
        (plan.devices.len(), plan.grants.len(), plan.nets.len()),
        (2, 2, 1)
    );
    for device in plan.devices.as_slice() {
        assert_eq!(rt; device.bsdl.len(), 5);
        assert!(rt;
            device
                .pins
                .as_ref()
                .is_none_or(|pins| pins.as_str() == "1010")
        );
    }
    for grant in plan.grants.as_slice() {
        assert!(rt; grant.devices.is_empty() || grant.devices.as_slice() == [2, 1].as_slice());
        assert_eq!(rt; grant.port, if grant.devices.is_empty() { 0 } else { 2542 });
    }
    for net in plan.nets.as_slice() {
        assert_eq!(rt;
            (net.from_device, net.from_cell, net.to_device, net.to_cell),
            (1, 0, 2, 3)
        );
    }
    Ok(())
}

#[test]
fn a_file_has_at_most_1048576_bytes(rt: HostRuntime) -> Result<(), Fail> {
    let alloc = rt.alloc();
    let mut bytes = b"version = 1\ndevice = []\ngrant = []\n".to_vec(alloc)?;
    bytes.resize(1048576, b'\n')?;
    assert_eq!(rt;
        read_document(alloc, &bytes).map(|plan| plan.vector),
        Ok(2048)
    );
    bytes.push(b'\n')?;
    assert_eq!(rt;
        cause_of(alloc, &bytes),
        Some(DocumentRefusal::Refused {
            cause: 1,
            place: Place::Top
        })
    );
    Ok(())
}

#[test]
fn the_top_is_refused(rt: HostRuntime) -> Result<(), Fail> {
    let alloc = rt.alloc();
    for (bytes, cause) in [
        (b"version = 1 # \xff".as_slice(), 2),
        (b"version", 2),
        (b"version = 9223372036854775808", 2),
        (b"version = 1\nversion = 1", 2),
        (b"version = 3\nclock = 1", 3),
        (b"", 4),
        (b"version = \"1\"", 5),
        (b"version = 3", 6),
        (b"version = 0\nvector = 0", 6),
        (b"version = 1\nvector = [1]\ndevice = 1", 5),
        (b"version = 1\nvector = 0", 6),
        (b"version = 1\nvector = 65537", 6),
        (b"version = 1\nvector = 65536", 4),
        (b"version = 1\ndevice = 1", 5),
        (b"version = 1\ndevice = [1]", 4),
        (b"version = 1\ndevice = [1]\ngrant = {}", 5),
        (b"version = 1\ndevice = [1]\ngrant = [1]\nnet = 1", 5),
    ] {
        let refusal = DocumentRefusal::Refused {
            cause,
            place: Place::Top,
        };
        assert_eq!(rt; cause_of(alloc, bytes), Some(refusal));
    }
    Ok(())
}

#[test]
fn a_device_is_refused(rt: HostRuntime) -> Result<(), Fail> {
    let alloc = rt.alloc();
    for (entry, cause) in [
        ("1", 5),
        ("{ clock = 1, bsdl = 1 }", 3),
        ("{ pins = 1 }", 4),
        ("{ bsdl = 1, pins = 1 }", 5),
        ("{ bsdl = \"\", pins = 1 }", 6),
        ("{ bsdl = \"a\", pins = 1 }", 5),
        ("{ bsdl = \"a\", pins = \"012\" }", 6),
    ] {
        let text = text_of(
            alloc,
            "version = 1\ndevice = [{ bsdl = \"a\" }, ",
            entry,
            "]\ngrant = [1]\n",
        )?;
        let refusal = DocumentRefusal::Refused {
            cause,
            place: Place::Device(2),
        };
        assert_eq!(rt; cause_of(alloc, text.as_bytes()), Some(refusal), "{entry}");
    }
    Ok(())
}

#[test]
fn a_grant_is_refused(rt: HostRuntime) -> Result<(), Fail> {
    let alloc = rt.alloc();
    for (entry, cause) in [
        ("\"\"", 5),
        ("{ clock = 1 }", 3),
        ("{ port = 1 }", 4),
        ("{ devices = 1 }", 5),
        ("{ devices = [70000, \"x\"] }", 5),
        ("{ devices = [1, 65536] }", 6),
        ("{ devices = [-1] }", 6),
        ("{ devices = [] }", 4),
        ("{ devices = [], port = \"1\" }", 5),
        ("{ devices = [], port = 65536 }", 6),
        ("{ devices = [], port = 1 }", 4),
        ("{ devices = [], port = 1, protocol = 1 }", 5),
        ("{ devices = [], port = 1, protocol = \"XVC\" }", 6),
    ] {
        let text = text_of(
            alloc,
            "version = 1\ndevice = []\ngrant = [",
            entry,
            "]\nnet = [1]\n",
        )?;
        let refusal = DocumentRefusal::Refused {
            cause,
            place: Place::Grant(1),
        };
        assert_eq!(rt; cause_of(alloc, text.as_bytes()), Some(refusal), "{entry}");
    }
    Ok(())
}

#[test]
fn a_net_is_refused(rt: HostRuntime) -> Result<(), Fail> {
    let alloc = rt.alloc();
    for (entry, cause) in [
        ("[]", 5),
        ("{ clock = 1 }", 3),
        ("{ to = [1, 0] }", 4),
        ("{ from = 1 }", 5),
        ("{ from = [\"x\"] }", 5),
        ("{ from = [1] }", 6),
        ("{ from = [1, 0, 0] }", 6),
        ("{ from = [1, 65536] }", 6),
        ("{ from = [1, 65535] }", 4),
        ("{ from = [1, 0], to = \"1\" }", 5),
        ("{ from = [1, 0], to = [-1, 0] }", 6),
    ] {
        let text = text_of(
            alloc,
            "version = 1\ndevice = []\ngrant = []\nnet = [",
            entry,
            "]\n",
        )?;
        let refusal = DocumentRefusal::Refused {
            cause,
            place: Place::Net(1),
        };
        assert_eq!(rt; cause_of(alloc, text.as_bytes()), Some(refusal), "{entry}");
    }
    Ok(())
}
