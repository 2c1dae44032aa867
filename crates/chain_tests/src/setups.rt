// Setups over a shelf with the demo part, and why there is none.
use grant_table::LayoutRefusal;
use ports::{MemShelf, Shelf};
use setup_read::{Place, SetupRefusal, read_setup};
use std::alloc::{AllocError, Global};
use std::test::Fail;

const DEMO: &str = "entity DEMO is
  attribute INSTRUCTION_LENGTH of DEMO : entity is 4;
  attribute INSTRUCTION_OPCODE of DEMO : entity is
    \"EXTEST (0000), SAMPLE (0001), IDCODE (0010), USER1 (1000), BYPASS (1111)\";
  attribute INSTRUCTION_CAPTURE of DEMO : entity is \"0001\";
  attribute IDCODE_REGISTER of DEMO : entity is \"00011010101111001101000000001111\";
  attribute REGISTER_ACCESS of DEMO : entity is \"BOUNDARY (EXTEST, SAMPLE), USER[8] (USER1)\";
  attribute BOUNDARY_LENGTH of DEMO : entity is 4;
end DEMO;
";

const ENDS_IN_00: &str =
    "entity A is attribute INSTRUCTION_LENGTH of A : entity is 2; attribute INSTRUCTION_CAPTURE of A : entity is \"00\"; attribute INSTRUCTION_OPCODE of A : entity is \"BYPASS (11)\"; attribute BOUNDARY_LENGTH of A : entity is 1; end A;";

const ONE: &str = "version = 1\ngrant = [{ devices = [1], port = 2542, protocol = \"xvc\" }]\n";

const TWO: &str =
    "version = 1\ngrant = [{ devices = [1], port = 2542, protocol = \"xvc\" }, { devices = [2], port = 2543, protocol = \"xvc\" }]\n\
    device = [{ bsdl = \"demo.bsd\" }, { bsdl = \"demo.bsd\" }]\n";

const BOTH: &str = "version = 1\ngrant = [{ devices = [1, 2], port = 2542, protocol = \"xvc\" }]\n\
    device = [{ bsdl = \"demo.bsd\" }, { bsdl = \"demo.bsd\" }]\n";

const DEVICES: &str = "version = 1\ndevice = [{ bsdl = \"demo.bsd\" }, { bsdl = \"demo.bsd\" }]\n";

fn shelf(alloc: Global, fails: &[u64]) -> Result<MemShelf, AllocError> {
    let mut files = Vec::new(alloc);
    for (name, text) in [("demo.bsd", DEMO), ("bad.bsd", ENDS_IN_00)] {
        files.push((
            String::from_str(alloc, name)?,
            text.as_bytes().to_vec(alloc)?,
        ))?;
    }
    Ok(MemShelf::new(alloc, files, fails.to_vec(alloc)?))
}

fn text_of(alloc: Global, before: &str, behind: &str) -> Result<String, AllocError> {
    let mut text = String::from_str(alloc, before)?;
    text.push_str(behind)?;
    Ok(text)
}

#[test]
fn two_devices_make_a_setup(rt: HostRuntime) -> Result<(), Fail> {
    let alloc = rt.alloc();
    let text = text_of(
        alloc,
        ONE,
        "device = [{ bsdl = \"demo.bsd\", pins = \"1010\" }]\n",
    )?;
    let mut files = shelf(alloc, &[])?;
    let Ok(setup) = read_setup(alloc, text.as_bytes(), &mut files) else {
        return Err(Fail::from("refused"));
    };
    assert_eq!(rt; (setup.version, setup.vector), (1, 2048));
    for name in setup.names.as_slice() {
        assert_eq!(rt; name.as_str(), "DEMO");
    }
    for board in setup.boards.as_slice() {
        assert_eq!(rt; board.part.ir_len(), 4);
        assert_eq!(rt; board.pins.len(), 4);
        for (at, pin) in [false, true, false, true].iter().enumerate() {
            assert!(rt; at < board.pins.len());
            assert_eq!(rt; board.pins.get(at), *pin);
        }
    }
    assert_eq!(rt; setup.layout.grant_of(2542), Some(0));
    Ok(())
}

#[test]
fn the_first_refusal_is_answered(rt: HostRuntime) -> Result<(), Fail> {
    let alloc = rt.alloc();
    let fault = |cause, grant, value| SetupRefusal::Layout(LayoutRefusal {
        cause,
        grant,
        value,
    });
    for (before, behind, refusal) in [
        (
            "version = 3\n",
            ONE,
            SetupRefusal::Plain {
                cause: 2,
                place: Place::Top,
            },
        ),
        (
            "version = 3\n",
            "device = []",
            SetupRefusal::Plain {
                cause: 6,
                place: Place::Top,
            },
        ),
        (
            DEVICES,
            "grant = [{ devices = [], port = 2542, protocol = \"xvc\" }]",
            fault(1, 1, 0),
        ),
        (
            DEVICES,
            "grant = [{ devices = [1], port = 2542, protocol = \"xvc\" }, { devices = [2], port = 2542, protocol = \"xvc\" }]",
            fault(4, 2, 2542),
        ),
        (
            ONE,
            "device = [{ bsdl = \"demo.bsd\", clock = 1 }]",
            SetupRefusal::Plain {
                cause: 3,
                place: Place::Device(1),
            },
        ),
        (ONE, "device = []", fault(5, 0, 0)),
        (
            ONE,
            "device = [{ bsdl = \"demo.bsd\", pins = \"101\" }]",
            SetupRefusal::Pins { device: 1 },
        ),
        (
            ONE,
            "device = [{ bsdl = \"bad.bsd\", pins = \"101\" }]",
            SetupRefusal::Bsdl {
                device: 1,
                at: 108,
                cause: 13,
            },
        ),
        (
            ONE,
            "device = [{ bsdl = \"demo.bsd\" }, { bsdl = \"none.bsd\" }]",
            SetupRefusal::Absent { device: 2 },
        ),
        (
            TWO,
            "net = [{ from = [1, 0], to = [2, 0] }]",
            fault(6, 0, 1),
        ),
        (
            BOTH,
            "net = [{ from = [1, 0], to = [2, 3] }, { from = [1, 1], to = [2, 3] }]",
            fault(7, 0, 2),
        ),
        (
            BOTH,
            "net = [{ from = [1, 0], to = [2, 3] }, { from = [1, 0], to = [2, 4] }]",
            SetupRefusal::Cell { net: 2 },
        ),
        (
            BOTH,
            "net = [{ from = [1, 4], to = [2, 3] }]",
            SetupRefusal::Cell { net: 1 },
        ),
    ] {
        let text = text_of(alloc, before, behind)?;
        let mut files = shelf(alloc, &[])?;
        assert_eq!(rt;
            read_setup(alloc, text.as_bytes(), &mut files).err(),
            Some(refusal),
            "{behind}"
        );
        assert_eq!(rt; files.faults(), 0);
    }
    Ok(())
}

#[test]
fn a_load_that_fails_is_a_fault(rt: HostRuntime) -> Result<(), Fail> {
    let alloc = rt.alloc();
    let mut files = shelf(alloc, &[2])?;
    assert_eq!(rt;
        read_setup(alloc, TWO.as_bytes(), &mut files).err(),
        Some(SetupRefusal::Fault)
    );
    assert_eq!(rt; files.faults(), 1);
    Ok(())
}

#[test]
fn a_setup_has_at_most_32_devices_and_16_grants(rt: HostRuntime) -> Result<(), Fail> {
    let alloc = rt.alloc();
    let mut text = String::from_str(alloc, "version = 1\n")?;
    for grant in 1..17u32 {
        let entry = format!(in alloc;
            "[[grant]]\ndevices = [{grant}, {}]\nport = {grant}\nprotocol = \"bitbang\"\n",
            grant + 16
        )?;
        text.push_str(&entry)?;
    }
    for _ in 0..32u32 {
        text.push_str("[[device]]\nbsdl = \"demo.bsd\"\n")?;
    }
    let mut files = shelf(alloc, &[])?;
    assert!(rt; read_setup(alloc, text.as_bytes(), &mut files).is_ok());
    text.push_str("[[device]]\nbsdl = \"demo.bsd\"\n")?;
    let many = LayoutRefusal {
        cause: 5,
        grant: 0,
        value: 33,
    };
    assert_eq!(rt;
        read_setup(alloc, text.as_bytes(), &mut files).err(),
        Some(SetupRefusal::Layout(many))
    );
    let mut text = text_of(alloc, BOTH, "net = [")?;
    for _ in 0..4097u32 {
        text.push_str("{ from = [1, 0], to = [2, 3] }, ")?;
    }
    text.push_str("]\n")?;
    let many = LayoutRefusal {
        cause: 8,
        grant: 0,
        value: 4097,
    };
    assert_eq!(rt;
        read_setup(alloc, text.as_bytes(), &mut files).err(),
        Some(SetupRefusal::Layout(many))
    );
    Ok(())
}
