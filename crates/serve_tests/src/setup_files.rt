// Setups and BSDL files for tests.
use ports::MemShelf;
use std::alloc::{AllocError, Global};

/// The demo part before the version of its identification code, and behind it.
pub const DEMO_HEAD: &str = "-- demo part (any byte may stand in a comment)
entity DEMO is
  generic (PHYSICAL_PIN_MAP : string := \"DIP\");
  port (TDI, TMS, TCK : in bit; TDO : out bit;
        D : inout bit_vector(0 to 3); VCC : linkage bit);
  use STD_1149_1_1994.all;
  attribute COMPONENT_CONFORMANCE of DEMO : entity is \"STD_1149_1_1993\";
  attribute PIN_MAP of DEMO : entity is PHYSICAL_PIN_MAP;
  constant DIP : PIN_MAP_STRING := \"TDI:1, TMS:2, TCK:3, \" & \"TDO:4\";
  attribute TAP_SCAN_CLOCK of TCK : signal is (20.0e6, BOTH);
  attribute INSTRUCTION_LENGTH of DEMO : entity is 4;
  attribute INSTRUCTION_OPCODE of DEMO : entity is
    \"EXTEST (0000),\" &
    \"SAMPLE (0001),\" &
    \"IDCODE (0010),\" &      -- after reset
    \"USER1  (1000),\" &
    \"BYPASS (1111)\";
  attribute INSTRUCTION_CAPTURE of DEMO : entity is \"0001\";
  attribute IDCODE_REGISTER of DEMO : entity is
    \"";

pub const DEMO_TAIL: &str = "\" &                -- version
    \"1010101111001101\" &    -- part number
    \"00000000111\" &         -- manufacturer
    \"1\";
  attribute REGISTER_ACCESS of DEMO : entity is
    \"BOUNDARY (EXTEST, SAMPLE), USER[8] (USER1)\";
  attribute BOUNDARY_LENGTH of DEMO : entity is 4;
end DEMO;
";

pub const CAPTURES_00: &str =
    "entity A is attribute INSTRUCTION_LENGTH of A : entity is 2; attribute INSTRUCTION_CAPTURE of A : entity is \"00\"; attribute INSTRUCTION_OPCODE of A : entity is \"BYPASS (11)\"; attribute BOUNDARY_LENGTH of A : entity is 1; end A;";

/// A grant of device 1, and two grants of a device each.
pub const ONE: &str = "version = 1\n[[grant]]\ndevices = [1]\nport = 2542\nprotocol = \"xvc\"\n";

pub const TWO: &str = "version = 1\n[[grant]]\ndevices = [1]\nport = 2542\nprotocol = \"xvc\"\n\
[[grant]]\ndevices = [2]\nport = 2543\nprotocol = \"xvc\"\n";

pub const BOTH: &str =
    "version = 1\n[[grant]]\ndevices = [1, 2]\nport = 2542\nprotocol = \"xvc\"\n";

pub const DEMO: &str = "[[device]]\nbsdl = \"demo.bsd\"\n";

pub const DEMOS: &str = "[[device]]\nbsdl = \"demo.bsd\"\n[[device]]\nbsdl = \"demo.bsd\"\n";

/// The demo part with this version of its identification code.
pub fn demo(alloc: Global, version: &str) -> Result<Vec<u8>, AllocError> {
    let mut text = String::from_str(alloc, DEMO_HEAD)?;
    text.push_str(version)?;
    text.push_str(DEMO_TAIL)?;
    text.as_bytes().to_vec(alloc)
}

/// A shelf with BSDL files and a setup file of these two pieces, whose loads of these numbers fail.
pub fn shelf(alloc: Global, head: &str, tail: &str, fails: &[u64]) -> Result<MemShelf, AllocError> {
    let mut setup = String::from_str(alloc, head)?;
    setup.push_str(tail)?;
    let mut files = Vec::new(alloc);
    files.push((
        String::from_str(alloc, "a.toml")?,
        setup.as_bytes().to_vec(alloc)?,
    ))?;
    files.push((String::from_str(alloc, "demo.bsd")?, demo(alloc, "0001")?))?;
    files.push((String::from_str(alloc, "any.bsd")?, demo(alloc, "XXXX")?))?;
    files.push((
        String::from_str(alloc, "bad.bsd")?,
        CAPTURES_00.as_bytes().to_vec(alloc)?,
    ))?;
    Ok(MemShelf::new(alloc, files, fails.to_vec(alloc)?))
}
