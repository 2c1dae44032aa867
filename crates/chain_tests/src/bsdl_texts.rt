// Texts that are refused, each at its place, and texts in the manner of makers of devices.
use bsdl_read::{BsdlRefusal, Entity, read_part};
use std::alloc::{AllocError, Global};

// The demo part up to the version of its identification, and behind it.
const DEMO_FRONT: &str = "-- demo part (any byte may stand in a comment)
entity DEMO is
  generic (PHYSICAL_PIN_MAP : string := \"DIP\");
  port (TDI, TMS, TCK : in bit; TDO : out bit;
        D : inout bit_vector(0 to 3); VCC : linkage bit);
  use STD_1149_1_1994.all;
  attribute COMPONENT_CONFORMANCE of DEMO : entity is \"STD_1149_1_1993\";
  attribute PIN_MAP of DEMO : entity is PHYSICAL_PIN_MAP;
  constant DIP : PIN_MAP_STRING := \"TDI:1, TMS:2, TCK:3, \" & \"TDO:4\";
  attribute TAP_SCAN_CLOCK of TCK : signal is (20.0e6, BOTH);
  attribute INSTRUCTION_LENGTH of DEMO : entity is 4;
  attribute INSTRUCTION_OPCODE of DEMO : entity is
    \"EXTEST (0000),\" &
    \"SAMPLE (0001),\" &
    \"IDCODE (0010),\" &      -- after reset
    \"USER1  (1000),\" &
    \"BYPASS (1111)\";
  attribute INSTRUCTION_CAPTURE of DEMO : entity is \"0001\";
  attribute IDCODE_REGISTER of DEMO : entity is
    \"";

const DEMO_REST: &str = "\" &                -- version
    \"1010101111001101\" &    -- part number
    \"00000000111\" &         -- manufacturer
    \"1\";
  attribute REGISTER_ACCESS of DEMO : entity is
    \"BOUNDARY (EXTEST, SAMPLE), USER[8] (USER1)\";
  attribute BOUNDARY_LENGTH of DEMO : entity is 4;
end DEMO;
";

const ENDS_IN_00: &str =
    "entity A is attribute INSTRUCTION_LENGTH of A : entity is 2; attribute INSTRUCTION_CAPTURE of A : entity is \"00\"; attribute INSTRUCTION_OPCODE of A : entity is \"BYPASS (11)\"; attribute BOUNDARY_LENGTH of A : entity is 1; end A;";

// An identification that its maker leaves open, named registers with lengths, and an instruction beside EXTEST that selects BOUNDARY.
const GATE_ARRAY: &str = "
entity XQ7_FG4 is
  generic (PHYSICAL_PIN_MAP : string := \"FG4\");
  port (TCK, TMS, TDI : in bit; TDO : out bit; IO_A1, IO_A2 : inout bit;
        GND : linkage bit_vector (1 to 12));
  use STD_1149_1_2001.all;
  attribute COMPONENT_CONFORMANCE of XQ7_FG4 : entity is \"STD_1149_1_2001\";
  attribute PIN_MAP of XQ7_FG4 : entity is PHYSICAL_PIN_MAP;
  constant FG4 : PIN_MAP_STRING := \"TCK:B1,\" & \"IO_A1:A1,\" & \"GND:(C1,C2,C3)\";
  attribute TAP_SCAN_IN of TDI : signal is true;
  attribute TAP_SCAN_CLOCK of TCK : signal is (66.0e6, BOTH);
  attribute INSTRUCTION_LENGTH of XQ7_FG4 : entity is 6;
  attribute INSTRUCTION_OPCODE of XQ7_FG4 : entity is
    \"IDCODE (001001),\" & \"BYPASS (111111),\" & \"EXTEST (100110),\" & \"SAMPLE (000001),\" &
    \"PRELOAD (000001),\" & \"USERCODE (001000),\" & \"HIGHZ_IO (001010),\" & \"EXTEST_PULSE (111100),\" &
    \"USER1 (000010),\" & \"DRP (110111),\" & \"ISC_ENABLE (010000)\";
  attribute INSTRUCTION_CAPTURE of XQ7_FG4 : entity is \"XX\" & \"XX\" & \"01\";
  attribute IDCODE_REGISTER of XQ7_FG4 : entity is
    \"XXXX\" & \"0011011\" & \"000100001\" & \"00001001001\" & \"1\"; -- version, family, array size, maker
  attribute USERCODE_REGISTER of XQ7_FG4 : entity is \"XXXXXXXXXXXXXXXXXXXXXXXXXXXXXXXX\";
  attribute REGISTER_ACCESS of XQ7_FG4 : entity is
    \"BYPASS (HIGHZ_IO, BYPASS), DEVICE_ID (USERCODE, IDCODE),\" &
    \"BOUNDARY (SAMPLE, PRELOAD, EXTEST, EXTEST_PULSE),\" & \"DRP_REG[37] (DRP), ISC_MODE [ 5 ] (ISC_ENABLE)\";
  attribute BOUNDARY_LENGTH of XQ7_FG4 : entity is 139;
  attribute BOUNDARY_REGISTER of XQ7_FG4 : entity is
    \" 0 (BC_2, *, controlr, 1),\" & \" 1 (BC_2, IO_A1, output3, X, 0, 1, Z)\";
  attribute DESIGN_WARNING of XQ7_FG4 : entity is \"One line; and another -- no comment.\";
end XQ7_FG4;
";

// Private instructions with two opcodes, and USERCODE without a code.
const LOGIC_DEVICE: &str = "
entity EPQ3 is
  attribute INSTRUCTION_LENGTH of EPQ3 : entity is 10;
  attribute INSTRUCTION_OPCODE of EPQ3 : entity is
    \"BYPASS (1111111111), \" & \"EXTEST (0000001111), \" & \"SAMPLE (0000000101), \" &
    \"IDCODE (0000000110), \" & \"USERCODE (0000000111), \" & \"CLAMP (0000001010), \" &
    \"PRIVATE1 (0000001000, 0000001001)\";
  attribute INSTRUCTION_CAPTURE of EPQ3 : entity is \"0101010101\";
  attribute INSTRUCTION_PRIVATE of EPQ3 : entity is \"PRIVATE1\";
  attribute IDCODE_REGISTER of EPQ3 : entity is \"0000\" & \"0010000011110011\" & \"00001101110\" & \"1\";
  attribute REGISTER_ACCESS of EPQ3 : entity is \"DEVICE_ID (IDCODE)\";
  attribute BOUNDARY_LENGTH of EPQ3 : entity is 603;
end EPQ3;
";

// Several identifications, of which the first counts.
const MICROCONTROLLER: &str = "
entity SQ32 is
  attribute COMPLIANCE_PATTERNS of SQ32 : entity is \"(NRST) (0)\";
  attribute INSTRUCTION_LENGTH of SQ32 : entity is 5;
  attribute INSTRUCTION_OPCODE of SQ32 : entity is
    \"BYPASS (11111),\" & \"EXTEST (00000),\" & \"SAMPLE (00010),\" & \"PRELOAD (00010),\" & \"IDCODE (00001)\";
  attribute INSTRUCTION_CAPTURE of SQ32 : entity is \"XXX01\";
  attribute IDCODE_REGISTER of SQ32 : entity is
    \"0001\" & \"0110010000010011\" & \"00000100000\" & \"1\" & \", \" &
    \"XXXX 0110010000010101 00000100000 1\";
  attribute BOUNDARY_LENGTH of SQ32 : entity is 411;
end SQ32;
";

// X in opcodes, an identification of the user, and a register longer than BOUNDARY.
const CONTROLLER: &str = "
entity PQ24 is
  attribute INSTRUCTION_LENGTH of PQ24 : entity is 8;
  attribute INSTRUCTION_OPCODE of PQ24 : entity is
    \"BYPASS (11111111), EXTEST (00000000), IDCODE (00000001), USERCODE (00000010),\" &
    \"COMMAND (XXX00111), PRIVATE (1xxxxxx0)\";
  attribute INSTRUCTION_CAPTURE of PQ24 : entity is \"00000001\";
  attribute IDCODE_REGISTER of PQ24 : entity is \"0000\" & \"0100101000000111\" & \"00000101001\" & \"1\";
  attribute USERCODE_REGISTER of PQ24 : entity is \"11110000 11110000\" & \"10101010 11111111\";
  attribute REGISTER_ACCESS of PQ24 : entity is \"COMMAND[8] (COMMAND), DATA[1024] (PRIVATE), DEVICE_ID (USERCODE)\";
  attribute BOUNDARY_LENGTH of PQ24 : entity is 2;
end PQ24;
";

fn refusal(alloc: Global, text: &[u8]) -> Option<BsdlRefusal> {
    match read_part(alloc, text) {
        Ok(_) => None,
        Err(refusal) => Some(refusal),
    }
}

fn add_attribute(text: &mut String, name: &str, value: &str) -> Result<(), AllocError> {
    text.push_str("attribute ")?;
    text.push_str(name)?;
    text.push_str(" of A:entity is ")?;
    text.push_str(value)?;
    text.push_str(";")
}

// The text of an entity of two instruction bits with these two attributes first, and with those that are required.
fn entity_text(
    alloc: Global,
    first: (&str, &str),
    second: (&str, &str),
) -> Result<String, AllocError> {
    let mut text = String::from_str(alloc, "entity A is ")?;
    add_attribute(&mut text, first.0, first.1)?;
    add_attribute(&mut text, second.0, second.1)?;
    for (name, value) in [
        ("INSTRUCTION_LENGTH", "2"),
        ("INSTRUCTION_OPCODE", "\"BYPASS (11)\""),
        ("INSTRUCTION_CAPTURE", "\"01\""),
        ("BOUNDARY_LENGTH", "1"),
    ] {
        if name != first.0 && name != second.0 {
            add_attribute(&mut text, name, value)?;
        }
    }
    text.push_str("end A;")?;
    Ok(text)
}

// Texts whose tokens or structure are refused, with the place and the cause.
const STRUCTURES: [(&str, usize, u8); 39] = [
    ("", 0, 5),
    ("x", 0, 5),
    ("entity", 6, 5),
    ("entity 5 is", 7, 5),
    ("entity A as", 9, 5),
    ("entity A is 5;", 12, 5),
    ("entity A is end B;", 16, 5),
    ("entity A is end A", 17, 5),
    ("entity A is end A ,", 18, 5),
    ("entity A is end A; x", 19, 5),
    ("entity A is port ); end A;", 17, 5),
    ("entity A is port (;", 19, 5),
    ("entity A is port ((a;b);c) : d); ; end A;", 30, 5),
    ("entity A is port ((a);(;b;)) ; ;", 31, 5),
    ("entity A is attribute );", 22, 5),
    ("entity A is attribute (;", 24, 5),
    ("entity A is attribute BOUNDARY_LENGTH", 37, 5),
    ("entity A is attribute x of A : entity is 5", 42, 5),
    ("entity A is end A;", 12, 6),
    (
        "entity A is attribute BOUNDARY_LENGTH of A : entity is 1; END a ;",
        58,
        6,
    ),
    (
        "entity A is attribute BOUNDARY_LENGTH of A : entity is 1; attribute boundary_length",
        68,
        7,
    ),
    (
        "entity A is attribute Idcode_Register of A : entity is \"1\"; port (x); attribute IDCODE_REGISTER of B",
        80,
        7,
    ),
    ("entity A is attribute BOUNDARY_LENGTH is", 38, 8),
    (
        "entity A is attribute BOUNDARY_LENGTH of B : entity is 1;",
        41,
        8,
    ),
    ("entity A is attribute BOUNDARY_LENGTH of A ;", 43, 8),
    (
        "entity A is attribute BOUNDARY_LENGTH of A : signal is 1;",
        45,
        8,
    ),
    (
        "entity A is attribute BOUNDARY_LENGTH of A : entity := 1;",
        52,
        8,
    ),
    (
        "entity A is attribute BOUNDARY_LENGTH of A : entity is );",
        55,
        8,
    ),
    (
        "entity A is attribute BOUNDARY_LENGTH of A : entity is \"1\";",
        55,
        8,
    ),
    (
        "entity A is attribute BOUNDARY_LENGTH of A : entity is 1 & 2;",
        57,
        8,
    ),
    (
        "entity A is attribute INSTRUCTION_CAPTURE of A : entity is 1;",
        59,
        8,
    ),
    (
        "entity A is attribute INSTRUCTION_CAPTURE of A : entity is \"0\" \"1\";",
        63,
        8,
    ),
    (
        "entity A is attribute INSTRUCTION_CAPTURE of A : entity is \"0\" & ;",
        65,
        8,
    ),
    (
        "entity A is attribute INSTRUCTION_CAPTURE of A : entity is \"0\" & \"1\" , \"0\";",
        69,
        8,
    ),
    (
        "entity A is attribute INSTRUCTION_CAPTURE of A : entity is (\"01\");",
        59,
        8,
    ),
    ("entity A is port (\x7f", 18, 1),
    ("entity A is attribute x of \"a\n\";", 27, 2),
    ("entity A is x 1.5_0;", 14, 3),
    (ENDS_IN_00, 108, 13),
];

#[test]
fn tokens_and_structure_are_refused(rt: HostRuntime) {
    let alloc = rt.alloc();
    for (text, at, cause) in STRUCTURES {
        assert!(rt; refusal(alloc, text.as_bytes()) == Some(BsdlRefusal::Refused { at, cause }));
    }
}

// Attributes whose values are refused, with the place of the value and the cause.
const CONTENTS: [(&str, &str, usize, u8); 55] = [
    ("INSTRUCTION_LENGTH", "4.0", 56, 8),
    ("INSTRUCTION_LENGTH", "1_0", 56, 8),
    ("INSTRUCTION_LENGTH", "1234567890", 56, 8),
    ("BOUNDARY_LENGTH", "1e1", 53, 8),
    ("INSTRUCTION_OPCODE", "\"EX TEST (00)\"", 56, 8),
    ("INSTRUCTION_OPCODE", "\"EXTEST 00)\"", 56, 8),
    ("INSTRUCTION_OPCODE", "\"EXTEST ()\"", 56, 8),
    ("INSTRUCTION_OPCODE", "\"EXTEST (00),\"", 56, 8),
    ("INSTRUCTION_OPCODE", "\"EXTEST (0 0)\"", 56, 8),
    ("INSTRUCTION_OPCODE", "\"\"", 56, 8),
    ("INSTRUCTION_OPCODE", "\"5X (00)\"", 56, 8),
    ("INSTRUCTION_OPCODE", "\"A (00,)\"", 56, 8),
    ("INSTRUCTION_OPCODE", "\"A (02)\"", 56, 8),
    ("INSTRUCTION_OPCODE", "\"A (00)\" & \" B (01)\"", 56, 8),
    ("INSTRUCTION_CAPTURE", "\"\"", 57, 8),
    ("INSTRUCTION_CAPTURE", "\"0,1\"", 57, 8),
    ("INSTRUCTION_CAPTURE", "\"021\"", 57, 8),
    ("IDCODE_REGISTER", "\"0,\"", 53, 8),
    ("IDCODE_REGISTER", "\",0\"", 53, 8),
    ("USERCODE_REGISTER", "\" \"", 55, 8),
    ("REGISTER_ACCESS", "\"USER[] (A)\"", 53, 8),
    ("REGISTER_ACCESS", "\"USER[8 (A)\"", 53, 8),
    ("REGISTER_ACCESS", "\"USER[1234567890] (A)\"", 53, 8),
    ("REGISTER_ACCESS", "\"USER (A,)\"", 53, 8),
    ("REGISTER_ACCESS", "\"USER\"", 53, 8),
    ("REGISTER_ACCESS", "\"USER[8] CAPTURES (1)\"", 53, 8),
    ("REGISTER_ACCESS", "\"USER (A B)\"", 53, 8),
    ("REGISTER_ACCESS", "\"USER (A) (B)\"", 53, 8),
    ("REGISTER_ACCESS", "\"USER (A CAPTURES (01))\"", 53, 9),
    ("REGISTER_ACCESS", "\"USER captures (01)\"", 53, 9),
    ("REGISTER_ACCESS", "\"BOUNDARY (RunBist)\"", 53, 9),
    ("REGISTER_ACCESS", "\"BOUNDARY (BYPASS, RUNBIST%\"", 53, 9),
    ("REGISTER_ACCESS", "\"BOUNDARY (RUNBIST\"", 53, 9),
    ("INSTRUCTION_LENGTH", "1", 56, 11),
    ("INSTRUCTION_LENGTH", "65", 56, 11),
    ("INSTRUCTION_OPCODE", "\"A (1), BYPASS (11)\"", 56, 12),
    ("INSTRUCTION_OPCODE", "\"A (01, 111)\"", 56, 12),
    ("INSTRUCTION_CAPTURE", "\"001\"", 57, 12),
    (
        "USERCODE_REGISTER",
        "\"111111111111111111111111111111111\"",
        55,
        12,
    ),
    ("INSTRUCTION_CAPTURE", "\"00\"", 57, 13),
    ("INSTRUCTION_CAPTURE", "\"11\"", 57, 13),
    ("INSTRUCTION_CAPTURE", "\"0X\"", 57, 13),
    ("REGISTER_ACCESS", "\"BYPASS[2] (BYPASS)\"", 53, 14),
    ("REGISTER_ACCESS", "\"DEVICE_ID[31] (BYPASS)\"", 53, 14),
    ("REGISTER_ACCESS", "\"BOUNDARY[5] (BYPASS)\"", 53, 14),
    (
        "REGISTER_ACCESS",
        "\"USER[8] (BYPASS), USER[9] (BYPASS)\"",
        53,
        14,
    ),
    ("REGISTER_ACCESS", "\"USER (BYPASS)\"", 53, 15),
    ("REGISTER_ACCESS", "\"DEVICE_ID (BYPASS)\"", 53, 15),
    ("INSTRUCTION_OPCODE", "\"IDCODE (01)\"", 56, 15),
    ("REGISTER_ACCESS", "\"USER[0] (BYPASS)\"", 53, 16),
    ("BOUNDARY_LENGTH", "0", 53, 16),
    ("REGISTER_ACCESS", "\"USER[65537] (BYPASS)\"", 53, 17),
    ("BOUNDARY_LENGTH", "65537", 53, 17),
    (
        "IDCODE_REGISTER",
        "\"00000000000000000000000000000001\"",
        53,
        18,
    ),
    ("REGISTER_ACCESS", "\"BOUNDARY (EXTEST)\"", 53, 19),
];

// Two attributes, of whose faults the first in the order of causes is answered.
const PAIRS: [((&str, &str), (&str, &str), usize, u8); 9] = [
    (
        ("INSTRUCTION_CAPTURE", "\"0 Y\""),
        ("INSTRUCTION_LENGTH", "1"),
        57,
        8,
    ),
    (
        ("INSTRUCTION_OPCODE", "\"A\""),
        ("REGISTER_ACCESS", "\"BOUNDARY (RUNBIST)\""),
        56,
        8,
    ),
    (
        ("IDCODE_REGISTER", "\"0000000000000000000000000000001\""),
        ("INSTRUCTION_OPCODE", "\"IDCODE (01), BYPASS (11)\""),
        53,
        12,
    ),
    (
        ("IDCODE_REGISTER", "\"00000000000000000000000000000000\""),
        ("INSTRUCTION_OPCODE", "\"IDCODE (01), BYPASS (11)\""),
        53,
        18,
    ),
    (
        ("IDCODE_REGISTER", "\"00000000000000000000000000000001\""),
        ("INSTRUCTION_OPCODE", "\"A (01), IDCODE (01)\""),
        53,
        18,
    ),
    (
        ("IDCODE_REGISTER", "\"00000000000000000000000000000001\""),
        ("INSTRUCTION_OPCODE", "\"IDCODE (11)\""),
        53,
        18,
    ),
    (
        ("INSTRUCTION_LENGTH", "1"),
        ("INSTRUCTION_CAPTURE", "\"00\""),
        56,
        11,
    ),
    (
        ("INSTRUCTION_OPCODE", "\"A (1)\""),
        ("INSTRUCTION_CAPTURE", "\"00\""),
        56,
        12,
    ),
    (
        ("REGISTER_ACCESS", "\"USER (BYPASS)\""),
        ("BOUNDARY_LENGTH", "0"),
        53,
        15,
    ),
];

// The place is that of the first attribute's value.
#[test]
fn contents_and_plans_are_refused(rt: HostRuntime) -> Result<(), AllocError> {
    let alloc = rt.alloc();
    for (name, value, at, cause) in CONTENTS {
        let text = entity_text(alloc, (name, value), ("COMPONENT_CONFORMANCE", "x"))?;
        assert!(rt; refusal(alloc, text.as_bytes()) == Some(BsdlRefusal::Refused { at, cause }));
    }
    Ok(())
}

#[test]
fn the_first_cause_in_order_is_answered(rt: HostRuntime) -> Result<(), AllocError> {
    let alloc = rt.alloc();
    for (first, second, at, cause) in PAIRS {
        let text = entity_text(alloc, first, second)?;
        assert!(rt; refusal(alloc, text.as_bytes()) == Some(BsdlRefusal::Refused { at, cause }));
    }
    Ok(())
}

// What the demo part says.
fn is_demo(entity: &Entity, idcode: u32) -> bool {
    entity.name.as_str() == "DEMO"
        && entity.part.ir_len() == 4
        && entity.part.reset_code() == 2
        && entity.part.capture_code() == 1
        && entity.part.idcode() == Some(idcode)
        && entity.part.select(8) == 4
        && entity.part.longest() == 32
}

// How a text is written otherwise.
#[derive(Clone, Copy)]
enum Manner {
    Same,
    ReturnBeforeLineEnd,
    Tabs,
    Capitals,
    SmallLetters,
}

fn rewritten(alloc: Global, text: &str, manner: Manner) -> Result<Vec<u8>, AllocError> {
    let mut bytes = Vec::new(alloc);
    for byte in text.as_bytes() {
        let byte = *byte;
        match manner {
            Manner::Same => bytes.push(byte)?,
            Manner::ReturnBeforeLineEnd => {
                if byte == b'\n' {
                    bytes.push(b'\r')?;
                }
                bytes.push(byte)?;
            }
            Manner::Tabs => bytes.push(if byte == b' ' { 9 } else { byte })?,
            Manner::Capitals => bytes.push(byte.to_ascii_uppercase())?,
            Manner::SmallLetters => bytes.push(byte.to_ascii_lowercase())?,
        }
    }
    Ok(bytes)
}

fn demo_text(alloc: Global, version: &str) -> Result<String, AllocError> {
    let mut text = String::from_str(alloc, DEMO_FRONT)?;
    text.push_str(version)?;
    text.push_str(DEMO_REST)?;
    Ok(text)
}

#[test]
fn demo_is_read(rt: HostRuntime) -> Result<(), BsdlRefusal> {
    let alloc = rt.alloc();
    let text = demo_text(alloc, "0001")?;
    for manner in [
        Manner::Same,
        Manner::ReturnBeforeLineEnd,
        Manner::Tabs,
        Manner::Capitals,
        Manner::SmallLetters,
    ] {
        let entity = read_part(alloc, &rewritten(alloc, text.as_str(), manner)?)?;
        assert!(rt; is_demo(&entity, 0x1ABC_D00F));
    }
    let open = read_part(alloc, demo_text(alloc, "XXXX")?.as_bytes())?;
    assert!(rt; is_demo(&open, 0x0ABC_D00F));
    let mut commented = Vec::from_slice(alloc, b"--\x00\x80\xff\"\n")?;
    commented.extend_from_slice(text.as_bytes())?;
    assert!(rt; is_demo(&read_part(alloc, &commented)?, 0x1ABC_D00F));
    Ok(())
}

#[test]
fn texts_of_makers_are_read(rt: HostRuntime) -> Result<(), BsdlRefusal> {
    let alloc = rt.alloc();
    for (text, name, ir_len, captured, reset, idcode, usercode, longest) in [
        (GATE_ARRAY, "XQ7_FG4", 6, 1, 9, 0x0362_1093, 0, 139),
        (LOGIC_DEVICE, "EPQ3", 10, 0x155, 6, 0x020F_30DD, 0, 603),
        (MICROCONTROLLER, "SQ32", 5, 1, 1, 0x1641_3041, 0, 411),
        (CONTROLLER, "PQ24", 8, 1, 1, 0x04A0_7053, 0xF0F0_AAFF, 1024),
    ] {
        let entity = read_part(alloc, text.as_bytes())?;
        assert!(rt; entity.name.as_str() == name);
        assert!(rt; entity.part.ir_len() == ir_len);
        assert!(rt; entity.part.capture_code() == captured);
        assert!(rt; entity.part.reset_code() == reset);
        assert!(rt; entity.part.idcode() == Some(idcode));
        assert!(rt; entity.part.usercode() == usercode);
        assert!(rt; entity.part.longest() == longest);
    }
    Ok(())
}

#[test]
fn codes_select_registers(rt: HostRuntime) -> Result<(), BsdlRefusal> {
    let alloc = rt.alloc();
    for (text, code, register, length, drives) in [
        (GATE_ARRAY, 0x09, 2, 32, false),
        (GATE_ARRAY, 0x08, 3, 32, false),
        (GATE_ARRAY, 0x26, 1, 139, true),
        (GATE_ARRAY, 0x3c, 1, 139, false),
        (GATE_ARRAY, 0x37, 4, 37, false),
        (GATE_ARRAY, 0x10, 5, 5, false),
        (GATE_ARRAY, 0x02, 0, 1, false),
        (GATE_ARRAY, 0x3e, 0, 1, false),
        (LOGIC_DEVICE, 0x006, 2, 32, false),
        (LOGIC_DEVICE, 0x007, 3, 32, false),
        (LOGIC_DEVICE, 0x009, 0, 1, false),
        (LOGIC_DEVICE, 0x00f, 1, 603, true),
        (MICROCONTROLLER, 0x02, 1, 411, false),
        (MICROCONTROLLER, 0x1f, 0, 1, false),
        (CONTROLLER, 0x47, 4, 8, false),
        (CONTROLLER, 0x87, 4, 8, false),
        (CONTROLLER, 0x86, 5, 1024, false),
        (CONTROLLER, 0x02, 3, 32, false),
        (CONTROLLER, 0xff, 0, 1, false),
    ] {
        let part = read_part(alloc, text.as_bytes())?.part;
        let selected = part.select(code);
        assert!(rt; selected == register);
        assert!(rt; part.len_of(selected) == length);
        assert!(rt; part.drives(code) == drives);
    }
    Ok(())
}

#[test]
fn first_opcode_is_preferred(rt: HostRuntime) -> Result<(), BsdlRefusal> {
    let alloc = rt.alloc();
    let opcodes = ("INSTRUCTION_OPCODE", "\"A (0X), B (00), C (1x, 01)\"");
    let registers = (
        "REGISTER_ACCESS",
        "\"a_reg[3] (A),\" & \" B_REG [5] ( B ) \" & \", C_REG[7](C)\"",
    );
    let part = read_part(alloc, entity_text(alloc, opcodes, registers)?.as_bytes())?.part;
    assert!(rt; part.regs() == 7 && part.name_of(4) == "A_REG");
    for (code, register) in [(0, 4), (1, 4), (2, 6), (3, 0)] {
        assert!(rt; part.select(code) == register);
    }
    Ok(())
}

// A BOUNDARY_REGISTER of many cells, and a port with parentheses in parentheses, are passed over.
#[test]
fn long_items_are_passed_over(rt: HostRuntime) -> Result<(), BsdlRefusal> {
    let alloc = rt.alloc();
    let mut cells = String::from_str(alloc, "\"0 (BC_1, *, controlr, 1),\"")?;
    for _ in 0..4000 {
        cells.push_str(" & -- (\n \"1 (BC_1, IO, output3, X, 0, 1, Z),\"")?;
    }
    let boundary = ("BOUNDARY_REGISTER", cells.as_str());
    let port = ("X", "(a; (b; (c)); d), (e;)");
    let entity = read_part(alloc, entity_text(alloc, boundary, port)?.as_bytes())?;
    assert!(rt; entity.name.as_str() == "A" && entity.part.longest() == 1);
    Ok(())
}
