// Names that are compared and looked for.
ghost use Rattle.std.specs.Prelude.{◌≡◌, length};
ghost use Rattle.part_model.specs.Parts as parts;
ghost use Rattle.part_model.specs.RegisterNames as registers;

use base_types::Text;

// Equal bytes.
#[inline(always)]
pub fn same_name(left: &[u8], right: &[u8]) -> bool
    ensures { result ≡ parts.same_name left.now right.now }
{
    left.len() == right.len() && same_bytes(left, right)
}

// Equal bytes of as many on both sides, eight of them in a step.
fn same_bytes(left: &[u8], right: &[u8]) -> bool
    requires { length left.now ≡ length right.now }
    ensures { result ≡ parts.same_name left.now right.now }
{
    let mut rest = left;
    let mut other = right;
    while let Some((bytes, behind)) = rest.split_first_chunk::<8>() {
        let Some((others, more)) = other.split_first_chunk::<8>() else {
            unreachable!()
        };
        if bytes != others {
            return false;
        }
        rest = behind;
        other = more;
    }
    same_rest(rest, other)
}

// Equal bytes, one of them in a step.
fn same_rest(left: &[u8], right: &[u8]) -> bool
    ensures { result ≡ parts.same_name left.now right.now }
{
    let mut rest = left;
    let mut other = right;
    while let Some((byte, behind)) = rest.split_first() {
        match other.split_first() {
            Some((twin, more)) if byte == twin => other = more,
            _ => return false,
        }
        rest = behind;
    }
    other.is_empty()
}

// The bytes of a name.
pub fn spelled(name: &Text) -> &[u8]
    ensures { result.now ≡ name.now }
{
    name.as_str().as_bytes()
}

// Which register a name is of: one that the standard names, or another.
#[derive(Clone, Copy)]
pub enum RegisterName {
    Bypass,
    Boundary,
    DeviceId,
    Other,
}

// Which register a name is of.
#[inline(always)]
pub fn register_name(name: &[u8]) -> RegisterName
    ensures { result ≡ registers.register_name name.now }
{
    if same_name(name, b"BYPASS") {
        return RegisterName::Bypass;
    }
    if same_name(name, b"BOUNDARY") {
        return RegisterName::Boundary;
    }
    if same_name(name, b"DEVICE_ID") {
        return RegisterName::DeviceId;
    }
    RegisterName::Other
}
