// The text that `check` writes of a setup.
ghost use Rattle.std.specs.Prelude.{◌≡◌, ◌≤◌, ◌<◌, ◌+◌, ◌*◌, ◌++◌, length, slice_get, codes};
ghost use Rattle.std.specs.List.{All};
ghost use Rattle.base_types.specs.Tellings.{Told};
ghost use Rattle.scan_bits.specs.Words.{bits_of, number_of};
ghost use Rattle.grant_table.specs.Layouts.{group_of};
ghost use Rattle.share_top.specs.Checks as checks;
ghost use Rattle.share_top.specs.Checks.{idcode_text, group_bits};
ghost use Rattle.text_lines.specs.Hex.{hex, hex_digits};
ghost use Rattle.text_lines.specs.Printed.{Prints};

use base_types::Text;
use grant_table::{Layout, Net, Protocol};
use part_model::Part;
use ports::{PortFault, Sink};
use text_lines::{Line, push_hex, push_hex_digits, push_number, push_text, put};

// What stands before a device's name.
fn device_head(number: u64) -> Line
    ensures { result.items ≡ checks.device_head number }
{
    let mut line = Line::new();
    push_number(&mut line, b"device ", number);
    push_text(&mut line, b" ");
    line
}

// A code of 32 bits.
fn push_code(line: &mut Line, code: u32)
    requires { length line.old.items ≤ 1000 }
    ensures is { line.new.items ≡ line.old.items ++ hex_digits 8 (number_of (bits_of 32 code)) }
    ensures room { length line.new.items ≤ length line.old.items + 8 }
{
    push_hex_digits(line, 8, u64::from(code));
}

// The identification code, or a dash.
fn push_idcode(line: &mut Line, part: &Part)
    requires { length line.old.items ≤ 1000 }
    ensures is { line.new.items ≡ line.old.items ++ idcode_text part.now.idcode }
    ensures room { length line.new.items ≤ length line.old.items + 8 }
{
    match part.idcode() {
        Some(code) => push_code(line, code),
        None => push_text(line, b"-"),
    }
}

// The code that Capture-IR loads, and the one that Test-Logic-Reset loads.
fn push_codes(line: &mut Line, part: &Part)
    requires { length line.old.items ≤ 100 }
    ensures is { line.new.items ≡ line.old.items ++ codes " capture " ++ hex (number_of part.now.ir_captures) ++ codes " reset " ++ hex (number_of part.now.reset_code) }
    ensures room { length line.new.items ≤ length line.old.items + 48 }
{
    push_hex(line, b" capture ", part.capture_code());
    push_hex(line, b" reset ", part.reset_code());
}

// What stands behind a device's name.
fn device_tail(part: &Part) -> Line
    ensures { result.items ≡ checks.device_tail part.now }
{
    let mut line = Line::new();
    push_number(&mut line, b" ir ", u64::from(part.ir_len()));
    push_codes(&mut line, part);
    push_text(&mut line, b" idcode ");
    push_idcode(&mut line, part);
    push_number(&mut line, b" boundary ", u64::from(part.len_of(BOUNDARY)));
    push_number(&mut line, b" longest ", u64::from(part.longest()));
    push_text(&mut line, b"\n");
    line
}

// The number of the boundary register.
const BOUNDARY: u32 = 1;

// Writes the line of a device, by its number from 1.
fn print_device<O: Sink>(
    out: &mut O,
    number: u64,
    name: &[u8],
    part: &Part,
) -> Result<(), PortFault>
    ensures { Prints result (O.sent out.old) (O.sent out.new) (checks.device_line number name.now part.now) (O.fault_count out.old) (O.fault_count out.new) }
{
    put(out, &device_head(number))?;
    put(out, name)?;
    put(out, &device_tail(part))
}

// Writes the lines of all devices.
fn print_devices<O: Sink>(out: &mut O, names: &[Text], layout: &Layout) -> Result<(), PortFault>
    requires { length names.now ≡ length layout.now.parts }
    ensures { Prints result (O.sent out.old) (O.sent out.new) (checks.device_lines 1 names.now layout.now.parts) (O.fault_count out.old) (O.fault_count out.new) }
{
    for place in 0..layout.devices() {
        let name = names[place].as_str().as_bytes();
        print_device(out, place as u64 + 1, name, layout.part(place))?;
    }
    Ok(())
}

fn protocol_text(protocol: Protocol) -> &'static [u8]
    ensures is { result.now ≡ checks.protocol_text protocol }
    ensures room { length result.now ≤ 7 }
{
    match protocol {
        Protocol::Xvc => b"xvc",
        Protocol::Bitbang => b"bitbang",
    }
}

// The numbers of the devices at these places.
fn push_devices(line: &mut Line, group: &[usize])
    requires few { length group.now ≤ 32 }
    requires low { All (λ place. place < 32) group.now }
    requires room { length line.old.items ≤ 200 }
    ensures is { line.new.items ≡ line.old.items ++ checks.device_list group.now }
    ensures room { length line.new.items ≤ length line.old.items + 672 }
{
    let Some((first, rest)) = group.split_first() else {
        return;
    };
    push_number(line, b"", *first as u64 + 1);
    for place in rest {
        push_number(line, b",", *place as u64 + 1);
    }
}

// The instruction bits of a grant.
fn bits_of_group(layout: &Layout, grant: usize) -> u64
    requires { grant < length layout.now.grants }
    ensures { result ≡ group_bits layout.now (group_of layout.now.grants grant) }
{
    let mut bits = 0;
    for place in layout.group(grant) {
        bits += u64::from(layout.part(*place).ir_len());
    }
    bits
}

// The line of a grant, by its number from 1.
fn grant_text(
    number: u64,
    protocol: Protocol,
    port: u16,
    group: &[usize],
    bits: u64,
    most: usize,
) -> Line
    requires few { length group.now ≤ 32 }
    requires low { All (λ place. place < 32) group.now }
    ensures { result.items ≡ checks.grant_text number protocol port group.now bits most }
{
    let mut line = Line::new();
    push_number(&mut line, b"grant ", number);
    push_text(&mut line, b" ");
    push_text(&mut line, protocol_text(protocol));
    push_number(&mut line, b" ", u64::from(port));
    push_text(&mut line, b" devices ");
    push_devices(&mut line, group);
    push_number(&mut line, b" ir ", bits);
    push_number(&mut line, b" longest ", most as u64);
    push_text(&mut line, b"\n");
    line
}

// The line of a grant of the layout.
fn grant_line(layout: &Layout, grant: usize) -> Line
    requires within { grant < length layout.now.grants }
    requires few { grant < 16 }
    ensures { Told (slice_get layout.now.grants grant) (λ shape. result.items ≡ checks.grant_line layout.now (grant + 1) shape) }
{
    grant_text(
        grant as u64 + 1,
        layout.protocol(grant),
        layout.port(grant),
        layout.group(grant),
        bits_of_group(layout, grant),
        layout.longest(grant),
    )
}

// Writes the lines of all grants.
fn print_grants<O: Sink>(out: &mut O, layout: &Layout) -> Result<(), PortFault>
    ensures { Prints result (O.sent out.old) (O.sent out.new) (checks.grant_lines layout.now 1 layout.now.grants) (O.fault_count out.old) (O.fault_count out.new) }
{
    for grant in 0..layout.grants() {
        put(out, &grant_line(layout, grant))?;
    }
    Ok(())
}

// The line of a net, by its number from 1.
fn net_line(number: u64, net: &Net) -> Line
    ensures { result.items ≡ checks.net_line number net.now }
{
    let mut line = Line::new();
    push_number(&mut line, b"net ", number);
    push_number(&mut line, b" from ", u64::from(net.from_device));
    push_number(&mut line, b" ", u64::from(net.from_cell));
    push_number(&mut line, b" to ", u64::from(net.to_device));
    push_number(&mut line, b" ", u64::from(net.to_cell));
    push_text(&mut line, b"\n");
    line
}

// Writes the lines of nets.
fn print_nets<O: Sink>(out: &mut O, nets: &[Net]) -> Result<(), PortFault>
    ensures { Prints result (O.sent out.old) (O.sent out.new) (checks.net_lines 1 nets.now) (O.fault_count out.old) (O.fault_count out.new) }
{
    for (at, net) in nets.iter().enumerate() {
        put(out, &net_line(at as u64 + 1, net))?;
    }
    Ok(())
}

/// Writes the text of `check`: a line for each device by its name, for each grant and for each net, and `ok`. The fault comes only where
/// the sink's count of faults rose, and then a front of the text is out.
pub fn print_setup<O: Sink>(out: &mut O, names: &[Text], layout: &Layout) -> Result<(), PortFault>
    requires { length names.now ≡ length layout.now.parts }
    ensures { Prints result (O.sent out.old) (O.sent out.new) (checks.check_text names.now layout.now) (O.fault_count out.old) (O.fault_count out.new) }
{
    print_devices(out, names, layout)?;
    print_grants(out, layout)?;
    print_nets(out, layout.nets())?;
    put(out, b"ok\n")
}
