// The last line where a setup is refused, and the status.
ghost use Rattle.std.specs.Prelude.{◌≡◌, ◌≤◌, ◌+◌, ◌++◌, length};
ghost use Rattle.setup_read.specs.declared.setup.SetupRefusal.TheVariants.{Plain, Layout, Bsdl};
ghost use Rattle.share_top.specs.Checks as checks;
ghost use Rattle.share_top.specs.Checks.{place_text};

use grant_table::LayoutRefusal;
use setup_document::Place;
use setup_read::SetupRefusal;
use text_lines::{Line, number_line, push_number, push_text, text_line};

/// The status of a refusal: 12 where a device's file is not there, 4 where a load failed, 9 where memory is wanting, and else 3.
pub fn refusal_status(refusal: SetupRefusal) -> u8
    ensures { result ≡ checks.refusal_status refusal }
{
    match refusal {
        SetupRefusal::Absent { .. } => 12,
        SetupRefusal::Fault => 4,
        SetupRefusal::Memory => 9,
        _ => 3,
    }
}

/// The line of a refusal.
pub fn refusal_line(refusal: SetupRefusal) -> Line
    ensures { result.items ≡ checks.refusal_line refusal }
{
    match refusal {
        SetupRefusal::Plain { cause, place } => plain_line(cause, place),
        SetupRefusal::Layout(fault) => layout_line(fault),
        SetupRefusal::Absent { device } => number_line(b"absent device ", u64::from(device)),
        SetupRefusal::Bsdl { device, at, cause } => bsdl_line(device, at, cause),
        SetupRefusal::Pins { device } => number_line(b"pins ", u64::from(device)),
        SetupRefusal::Cell { net } => number_line(b"cell ", u64::from(net)),
        SetupRefusal::Fault => text_line(b"read fault\n"),
        SetupRefusal::Memory => text_line(b"memory\n"),
    }
}

fn push_place(line: &mut Line, place: Place)
    requires { length line.old.items ≤ 900 }
    ensures is { line.new.items ≡ line.old.items ++ place_text place }
    ensures room { length line.new.items ≤ length line.old.items + 27 }
{
    match place {
        Place::Top => push_text(line, b"top"),
        Place::Device(number) => push_number(line, b"device ", number),
        Place::Grant(number) => push_number(line, b"grant ", number),
        Place::Net(number) => push_number(line, b"net ", number),
    }
}

fn plain_line(cause: u8, place: Place) -> Line
    ensures { result.items ≡ checks.refusal_line (Plain cause place) }
{
    let mut line = Line::new();
    push_number(&mut line, b"setup ", u64::from(cause));
    push_text(&mut line, b" ");
    push_place(&mut line, place);
    push_text(&mut line, b"\n");
    line
}

fn layout_line(fault: LayoutRefusal) -> Line
    ensures { result.items ≡ checks.refusal_line (Layout fault) }
{
    let mut line = Line::new();
    push_number(&mut line, b"layout ", u64::from(fault.cause));
    push_number(&mut line, b" ", u64::from(fault.grant));
    push_number(&mut line, b" ", fault.value);
    push_text(&mut line, b"\n");
    line
}

fn bsdl_line(device: u16, at: usize, cause: u8) -> Line
    ensures { result.items ≡ checks.refusal_line (Bsdl device at cause) }
{
    let mut line = Line::new();
    push_number(&mut line, b"bsdl ", u64::from(device));
    push_number(&mut line, b" ", u64::from(cause));
    push_number(&mut line, b" ", at as u64);
    push_text(&mut line, b"\n");
    line
}
