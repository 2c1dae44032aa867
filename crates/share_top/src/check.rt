// The command `check`.
ghost use Rattle.std.specs.Prelude.{◌≡◌};
ghost use Rattle.share_top.specs.CheckRuns as runs;
ghost use Rattle.share_top.specs.Setups.{LoadsListed};

use crate::print::print_setup;
use crate::setup::{NoSetup, load_setup};
use crate::tell::{WRITE_FAULT, tell};
use ports::{Shelf, Sink};
use std::alloc::Global;
use text_lines::Line;

/// How `check` ends, before its last line is written.
#[derive(Clone, Copy, Debug, PartialEq, Eq)]
pub enum Checked {
    /// The text went out.
    Done,
    /// The sink failed within the text.
    WriteFault,
    /// There is no setup.
    NoSetup(NoSetup),
}

impl Checked {
    fn status(self) -> u8
        ensures { result ≡ runs.check_status self }
    {
        match self {
            Checked::Done => 0,
            Checked::WriteFault => WRITE_FAULT,
            Checked::NoSetup(none) => none.status(),
        }
    }

    fn line(self) -> Line
        ensures { result.items ≡ runs.check_line self }
    {
        match self {
            Checked::Done | Checked::WriteFault => Line::new(),
            Checked::NoSetup(none) => none.line(),
        }
    }
}

// Reads the setup, and writes its text.
fn show_setup<S: Shelf, O: Sink>(alloc: Global, name: &str, shelf: &mut S, out: &mut O) -> Checked
    ensures ends { runs.EndsCheck result (S.files shelf.old) name.now (O.sent out.old) (O.sent out.new) }
    ensures causes { runs.CheckCauses result (S.fault_count shelf.old) (S.fault_count shelf.new) (O.fault_count out.old) (O.fault_count out.new) }
    ensures files { S.files shelf.new ≡ S.files shelf.old }
    ensures loads { LoadsListed (S.loads shelf.old) (S.loads shelf.new) name.now }
{
    let setup = match load_setup(alloc, name, shelf) {
        Ok(setup) => setup,
        Err(none) => return Checked::NoSetup(none),
    };
    match print_setup(out, setup.names.as_slice(), &setup.layout) {
        Ok(()) => Checked::Done,
        Err(_) => Checked::WriteFault,
    }
}

/// Runs `check SETUP`: reads the setup of that name, and writes a line for each of its devices, grants and nets, and `ok`; or the line of
/// what is wrong. It answers the status.
///
/// | Status | Comes | Last line of the output |
/// |---|---|---|
/// | 0 | the files say a setup | `ok` |
/// | 3 | they are refused | `setup`, `layout`, `bsdl`, `pins` or `cell`, with the cause and the place |
/// | 4 | the shelf's count of faults rose | `read fault` |
/// | 5 | the sink's count of faults rose | a front of what had to be written |
/// | 9 | memory was wanting | `memory` |
/// | 12 | the setup file or that of a device is not there | `absent setup`, or `absent device` with its number from 1 |
///
/// The names that are loaded are the first of these: that of the setup, and those of the BSDL files in the bytes that were answered,
/// in the order of the devices; that of the setup alone where the bytes are no setup file.
pub fn check<S: Shelf, O: Sink>(alloc: Global, name: &str, shelf: &mut S, out: &mut O) -> u8
    ensures runs { runs.RunsCheck result (S.files shelf.old) name.now (O.sent out.old) (O.sent out.new) (S.fault_count shelf.old) (S.fault_count shelf.new) (O.fault_count out.old) (O.fault_count out.new) }
    ensures files { S.files shelf.new ≡ S.files shelf.old }
    ensures loads { LoadsListed (S.loads shelf.old) (S.loads shelf.new) name.now }
{
    let checked = show_setup(alloc, name, shelf, out);
    tell(out, &checked.line(), checked.status())
}
