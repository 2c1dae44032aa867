// The setup of a name.
ghost use Rattle.std.specs.Prelude.{◌≡◌, IfOk, IfErr, OnOk};
ghost use Rattle.setup_read.specs.Setups.{IsWhole};
ghost use Rattle.share_top.specs.Setups as setups;

use crate::refusal::{refusal_line, refusal_status};
use ports::{LoadFault, Shelf};
use setup_read::{Setup, SetupRefusal, read_setup};
use std::alloc::Global;
use text_lines::{Line, text_line};

/// The most bytes of the setup file that are loaded: one more than it may have.
const MOST_LOADED: usize = 1_048_577;

/// The status where a file is not there.
const ABSENT: u8 = 12;

/// Why there is no setup.
#[derive(Clone, Copy, Debug, PartialEq, Eq)]
pub enum NoSetup {
    /// The setup file is not there.
    Absent,
    /// The setup is refused, a load failed, or memory is wanting.
    Refused(SetupRefusal),
}

impl NoSetup {
    /// The status: 12 where a file is not there, 4 where a load failed, 9 where memory is wanting, and else 3.
    pub fn status(self) -> u8
        ensures { result ≡ setups.no_setup_status self }
    {
        match self {
            NoSetup::Absent => ABSENT,
            NoSetup::Refused(refusal) => refusal_status(refusal),
        }
    }

    /// The last line.
    pub fn line(self) -> Line
        ensures { result.items ≡ setups.no_setup_line self }
    {
        match self {
            NoSetup::Absent => text_line(b"absent setup\n"),
            NoSetup::Refused(refusal) => refusal_line(refusal),
        }
    }
}

/// What the setup file of a name and the BSDL files that it names say, or why they say nothing. The names that are loaded are the first of
/// these: that of the setup, and those of the BSDL files in the bytes that were answered, in the order of the devices; that of the setup
/// alone where the bytes are no setup file.
pub fn load_setup<S: Shelf>(alloc: Global, name: &str, shelf: &mut S) -> Result<Setup, NoSetup>
    ensures found { IfOk result (λ setup. setups.SetupAt setup (S.files shelf.old) name.now) }
    ensures whole { IfOk result IsWhole }
    ensures refused { IfErr result (λ none. setups.NoSetupAt none (S.files shelf.old) name.now) }
    ensures same { OnOk result (S.fault_count shelf.new ≡ S.fault_count shelf.old) }
    ensures causes { IfErr result (λ none. setups.LoadCauses none (S.fault_count shelf.old) (S.fault_count shelf.new)) }
    ensures files { S.files shelf.new ≡ S.files shelf.old }
    ensures loads { setups.LoadsListed (S.loads shelf.old) (S.loads shelf.new) name.now }
{
    let bytes = match shelf.load(alloc, name, MOST_LOADED) {
        Ok(bytes) => bytes,
        Err(LoadFault::Memory) => return Err(NoSetup::Refused(SetupRefusal::Memory)),
        Err(LoadFault::Absent) => return Err(NoSetup::Absent),
        Err(LoadFault::Fault) => return Err(NoSetup::Refused(SetupRefusal::Fault)),
    };
    match read_setup(alloc, &bytes, shelf) {
        Ok(setup) => Ok(setup),
        Err(refusal) => Err(NoSetup::Refused(refusal)),
    }
}
