//! The one scan chain that several grants share: scans for one group of its devices, with all others in BYPASS.
#![tactic(auto)]

ghost use Rattle.std.specs.Prelude.{◌≡◌, [], List};
ghost use Rattle.chain_model.specs.Chains.{Placed, powered};
ghost use Rattle.scan_share.specs.PrivateChains.{private_chain};
ghost use Rattle.grant_table.specs.Layouts.{group_of};
ghost use Rattle.scan_share.specs.Scans.{update_cycles};
ghost use Rattle.scan_share.specs.Costs.{two_grants, two_started, two_loaded, user_code, user_cycles};
ghost use Rattle.scan_share.specs.Lengths.{ScansOwnAndOthers};
ghost use Rattle.scan_share.specs.Laws.{LoadAndCapture, CaptureLoaded, WriteUpdates, StartRests, ResetAbandons, PoweredIsWhole, OwnWidthsFit};

mod code_bits;
mod codes;
mod group_scans;
mod members;
mod neighbours;
mod own_bits;
mod pieces;
mod runs;
mod scan;
mod scan_length;
mod states;
mod walks;
mod write_bits;

pub use codes::are_codes;
pub use scan_length::own_width;
pub use states::{Broken, Open, Parked};

/// The private chain of no devices is the empty chain.
pub fn empty_group()
    ensures { (boards : List Placed) → private_chain boards [] [] ≡ powered [] [] }
{}

/// A scan of the shared chain for a group is as long as the group's registers, and one bit for each device that is not in the group.
pub fn scans_own_and_others()
    ensures { ScansOwnAndOthers }
{}

/// Where the loaded codes are others than those of the scan, an instruction scan, Capture-DR and a read-out capture the group: its
/// devices hold and give what their private chain would, all other devices hold what they held, and the scan is open in Pause-DR.
pub fn load_and_capture()
    ensures { LoadAndCapture }
{}

/// Where the codes of the scan are loaded, Capture-DR and a read-out do the same.
pub fn capture_loaded()
    ensures { CaptureLoaded }
{}

/// A write into an open scan updates the group: its devices hold what their private chain would, all other devices hold what they
/// held, and the chain is in Run-Test/Idle with the codes that were loaded.
pub fn write_updates()
    ensures { WriteUpdates }
{}

/// Six cycles from power-up lead to Run-Test/Idle with the instructions of Test-Logic-Reset.
pub fn start_rests()
    ensures { StartRests }
{}

/// A reset and one cycle end a scan without an update, and lead to Run-Test/Idle with the instructions of Test-Logic-Reset.
pub fn reset_abandons()
    ensures { ResetAbandons }
{}

/// Whatever the codes, a scan has no more bits of a grant's own than the longest registers of its devices have together.
pub fn own_widths_fit()
    ensures { OwnWidthsFit }
{}

/// A chain at power-up is made of all device types and nets of its layout.
pub fn powered_is_whole()
    ensures { PoweredIsWhole }
{}

/// Two demo devices, each of a grant of its own, under the code of USER1: a start makes 6 cycles, the first capture 26, as an
/// instruction scan has 8 bits and a scan of data registers 9, and each update 13. The same grant captures again in 13, and the other in
/// 26. The cycles made are then 6, 32, 45, 58, 71 and 97.
pub fn reloads_cost_cycles()
    ensures start { two_started.made ≡ 6 }
    ensures first { user_cycles 0 two_started ≡ 26 }
    ensures update { update_cycles two_grants (group_of two_grants.grants 0) user_code ≡ 13 }
    ensures again { user_cycles 0 two_loaded ≡ 13 }
    ensures other { user_cycles 1 two_loaded ≡ 26 }
{}
