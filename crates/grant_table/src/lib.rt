//! Which devices of a scan chain are granted to whom: grants, layouts, and the layouts that are refused.
#![tactic(auto)]

ghost use Rattle.std.specs.Prelude.{◌≡◌, [], ℕ};
ghost use Rattle.grant_table.specs.Layouts.{grant_at_port};
ghost use Rattle.grant_table.specs.Apart.{LayoutsKeepApart};

mod faults;
mod grant;
mod layout;
#[cfg(test)]
mod tests;

pub use faults::{LayoutRefusal, MOST_DEVICES, MOST_GRANTS, MOST_NETS, layout_fault};
pub use grant::Grant;
pub use layout::{Layout, bypass_code};
pub use part_model::Net;

/// The protocol that a grant's clients speak: Xilinx Virtual Cable 1.0, or OpenOCD's remote_bitbang.
#[derive(Clone, Copy, Debug, PartialEq, Eq)]
pub enum Protocol {
    Xvc,
    Bitbang,
}

/// Where there is no grant, no port belongs to one.
pub fn no_grant_no_port()
    ensures { (port : ℕ) → grant_at_port [] port ≡ None }
{}

/// In a layout without fault each grant has a device, all its devices are in the chain, and no two grants have a device or a port
/// in common; a net that leads to a device of a grant comes from the same grant.
pub fn layouts_keep_apart()
    ensures { LayoutsKeepApart }
{}
