//! A hub that is served over a polled wire, and tells each session that ended.
#![tactic(auto)]

mod server;
mod told;
mod turns;

use hub::HubFault;
use ports::PortFault;
pub use server::serve;
use wire_port::PollFault;

/// Why a hub is served no longer.
#[derive(Clone, Copy, Debug, PartialEq, Eq)]
pub enum ServeFault {
    /// The wire could not listen, or not find what there is to do.
    Poll,
    /// The cable failed.
    Cable,
    /// A line could not be written.
    Write,
}

impl From<PollFault> for ServeFault {
    ghost use Rattle.std.specs.Prelude.{◌≡◌};
    ghost use Rattle.hub_server.specs.declared.ServeFault.TheVariants.{Poll};

    ghost from_gives = { λ _ e. e ≡ Poll };

    fn from(_: PollFault) -> ServeFault {
        ServeFault::Poll
    }
}

impl From<HubFault> for ServeFault {
    ghost use Rattle.std.specs.Prelude.{◌≡◌};
    ghost use Rattle.hub_server.specs.declared.ServeFault.TheVariants.{Cable};

    ghost from_gives = { λ _ e. e ≡ Cable };

    fn from(_: HubFault) -> ServeFault {
        ServeFault::Cable
    }
}

impl From<PortFault> for ServeFault {
    ghost use Rattle.std.specs.Prelude.{◌≡◌};
    ghost use Rattle.hub_server.specs.declared.ServeFault.TheVariants.{Write};

    ghost from_gives = { λ _ e. e ≡ Write };

    fn from(_: PortFault) -> ServeFault {
        ServeFault::Write
    }
}
