//! The sessions of all grants over one desk and one wire: connections are admitted, and each session that is ready is served.
#![tactic(auto)]

mod hub;
mod laws;
mod letting_go;
mod serving;
mod sessions;

pub use hub::Hub;
pub use laws::{a_hub_at_rest_has_nothing_to_do, a_hub_stands_for_its_play, polls_keep_the_play};

/// A hub could not go on.
#[derive(Clone, Copy, Debug, PartialEq, Eq)]
pub enum HubFault {
    /// The cable failed.
    Cable,
}

impl From<session_table::CableFailed> for HubFault {
    fn from(_: session_table::CableFailed) -> Self {
        HubFault::Cable
    }
}
