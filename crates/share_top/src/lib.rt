//! The commands of the server.
#![tactic(auto)]

mod check;
mod command;
mod outcome;
mod pipe;
mod print;
mod refusal;
mod running;
mod serve;
mod serve_outcome;
mod serving;
mod setup;
mod tell;
mod words;

pub use command::{RanLocal, local_command};
pub use running::run;
pub use serving::{Ran, serve_command};
