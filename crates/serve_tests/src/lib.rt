//! Tests of scripts, hubs and the commands, over what their crates offer.
#![tactic(auto)]

#[cfg(test)]
mod checks;
#[cfg(test)]
mod hubs;
#[cfg(test)]
mod pipes;
#[cfg(test)]
mod played;
#[cfg(test)]
mod scripts;
#[cfg(test)]
mod serving;
#[cfg(test)]
mod setup_files;
