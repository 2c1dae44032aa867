//! Tests of device types, BSDL texts, setups, scans, virtual TAPs and sessions, over what their crates offer.
#![tactic(auto)]

#[cfg(test)]
mod bsdl_texts;
#[cfg(test)]
mod lone_sessions;
#[cfg(test)]
mod parts;
#[cfg(test)]
mod random_groups;
#[cfg(test)]
mod scans;
#[cfg(test)]
mod sessions;
#[cfg(test)]
mod setups;
#[cfg(test)]
mod untold;
#[cfg(test)]
mod virtual_taps;
