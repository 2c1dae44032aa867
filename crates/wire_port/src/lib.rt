//! Wires: the connections of all clients, whether over sockets or played from a script.
#![tactic(auto)]

ghost use Rattle.wire_port.specs.Laws as l;

mod lines;
mod link;
mod log;
mod play;
mod read;
mod ready;
mod script;
mod script_wire;
mod slots;
mod wire;
mod words;

pub use read::read_script;
pub use script::{Script, ScriptRefusal};
pub use script_wire::ScriptWire;
pub use wire::{Conn, Found, Given, PollFault, Poller, Taken, Wire};

/// A text is a script of certain lines exactly where it is read as those lines, and is none, at a line for a cause, exactly where it is
/// refused at that line for that cause.
pub fn scripts_have_format()
    ensures scripts { l.ScriptsHaveFormat }
    ensures refusals { l.RefusalsHaveFormat }
{}

/// Every text is a script or is none, and never both. It is a script of no other lines, and is refused at no other line and for no other
/// cause.
pub fn scripts_are_told_apart()
    ensures one_of_both { l.OneOfBoth }
    ensures never_both { l.NeverBoth }
    ensures one_script { l.OneScript }
    ensures one_refusal { l.OneRefusal }
{}

/// The lines of a script open no connection twice.
pub fn scripts_open_once()
    ensures { l.ScriptsOpenOnce }
{}
