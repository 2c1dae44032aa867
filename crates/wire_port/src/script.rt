// The lines of a script, and why a text is none.
ghost use Rattle.std.specs.Prelude.{◌≡◌, map, true};
ghost use Rattle.wire_port.specs.Offers.{lines_open_once};
ghost use Rattle.wire_port.specs.Scripts.{opens_in, line_of};
ghost use Rattle.wire_port.specs.declared.script.ScriptRefusal.TheVariants.{Memory};

use std::alloc::AllocError;
use std::marker::Model;
use thiserror::Error;

/// A line: a connection opens to a port; its peer offers bytes, is gone behind them, or takes so many reply bytes more, or all.
#[derive(Drop)]
pub enum Line {
    Open(u16, u16),
    Send(u16, Vec<u8>),
    Drop(u16),
    Room(u16, Option<u32>),
}

/// How a connection stands after some lines.
#[derive(Clone, Copy, PartialEq, Eq)]
pub enum Stand {
    Unopened,
    Opened,
    Dropped,
}

/// Why a text is no script. Lines count from 1, and 0 stands for the whole text. The causes are 1 a first word that is no command, 2 another
/// number of words, 3 a number that is malformed or out of range, 4 bytes that are not in hex, 5 an `open` of a connection that was opened
/// before, 6 a line on a connection that was not opened, 7 one on a connection that was dropped, and 8 more than 1,048,576 bytes.
#[derive(Clone, Copy, Debug, PartialEq, Eq, Error)]
pub enum ScriptRefusal {
    #[error("out of memory")]
    Memory,
    #[error("no script")]
    Refused { line: u32, cause: u8 },
}

impl From<AllocError> for ScriptRefusal {
    ghost from_gives = { λ _ e. e ≡ Memory };

    fn from(_: AllocError) -> ScriptRefusal {
        ScriptRefusal::Memory
    }
}

/// What the peers of a script do, line by line. Contracts see it as the list of its lines, which open no connection twice.
#[derive(Drop)]
pub struct Script {
    lines: Vec<Line>,
}

impl Model for Script {
    ghost use Rattle.std.specs.Prelude.{◌≡◌, List, map, true};
    ghost use Rattle.wire_port.specs.Offers.{ScriptLine, lines_open_once};

    ghost Value = { List ScriptLine };

    ghost use Rattle.wire_port.specs.Scripts.{line_of};

    ghost view = { λ script. map line_of script.lines.items };

    ghost invariant = { λ script. lines_open_once (map line_of script.lines.items) ≡ true };
}

// How many of the lines open a connection.
fn count_opens(lines: &[Line]) -> usize
    ensures { result ≡ opens_in (map line_of lines.now) }
{
    let mut count = 0;
    for line in lines {
        if let Line::Open(_, _) = line {
            count += 1;
        }
    }
    count
}

impl Script {
    // The script of these lines.
    pub fn from_lines(lines: Vec<Line>) -> Script
        requires { lines_open_once (map line_of lines.items) ≡ true }
        ensures { result ≡ map line_of lines.items }
    {
        Script { lines }
    }

    // The lines, which open no connection twice.
    pub fn into_lines(self) -> Vec<Line>
        ensures lines { map line_of result.items ≡ self }
        ensures once { lines_open_once self ≡ true }
    {
        let Script { lines } = self;
        lines
    }

    /// How many of the lines open a connection.
    pub fn opens(&self) -> usize
        ensures count { result ≡ opens_in self.now }
        ensures once { lines_open_once self.now ≡ true }
    {
        count_opens(&self.lines)
    }
}
