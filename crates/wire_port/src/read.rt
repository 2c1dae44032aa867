// Scripts that are read, line by line.
ghost use Rattle.std.specs.Prelude.{◌≡◌, ◌≤◌, ◌<◌, ◌++◌, [], ◌∷◌, length, map, IfOk, IfErr, OnOk, OnErr, true};
ghost use Rattle.wire_port.specs.declared.script.ScriptRefusal.TheVariants.{Refused};
ghost use Rattle.wire_port.specs.Offers.{lines_open_once};
ghost use Rattle.wire_port.specs.Words.{begins_comment, lines_of, words_of};
ghost use Rattle.wire_port.specs.Scripts as s;
ghost use Rattle.wire_port.specs.Format.{IsScript, RefusesScript};
ghost use Rattle.wire_port.specs.Reading as r;

use crate::lines::{LineRefusal, line_said};
use crate::script::{Line, Script, ScriptRefusal, Stand};
use crate::words::{first_line, next_word};
use std::alloc::{AllocError, AllocFailed, Global};
use std::marker::Model;

impl Line {
    // The connection that the line is on.
    fn conn(&self) -> u16
        ensures { result ≡ s.conn_of (s.line_of self.now) }
    {
        match self {
            Line::Open(conn, _) => *conn,
            Line::Send(conn, _) => *conn,
            Line::Drop(conn) => *conn,
            Line::Room(conn, _) => *conn,
        }
    }

    // How its connection stands after the line.
    fn next_stand(&self, stand: Stand) -> Stand
        ensures { result ≡ s.next_stand (s.conn_of (s.line_of self.now)) stand (s.line_of self.now) }
    {
        match self {
            Line::Open(_, _) => Stand::Opened,
            Line::Drop(_) => Stand::Dropped,
            _ => stand,
        }
    }

    // Whether the line may follow those after which its connection stands so, or the cause for which it may not.
    fn may_follow(&self, stand: Stand) -> Result<(), u8>
        ensures { result ≡ s.may_follow_at stand (s.line_of self.now) }
    {
        match self {
            Line::Open(_, _) => match stand {
                Stand::Unopened => Ok(()),
                _ => Err(5),
            },
            _ => match stand {
                Stand::Unopened => Err(6),
                Stand::Opened => Ok(()),
                Stand::Dropped => Err(7),
            },
        }
    }
}

/// The lines so far, and how each connection stands after them.
#[derive(Drop)]
struct Reader {
    lines: Vec<Line>,
    stands: Vec<Stand>,
}

impl Model for Reader {
    ghost use Rattle.std.specs.Prelude.{List, map};
    ghost use Rattle.wire_port.specs.Offers.{ScriptLine};

    ghost Value = { List ScriptLine };

    ghost use Rattle.wire_port.specs.Scripts.{line_of};
    ghost use Rattle.wire_port.specs.Reading.{Tracks};

    ghost view = { λ reader. map line_of reader.lines.items };

    ghost invariant = { λ reader. Tracks reader.stands.items (map line_of reader.lines.items) };
}

impl Reader {
    fn new(alloc: Global) -> Result<Reader, AllocError>
        ensures { IfOk result (λ reader. reader ≡ []) }
    {
        Ok(Reader {
            lines: Vec::new(alloc),
            stands: vec![in alloc; Stand::Unopened; 65536]?,
        })
    }

    // Puts a line behind the others, where it may follow them.
    fn add(&mut self, line: Line) -> Result<(), LineRefusal>
        ensures { r.Goes self.new result (s.behind self.old (s.line_of line)) }
    {
        let conn = usize::from(line.conn());
        let stand = self.stands[conn];
        line.may_follow(stand)?;
        let next = line.next_stand(stand);
        self.lines.push(line)?;
        self.stands[conn] = next;
        Ok(())
    }

    // Reads a line of a text.
    fn read(&mut self, alloc: Global, text: &[u8]) -> Result<(), LineRefusal>
        ensures { r.Goes self.new result (s.after_words self.old (words_of text.now)) }
    {
        let Some((command, words)) = next_word(text) else {
            return Ok(());
        };
        if command.first() == Some(&b'#') {
            return Ok(());
        }
        let line = line_said(alloc, command, words)?;
        self.add(line)
    }

    fn into_lines(self) -> Vec<Line>
        ensures { map s.line_of result.items ≡ self }
    {
        let Reader { lines, stands: _ } = self;
        lines
    }
}

// A refused line, with its number.
fn at_line(number: u32, refusal: LineRefusal) -> ScriptRefusal
    ensures { result ≡ r.refused_at number refusal }
{
    match refusal {
        LineRefusal::Memory => ScriptRefusal::Memory,
        LineRefusal::Cause(cause) => ScriptRefusal::Refused {
            line: number,
            cause,
        },
    }
}

// Reads all lines of a text.
fn read_lines(alloc: Global, bytes: &[u8]) -> Result<Reader, ScriptRefusal>
    requires { length bytes.now ≤ 1048576 }
    ensures { r.ReadsText (λ reader. reader) result (s.script_from 1 [] (lines_of bytes.now)) }
{
    let mut reader = Reader::new(alloc)?;
    let mut rest = Some(bytes);
    let mut number = 1;
    while let Some(text) = rest {
        let (line, behind) = first_line(text);
        match reader.read(alloc, line) {
            Ok(()) => {}
            Err(refusal) => return Err(at_line(number, refusal)),
        }
        number += 1;
        rest = behind;
    }
    Ok(reader)
}

/// A script has at most so many bytes.
const LONGEST: usize = 1048576;

/// Reads a script. A text that is none is refused at its first line that is refused, for the cause that comes first there, where causes
/// are tried in the order 8, 1, 2 to 7. `Memory` says nothing of the text.
pub fn read_script(alloc: Global, bytes: &[u8]) -> Result<Script, ScriptRefusal>
    ensures ok { IfOk result (IsScript bytes.now) }
    ensures refused { IfErr result (λ refusal. RefusesScript refusal bytes.now) }
{
    if bytes.len() > LONGEST {
        return Err(ScriptRefusal::Refused { line: 0, cause: 8 });
    }
    match read_lines(alloc, bytes) {
        Ok(reader) => Ok(Script::from_lines(reader.into_lines())),
        Err(refusal) => Err(refusal),
    }
}
