// The connections of a script before it is played, each with memory for what its peer offers and is given.
ghost use Rattle.std.specs.Prelude.{◌≡◌, ◌<◌, ◌+◌, ℕ, [], ◌∷◌, length, drop, map, slice_index_or, true, IfOk, OnOk};
ghost use Rattle.wire_port.specs.Offers.{lines_open_once};
ghost use Rattle.wire_port.specs.Scripts.{line_of};
ghost use Rattle.wire_port.specs.Playing as p;
ghost use Rattle.wire_port.specs.Played.{lines_behind};

use crate::Conn;
use crate::link::Link;
use crate::script::Line;
use std::alloc::{AllocError, Global};
use std::collections::VecDeque;

// Adds the bytes that a line offers to those of its connection.
fn add_offer(table: &mut [usize], line: &Line) -> Result<(), AllocError>
    requires { length table.old ≡ 65536 }
    ensures { OnOk result ((conn default : ℕ) → conn < 65536 → slice_index_or table.new conn default ≡ slice_index_or table.old conn default + p.sent_on conn (line_of line.now ∷ [])) }
{
    if let Line::Send(conn, bytes) = line {
        let place = usize::from(*conn);
        let Some(sum) = table[place].checked_add(bytes.len()) else {
            return Err(AllocError);
        };
        table[place] = sum;
    }
    Ok(())
}

// Adds the bytes that lines offer to those of their connections.
fn add_offers(table: &mut [usize], lines: &[Line]) -> Result<(), AllocError>
    requires { length table.old ≡ 65536 }
    ensures { OnOk result ((conn default : ℕ) → conn < 65536 → slice_index_or table.new conn default ≡ slice_index_or table.old conn default + p.sent_on conn (map line_of lines.now)) }
{
    for line in lines {
        add_offer(table, line)?;
    }
    Ok(())
}

// How many bytes the lines offer on each connection.
fn offers(alloc: Global, lines: &[Line]) -> Result<Vec<usize>, AllocError>
    ensures { IfOk result (λ table. p.Offers table.items (map line_of lines.now)) }
{
    let mut table = vec![in alloc; 0; 65536]?;
    add_offers(&mut table, lines)?;
    Ok(table)
}

// How many bytes all lines offer.
pub fn all_offers(lines: &[Line]) -> Result<usize, AllocError>
    ensures { IfOk result (λ sum. sum ≡ p.sent (map line_of lines.now)) }
{
    let mut sum: usize = 0;
    for line in lines {
        let Some(more) = sum.checked_add(offered(line)) else {
            return Err(AllocError);
        };
        sum = more;
    }
    Ok(sum)
}

// How many bytes a line offers.
fn offered(line: &Line) -> usize
    ensures { result ≡ p.sent (line_of line.now ∷ []) }
{
    match line {
        Line::Send(_, bytes) => bytes.len(),
        _ => 0,
    }
}

// Prepares the connection that line number `at`, counted from 0, opens.
fn prepare(
    alloc: Global,
    lines: &[Line],
    at: usize,
    offers: &[usize],
    waiting: &mut VecDeque<Link>,
    table: &mut [usize],
) -> Result<(), AllocError>
    requires within { at < length lines.now }
    requires offers { p.Offers offers.now (map line_of lines.now) }
    requires prepared { p.Prepared (map line_of lines.now) (map line_of (drop at lines.now)) waiting.old.items table.old }
    ensures { OnOk result (p.Prepared (map line_of lines.now) (map line_of (drop (at + 1) lines.now)) waiting.new.items table.new) }
{
    if let Line::Open(conn, _) = &lines[at] {
        let place = usize::from(*conn);
        let link = Link::with_room(alloc, Conn::from(*conn), offers[place])?;
        table[place] = waiting.len();
        waiting.push_back(link)?;
    }
    Ok(())
}

/// The connections that the lines open, in order, and the place of each by its number.
pub fn waiting_links(
    alloc: Global,
    lines: &[Line],
) -> Result<(VecDeque<Link>, Vec<usize>), AllocError>
    requires { lines_open_once (map line_of lines.now) ≡ true }
    ensures { IfOk result (λ pair. p.Prepared (map line_of lines.now) [] pair.0.items pair.1.items) }
{
    let offers = offers(alloc, lines)?;
    let mut waiting = VecDeque::new(alloc);
    let mut table = vec![in alloc; 0; 65536]?;
    for at in 0..lines.len() {
        prepare(alloc, lines, at, &offers, &mut waiting, &mut table)?;
    }
    Ok((waiting, table))
}
