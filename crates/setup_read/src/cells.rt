// The boundary cells of nets.
ghost use Rattle.std.specs.Prelude.{◌≡◌, ◌≤◌, length, OnOk};
ghost use Rattle.chain_model.specs.Boards.{cells_at, EachHasEnds};
ghost use Rattle.setup_read.specs.Boards as b;
ghost use Rattle.setup_read.specs.Loads as l;

use crate::SetupRefusal;
use chain_model::Board;
use grant_table::Net;
use part_model::RegNo;

/// The number of the boundary register of a part.
const BOUNDARY: RegNo = 1;

// How many boundary cells the device at a place has.
fn cells_at(boards: &[Board], place: usize) -> u32
    ensures { result ≡ cells_at boards.now place }
{
    if place < boards.len() {
        boards[place].part.len_of(BOUNDARY)
    } else {
        0
    }
}

// How many boundary cells the device of a number from 1 has.
fn cells_of(boards: &[Board], device: u16) -> u32
    ensures { result ≡ b.cells_of boards.now device }
{
    match usize::from(device).checked_sub(1) {
        Some(place) => cells_at(boards, place),
        None => 0,
    }
}

fn has_ends(boards: &[Board], net: &Net) -> bool
    ensures { result ≡ b.has_ends boards.now net.now }
{
    net.from_cell < cells_of(boards, net.from_device)
        && net.to_cell < cells_of(boards, net.to_device)
}

/// Refuses the first net with a cell that its device has not.
pub fn check_cells(boards: &[Board], nets: &[Net]) -> Result<(), SetupRefusal>
    requires { length nets.now ≤ 4096 }
    ensures is { b.Reads (λ _. tt) result (b.wired boards.now 1 nets.now) }
    ensures ends { OnOk result (EachHasEnds boards.now nets.now) }
    ensures loads { l.LoadsNothing result }
{
    for (index, net) in nets.iter().enumerate() {
        if !has_ends(boards, net) {
            return Err(SetupRefusal::Cell {
                net: index as u32 + 1,
            });
        }
    }
    Ok(())
}
