// Sessions of a grant of one demo device.
ghost use Rattle.std.specs.Prelude.{◌≡◌, ◌<◌, [], false, length, IfOk, IfSome};
ghost use Rattle.client_session.specs.declared.Stand.TheVariants.{Going};
ghost use Rattle.client_session.specs.Desks.{IsDesk};
ghost use Rattle.client_session.specs.Stores.{IsOfLayout};
ghost use Rattle.client_session.specs.Turns.{is_among};
ghost use Rattle.chain_token.specs.Tokens.{waiting};

use crate::untold::UntoldChain;
use base_types::Items;
use chain_model::{Bench, Board, Chain, demo_board};
use chain_token::Token;
use client_session::{Desk, End, Session, Stand, Stop, leave};
use grant_table::{Grant, Layout, Protocol, layout_fault};
use scan_share::Parked;
use std::alloc::{AllocError, Global};
use std::test::Fail;

// A chain of one demo device at power-up; None where it was not assembled.
fn one_device(alloc: Global) -> Result<Option<UntoldChain>, AllocError> {
    let mut chain = Chain::empty();
    let board = demo_board(alloc)?;
    if chain.assemble(alloc, &[board], &[]).is_err() {
        return Ok(None);
    }
    Ok(Some(UntoldChain::new(chain)))
}

// A layout of one demo device and its grant; None where it has a fault.
fn layout_of(alloc: Global, protocol: Protocol) -> Result<Option<Layout>, AllocError>
    ensures { IfOk result (λ found. IfSome found (λ layout. 0 < length layout.grants)) }
{
    let Board { part, pins: _ } = demo_board(alloc)?;
    let mut parts = Vec::new(alloc);
    parts.push(part)?;
    let mut devices = Vec::new(alloc);
    devices.push(1)?;
    let mut grants = Vec::new(alloc);
    grants.push(Grant {
        devices: Items::from_vec(devices),
        port: 2542,
        protocol,
    })?;
    let nets = Vec::new(alloc);
    if layout_fault(parts.len(), &grants, &nets).is_some() {
        return Ok(None);
    }
    let layout = Layout::new(alloc, parts, grants, nets)?;
    if layout.grants() == 0 {
        return Ok(None);
    }
    Ok(Some(layout))
}

// How many bytes a session wants once it is opened, and whether it was free before; None where the layout has a fault.
fn wants(alloc: Global, protocol: Protocol) -> Result<Option<(usize, bool)>, AllocError> {
    let Some(layout) = layout_of(alloc, protocol)? else {
        return Ok(None);
    };
    let mut session = Session::new(alloc, &layout, 0, 2048, false)?;
    let is_free = session.stand() == Stand::Free && session.reply().is_empty();
    session.open(&layout);
    Ok(Some((session.want(), is_free)))
}

#[test]
fn a_message_or_letters_are_wanted(rt: HostRuntime) -> Result<(), Fail> {
    let alloc = rt.alloc();
    assert_eq!(rt; wants(alloc, Protocol::Xvc)?, Some((8, true)));
    assert_eq!(rt; wants(alloc, Protocol::Bitbang)?, Some((16, true)));
    Ok(())
}

// How a session ended that stopped so; None where it did not.
fn ended(stop: Stop) -> Option<End> {
    match stop {
        Stop::Ended(end) => Some(end),
        _ => None,
    }
}

// What a session replies to these bytes, fed as it wants them, and how it ends, if not before them then with a drop behind them. None where it
// waits or the cable fails.
fn serve(
    session: &mut Session,
    desk: Desk<UntoldChain>,
    layout: &Layout,
    input: &[u8],
    out: &mut Vec<u8>,
) -> Option<End>
    requires layout { IsOfLayout layout.now session.old }
    requires grant { session.old.grant < length layout.now.grants }
    requires going { session.old.view.stand ≡ Going }
    requires fit { session.old.view.spent ≡ false }
    requires given { session.old.view.reply ≡ [] }
    requires desk { IsDesk layout.now session.old.grant session.old.view.tap desk }
    requires line { is_among session.old.grant (waiting desk) ≡ false }
{
    let mut desk = desk;
    let mut left = input;
    while !left.is_empty() {
        let (piece, rest) = left.split_at(session.want().min(left.len()));
        let (stop, next) = match session.feed(piece, desk, layout) {
            Ok(fed) => fed,
            Err(broken) => {
                broken.into_cable();
                return None;
            }
        };
        let kept = out.extend_from_slice(session.reply());
        session.drop_reply();
        if kept.is_err() || stop != Stop::Done {
            leave(next);
            return ended(stop);
        }
        desk = next;
        left = rest;
    }
    match session.gone(desk, layout) {
        Ok((stop, next)) => {
            leave(next);
            ended(stop)
        }
        Err(broken) => {
            broken.into_cable();
            None
        }
    }
}

// The same of a session that is opened over one demo device.
fn served(
    alloc: Global,
    protocol: Protocol,
    vector: u32,
    input: &[u8],
    out: &mut Vec<u8>,
) -> Result<Option<End>, AllocError>
    requires some { 0 < vector }
    requires most { vector < 65537 }
{
    let Some(layout) = layout_of(alloc, protocol)? else {
        return Ok(None);
    };
    let Some(cable) = one_device(alloc)? else {
        return Ok(None);
    };
    let mut session = Session::new(alloc, &layout, 0, vector, false)?;
    match Parked::start(cable, &layout) {
        Ok(parked) => {
            session.open(&layout);
            Ok(serve(&mut session, Token::new(parked), &layout, input, out))
        }
        Err(broken) => {
            broken.into_cable();
            Ok(None)
        }
    }
}

const READ_IDCODE: [u8; 20] = [
    0x73, 0x68, 0x69, 0x66, 0x74, 0x3a, 0x26, 0, 0, 0, 2, 0, 0, 0, 0x18, 0, 0, 0, 0, 0,
];

#[test]
fn messages_are_replied(rt: HostRuntime) -> Result<(), Fail> {
    let alloc = rt.alloc();
    let rows: [(u32, &[u8], &[u8], End); 7] = [
        (2048, b"getinfo:", b"xvcServer_v1.0:2048\n", End::Gone(8)),
        (2048, b"settck:\x64\0\0\0", &[0x64, 0, 0, 0], End::Gone(11)),
        (
            2048,
            &READ_IDCODE,
            &[0xff, 0, 0xcd, 0xab, 0x31],
            End::Gone(20),
        ),
        (2048, &READ_IDCODE[..19], &[], End::Cut(19)),
        (1, b"shift:\x08\0\0\0\0\0", &[0xff], End::Gone(12)),
        (1, b"shift:\x09\0\0\0\0\0", &[], End::Refused(6, 2)),
        (2048, b"shoft:", &[], End::Refused(2, 1)),
    ];
    for (vector, input, replies, end) in rows {
        let mut out = Vec::new(alloc);
        assert_eq!(rt;
            served(alloc, Protocol::Xvc, vector, input, &mut out)?,
            Some(end)
        );
        assert_eq!(rt; out.as_slice(), replies);
    }
    Ok(())
}

#[test]
fn letters_are_replied(rt: HostRuntime) -> Result<(), Fail> {
    let alloc = rt.alloc();
    let rows: [(&[u8], &[u8], End); 3] = [
        (b"R4062624040R4R0R", b"1110", End::Gone(16)),
        (b"4062404040404040RQ40R", b"0", End::Quit(17)),
        (b"4062R40x", b"1", End::Refused(7, 3)),
    ];
    for (input, replies, end) in rows {
        let mut out = Vec::new(alloc);
        assert_eq!(rt;
            served(alloc, Protocol::Bitbang, 2048, input, &mut out)?,
            Some(end)
        );
        assert_eq!(rt; out.as_slice(), replies);
    }
    Ok(())
}
