// A session over a chain of two demo devices, of which the first is lent.
ghost use Rattle.std.specs.Prelude.{◌<◌, length, IfOk, IfSome};

use crate::untold::UntoldChain;
use base_types::Items;
use chain_model::{Bench, Board, Chain, demo_board};
use chain_token::Token;
use client_session::{End, Session, leave};
use grant_table::{Grant, Layout, Protocol, layout_fault};
use lone_session::{Served, serve};
use ports::{MemSink, MemSource};
use scan_share::Parked;
use std::alloc::{AllocError, Global};
use std::test::Fail;

// A chain of two demo devices at power-up; None where it was not assembled.
fn two_devices(alloc: Global) -> Result<Option<UntoldChain>, AllocError> {
    let mut chain = Chain::empty();
    let first = demo_board(alloc)?;
    let second = demo_board(alloc)?;
    if chain.assemble(alloc, &[first, second], &[]).is_err() {
        return Ok(None);
    }
    Ok(Some(UntoldChain::new(chain)))
}

// A layout of two demo devices with a grant of the first; None where it has a fault.
fn one_lent(alloc: Global) -> Result<Option<Layout>, AllocError>
    ensures { IfOk result (λ found. IfSome found (λ layout. 0 < length layout.grants)) }
{
    let Board {
        part: first,
        pins: _,
    } = demo_board(alloc)?;
    let Board {
        part: second,
        pins: _,
    } = demo_board(alloc)?;
    let mut parts = Vec::new(alloc);
    parts.push(first)?;
    parts.push(second)?;
    let mut devices = Vec::new(alloc);
    devices.push(1)?;
    let mut grants = Vec::new(alloc);
    grants.push(Grant {
        devices: Items::from_vec(devices),
        port: 2542,
        protocol: Protocol::Xvc,
    })?;
    let nets = Vec::new(alloc);
    if layout_fault(parts.len(), &grants, &nets).is_some() {
        return Ok(None);
    }
    let layout = Layout::new(alloc, parts, grants, nets)?;
    if layout.grants() == 0 {
        return Ok(None);
    }
    Ok(Some(layout))
}

// How a session came to its end that was served from an input to an output; None where it was not.
fn served(
    alloc: Global,
    input: &mut MemSource,
    out: &mut MemSink,
) -> Result<Option<Served>, AllocError> {
    let Some(layout) = one_lent(alloc)? else {
        return Ok(None);
    };
    let Some(cable) = two_devices(alloc)? else {
        return Ok(None);
    };
    let mut session = Session::new(alloc, &layout, 0, 2048, false)?;
    match Parked::start(cable, &layout) {
        Ok(parked) => {
            session.open(&layout);
            let mut buffer = [0; 16];
            match serve(
                &mut session,
                Token::new(parked),
                &layout,
                &mut buffer,
                input,
                out,
            ) {
                Ok((served, desk)) => {
                    leave(desk);
                    Ok(Some(served))
                }
                Err(broken) => {
                    broken.into_cable();
                    Ok(None)
                }
            }
        }
        Err(broken) => {
            broken.into_cable();
            Ok(None)
        }
    }
}

// `getinfo:`, and a read of the identification.
const INPUT: [u8; 28] = [
    0x67, 0x65, 0x74, 0x69, 0x6e, 0x66, 0x6f, 0x3a, 0x73, 0x68, 0x69, 0x66, 0x74, 0x3a, 0x26, 0, 0,
    0, 2, 0, 0, 0, 0x18, 0, 0, 0, 0, 0,
];

// The same, in pieces; the reads with these numbers fail.
fn source(alloc: Global, fails: &[u64]) -> Result<MemSource, AllocError> {
    let mut bytes = Vec::new(alloc);
    bytes.extend_from_slice(&INPUT)?;
    let mut pieces = Vec::new(alloc);
    pieces.push(3)?;
    let mut failing = Vec::new(alloc);
    failing.extend_from_slice(fails)?;
    Ok(MemSource::new(bytes, pieces, failing))
}

#[test]
fn replies_go_out(rt: HostRuntime) -> Result<(), Fail> {
    let alloc = rt.alloc();
    let mut input = source(alloc, &[])?;
    let mut out = MemSink::new(alloc, 64, 7, Vec::new(alloc))?;
    assert_eq!(rt;
        served(alloc, &mut input, &mut out)?,
        Some(Served::Ended(End::Gone(28)))
    );
    assert_eq!(rt;
        out.written(),
        b"xvcServer_v1.0:2048\n\xff\0\xcd\xab\x31".as_slice()
    );
    Ok(())
}

#[test]
fn faults_are_told(rt: HostRuntime) -> Result<(), Fail> {
    let alloc = rt.alloc();
    let mut input = source(alloc, &[3])?;
    let mut out = MemSink::new(alloc, 64, 64, Vec::new(alloc))?;
    assert_eq!(rt;
        served(alloc, &mut input, &mut out)?,
        Some(Served::ReadFault)
    );
    assert_eq!(rt; out.written(), b"xvcServer_v1.0:2048\n".as_slice());
    let mut input = source(alloc, &[])?;
    let mut out = MemSink::new(alloc, 9, 64, Vec::new(alloc))?;
    assert_eq!(rt;
        served(alloc, &mut input, &mut out)?,
        Some(Served::WriteFault)
    );
    assert_eq!(rt; out.written(), b"xvcServer".as_slice());
    Ok(())
}
