//! Messages and replies of XVC 1.0 as bytes, from outside.

ghost use Rattle.std.specs.Prelude.{◌≤◌};
ghost use Rattle.xvc_frame.specs.Frames.{IsOpen, Tells};

use crate::encode::{encode_shift, encode_word};
use crate::frame::XvcFrame;
use crate::{FrameStep, Msg};
use std::alloc::AllocError;
use std::process::Abort;
use std::test::Fail;

/// A `shift:` of 38 cycles that goes from Run-Test/Idle through 32 bits of the data register and back.
const READ: &[u8] = &[
    0x73, 0x68, 0x69, 0x66, 0x74, 0x3a, 0x26, 0, 0, 0, 0x02, 0, 0, 0, 0x18, 0, 0, 0, 0, 0,
];

#[test]
fn messages_are_encoded(rt: HostRuntime) -> Result<(), Fail> {
    let mut out = Vec::new(rt.alloc());
    encode_shift(38, &[2, 0, 0, 0, 0x18], &[0, 0, 0, 0, 0], &mut out)?;
    assert_eq!(rt; out.as_slice(), READ);
    out.clear();
    encode_word(Msg::SetTck(100), &mut out)?;
    assert_eq!(rt; out.as_slice(), b"settck:\x64\0\0\0".as_slice());
    out.clear();
    encode_word(Msg::GetInfo, &mut out)?;
    assert_eq!(rt; out.as_slice(), b"getinfo:".as_slice());
    Ok(())
}

/// Gives the bytes in pieces, each of at most so many bytes and of no more than are wanted, and answers what the last one makes.
fn fed(frame: &mut XvcFrame, bytes: &[u8], most: usize) -> FrameStep
    requires open { IsOpen frame.old }
    requires most { 1 ≤ most }
    ensures { Tells frame.new.vector frame.new.held result }
{
    let mut rest = bytes;
    while !rest.is_empty() {
        let count = frame.want().min(most).min(rest.len());
        let (piece, more) = rest.split_at(count);
        match frame.take(piece) {
            FrameStep::More => rest = more,
            step => return step,
        }
    }
    FrameStep::More
}

/// What the bytes make where the announced vector length is this.
fn step_of(
    rt: &HostRuntime,
    vector: u32,
    bytes: &[u8],
    most: usize,
) -> Result<FrameStep, AllocError>
    requires some { 1 ≤ vector }
    requires vector { vector ≤ 65536 }
    requires most { 1 ≤ most }
{
    let mut frame = XvcFrame::new(rt.alloc(), vector)?;
    Ok(fed(&mut frame, bytes, most))
}

#[test]
fn bytes_make_messages(rt: HostRuntime) -> Result<(), Fail> {
    for most in 1..21 {
        assert_eq!(rt;
            step_of(&rt, 2048, b"getinfo:", most)?,
            FrameStep::Whole(Msg::GetInfo)
        );
        assert_eq!(rt;
            step_of(&rt, 2048, b"settck:\x64\0\0\0", most)?,
            FrameStep::Whole(Msg::SetTck(100))
        );
        assert_eq!(rt;
            step_of(&rt, 2048, b"shoft:", most)?,
            FrameStep::Refused { at: 2, cause: 1 }
        );
        assert_eq!(rt;
            step_of(&rt, 2048, READ, most)?,
            FrameStep::Whole(Msg::Shift(38))
        );
        assert_eq!(rt; step_of(&rt, 2048, &READ[..19], most)?, FrameStep::More);
        assert_eq!(rt;
            step_of(&rt, 1, b"shift:\x08\0\0\0\0\0", most)?,
            FrameStep::Whole(Msg::Shift(8))
        );
        assert_eq!(rt;
            step_of(&rt, 1, b"shift:\x09\0\0\0\0\0\0\0", most)?,
            FrameStep::Refused { at: 6, cause: 2 }
        );
        assert_eq!(rt;
            step_of(&rt, 1, b"shift:\0\0\0\0", most)?,
            FrameStep::Whole(Msg::Shift(0))
        );
    }
    Ok(())
}

#[test]
fn the_reply_takes_the_place_of_tdi(rt: HostRuntime) -> Result<(), Fail> {
    let mut bytes = Vec::new(rt.alloc());
    encode_shift(
        38,
        &[2, 0, 0, 0, 0x18],
        &[0xff, 0xff, 0xff, 0xff, 0xff],
        &mut bytes,
    )?;
    let mut frame = XvcFrame::new(rt.alloc(), 2048)?;
    assert_eq!(rt; frame.want(), 8);
    let step = fed(&mut frame, &bytes, 7);
    assert!(rt; answered(&rt, &mut frame, step));
    frame.clear();
    assert_eq!(rt; frame.want(), 8);
    Ok(())
}

/// Puts the TDO bits of 38 cycles, and tells whether the bits and the reply are those that they should be.
fn answered(rt: &impl Abort, frame: &mut XvcFrame, step: FrameStep) -> bool
    requires { Tells frame.old.vector frame.old.held step }
{
    let FrameStep::Whole(Msg::Shift(cycles)) = step else {
        return false;
    };
    if cycles != 38 {
        return false;
    }
    assert_eq!(rt; frame.tms_word(0, 38), 0x18_0000_0002);
    assert!(rt; frame.tms(1) && !frame.tms(0) && frame.tdi(37));
    frame.put_tdo_word(0, 37, 0x11_abcd_00ff);
    frame.put_tdo(37, true);
    assert_eq!(rt; frame.tdi_word(0, 38), 0x31_abcd_00ff);
    frame.clear_spare();
    frame.tdo_bytes() == [0xff, 0x00, 0xcd, 0xab, 0x31].as_slice()
}
