// Reads and writes in memory, with short ones and failing ones in mid-stream.
ghost use Rattle.std.specs.Prelude.{◌<◌};

use super::*;
use std::alloc::{AllocError, Global};
use std::fs;
use std::test::Fail;

fn source(
    alloc: Global,
    bytes: &[u8],
    pieces: &[usize],
    fails: &[u64],
) -> Result<MemSource, AllocError> {
    Ok(MemSource::new(
        bytes.to_vec(alloc)?,
        pieces.to_vec(alloc)?,
        fails.to_vec(alloc)?,
    ))
}

fn sink(alloc: Global, room: usize, most: usize, fails: &[u64]) -> Result<MemSink, AllocError>
    requires { 0 < most }
{
    MemSink::new(alloc, room, most, fails.to_vec(alloc)?)
}

#[test]
fn reads_give_the_pieces(rt: HostRuntime) -> Result<(), Fail> {
    let mut input = source(rt.alloc(), b"abcdefgh", &[3, 0, 2], &[])?;
    let mut buf = [0; 4];
    for count in [3, 1, 2, 2, 0] {
        assert_eq!(rt; input.read(&mut buf), Ok(count));
    }
    assert_eq!(rt; buf, *b"ghc\0");
    Ok(())
}

#[test]
fn a_failed_read_loses_no_byte(rt: HostRuntime) -> Result<(), Fail> {
    let mut input = source(rt.alloc(), b"abcdef", &[2], &[2])?;
    let mut buf = [0; 4];
    assert_eq!(rt; input.read(&mut buf), Ok(2));
    assert_eq!(rt; input.read(&mut buf), Err(PortFault));
    assert_eq!(rt; input.faults(), 1);
    assert_eq!(rt; input.read(&mut buf), Ok(4));
    assert_eq!(rt; buf, *b"cdef");
    assert_eq!(rt; input.faults(), 1);
    Ok(())
}

#[test]
fn a_full_sink_takes_nothing(rt: HostRuntime) -> Result<(), Fail> {
    let mut out = sink(rt.alloc(), 5, 3, &[])?;
    assert_eq!(rt; out.write(b"abcdefg"), Ok(3));
    assert_eq!(rt; out.write(b"defg"), Ok(2));
    assert_eq!(rt; out.write(b"fg"), Err(PortFault));
    assert_eq!(rt; out.faults(), 1);
    assert_eq!(rt; out.written(), b"abcde".as_slice());
    Ok(())
}

#[test]
fn a_buffer_is_filled_over_short_reads(rt: HostRuntime) -> Result<(), Fail> {
    let mut input = source(rt.alloc(), b"abcdefgh", &[1, 0, 2, 9], &[6])?;
    let mut buf = [0; 5];
    assert_eq!(rt; fill(&mut input, &mut buf), Ok(5));
    assert_eq!(rt; buf, *b"abcde");
    assert_eq!(rt; fill(&mut input, &mut buf), Err(PortFault));
    assert_eq!(rt; buf, *b"fghde");
    assert_eq!(rt; fill(&mut input, &mut buf), Ok(0));
    Ok(())
}

#[test]
fn a_text_is_written_over_short_writes(rt: HostRuntime) -> Result<(), Fail> {
    let mut out = sink(rt.alloc(), 20, 2, &[5])?;
    assert_eq!(rt; write_all(&mut out, b"abcde"), Ok(()));
    assert_eq!(rt; write_all(&mut out, b"fghij"), Err(PortFault));
    assert_eq!(rt; out.written(), b"abcdefg".as_slice());
    Ok(())
}

fn shelf(alloc: Global) -> Result<MemShelf, AllocError> {
    let mut files = Vec::new(alloc);
    for (name, bytes) in [("a", b"first"), ("b", b"other"), ("a", b"later")] {
        files.push((String::from_str(alloc, name)?, bytes.to_vec(alloc)?))?;
    }
    Ok(MemShelf::new(alloc, files, [3].to_vec(alloc)?))
}

#[test]
fn a_shelf_in_memory_gives_its_first_entry(rt: HostRuntime) -> Result<(), Fail> {
    let alloc = rt.alloc();
    let mut files = shelf(alloc)?;
    assert!(rt;
        files
            .load(alloc, "a", 9)
            .is_ok_and(|bytes| bytes.as_slice() == b"first".as_slice())
    );
    assert!(rt;
        files
            .load(alloc, "b", 2)
            .is_ok_and(|bytes| bytes.as_slice() == b"ot".as_slice())
    );
    assert!(rt;
        files
            .load(alloc, "a", 9)
            .is_err_and(|fault| fault == LoadFault::Fault)
    );
    assert_eq!(rt; files.faults(), 1);
    assert!(rt;
        files
            .load(alloc, "c", 9)
            .is_err_and(|fault| fault == LoadFault::Absent)
    );
    assert_eq!(rt; files.faults(), 1);
    Ok(())
}

// A name that leads through a file, and one of a folder, are faults.
#[test]
fn only_a_missing_file_is_absent_from_a_folder(rt: HostRuntime) -> Result<(), Fail> {
    let alloc = rt.alloc();
    fs::write(&rt, "written_by_a_test", b"content")?;
    let mut files = FolderShelf::new(rt.clone()?, alloc);
    let front = files.load(alloc, "written_by_a_test", 4);
    let whole = files.load(alloc, "written_by_a_test", 9);
    let below = files.load(alloc, "written_by_a_test/below", 9);
    fs::remove_file(&rt, "written_by_a_test")?;
    assert!(rt; front.is_ok_and(|bytes| bytes.as_slice() == b"cont".as_slice()));
    assert!(rt; whole.is_ok_and(|bytes| bytes.as_slice() == b"content".as_slice()));
    assert!(rt; below.is_err_and(|found| found == LoadFault::Fault));
    assert_eq!(rt; files.faults(), 1);
    for (name, fault, faults) in [
        ("written_by_a_test", LoadFault::Absent, 1),
        (".", LoadFault::Fault, 2),
    ] {
        assert!(rt;
            files
                .load(alloc, name, 4)
                .is_err_and(|found| found == fault),
            "{name}"
        );
        assert_eq!(rt; files.faults(), faults);
    }
    Ok(())
}
