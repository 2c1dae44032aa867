ghost use Rattle.std.specs.Prelude.{◌≤◌};

use crate::{Connection, Standing, put_connection, put_counts, put_latch};
use client_session::End;
use ports::MemSink;
use scan_bits::Bits;
use std::alloc::{AllocError, Global};
use std::test::Fail;

const CONNECTIONS: &[u8] = b"conn 1 port 2542 grant 1 took 28 gave 3f1e0003 live
conn 2 port 2543 grant 2 took 20 gave - gone 20
conn 3 port 2543 grant 0 took 0 gave - away
conn 4 port 2543 grant 2 took 20 gave - waits
";

const DEVICES: &[u8] = b"device 1 captures 1 updates 2
latch 1 USER a5
latch 2 BOUNDARY 2a0123456789abcdef
";

fn row(conn: u64, port: u16, grant: u64, took: u64, gave: &[u8], standing: Standing) -> Connection {
    Connection {
        conn,
        port,
        grant,
        took,
        gave,
        standing,
    }
}

#[test]
fn connections_are_told(rt: HostRuntime) -> Result<(), Fail> {
    let alloc = rt.alloc();
    let mut out = MemSink::new(alloc, 400, 7, Vec::new(alloc))?;
    let rows = [
        row(1, 2542, 1, 28, b"\x3f\x1e\0\x03", Standing::Live),
        row(2, 2543, 2, 20, b"", Standing::Ended(End::Gone(20))),
        row(3, 2543, 0, 0, b"", Standing::Away),
        row(4, 2543, 2, 20, b"", Standing::Waits),
    ];
    for row in rows.iter() {
        assert!(rt; put_connection(&mut out, row).is_ok());
    }
    assert_eq!(rt; out.written(), CONNECTIONS);
    Ok(())
}

// The bits of a word and, nearer TDI, those of another.
fn bits(alloc: Global, low: (u32, u64), high: (u32, u64)) -> Result<Bits, AllocError>
    requires low { low.0 ≤ 64 }
    requires high { high.0 ≤ 64 }
{
    let mut bits = Bits::with_room(alloc, 128)?;
    bits.push_word(low.0, low.1);
    if high.0 as usize <= bits.room().saturating_sub(bits.len()) {
        bits.push_word(high.0, high.1);
    }
    Ok(bits)
}

#[test]
fn devices_are_told(rt: HostRuntime) -> Result<(), Fail> {
    let alloc = rt.alloc();
    let mut out = MemSink::new(alloc, 400, 7, Vec::new(alloc))?;
    assert!(rt; put_counts(&mut out, 1, 1, 2).is_ok());
    let user = bits(alloc, (4, 5), (4, 10))?;
    assert!(rt; put_latch(&mut out, 1, b"USER", &user).is_ok());
    let boundary = bits(alloc, (64, 0x0123_4567_89ab_cdef), (6, 0x2a))?;
    assert!(rt; put_latch(&mut out, 2, b"BOUNDARY", &boundary).is_ok());
    assert_eq!(rt; out.written(), DEVICES);
    Ok(())
}
