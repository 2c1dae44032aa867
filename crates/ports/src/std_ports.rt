// The standard streams.
ghost use Rattle.std.specs.Prelude.{◌≡◌, None};

use crate::{PortFault, Sink, Source};
use std::io::Read;

/// Standard input, over the runtime that it was made with. It tells the bytes that are left where the runtime's reader
/// does, which one of the system does not.
#[derive(Drop)]
pub struct StdSource<R: Input> {
    rt: R,
    reader: R::Reader,
    faults: u64,
}

impl<R: Input> StdSource<R> {
    /// Standard input of this runtime. No read failed yet.
    pub fn new(rt: R) -> Self
        ensures { ⟦<StdSource<R> as Source>⟧.fault_count result ≡ 0 }
    {
        let reader = rt.reader();
        StdSource {
            rt,
            reader,
            faults: 0,
        }
    }
}

impl<R: Input> Source for StdSource<R> {
    ghost left = { λ s. R.Reader.remaining s.reader };

    ghost fault_count = { λ s. s.faults };

    fn read(&mut self, buf: &mut [u8]) -> Result<usize, PortFault> {
        match self.reader.read(buf) {
            Ok(count) => Ok(count),
            Err(_) => {
                self.faults = self.faults.saturating_add(1);
                Err(PortFault)
            }
        }
    }

    fn faults(&self) -> u64 {
        self.faults
    }
}

/// Standard output, over the runtime that it was made with. It does not tell the bytes that went out.
#[derive(Drop)]
pub struct StdSink<R: Print> {
    rt: R,
    faults: u64,
}

impl<R: Print> StdSink<R> {
    /// Standard output of this runtime. No write failed yet.
    pub fn new(rt: R) -> Self
        ensures { ⟦<StdSink<R> as Sink>⟧.fault_count result ≡ 0 }
    {
        StdSink { rt, faults: 0 }
    }
}

impl<R: Print> Sink for StdSink<R> {
    ghost sent = { λ _. None };

    ghost fault_count = { λ s. s.faults };

    // A write of the runtime that takes no byte is a fault too.
    fn write(&mut self, piece: &[u8]) -> Result<usize, PortFault> {
        match self.rt.write_some(piece) {
            Ok(count) if count > 0 => Ok(count),
            _ => {
                self.faults = self.faults.saturating_add(1);
                Err(PortFault)
            }
        }
    }

    fn faults(&self) -> u64 {
        self.faults
    }
}
