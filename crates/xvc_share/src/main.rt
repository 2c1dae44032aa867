//! A server for JTAG cables over the network: the program.
#![tactic(auto)]

use chain_model::Chain;
use mio_wire::MioWire;
use ports::{FolderShelf, Sink, StdSink, StdSource, write_all};
use share_top::{Ran, run};
use std::alloc::Global;
use std::env;
use std::io::ErrorKind;
use std::process::ExitCode;
use std::sync::Wait;

/// The status where a write failed.
const WRITE_FAULT: u8 = 5;

/// The status where memory is wanting.
const MEMORY: u8 = 9;

/// Memory is wanting.
#[derive(Drop)]
struct NoMemory;

// The arguments without the program's name. Where one of them is no UTF-8 there are none, which is no command.
fn words(rt: &HostRuntime, alloc: Global) -> Result<Vec<String>, NoMemory> {
    let mut words = Vec::new(alloc);
    match env::args(rt) {
        Ok(args) => {
            for word in args.skip(1) {
                if words.push(word).is_err() {
                    return Err(NoMemory);
                }
            }
        }
        Err(fault) => {
            if fault.kind() == ErrorKind::OutOfMemory {
                return Err(NoMemory);
            }
        }
    }
    Ok(words)
}

// Says on standard output that memory is wanting.
fn tell_no_memory<O: Sink>(out: &mut O) -> u8 {
    match write_all(out, b"memory\n") {
        Ok(()) => MEMORY,
        Err(_) => WRITE_FAULT,
    }
}

fn run_words<R: Wait>(waits: &R, rt: HostRuntime, alloc: Global) -> u8 {
    let words = words(&rt, alloc);
    let input: Result<HostRuntime, _> = rt.clone();
    let files: Result<HostRuntime, _> = rt.clone();
    let sockets: Result<HostRuntime, _> = rt.clone();
    let mut out = StdSink::new(rt);
    let (Ok(words), Ok(input), Ok(files), Ok(sockets)) = (words, input, files, sockets) else {
        return tell_no_memory(&mut out);
    };
    let Ok(wire) = MioWire::new(sockets, alloc, None) else {
        return tell_no_memory(&mut out);
    };
    let mut shelf = FolderShelf::new(files, alloc);
    let mut input = StdSource::new(input);
    let Ran {
        status,
        bench: _,
        out: _,
        wire: _,
    } = run(
        waits,
        alloc,
        &words,
        Chain::empty(),
        &mut shelf,
        &mut input,
        out,
        wire,
    );
    status
}

fn main(rt: HostRuntime) -> ExitCode {
    let alloc = rt.alloc();
    let own: Result<HostRuntime, _> = rt.clone();
    let status = match own {
        Ok(own) => run_words(&rt, own, alloc),
        Err(_) => tell_no_memory(&mut StdSink::new(rt)),
    };
    ExitCode::from(status)
}
