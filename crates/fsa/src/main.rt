//! The program `fsa`: it runs a script from standard input, on one thread or each client on its own, and writes the
//! history to standard output, or runs a generated script and writes its summary.
#![tactic(auto)]

use fsa_top::fsa_main;
use std::alloc::AllocError;
use std::io;
use std::process::ExitCode;
use std::rt::Env;
use wire_io::{OpenGate, StdSink, StdSource};

// The words behind the program's name.
fn words<R: Env + AllocGlobal>(rt: &R) -> io::Result<Vec<String>> {
    let mut words = Vec::new(rt.alloc());
    for word in std::env::args(rt)?.skip(1) {
        words.push(word).map_err(AllocError::from)?;
    }
    Ok(words)
}

fn main(rt: HostRuntime) -> ExitCode {
    let Ok(words) = words(&rt) else {
        return ExitCode::from(5);
    };
    let mut source = StdSource::new(rt.reader());
    let mut sink = StdSink::new(io::writer(&rt));
    let gate = OpenGate;
    ExitCode::from(fsa_main(
        &rt,
        rt.alloc(),
        words.as_slice(),
        &mut source,
        &mut sink,
        &gate,
    ))
}
