//! The program `apsp`: takes the words of its command line, standard input and standard output, and
//! ends with the status that `top` gives. It prints nothing else.
#![tactic(auto)]

use apsp_io::{OpenGate, StdSink, StdSource};
use apsp_service::top;
use std::process::ExitCode;
use std::rt::Env;
use std::{env, io};

/// The status where the arguments are no text.
const NO_WORDS: u8 = 2;

/// The status where memory ran out.
const NO_MEMORY: u8 = 5;

fn main(rt: HostRuntime) -> ExitCode {
    let status = match words(&rt) {
        Ok(words) => {
            let mut source = StdSource::new(rt.stdin());
            let mut sink = StdSink::new(rt.stdout());
            top(&rt, rt.alloc(), &words, &mut source, &mut sink, &OpenGate)
        }
        Err(error) if error.kind() == io::ErrorKind::OutOfMemory => NO_MEMORY,
        Err(_) => NO_WORDS,
    };
    ExitCode::from(status)
}

/// The arguments after the program's name.
fn words<R: Env + AllocGlobal>(rt: &R) -> io::Result<Vec<String>> {
    Ok(env::args(rt)?.skip(1).collect(rt.alloc())?)
}
