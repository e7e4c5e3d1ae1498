//! The program: a deck from standard input, its text to standard output, sixteen devices at the ports, and the exit status.
#![tactic(auto)]

use lvdc_console::run;
use lvdc_text::{StdSink, StdSource, keep_memory};
use std::process::ExitCode;
use std::{env, io};

/// The status where the program itself finds no memory; nothing is written then.
const NO_MEMORY: u8 = 9;

fn main(rt: HostRuntime) -> ExitCode {
    if keep_memory(rt.alloc()).is_err() {
        return ExitCode::from(NO_MEMORY);
    }
    let mut words = Vec::new(rt.alloc());
    match env::args(&rt) {
        Ok(args) => {
            for word in args.skip(1) {
                if words.push(word).is_err() {
                    return ExitCode::from(NO_MEMORY);
                }
            }
        }
        Err(error) if error.kind() == io::ErrorKind::OutOfMemory => {
            return ExitCode::from(NO_MEMORY);
        }
        // Arguments that are no text are no command line either.
        Err(_) => {}
    }
    let mut source = StdSource::new(rt.reader());
    let mut sink = StdSink::new(io::writer(&rt));
    match run(rt.alloc(), words.as_slice(), &mut source, &mut sink) {
        Ok(status) => ExitCode::from(status),
        Err(_) => ExitCode::from(NO_MEMORY),
    }
}
