//! The worker: frames from standard input, their replies to standard output, and the exit status.
#![tactic(auto)]

use lvdc_service::{refuse, serve};
use lvdc_text::{StdSink, StdSource, keep_memory};
use std::process::ExitCode;
use std::{env, io};

/// The status where the program itself finds no memory; nothing is written then.
const NO_MEMORY: u8 = 9;

fn main(rt: HostRuntime) -> ExitCode {
    if keep_memory(rt.alloc()).is_err() {
        return ExitCode::from(NO_MEMORY);
    }
    let mut sink = StdSink::new(io::writer(&rt));
    match env::args(&rt) {
        Ok(args) => {
            if args.skip(1).next().is_some() {
                return ExitCode::from(refuse(&mut sink));
            }
        }
        Err(error) if error.kind() == io::ErrorKind::OutOfMemory => {
            return ExitCode::from(NO_MEMORY);
        }
        // Arguments that are no text are arguments too.
        Err(_) => return ExitCode::from(refuse(&mut sink)),
    }
    let mut source = StdSource::new(rt.reader());
    ExitCode::from(serve(rt.alloc(), &mut source, &mut sink))
}
