//! The program `relayout`: a script of requests on standard input, one a line, and the replies on standard output.
#![tactic(auto)]

#[cfg(test)]
mod tests;

use port_core::{NoMemory, StdSink, StdSource, Steps};
use relayout_cli::{Status, run};
use std::env;
use std::process::ExitCode;

/// The status where the runtime hands out no words. It is no status of a run.
const NO_WORDS: u8 = 7;

/// The key of the program's one ledger.
#[derive(Drop)]
struct Key;

fn main(rt: HostRuntime) -> ExitCode {
    let Ok(args) = env::args(&rt) else {
        return ExitCode::from(NO_WORDS);
    };
    let words: Vec<String> = match args.collect(rt.alloc()) {
        Ok(words) => words,
        Err(NoMemory) => return ExitCode::from(Status::NoMemory.number()),
    };
    let mut source = StdSource::new(rt.stdin());
    let mut sink = StdSink::new(rt.stdout());
    let mut steps = Steps::new(Key);
    let status = run(
        rt.alloc(),
        words.as_slice(),
        &mut source,
        &mut sink,
        &mut steps,
    );
    ExitCode::from(status.number())
}
