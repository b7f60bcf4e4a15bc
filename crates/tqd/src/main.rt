//! The program: it runs the command that its words name, on real files and standard output, and ends with the status
//! of the answer.
#![tactic(auto)]

mod pulse;

use pulse::Pulse;
use std::env;
use std::io::{Error, ErrorKind};
use std::process::ExitCode;
use tqd_base::RealDesk;
use tqd_top::run;

/// The status where memory is wanting for the words, as that of the answer Memory.
const NO_MEMORY: u8 = 7;

/// The status where the runtime does not give the words, as it may for a word that is not UTF-8. No answer has it.
const NO_WORDS: u8 = 9;

/// The status where the runtime gives no words.
fn status_without_words(error: &Error) -> u8 {
    match error.kind() {
        ErrorKind::OutOfMemory => NO_MEMORY,
        _ => NO_WORDS,
    }
}

/// Whether the launcher, or whoever calls the program, asks for a sign of life.
fn wants_pulse(rt: &HostRuntime) -> bool {
    match env::var(rt, "TQD_PROGRESS") {
        Ok(word) => word.as_str() == "1",
        Err(_) => false,
    }
}

fn main(rt: HostRuntime) -> ExitCode {
    let alloc = rt.alloc();
    let args = match env::args(&rt) {
        Ok(args) => args,
        Err(error) => return ExitCode::from(status_without_words(&error)),
    };
    // The first is the program's name.
    let words: Result<Vec<String>, _> = args.skip(1).collect(alloc);
    let Ok(words) = words else {
        return ExitCode::from(NO_MEMORY);
    };
    let mut desk = RealDesk::new(&rt, alloc);
    let pulse = Pulse::new(&rt, wants_pulse(&rt));
    let ended = run(&rt, alloc, &words, &mut desk, &pulse);
    pulse.end();
    ExitCode::from(ended.status)
}
