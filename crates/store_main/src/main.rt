//! The program: it takes the store's name, the first word, opens its disk, and hands that, the other words and the standard
//! streams to the store. What it tells of a fault goes to standard error.
#![tactic(auto)]

mod ending;
mod serving;
mod words;

use crate::ending::exit_code;
use crate::serving::serve_system;
use crate::words::words_of;
use std::process::ExitCode;

fn main(rt: HostRuntime) -> ExitCode {
    let ending = match words_of(&rt) {
        Ok(words) => serve_system(&rt, &words),
        Err(ending) => ending,
    };
    if let Some(fault) = &ending.fault {
        let _ = eprintln!(rt; "subjectdb: {fault}");
    }
    exit_code(&ending)
}
