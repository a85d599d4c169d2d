//! The shell: it takes the store's name, the first word, opens its disk, and serves what it reads from standard input as it
//! comes. What it tells of a fault, and what it prompts somebody at a terminal with, goes to standard error.
#![tactic(auto)]

mod ending;
mod notes;
mod serving;
mod words;

use crate::ending::exit_code;
use crate::notes::ErrorNotes;
use crate::serving::serve_system;
use crate::words::words_of;
use std::io::IsTerminal;
use std::process::ExitCode;

fn main(rt: HostRuntime) -> ExitCode {
    let mut notes = ErrorNotes::new(rt.stderr());
    let prompts = rt.stdin().is_terminal();
    let ending = match words_of(&rt) {
        Ok(words) => serve_system(&rt, &words, prompts, &mut notes),
        Err(ending) => ending,
    };
    if let Some(fault) = &ending.fault {
        let _ = eprintln!(rt; "subjectdb: {fault}");
    }
    exit_code(&ending)
}
