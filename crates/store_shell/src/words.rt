ghost use Rattle.std.specs.Prelude.{◌≡◌, ◌≢◌, Some, IfErr, IfOk, IfSome};
ghost use Rattle.std.specs.Iterator.{Drains, IsFinite};
ghost use Rattle.store_shell.specs.Ended.{ended_status};

use crate::ending::{Ending, Fault, out_of_memory, usage};
use shell_session::{Form, Manner, ShellFault};
use std::alloc::{AllocError, Global};
use std::env;
use std::io::ErrorKind;
use std::rt::Env;

/// The words that the program was called with, its name first. A word that isn't UTF-8 is a usage fault.
pub(crate) fn words_of<R: Env + AllocGlobal>(rt: &R) -> Result<Vec<String>, Ending>
    ensures status { IfErr result (λ ending. ending.status ≡ ended_status ending.fault) }
{
    match env::args(rt) {
        Ok(words) => collected(rt.alloc(), words),
        Err(error) => Err(without_words(error.kind())),
    }
}

/// The words that an iterator gives, all of them and in its order. It fails only where memory is refused.
fn collected<I: Iterator<Item = String>>(alloc: Global, words: I) -> Result<Vec<String>, Ending>
    requires can { I.can_next words }
    requires ends { IsFinite (I.remaining words) }
    ensures all { IfOk result (λ taken. Drains I.next_gives words taken.items) }
    ensures memory { IfErr result (λ ending. ending ≡ record { status = 8; fault = Some (Fault.Shell ShellFault.Memory) }) }
{
    match words.collect(alloc) {
        Ok(words) => Ok(words),
        Err(AllocError) => Err(out_of_memory()),
    }
}

/// How the program ends where its words could not be taken, for a cause of this kind.
fn without_words(kind: ErrorKind) -> Ending
    ensures status { result.status ≡ ended_status result.fault }
    ensures memory { kind ≡ ErrorKind.OutOfMemory → result.fault ≡ Some (Fault.Shell ShellFault.Memory) }
    ensures usage { kind ≢ ErrorKind.OutOfMemory → result.fault ≡ Some Fault.Usage }
{
    match kind {
        ErrorKind::OutOfMemory => out_of_memory(),
        _ => usage(),
    }
}

/// How the shell answers by the words after the store's name: `--json`, `--stop`, each at most once, in any order. None where
/// they are others.
pub(crate) fn manner_of(words: &[String], prompts: bool) -> Option<Manner>
    ensures { IfSome result (λ manner. manner.prompts ≡ prompts) }
{
    let (json, stop) = match words {
        [] => (false, false),
        [one] => match one.as_str() {
            "--json" => (true, false),
            "--stop" => (false, true),
            _ => return None,
        },
        [one, two] => match (one.as_str(), two.as_str()) {
            ("--json", "--stop") | ("--stop", "--json") => (true, true),
            _ => return None,
        },
        _ => return None,
    };
    Some(Manner {
        form: if json { Form::Json } else { Form::Lines },
        stops: stop,
        prompts,
    })
}
