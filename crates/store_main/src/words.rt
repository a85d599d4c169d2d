ghost use Rattle.std.specs.Prelude.{◌≡◌, ◌≢◌, ◌⊎◌, IfErr, IfOk, Some};
ghost use Rattle.std.specs.Iterator.{Drains, IsFinite};
ghost use Rattle.store_top.specs.Status.{status_of};

use crate::ending::{Ending, out_of_memory, usage};
use std::alloc::{AllocError, Global};
use std::env;
use std::io::ErrorKind;
use std::rt::Env;
use store_top::TopFault;

/// The words that the program was called with, its name first. A word that isn't UTF-8 is a usage fault.
pub(crate) fn words_of<R: Env + AllocGlobal>(rt: &R) -> Result<Vec<String>, Ending>
    ensures status { IfErr result (λ ending. ending.status ≡ status_of ending.fault) }
    ensures fault { IfErr result (λ ending. (ending.fault ≡ Some TopFault.Usage) ⊎ (ending.fault ≡ Some TopFault.Memory)) }
{
    match env::args(rt) {
        Ok(words) => collected(rt.alloc(), words),
        Err(error) => Err(without_words(error.kind())),
    }
}

/// The words that an iterator gives, all of them and in its order. It fails only where memory is refused.
fn collected<I: Iterator<Item = String>>(alloc: Global, words: I) -> Result<Vec<String>, Ending>
    requires can { I.can_next words }
    requires ends { IsFinite (I.remaining words) }
    ensures all { IfOk result (λ taken. Drains I.next_gives words taken.items) }
    ensures memory { IfErr result (λ ending. ending ≡ record { status = 8; fault = Some TopFault.Memory }) }
{
    match words.collect(alloc) {
        Ok(words) => Ok(words),
        Err(AllocError) => Err(out_of_memory()),
    }
}

/// How the program ends where its words could not be taken, for a cause of this kind.
fn without_words(kind: ErrorKind) -> Ending
    ensures status { result.status ≡ status_of result.fault }
    ensures memory { kind ≡ ErrorKind.OutOfMemory → result.fault ≡ Some TopFault.Memory }
    ensures usage { kind ≢ ErrorKind.OutOfMemory → result.fault ≡ Some TopFault.Usage }
{
    match kind {
        ErrorKind::OutOfMemory => out_of_memory(),
        _ => usage(),
    }
}
