//! Laws of the definitions in `specs/`: each function does nothing, and what it ensures holds of every database,
//! history and list of calls.
ghost use Rattle.std.specs.Prelude.{◌≡◌, ℕ, List, ◌++◌, length};
ghost use Rattle.std.specs.List.{AllByRecursion};
ghost use Rattle.own_model.specs.declared.history.Verdict.TheVariants.{Took};
ghost use Rattle.own_model.specs.declared.script.ScriptCall.{ScriptCall};
ghost use Rattle.own_model.specs.Db.{Db};
ghost use Rattle.history_model.specs.History.{History};
ghost use Rattle.history_model.specs.Made.{Called, made};
ghost use Rattle.transcript_model.specs.Printed.{printed};
ghost use Rattle.transcript_model.specs.TellsMemory.{TellsMemory};
ghost use Rattle.transcript_model.specs.Transcript.{IsSpared, IsTranscript, spared};

/// Over one history, the text of calls is that of the first of them, and after it that of the rest.
pub fn calls_print_one_behind_the_other()
    ensures { (base : Db) (history : History) (calls more : List Called)
        → printed base history (calls ++ more) ≡ printed base history calls ++ printed base history more }
{}

/// Where memory refuses no call of a transcript, and the disk takes what each writes, its history and its text are functions
/// of the database and the calls: each call's entry in order, and the lines of each call's reply.
pub fn spared_run_is_a_function_of_its_calls()
    ensures { (base : Db) (calls : List ScriptCall) (history : History) (text : List ℕ) (transcript : IsTranscript base calls history text)
        → IsSpared transcript.called → (history ≡ made (spared calls)) × (text ≡ printed base (made (spared calls)) (spared calls)) }
{}

/// The same is so of every transcript whose history has an entry for each call, of which the disk took each, and whose text
/// tells of memory at no place.
pub fn full_run_that_tells_no_memory_is_a_function_of_its_calls()
    ensures { (base : Db) (calls : List ScriptCall) (history : History) (text : List ℕ) → IsTranscript base calls history text
        → length history ≡ length calls → AllByRecursion (λ entry. entry.verdict ≡ Took) history → (TellsMemory text → ⊥)
        → (history ≡ made (spared calls)) × (text ≡ printed base (made (spared calls)) (spared calls)) }
{}
