//! What follows from the definitions in `specs/`: the function does nothing, and what it ensures holds of every large script.
ghost use Rattle.std.specs.Prelude.{ℕ, ◌+◌, ◌≤◌, ◌<◌, List, [], length};
ghost use Rattle.std.specs.List.{AllByRecursion};
ghost use Rattle.own_model.specs.declared.limit.TheConstants.{INPUT_CALLS, SESSIONS};
ghost use Rattle.own_model.specs.declared.script.ScriptCall.{ScriptCall};
ghost use Rattle.grammar_model.specs.Readable.{IsReadable};
ghost use Rattle.script_model.specs.Numbered.{AreNumbered};
ghost use Rattle.script_model.specs.Split.{IsOfASession};
ghost use Rattle.made_model.specs.Made.{IsMade};
ghost use Rattle.made_model.specs.declared.limits.TheConstants.{PEOPLE};

/// The calls of a large script are what those of an input are: no more than an input may have and an End, each of a session,
/// numbered there from 1 without a gap, and each asking for what can be read.
pub fn calls_of_a_large_script()
    ensures few { (people seed : ℕ) (calls : List ScriptCall) → people ≤ PEOPLE → IsMade people seed calls → length calls ≤ INPUT_CALLS + SESSIONS }
    ensures sessions { (people seed : ℕ) (calls : List ScriptCall) → IsMade people seed calls → AllByRecursion IsOfASession calls }
    ensures numbered { (people seed : ℕ) (calls : List ScriptCall) → IsMade people seed calls → AreNumbered [] calls }
    ensures readable { (people seed : ℕ) (calls : List ScriptCall) → 0 < people → people ≤ PEOPLE → IsMade people seed calls
        → AllByRecursion (λ call. IsReadable call.request) calls }
{}
