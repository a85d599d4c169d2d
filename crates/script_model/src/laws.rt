//! What follows from the definitions in `specs/`: the function does nothing, and what it ensures holds of every input.
ghost use Rattle.std.specs.Prelude.{ℕ, ◌+◌, ◌≤◌, List, [], length, sum_by};
ghost use Rattle.std.specs.List.{AllByRecursion};
ghost use Rattle.own_model.specs.declared.limit.TheConstants.{INPUT_CALLS, SESSIONS};
ghost use Rattle.own_model.specs.declared.script.ScriptCall.{ScriptCall};
ghost use Rattle.own_model.specs.TextBytes.{asked_bytes};
ghost use Rattle.grammar_model.specs.Readable.{IsReadable};
ghost use Rattle.script_model.specs.Numbered.{AreNumbered};
ghost use Rattle.script_model.specs.Script.{HasCalls};
ghost use Rattle.script_model.specs.Split.{IsOfASession};

/// The calls of an input: no more than an input may have and one End for each session, each call of a session, numbered
/// there from 1 without a gap, and each asking for what can be read; and the texts that they put into rows have together
/// no more bytes than the input.
pub fn calls_of_an_input()
    ensures few { (bytes : List ℕ) (calls : List ScriptCall) → HasCalls bytes calls → length calls ≤ INPUT_CALLS + SESSIONS }
    ensures sessions { (bytes : List ℕ) (calls : List ScriptCall) → HasCalls bytes calls → AllByRecursion IsOfASession calls }
    ensures numbered { (bytes : List ℕ) (calls : List ScriptCall) → HasCalls bytes calls → AreNumbered [] calls }
    ensures readable { (bytes : List ℕ) (calls : List ScriptCall) → HasCalls bytes calls → AllByRecursion (λ call. IsReadable call.request) calls }
    ensures bytes { (bytes : List ℕ) (calls : List ScriptCall) → HasCalls bytes calls → sum_by (λ call. asked_bytes call.request) calls ≤ length bytes }
{}
