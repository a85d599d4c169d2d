//! What follows from the definitions of the grammar and of inputs: the functions do nothing, and what they ensure holds of
//! every text and every input.
ghost use Rattle.std.specs.Prelude.{◌≡◌, ℕ, List, Result};
ghost use Rattle.grammar_model.specs.Answer.{Answer, IsAnswer};
ghost use Rattle.own_model.specs.declared.script.InputFault.{InputFault};
ghost use Rattle.own_model.specs.declared.script.ScriptCall.{ScriptCall};
ghost use Rattle.script_model.specs.Script.{IsScript};

/// A text has one answer: two are the same statement, the same byte or the same limit.
pub fn text_has_one_answer()
    ensures { (text : List ℕ) (one other : Answer) → IsAnswer text one → IsAnswer text other → one ≡ other }
{}

/// An input has one script: its calls, or the one fault.
pub fn input_has_one_script()
    ensures { (bytes : List ℕ) (one other : Result (List ScriptCall) InputFault) → IsScript bytes one → IsScript bytes other → one ≡ other }
{}
