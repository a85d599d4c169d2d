//! What follows from the definitions of streams: the functions do nothing, and what they ensure holds of every stream and
//! every input.
ghost use Rattle.std.specs.Prelude.{◌≡◌, ◌<◌, ◌≤◌, ◌++◌, ℕ, List, Ok, length};
ghost use Rattle.own_model.specs.declared.limit.TheConstants.{INPUT_BYTES, INPUT_CALLS};
ghost use Rattle.own_model.specs.declared.script.ScriptCall.{ScriptCall};
ghost use Rattle.script_model.specs.CallText.{CallText};
ghost use Rattle.script_model.specs.Script.{IsScript};
ghost use Rattle.call_stream.specs.Given.{HasAllClosed, HasGiven, HasWholeCalls, IsEndFault, IsFaultMet};
ghost use Rattle.call_stream.specs.ScriptFaults.{AreFewBefore, IsScriptFault};
ghost use Rattle.call_stream.specs.Taken.{HasTaken};
ghost use Rattle.call_stream.specs.declared.fault.StreamFault.{StreamFault};
ghost use Rattle.call_stream.specs.declared.fault.StreamFault.TheVariants.{BadSession};
ghost use Rattle.call_stream.specs.declared.stream.CallStream.{CallStream};

/// What a stream has given are the calls of the first texts that its bytes close, whatever comes after them.
pub fn calls_are_given()
    ensures { (stream : CallStream) (bytes : List ℕ) (texts : List CallText) (calls : List ScriptCall) → HasTaken stream bytes texts calls → HasGiven bytes texts calls }
{}

/// Those stay the first calls, whatever comes after the bytes.
pub fn given_calls_stay()
    ensures { (bytes more : List ℕ) (texts : List CallText) (calls : List ScriptCall) → HasGiven bytes texts calls → HasGiven (bytes ++ more) texts calls }
{}

/// They are the first calls of the whole input, however it goes on.
pub fn given_calls_are_first()
    ensures { (bytes more : List ℕ) (texts : List CallText) (calls whole : List ScriptCall) → HasGiven bytes texts calls → HasWholeCalls (bytes ++ more) whole → (rest : List ScriptCall) × (whole ≡ calls ++ rest) }
{}

/// Where all that bytes close is given, nothing else could have been: each call is given no later than with the byte that
/// closes its text.
pub fn each_call_is_given_with_its_closing_byte()
    ensures texts { (bytes : List ℕ) (texts other : List CallText) (calls : List ScriptCall) → HasAllClosed bytes texts → HasGiven bytes other calls → (rest : List CallText) × (texts ≡ other ++ rest) }
    ensures calls { (bytes : List ℕ) (texts other : List CallText) (calls others : List ScriptCall) → HasAllClosed bytes texts → HasGiven bytes texts calls → HasGiven bytes other others → (rest : List ScriptCall) × (calls ≡ others ++ rest) }
{}

/// All calls of an input are its script, where it isn't too long and its calls aren't too many, the Ends counted.
pub fn whole_is_a_script()
    ensures { (bytes : List ℕ) (calls : List ScriptCall) → HasWholeCalls bytes calls → length bytes ≤ INPUT_BYTES → length calls ≤ INPUT_CALLS → IsScript bytes (Ok calls) }
{}

/// A fault that a stream meets in an input is that of its script, whatever comes after it. The calls before it are few where
/// fewer are given than an input may have.
pub fn met_faults_are_the_scripts()
    ensures fault { (bytes more : List ℕ) (texts : List CallText) (calls : List ScriptCall) (why : StreamFault) → HasGiven bytes texts calls → IsFaultMet bytes calls why → IsScriptFault (bytes ++ more) why }
    ensures few { (bytes more : List ℕ) (calls : List ScriptCall) (byte : ℕ) → IsFaultMet bytes calls (BadSession byte) → length calls < INPUT_CALLS → AreFewBefore (bytes ++ more) }
{}

/// So is one that the end of an input shows. The calls before it are few where all that are closed are given, and are fewer
/// than an input may have.
pub fn end_faults_are_the_scripts()
    ensures fault { (bytes : List ℕ) (texts : List CallText) (calls : List ScriptCall) (why : StreamFault) → HasGiven bytes texts calls → IsEndFault bytes calls why → IsScriptFault bytes why }
    ensures few { (bytes : List ℕ) (texts : List CallText) (calls : List ScriptCall) → HasGiven bytes texts calls → HasAllClosed bytes texts → length calls < INPUT_CALLS → AreFewBefore bytes }
{}
