use own_base::{List, Text};
use own_model::ScriptCall;

/// A call, its text, and the number of the line on which that begins, from 1.
#[derive(Debug, Drop)]
pub struct StreamCall {
    pub call: ScriptCall,
    pub line: u64,
    pub text: Text,
}

/// What the end of an input leaves: the call of a text that nothing closes, and an End for each session that has a call.
#[derive(Debug, Drop)]
pub struct StreamEnd {
    pub open_call: Option<StreamCall>,
    pub ends: List<ScriptCall>,
}
