use crate::limit::INPUT_BYTES;
use crate::request::Request;
use own_base::{List, SessionNo};
use std::fmt;

/// Why an input has no script. Bytes count from the first of the input.
#[derive(Clone, Copy, Debug, PartialEq, Eq)]
pub enum InputFault {
    /// More than `INPUT_BYTES` bytes, so the byte is that number.
    TooLong,
    /// No UTF-8 begins at this byte.
    NotText(u32),
    /// The session line at this byte names no session.
    BadSession(u32),
    /// The call at this byte is one too many.
    TooManyCalls(u32),
    /// Memory was refused.
    Memory,
}

impl fmt::Display for InputFault {
    ghost use Rattle.std.specs.Prelude.{Some};
    ghost use Rattle.own_model.specs.FaultText.{fault_text};

    ghost output = { λ fault. Some (fault_text fault) };

    /// The byte at which the input is refused, and why.
    fn fmt<W: fmt::Write>(&self, f: &mut fmt::Formatter<W>) -> fmt::Result {
        match self {
            InputFault::TooLong => write!(f, "input refused at byte {INPUT_BYTES}: too long"),
            InputFault::NotText(byte) => write!(f, "input refused at byte {byte}: not text"),
            InputFault::BadSession(byte) => {
                write!(f, "input refused at byte {byte}: bad session line")
            }
            InputFault::TooManyCalls(byte) => {
                write!(f, "input refused at byte {byte}: too many calls")
            }
            InputFault::Memory => write!(f, "out of memory"),
        }
    }
}

/// The calls of an input, in its order, and the End call of each session after them.
#[derive(Debug, Drop)]
pub struct Script {
    pub calls: List<ScriptCall>,
}

/// A call: its session, its number in the session, from 1, and what it asks for.
#[derive(Debug, Drop)]
pub struct ScriptCall {
    pub session: SessionNo,
    pub call: u32,
    pub request: Request,
}

/// What a call takes besides its statement, in bytes.
const _: () = prove!(size_of::<ScriptCall>() == 24);

/// The calls of one session, in order, each with its number.
#[derive(Debug, Drop)]
pub struct SessionCalls {
    pub session: SessionNo,
    pub calls: List<(u32, Request)>,
}
