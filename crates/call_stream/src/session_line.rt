//! Which session a session line names.

ghost use Rattle.std.specs.Prelude.{◌≡◌, ◌≤◌, ◌&&◌, drop, length, IfSome};
ghost use Rattle.std.specs.List.{list_all};
ghost use Rattle.own_model.specs.declared.limit.TheConstants.{SESSIONS};
ghost use Rattle.sql_lex.specs.Bytes.{is_space as is_space_byte};
ghost use Rattle.script_model.specs.Piece.{starts};
ghost use Rattle.script_model.specs.Session.{names as names_session, session_of as session_named};

use crate::scan::is_space;
use own_model::SESSIONS;

/// The bytes are white space alone.
fn are_spaces(bytes: &[u8]) -> bool
    ensures { result ≡ list_all is_space_byte bytes.now }
{
    bytes.iter().all(|byte| is_space(*byte))
}

/// The line is the number, and then white space alone.
fn is_number(line: &[u8], number: &[u8]) -> bool
    ensures { result ≡ (starts line.now number.now && list_all is_space_byte (drop (length number.now) line.now)) }
{
    line.starts_with(number) && are_spaces(&line[number.len()..])
}

/// The line is the session's number, and then white space alone.
fn names(line: &[u8], session: u8) -> bool
    requires { session ≤ SESSIONS }
    ensures { result ≡ names_session line.now session }
{
    let digits = [b'0' + session / 10, b'0' + session % 10];
    if session < 10 {
        is_number(line, &digits[1..])
    } else {
        is_number(line, &digits)
    }
}

/// The session that is named by what follows `-- session ` on a line.
pub fn session_of(line: &[u8]) -> Option<u8>
    ensures named { result ≡ session_named line.now }
    ensures within { IfSome result (λ session. (1 ≤ session) × (session ≤ SESSIONS)) }
{
    for session in 1..=SESSIONS {
        if names(line, session) {
            return Some(session);
        }
    }
    None
}
