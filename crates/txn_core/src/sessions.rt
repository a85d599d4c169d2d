ghost use Rattle.std.specs.Prelude.{◌≡◌, ◌≢◌, ◌≤◌, ◌+◌, ◌==◌, ◌&&◌, ℕ, [], false, true, length, not, IfOk, option_map};
ghost use Rattle.std.specs.List.{find};
ghost use Rattle.own_model.specs.declared.limit.TheConstants.{SESSIONS as COUNT};
ghost use Rattle.history_model.specs.Held.{others};
ghost use Rattle.txn_core.specs.declared.session_state.SessionState.TheVariants.{Nothing, Open};
ghost use Rattle.txn_core.specs.SessionStates.{doom_of, is_open, state_by, once_doomed, told};

use crate::session_state::SessionState;
use crate::txn::Txn;
use own_base::{Place, SessionNo};
use own_model::SESSIONS;
use std::alloc::{AllocError, Global};
use std::marker::Model;
use std::mem::replace;

/// The state of each session, which contracts see as a list by its number.
#[derive(Drop)]
pub(crate) struct Sessions {
    states: Vec<SessionState>,
}

impl Model for Sessions {
    ghost use Rattle.std.specs.Prelude.{◌≡◌, ◌+◌, List, length};
    ghost use Rattle.own_model.specs.declared.limit.TheConstants.{SESSIONS as COUNT};
    ghost use Rattle.txn_core.specs.declared.session_state.SessionState.{SessionState as Seen};

    ghost Value = { List Seen };

    ghost view = { λ sessions. sessions.states.items };

    ghost invariant = { λ sessions. length sessions.states.items ≡ COUNT + 1 };
}

/// Nothing, for each session.
fn no_transactions(alloc: Global) -> Result<Vec<SessionState>, AllocError>
    ensures long { IfOk result (λ states. length states.items ≡ COUNT + 1) }
    ensures nothing { IfOk result (λ states. (session : ℕ) → state_by states.items session ≡ Nothing) }
{
    let mut states = Vec::new(alloc);
    for number in 0..SESSIONS + 1 {
        states.push(SessionState::Nothing)?;
    }
    Ok(states)
}

impl Sessions {
    /// Each session is outside a transaction.
    pub(crate) fn new(alloc: Global) -> Result<Sessions, AllocError>
        ensures { IfOk result (λ sessions. (session : ℕ) → state_by sessions session ≡ Nothing) }
    {
        let states = no_transactions(alloc)?;
        Ok(Sessions { states })
    }

    /// The state of a session. Takes no memory.
    pub(crate) fn get(&self, session: SessionNo) -> &SessionState
        requires { session.0 ≤ COUNT }
        ensures { result.now ≡ state_by self.now session.0 }
    {
        &self.states[session.0 as usize]
    }

    /// Puts a state in the place of a session's, which is given out. Takes no memory.
    pub(crate) fn put(&mut self, session: SessionNo, state: SessionState) -> SessionState
        requires { session.0 ≤ COUNT }
        ensures given { result ≡ state_by self.old session.0 }
        ensures put { state_by self.new session.0 ≡ state }
        ensures others { (other : ℕ) → other ≢ session.0 → state_by self.new other ≡ state_by self.old other }
    {
        replace(&mut self.states[session.0 as usize], state)
    }

    /// Whether a transaction of a session is open. Takes no memory.
    pub(crate) fn is_open(&self, session: SessionNo) -> bool
        requires { session.0 ≤ COUNT }
        ensures { result ≡ is_open (state_by self.now session.0) }
    {
        matches!(self.get(session), SessionState::Open(_))
    }

    /// The open transaction of a session. Takes no memory.
    pub(crate) fn txn(&self, session: SessionNo) -> &Txn
        requires session { session.0 ≤ COUNT }
        requires open { is_open (state_by self.now session.0) ≡ true }
        ensures { state_by self.now session.0 ≡ Open result.now }
    {
        match self.get(session) {
            SessionState::Open(txn) => txn,
            SessionState::Nothing | SessionState::Doomed(_) => unreachable!(),
        }
    }

    /// Whether a transaction of another session is open. Takes no memory.
    fn is_other_open(&self, session: SessionNo, other: SessionNo) -> bool
        requires { other.0 ≤ COUNT }
        ensures { result ≡ (not (other.0 == session.0) && is_open (state_by self.now other.0)) }
    {
        other.0 != session.0 && self.is_open(other)
    }

    /// The lowest other session with an open transaction. Takes no memory.
    pub(crate) fn lowest_other(&self, session: SessionNo) -> Option<SessionNo>
        ensures { option_map (λ other. other.0) result ≡ find (λ other. is_open (state_by self.now other)) (others session.0) }
    {
        for number in 1..SESSIONS + 1 {
            if self.is_other_open(session, SessionNo(number)) {
                return Some(SessionNo(number));
            }
        }
        None
    }

    /// Opens a transaction of a session that is outside one. Takes no memory.
    pub(crate) fn begin(&mut self, alloc: Global, session: SessionNo)
        requires session { session.0 ≤ COUNT }
        requires outside { state_by self.old session.0 ≡ Nothing }
        ensures begun { state_by self.new session.0 ≡ Open (record { space = []; wrote = false }) }
        ensures others { (other : ℕ) → other ≢ session.0 → state_by self.new other ≡ state_by self.old other }
    {
        let _ = self.put(session, SessionState::Open(Txn::new(alloc)));
    }

    /// Ends the transaction of a session: what it changed is forgotten. Takes no memory.
    pub(crate) fn finish(&mut self, session: SessionNo)
        requires { session.0 ≤ COUNT }
        ensures outside { state_by self.new session.0 ≡ Nothing }
        ensures others { (other : ℕ) → other ≢ session.0 → state_by self.new other ≡ state_by self.old other }
    {
        let _ = self.put(session, SessionState::Nothing);
    }

    /// Gives the place of a session's doom, once. Takes no memory.
    pub(crate) fn tell_doom(&mut self, session: SessionNo) -> Option<Place>
        requires { session.0 ≤ COUNT }
        ensures told { result ≡ doom_of (state_by self.old session.0) }
        ensures once { state_by self.new session.0 ≡ told (state_by self.old session.0) }
        ensures others { (other : ℕ) → other ≢ session.0 → state_by self.new other ≡ state_by self.old other }
    {
        let doomed = match self.get(session) {
            SessionState::Doomed(place) => Some(*place),
            SessionState::Nothing | SessionState::Open(_) => None,
        };
        if doomed.is_some() {
            let _ = self.put(session, SessionState::Nothing);
        }
        doomed
    }

    /// Ends the transaction of a session by a FORGET at a place, where it is in one. Takes no memory.
    pub(crate) fn doom_session(&mut self, session: SessionNo, place: Place)
        requires { session.0 ≤ COUNT }
        ensures once_doomed { state_by self.new session.0 ≡ once_doomed place (state_by self.old session.0) }
        ensures others { (other : ℕ) → other ≢ session.0 → state_by self.new other ≡ state_by self.old other }
    {
        if self.is_open(session) {
            let _ = self.put(session, SessionState::Doomed(place));
        }
    }
}
