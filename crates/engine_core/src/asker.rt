use crate::state::State;
use own_base::SessionNo;
use own_model::Entry;

/// A session that asks outside a transaction, and what it is answered from: the state behind a history, which so many commits
/// made.
#[derive(Drop)]
pub(crate) struct Asker<'a> {
    pub(crate) state: &'a State,
    pub(crate) history: &'a [Entry],
    pub(crate) session: SessionNo,
    pub(crate) commits: u64,
}
