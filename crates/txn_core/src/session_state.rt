use crate::txn::Txn;
use own_base::Place;

/// The state of a session: nothing outside a transaction; its open transaction; or the place of the FORGET that ended it,
/// which it hasn't been told.
#[derive(Drop)]
pub enum SessionState {
    Nothing,
    Open(Txn),
    Doomed(Place),
}
