use own_base::Place;
use own_model::{Bound, Reply};

/// What a call came to.
#[derive(Debug, Drop)]
pub enum Step<S> {
    /// Its place in the history, and its reply.
    Answered(Place, Reply),
    /// Its place in the history, what shows the database that it reads, and its bound statement, which is to be answered by that.
    Look(Place, S, Bound),
    /// Memory was refused, and the call wasn't made.
    NoMemory,
}
