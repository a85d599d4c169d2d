use crate::view::View;
use atomic_table::Seat;

/// The turn, and the value that lies behind it. It has to be given back.
pub struct Held<T> {
    pub(crate) seat: Seat<Option<T>, View>,
    pub(crate) value: T,
}
