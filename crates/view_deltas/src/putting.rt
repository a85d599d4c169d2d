use crate::place::Place;
use page_tree::ChangeOf;

/// Something is kept at a place, or what is there is taken away.
#[derive(Drop)]
pub(crate) struct Putting<T> {
    pub(crate) place: Place,
    pub(crate) entry: Option<(Place, T)>,
}

impl<T> ChangeOf<(Place, T), Place> for Putting<T> {
    ghost changed = { λ putting. putting.place };

    ghost put = { λ putting. putting.entry };

    fn key(&self) -> &Place {
        &self.place
    }

    fn item(&self) -> Option<&(Place, T)> {
        self.entry.as_ref()
    }
}
