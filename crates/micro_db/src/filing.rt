use own_base::{RowName, Subject};
use page_tree::ChangeOf;

/// Something is filed at a place, or what is there is taken away.
#[derive(Drop)]
pub(crate) struct Filing<T> {
    pub(crate) place: (Subject, RowName),
    pub(crate) filed: Option<(Subject, T)>,
}

impl<T> ChangeOf<(Subject, T), (Subject, RowName)> for Filing<T> {
    ghost changed = { λ filing. filing.place };

    ghost put = { λ filing. filing.filed };

    fn key(&self) -> &(Subject, RowName) {
        &self.place
    }

    fn item(&self) -> Option<&(Subject, T)> {
        self.filed.as_ref()
    }
}
