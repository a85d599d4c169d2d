use own_base::Subject;
use owner_sets::{ByEdges, OwnerSets};

/// Who asks for the rows of a store, and how the subject reaches them.
#[derive(Drop)]
pub(crate) struct Access<'a, V> {
    /// The store.
    pub(crate) view: &'a V,
    /// Which subjects reach each row.
    pub(crate) sets: &'a OwnerSets,
    /// By which edges this subject reaches each row.
    pub(crate) by: &'a ByEdges,
    pub(crate) subject: &'a Subject,
}
