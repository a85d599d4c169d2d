use crate::key::ChangeOf;

/// A change that stands elsewhere.
#[derive(Drop)]
pub(crate) struct Lent<'a, C> {
    pub(crate) change: &'a C,
}

impl<'a, T, K, C: ChangeOf<T, K>> ChangeOf<T, K> for Lent<'a, C> {
    ghost changed = { λ lent. C.changed lent.change.now };

    ghost put = { λ lent. C.put lent.change.now };

    fn key(&self) -> &K {
        self.change.key()
    }

    fn item(&self) -> Option<&T> {
        self.change.item()
    }
}
