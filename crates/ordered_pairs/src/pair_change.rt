ghost use Rattle.std.specs.Prelude.{cond, Option, None, Some};

use page_tree::ChangeOf;

/// A pair that is put among pairs, or taken away from them.
#[derive(Debug, Drop)]
pub(crate) struct PairChange<'a, A, B> {
    pub(crate) pair: &'a (A, B),
    pub(crate) put: bool,
}

impl<'a, A, B> ChangeOf<(A, B), (A, B)> for PairChange<'a, A, B> {
    ghost changed = { λ change. change.pair.now };

    ghost put = { λ change. cond change.put (Some change.pair.now) None };

    fn key(&self) -> &(A, B) {
        self.pair
    }

    fn item(&self) -> Option<&(A, B)> {
        if self.put { Some(self.pair) } else { None }
    }
}
