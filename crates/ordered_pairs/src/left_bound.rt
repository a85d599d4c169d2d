ghost use Rattle.std.specs.Prelude.{◌≡◌};

use crate::by_pair::ByPair;
use crate::ordered::Ordered;
use page_tree::BoundOf;

/// Pairs whose left side is below a value stand below this bound.
#[derive(Debug, Drop)]
pub(crate) struct Before<'a, A> {
    pub(crate) left: &'a A,
}

impl<'a, A: Ordered, B: Ordered> BoundOf<(A, B), ByPair> for Before<'a, A> {
    ghost use Rattle.ordered_pairs.specs.LeftBound.{is_before, before_monotone};

    ghost below = { λ bound _ pair. is_before A.order bound.left.now pair };

    fn is_above(&self, _by: ByPair, pair: &(A, B)) -> bool {
        pair.0.compare(self.left).is_lt()
    }

    ghost monotone = { λ bound _. before_monotone A.order B.order A.total bound.left.now };
}

/// Pairs whose left side is below a value or is that value stand below this bound.
#[derive(Debug, Drop)]
pub(crate) struct Upto<'a, A> {
    pub(crate) left: &'a A,
}

impl<'a, A: Ordered, B: Ordered> BoundOf<(A, B), ByPair> for Upto<'a, A> {
    ghost use Rattle.ordered_pairs.specs.LeftBound.{is_upto, upto_monotone};

    ghost below = { λ bound _ pair. is_upto A.order bound.left.now pair };

    fn is_above(&self, _by: ByPair, pair: &(A, B)) -> bool {
        !pair.0.compare(self.left).is_gt()
    }

    ghost monotone = { λ bound _. upto_monotone A.order B.order A.total bound.left.now };
}
