ghost use Rattle.std.specs.Prelude.{ℕ};

use crate::view::View;
use atomic_table::{Join, Play, Split, TableRule};
use std::marker::{Brand, PhantomData};
use std::snapshot::Snapshot;
use turn_model::Keeps;

/// The rule of a turn.
pub struct Law;

impl<T: Keeps> TableRule<Option<T>, View, Snapshot<T>> for Law {
    ghost use Rattle.commit_turn.specs.Rule.{Rule, first};

    ghost holds = { λ key. Rule T.history T.start (T.history key.value) (T.start key.value) };

    ghost first = { λ key. first (T.history key.value) (T.start key.value) };
}

/// The turn is taken where nobody has it.
pub(crate) struct Take;

impl<T: Keeps> Play<Option<T>, View> for Take {
    ghost use Rattle.commit_turn.specs.Steps.{Takes};

    ghost then = { λ step before found after. Takes T.history T.start before found after };
}

/// The entries of the value that is given back are counted.
pub(crate) struct Count;

impl<T: Keeps> Play<Option<T>, View> for Count {
    ghost use Rattle.commit_turn.specs.Steps.{Counts};

    ghost then = { λ step before found after. Counts T.history before after };
}

/// The turn is given back.
pub(crate) struct Release;

impl<T: Keeps> Play<Option<T>, View> for Release {
    ghost use Rattle.commit_turn.specs.Steps.{Releases};

    ghost then = { λ step before found after. Releases before after };
}

/// What the lead and a joined pass had seen is compared.
pub(crate) struct Hear;

impl<T: Keeps> Play<Option<T>, View> for Hear {
    ghost use Rattle.commit_turn.specs.Steps.{Hears};

    ghost then = { λ step before found after. Hears before after };
}

/// A session by its number, which a proof picks.
pub(crate) trait Chosen {
    ghost session: { ℕ };
}

impl Chosen for Brand {
    ghost session = { 0 };
}

/// A pass of that session is split off the lead.
pub(crate) struct Part<N> {
    session: PhantomData<N>,
}

impl<N: Chosen> Split<View> for Part<N> {
    ghost use Rattle.commit_turn.specs.Steps.{lead_without, split_off};

    ghost left = { lead_without N.session };

    ghost right = { split_off N.session };
}

/// A pass is joined to the lead.
pub(crate) struct Unite;

impl Join<View> for Unite {
    ghost use Rattle.commit_turn.specs.Steps.{lead_with, spent};

    ghost both = { lead_with };

    ghost spent = { spent };
}
