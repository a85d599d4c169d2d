//! What follows from the definitions in `specs/`: the function does nothing, and what it ensures holds of all words.
ghost use Rattle.std.specs.Prelude.{◌≡◌, ℕ, ◌<◌, ◌≤◌, List, Some};
ghost use Rattle.made_model.specs.declared.limits.TheConstants.{PEOPLE, SEEDS};
ghost use Rattle.store_words.specs.Words.{mode_of};

use crate::words::Mode;

/// The numbers of mode `make` are at least 1 and at most what they may be.
pub fn numbers_of_make_are_in_range()
    ensures people { (words : List (List ℕ)) (people seed : ℕ) → mode_of words ≡ Some (Mode.Make people seed) → (0 < people) × (people ≤ PEOPLE) }
    ensures seed { (words : List (List ℕ)) (people seed : ℕ) → mode_of words ≡ Some (Mode.Make people seed) → (0 < seed) × (seed ≤ SEEDS) }
{}
