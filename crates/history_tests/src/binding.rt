//! What binding refuses, and what a CREATE of a name that is taken is told.
#![tactic(auto, unfolding(crate::proofs::Computing::history))]

ghost use Rattle.std.specs.Prelude.{◌≡◌, [], ◌∷◌};
ghost use Rattle.history_tests.specs.Stores.{accounts, after};
ghost use Rattle.history_tests.specs.Told.{lines, session, told_behind};
ghost use Rattle.history_tests.specs.Written.{constant, create, get, id, insert, int, null, select_all, select_one, text, update_all};

/// Each of these names something that isn't there, or gives what the table doesn't take.
pub fn names_and_kinds_are_looked_up()
    ensures { told_behind (after accounts) (session 1 (
        select_all "nope"
        ∷ select_one "owner" "accounts"
        ∷ insert "accounts" ((int 3 ∷ text "a" ∷ null ∷ []) ∷ [])
        ∷ insert "accounts" ((int 3 ∷ int 1 ∷ []) ∷ [])
        ∷ create "accounts" (id ∷ [])
        ∷ update_all "accounts" "id" (constant (int 9))
        ∷ get "accounts" 1
        ∷ insert "accounts" ((int 3 ∷ null ∷ null ∷ []) ∷ [])
        ∷ update_all "accounts" "held" (constant null)
        ∷ []))
        ≡ lines (
        "2 1.3 refused table nope"
        ∷ "3 1.4 refused column owner"
        ∷ "4 1.5 refused kind held"
        ∷ "5 1.6 refused count 2 3"
        ∷ "6 1.7 refused taken accounts"
        ∷ "7 1.8 refused key id"
        ∷ "8 1.9 refused subject accounts"
        ∷ "9 1.10 refused null held"
        ∷ "10 1.11 refused null held"
        ∷ []) }
{}

/// The lowest number is named first: the kind of the second tuple before the count of the first one.
pub fn lowest_number_is_named_first()
    ensures { told_behind (after accounts) (session 1 (
        insert "accounts" ((int 3 ∷ int 1 ∷ []) ∷ (text "b" ∷ int 1 ∷ null ∷ []) ∷ [])
        ∷ []))
        ≡ lines ("2 1.3 refused kind id" ∷ []) }
{}
