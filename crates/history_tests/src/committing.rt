//! What a commit is refused for.
#![tactic(auto, unfolding(crate::proofs::Computing::history))]

ghost use Rattle.std.specs.Prelude.{◌≡◌, [], ◌∷◌, ◌++◌};
ghost use Rattle.history_tests.specs.Stores.{after, groups, messages, social};
ghost use Rattle.history_tests.specs.Told.{lines, session, told, told_behind};
ghost use Rattle.history_tests.specs.Written.{begin, commit, delete_all, get, insert, int, null, text};

/// A group without a member is refused by itself, and taken in one transaction with its first member.
pub fn group_comes_with_its_first_member()
    ensures { told (after groups ++ session 1 (
        insert "groups" ((int 1 ∷ text "chess" ∷ []) ∷ [])
        ∷ begin
        ∷ insert "groups" ((int 1 ∷ text "chess" ∷ []) ∷ [])
        ∷ insert "members" ((int 3 ∷ int 5 ∷ int 1 ∷ []) ∷ [])
        ∷ commit
        ∷ get "users" 5
        ∷ []))
        ≡ lines (
        "0 1.1 ok"
        ∷ "1 1.2 ok"
        ∷ "2 1.3 ok"
        ∷ "3 1.4 ok 1"
        ∷ "4 1.5 refused owner groups 1"
        ∷ "5 1.6 ok"
        ∷ "6 1.7 ok 1"
        ∷ "7 1.8 ok 1"
        ∷ "8 1.9 ok"
        ∷ "9 1.10 got 3"
        ∷ "  users|5"
        ∷ "  groups|1|'chess'"
        ∷ "  members|3|5|1"
        ∷ []) }
{}

/// Users whom a message refers to aren't deleted.
pub fn delete_leaves_no_reference_to_nothing()
    ensures { told_behind (after messages) (session 1 (delete_all "users" ∷ [])) ≡ lines ("4 1.5 refused reference msgs 9 sender" ∷ []) }
{}

/// Two rows hold one value of a UNIQUE column: the first of them is named. NULL may stand there twice.
pub fn unique_column_holds_a_value_once()
    ensures { told_behind (after social) (session 1 (
        insert "users" ((int 4 ∷ text "Di" ∷ text "a@x" ∷ []) ∷ [])
        ∷ insert "users" ((int 4 ∷ text "Di" ∷ null ∷ []) ∷ [])
        ∷ []))
        ≡ lines (
        "18 1.19 refused unique users 1 mail"
        ∷ "19 1.20 ok 1"
        ∷ []) }
{}
