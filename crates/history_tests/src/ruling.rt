//! Which CREATE TABLE is refused, and by which rule and name.
#![tactic(auto, unfolding(crate::proofs::Computing::history))]

ghost use Rattle.std.specs.Prelude.{◌≡◌, [], ◌∷◌};
ghost use Rattle.history_tests.specs.Stores.{after, groups, messages};
ghost use Rattle.history_tests.specs.Told.{lines, session, told_behind};
ghost use Rattle.history_tests.specs.Written.{accessed_by, create, create_subject, del_row, id, insert, int, int_column, key_that_refers, on_del, on_get, owned_by, owns, plain, refers_to, text_column};

/// One table for each of the first seven rules.
pub fn columns_and_references_keep_their_rules()
    ensures { told_behind (after messages) (session 1 (
        create "z" (int_column "n" [] ∷ [])
        ∷ create "z" (id ∷ int_column "n" [] ∷ text_column "n" [] ∷ [])
        ∷ create "z" (id ∷ on_get "gone" "id" ∷ [])
        ∷ create "z" (id ∷ int_column "n" (plain "users" ∷ plain "msgs" ∷ []) ∷ [])
        ∷ create "z" (id ∷ int_column "n" (plain "nope" ∷ []) ∷ [])
        ∷ create "z" (id ∷ int_column "n" (refers_to "users" "name" ∷ []) ∷ [])
        ∷ create "z" (id ∷ text_column "n" (plain "users" ∷ []) ∷ [])
        ∷ []))
        ≡ lines (
        "4 1.5 refused schema 1 z"
        ∷ "5 1.6 refused schema 2 n"
        ∷ "6 1.7 refused schema 3 gone"
        ∷ "7 1.8 refused schema 4 n"
        ∷ "8 1.9 refused schema 5 nope"
        ∷ "9 1.10 refused schema 6 name"
        ∷ "10 1.11 refused schema 7 n"
        ∷ []) }
{}

/// And for each of the others of a table, of which the tenth needs a public one.
pub fn owners_and_rulings_keep_their_rules()
    ensures { told_behind (after groups) (session 1 (
        create "c" (id ∷ [])
        ∷ create "z" (int_column "id" (key_that_refers "users") ∷ [])
        ∷ create_subject "z" (id ∷ int_column "n" (owned_by "users" ∷ []) ∷ [])
        ∷ create "z" (id ∷ int_column "n" (owned_by "c" ∷ []) ∷ [])
        ∷ create "z" (id ∷ int_column "n" (owns "groups" ∷ []) ∷ [])
        ∷ create "z" (id ∷ int_column "n" [] ∷ on_get "n" "n" ∷ [])
        ∷ create "z" (id ∷ int_column "n" (owned_by "users" ∷ []) ∷ on_del "n" "id" ∷ [])
        ∷ create "z" (id ∷ int_column "n" (accessed_by "users" ∷ []) ∷ int_column "m" (owned_by "users" ∷ []) ∷ del_row "n" ∷ [])
        ∷ []))
        ≡ lines (
        "4 1.5 ok"
        ∷ "5 1.6 refused schema 8 id"
        ∷ "6 1.7 refused schema 9 n"
        ∷ "7 1.8 refused schema 10 n"
        ∷ "8 1.9 refused schema 11 n"
        ∷ "9 1.10 refused schema 12 n"
        ∷ "10 1.11 refused schema 13 id"
        ∷ "11 1.12 refused schema 14 n"
        ∷ []) }
{}

/// A table is on a cycle with the one that owns it and that it owns, and no rows may be owned from then on that are there already.
pub fn cycles_and_rows_are_refused()
    ensures { told_behind (after groups) (session 1 (
        create "b" (id ∷ int_column "who" (owned_by "users" ∷ []) ∷ [])
        ∷ create "a" (id ∷ int_column "x" (owned_by "b" ∷ []) ∷ int_column "y" (owns "b" ∷ []) ∷ [])
        ∷ create "c" (id ∷ [])
        ∷ insert "c" ((int 1 ∷ []) ∷ [])
        ∷ create "d" (id ∷ int_column "who" (owned_by "users" ∷ []) ∷ int_column "it" (owns "c" ∷ []) ∷ [])
        ∷ []))
        ≡ lines (
        "4 1.5 ok"
        ∷ "5 1.6 refused cycle a b"
        ∷ "6 1.7 ok"
        ∷ "7 1.8 ok 1"
        ∷ "8 1.9 refused rows c"
        ∷ []) }
{}
