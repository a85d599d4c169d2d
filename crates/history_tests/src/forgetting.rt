//! What a GDPR FORGET leaves.
#![tactic(auto, unfolding(crate::proofs::Computing::history))]

ghost use Rattle.std.specs.Prelude.{◌≡◌, [], ◌∷◌, ◌++◌};
ghost use Rattle.history_tests.specs.Stores.{after, messages, pages, social};
ghost use Rattle.history_tests.specs.Told.{lines, session, told, told_behind};
ghost use Rattle.history_tests.specs.Written.{create, create_subject, forget, get, id, insert, int, int_column, not_null, other, plain, select_all, text, update_all};

/// The message has another owner, so it stays: without its sender, who isn't there now, and without its note, which goes
/// with the sender.
pub fn forget_leaves_a_row_that_another_owns()
    ensures { told_behind (after messages) (session 1 (forget "users" 5 ∷ select_all "msgs" ∷ select_all "users" ∷ [])) ≡ lines (
        "4 1.5 forgot 1 removed 1 changed"
        ∷ "5 1.6 rows 1"
        ∷ "  9|NULL|7|'hi'|NULL"
        ∷ "6 1.7 rows 1"
        ∷ "  7|'Bob'"
        ∷ []) }
{}

/// Then the message has one owner, and goes with it.
pub fn forget_removes_a_row_with_its_last_owner()
    ensures { told_behind (after messages) (session 1 (
        forget "users" 5
        ∷ select_all "msgs"
        ∷ select_all "users"
        ∷ forget "users" 7
        ∷ select_all "msgs"
        ∷ []))
        ≡ lines (
        "4 1.5 forgot 1 removed 1 changed"
        ∷ "5 1.6 rows 1"
        ∷ "  9|NULL|7|'hi'|NULL"
        ∷ "6 1.7 rows 1"
        ∷ "  7|'Bob'"
        ∷ "7 1.8 forgot 2 removed 0 changed"
        ∷ "8 1.9 rows 0"
        ∷ []) }
{}

/// A key that is used again inherits nothing.
pub fn forgotten_key_is_used_again()
    ensures { told_behind (after messages) (session 1 (
        forget "users" 5
        ∷ select_all "msgs"
        ∷ select_all "users"
        ∷ insert "users" ((int 5 ∷ text "Eve" ∷ []) ∷ [])
        ∷ get "users" 5
        ∷ []))
        ≡ lines (
        "4 1.5 forgot 1 removed 1 changed"
        ∷ "5 1.6 rows 1"
        ∷ "  9|NULL|7|'hi'|NULL"
        ∷ "6 1.7 rows 1"
        ∷ "  7|'Bob'"
        ∷ "7 1.8 ok 1"
        ∷ "8 1.9 got 1"
        ∷ "  users|5|'Eve'"
        ∷ []) }
{}

/// The document goes, since the edge to the user forgotten strikes it, though another owns it too. The page of it alone
/// goes with it. The other page stays by its folder, without the document.
pub fn forget_removes_what_is_struck_and_leaves_what_is_free()
    ensures { told (after pages ++ session 1 (forget "users" 5 ∷ select_all "pages" ∷ [])) ≡ lines (
        "0 1.1 ok"
        ∷ "1 1.2 ok"
        ∷ "2 1.3 ok"
        ∷ "3 1.4 ok"
        ∷ "4 1.5 ok 2"
        ∷ "5 1.6 ok 1"
        ∷ "6 1.7 ok 1"
        ∷ "7 1.8 ok 2"
        ∷ "8 1.9 forgot 3 removed 1 changed"
        ∷ "9 1.10 rows 1"
        ∷ "  4|NULL|1"
        ∷ []) }
{}

/// User 1 goes with a profile, a membership and a post. The comments on the post and the like of it stay, each without the
/// post; the views follow. The circle stays by its other member.
pub fn forget_leaves_no_reference_to_what_it_removes()
    ensures { told (after social ++ session 1 (get "users" 2 ∷ forget "users" 1 ∷ select_all "per_post" ∷ select_all "shown" ∷ [])) ≡ lines (
        "0 1.1 ok"
        ∷ "1 1.2 ok"
        ∷ "2 1.3 ok"
        ∷ "3 1.4 ok"
        ∷ "4 1.5 ok"
        ∷ "5 1.6 ok"
        ∷ "6 1.7 ok"
        ∷ "7 1.8 ok 3"
        ∷ "8 1.9 ok 1"
        ∷ "9 1.10 ok"
        ∷ "10 1.11 ok 1"
        ∷ "11 1.12 ok 2"
        ∷ "12 1.13 ok"
        ∷ "13 1.14 ok 1"
        ∷ "14 1.15 ok 2"
        ∷ "15 1.16 ok 1"
        ∷ "16 1.17 ok"
        ∷ "17 1.18 ok"
        ∷ "18 1.19 got 7"
        ∷ "  users|2|'Ben'|'b@x'"
        ∷ "  circles|1|'chess'"
        ∷ "  members|2|2|1"
        ∷ "  posts|1|1|1|'first'"
        ∷ "  comments|1|1|2|'nice'"
        ∷ "  comments|2|1|3|'late'"
        ∷ "  likes|1|1|2"
        ∷ "19 1.20 forgot 4 removed 3 changed"
        ∷ "20 1.21 rows 1"
        ∷ "  NULL|2"
        ∷ "21 1.22 rows 0"
        ∷ []) }
{}

/// What FORGET leaves may be NULL where no statement puts NULL.
pub fn forget_leaves_null_in_a_column_that_takes_none()
    ensures { told (session 1 (
        create_subject "users" (id ∷ [])
        ∷ create "notes" (id ∷ int_column "about" (not_null ∷ plain "users" ∷ []) ∷ [])
        ∷ insert "users" ((int 5 ∷ []) ∷ [])
        ∷ insert "notes" ((int 1 ∷ int 5 ∷ []) ∷ [])
        ∷ forget "users" 5
        ∷ select_all "notes"
        ∷ update_all "notes" "about" (other "about")
        ∷ []))
        ≡ lines (
        "0 1.1 ok"
        ∷ "1 1.2 ok"
        ∷ "2 1.3 ok 1"
        ∷ "3 1.4 ok 1"
        ∷ "4 1.5 forgot 1 removed 1 changed"
        ∷ "5 1.6 rows 1"
        ∷ "  1|NULL"
        ∷ "6 1.7 refused null about"
        ∷ []) }
{}

/// Nobody is forgotten where there is no such subject, and a row of another table isn't one.
pub fn forget_is_of_subjects_that_are_there()
    ensures { told_behind (after messages) (session 1 (forget "users" 6 ∷ forget "msgs" 9 ∷ [])) ≡ lines (
        "4 1.5 refused absent users 6"
        ∷ "5 1.6 refused subject msgs"
        ∷ []) }
{}
