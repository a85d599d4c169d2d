//! What a GDPR FORGET does to open transactions.
#![tactic(auto, unfolding(crate::proofs::Computing::history))]

ghost use Rattle.std.specs.Prelude.{◌≡◌, [], ◌∷◌, ◌++◌};
ghost use Rattle.own_model.specs.declared.history.Verdict.TheVariants.{NoRoom};
ghost use Rattle.own_model.specs.declared.request.Request.TheVariants.{Syntax};
ghost use Rattle.history_tests.specs.Stores.{after, messages};
ghost use Rattle.history_tests.specs.Told.{lines, meeting, request, session, told_behind};
ghost use Rattle.history_tests.specs.Written.{begin, commit, forget, insert, int, null, select_all, select_ids, text};

/// A transaction has read the users, one of whom is forgotten. It ends without effect, and is told so once.
pub fn forget_dooms_a_reader_of_what_it_removes()
    ensures { told_behind (after messages) (
        session 1 (begin ∷ select_all "users" ∷ [])
        ++ session 2 (forget "users" 5 ∷ [])
        ++ session 1 (commit ∷ select_all "users" ∷ []))
        ≡ lines (
        "4 1.5 ok"
        ∷ "5 1.6 rows 2"
        ∷ "  5|'Ann'"
        ∷ "  7|'Bob'"
        ∷ "6 2.1 forgot 1 removed 1 changed"
        ∷ "7 1.7 refused doomed 6"
        ∷ "8 1.8 rows 1"
        ∷ "  7|'Bob'"
        ∷ []) }
{}

/// A transaction has read all messages, of which FORGET changes one.
pub fn forget_dooms_a_reader_of_what_it_changes()
    ensures { told_behind (after messages) (
        session 1 (begin ∷ select_ids "msgs" ∷ [])
        ++ session 2 (forget "users" 5 ∷ [])
        ++ session 1 (commit ∷ []))
        ≡ lines (
        "4 1.5 ok"
        ∷ "5 1.6 rows 1"
        ∷ "  9"
        ∷ "6 2.1 forgot 1 removed 1 changed"
        ∷ "7 1.7 refused doomed 6"
        ∷ []) }
{}

/// A transaction that has written another user goes on.
pub fn forget_leaves_a_writer_of_other_rows()
    ensures { told_behind (after messages) (
        session 1 (begin ∷ insert "users" ((int 8 ∷ text "Cy" ∷ []) ∷ []) ∷ [])
        ++ session 2 (forget "users" 5 ∷ [])
        ++ session 1 (commit ∷ select_ids "users" ∷ []))
        ≡ lines (
        "4 1.5 ok"
        ∷ "5 1.6 ok 1"
        ∷ "6 2.1 forgot 1 removed 1 changed"
        ∷ "7 1.7 ok"
        ∷ "8 1.8 rows 2"
        ∷ "  7"
        ∷ "  8"
        ∷ []) }
{}

/// An open message to be sent by the user who is forgotten holds no row that is there. Its transaction goes on, and its COMMIT
/// is refused, since the sender isn't there.
pub fn commit_after_forget_sees_what_is_left()
    ensures { told_behind (after messages) (
        session 1 (begin ∷ insert "msgs" ((int 11 ∷ int 5 ∷ int 7 ∷ text "x" ∷ null ∷ []) ∷ []) ∷ [])
        ++ session 2 (forget "users" 5 ∷ [])
        ++ session 1 (commit ∷ select_ids "msgs" ∷ []))
        ≡ lines (
        "4 1.5 ok"
        ∷ "5 1.6 ok 1"
        ∷ "6 2.1 forgot 1 removed 1 changed"
        ∷ "7 1.7 refused reference msgs 11 sender"
        ∷ "8 1.8 rows 1"
        ∷ "  9"
        ∷ []) }
{}

/// A doomed session is told once, at its next call, also where this isn't a statement; its rows are free before that, and what
/// it wrote is gone.
pub fn doom_is_told_once()
    ensures { told_behind (after messages) (
        session 1 (begin ∷ insert "users" ((int 8 ∷ text "Cy" ∷ []) ∷ []) ∷ select_all "msgs" ∷ [])
        ++ session 2 (forget "users" 7 ∷ insert "users" ((int 8 ∷ text "Di" ∷ []) ∷ []) ∷ [])
        ++ request 1 (Syntax 3)
        ++ request 1 (Syntax 3)
        ++ session 1 (commit ∷ select_ids "users" ∷ []))
        ≡ lines (
        "4 1.5 ok"
        ∷ "5 1.6 ok 1"
        ∷ "6 1.7 rows 1"
        ∷ "  9|5|7|'hi'|'draft'"
        ∷ "7 2.1 forgot 1 removed 1 changed"
        ∷ "8 2.2 ok 1"
        ∷ "9 1.8 refused doomed 7"
        ∷ "10 1.9 refused syntax 3"
        ∷ "11 1.10 refused outside"
        ∷ "12 1.11 rows 2"
        ∷ "  5"
        ∷ "  8"
        ∷ []) }
{}

/// A FORGET for which there is no room changes nothing, and dooms nobody.
pub fn forget_without_room_dooms_nobody()
    ensures { told_behind (after messages) (
        session 1 (begin ∷ select_ids "users" ∷ [])
        ++ meeting NoRoom 2 (forget "users" 5)
        ++ session 1 (commit ∷ select_ids "users" ∷ []))
        ≡ lines (
        "4 1.5 ok"
        ∷ "5 1.6 rows 2"
        ∷ "  5"
        ∷ "  7"
        ∷ "6 2.1 refused limit room 4611686018427387904"
        ∷ "7 1.7 ok"
        ∷ "8 1.8 rows 2"
        ∷ "  5"
        ∷ "  7"
        ∷ []) }
{}
