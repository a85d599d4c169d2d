//! What transactions keep from one another.
#![tactic(auto, unfolding(crate::proofs::Computing::history))]

ghost use Rattle.std.specs.Prelude.{◌≡◌, [], ◌∷◌, ◌++◌};
ghost use Rattle.own_model.specs.declared.request.Request.TheVariants.{End, Syntax};
ghost use Rattle.own_model.specs.declared.statement.Statement.TheVariants.{Checkpoint, Explain};
ghost use Rattle.history_tests.specs.Stores.{accounts, after, messages, social};
ghost use Rattle.history_tests.specs.Told.{lines, request, session, told, told_behind};
ghost use Rattle.history_tests.specs.Written.{begin, commit, constant, counted, create, create_view, delete_all, forget, get, id, insert, int, int_column, null, plus, rollback, select_all, select_ids, text, update_all};

/// Two sessions read one table, in which nothing stands. While the first still holds it, the second doesn't write there, nor
/// create a table; then it does.
pub fn readers_meet_and_keep_a_writer_out()
    ensures { told (
        session 1 (create "acc" (id ∷ int_column "n" [] ∷ []) ∷ begin ∷ select_all "acc" ∷ [])
        ++ session 2 (begin ∷ select_all "acc" ∷ commit ∷ insert "acc" ((int 7 ∷ int 1 ∷ []) ∷ []) ∷ create "z" (id ∷ []) ∷ [])
        ++ session 1 (commit ∷ [])
        ++ session 2 (insert "acc" ((int 7 ∷ int 1 ∷ []) ∷ []) ∷ []))
        ≡ lines (
        "0 1.1 ok"
        ∷ "1 1.2 ok"
        ∷ "2 1.3 rows 0"
        ∷ "3 2.1 ok"
        ∷ "4 2.2 rows 0"
        ∷ "5 2.3 ok"
        ∷ "6 2.4 refused conflict 1 acc 7"
        ∷ "7 2.5 refused busy 1"
        ∷ "8 1.4 ok"
        ∷ "9 2.6 ok 1"
        ∷ []) }
{}

/// A row that isn't there yet is held by its key, and other keys are free.
pub fn writers_of_one_key_are_kept_apart()
    ensures { told_behind (after accounts) (
        session 1 (begin ∷ insert "accounts" ((int 7 ∷ int 0 ∷ null ∷ []) ∷ []) ∷ [])
        ++ session 2 (
        insert "accounts" ((int 6 ∷ int 0 ∷ null ∷ []) ∷ (int 7 ∷ int 1 ∷ null ∷ []) ∷ [])
        ∷ insert "accounts" ((int 6 ∷ int 0 ∷ null ∷ []) ∷ [])
        ∷ [])
        ++ session 1 (rollback ∷ [])
        ++ session 2 (insert "accounts" ((int 7 ∷ int 1 ∷ null ∷ []) ∷ []) ∷ []))
        ≡ lines (
        "2 1.3 ok"
        ∷ "3 1.4 ok 1"
        ∷ "4 2.1 refused conflict 1 accounts 7"
        ∷ "5 2.2 ok 1"
        ∷ "6 1.5 ok"
        ∷ "7 2.3 ok 1"
        ∷ []) }
{}

/// Two transactions add 1 to one number. The second is kept out until the first has committed, and sees what it left; no
/// addition is lost.
pub fn no_update_is_lost()
    ensures { told (
        session 1 (create "acc" (id ∷ int_column "n" [] ∷ []) ∷ insert "acc" ((int 1 ∷ int 0 ∷ []) ∷ []) ∷ begin ∷ update_all "acc" "n" (plus "n" 1) ∷ [])
        ++ session 2 (begin ∷ update_all "acc" "n" (plus "n" 1) ∷ [])
        ++ session 1 (commit ∷ [])
        ++ session 2 (update_all "acc" "n" (plus "n" 1) ∷ commit ∷ select_all "acc" ∷ []))
        ≡ lines (
        "0 1.1 ok"
        ∷ "1 1.2 ok 1"
        ∷ "2 1.3 ok"
        ∷ "3 1.4 ok 1"
        ∷ "4 2.1 ok"
        ∷ "5 2.2 refused conflict 1 acc *"
        ∷ "6 1.5 ok"
        ∷ "7 2.3 ok 1"
        ∷ "8 2.4 ok"
        ∷ "9 2.5 rows 1"
        ∷ "  1|2"
        ∷ []) }
{}

/// What a transaction has read isn't written by others until it ends, outside of transactions either; so it reads the same
/// again.
pub fn what_was_read_stays_until_the_end()
    ensures { told_behind (after accounts) (
        session 1 (begin ∷ select_all "accounts" ∷ [])
        ++ session 2 (update_all "accounts" "owed" (constant (int 3)) ∷ delete_all "accounts" ∷ [])
        ++ session 1 (select_all "accounts" ∷ rollback ∷ [])
        ++ session 2 (update_all "accounts" "owed" (constant (int 3)) ∷ select_all "accounts" ∷ []))
        ≡ lines (
        "2 1.3 ok"
        ∷ "3 1.4 rows 2"
        ∷ "  1|9223372036854775807|NULL"
        ∷ "  2|0|NULL"
        ∷ "4 2.1 refused conflict 1 accounts *"
        ∷ "5 2.2 refused conflict 1 accounts *"
        ∷ "6 1.5 rows 2"
        ∷ "  1|9223372036854775807|NULL"
        ∷ "  2|0|NULL"
        ∷ "7 1.6 ok"
        ∷ "8 2.3 ok 2"
        ∷ "9 2.4 rows 2"
        ∷ "  1|9223372036854775807|3"
        ∷ "  2|0|3"
        ∷ []) }
{}

/// A SELECT outside of transactions waits for nobody, and sees nothing of a transaction that is open.
pub fn open_changes_are_seen_inside_alone()
    ensures { told_behind (after messages) (
        session 1 (begin ∷ insert "users" ((int 8 ∷ text "Cy" ∷ []) ∷ []) ∷ delete_all "msgs" ∷ select_ids "users" ∷ [])
        ++ session 2 (select_ids "users" ∷ select_ids "msgs" ∷ [])
        ++ session 1 (rollback ∷ select_ids "users" ∷ []))
        ≡ lines (
        "4 1.5 ok"
        ∷ "5 1.6 ok 1"
        ∷ "6 1.7 ok 1"
        ∷ "7 1.8 rows 3"
        ∷ "  5"
        ∷ "  7"
        ∷ "  8"
        ∷ "8 2.1 rows 2"
        ∷ "  5"
        ∷ "  7"
        ∷ "9 2.2 rows 1"
        ∷ "  9"
        ∷ "10 1.9 ok"
        ∷ "11 1.10 rows 2"
        ∷ "  5"
        ∷ "  7"
        ∷ []) }
{}

/// A statement that is refused as it runs leaves its transaction open and its rows held: a key that is there, a sum past the
/// range, a NULL that is computed. One that doesn't fit its table holds nothing.
pub fn refused_statement_holds_its_rows()
    ensures { told_behind (after accounts) (
        session 1 (begin ∷ insert "accounts" ((int 1 ∷ int 0 ∷ null ∷ []) ∷ []) ∷ [])
        ++ session 2 (insert "accounts" ((int 1 ∷ int 0 ∷ null ∷ []) ∷ []) ∷ [])
        ++ session 1 (rollback ∷ begin ∷ update_all "accounts" "held" (plus "held" 1) ∷ [])
        ++ session 2 (insert "accounts" ((int 3 ∷ int 0 ∷ null ∷ []) ∷ []) ∷ [])
        ++ session 1 (rollback ∷ begin ∷ update_all "accounts" "held" (plus "owed" 1) ∷ [])
        ++ session 2 (insert "accounts" ((int 3 ∷ int 0 ∷ null ∷ []) ∷ []) ∷ [])
        ++ session 1 (rollback ∷ begin ∷ insert "accounts" ((int 3 ∷ null ∷ null ∷ []) ∷ []) ∷ [])
        ++ session 2 (insert "accounts" ((int 3 ∷ int 0 ∷ null ∷ []) ∷ []) ∷ [])
        ++ session 1 (commit ∷ []))
        ≡ lines (
        "2 1.3 ok"
        ∷ "3 1.4 refused duplicate accounts 1"
        ∷ "4 2.1 refused conflict 1 accounts 1"
        ∷ "5 1.5 ok"
        ∷ "6 1.6 ok"
        ∷ "7 1.7 refused range held"
        ∷ "8 2.2 refused conflict 1 accounts 3"
        ∷ "9 1.8 ok"
        ∷ "10 1.9 ok"
        ∷ "11 1.10 refused null held"
        ∷ "12 2.3 refused conflict 1 accounts 3"
        ∷ "13 1.11 ok"
        ∷ "14 1.12 ok"
        ∷ "15 1.13 refused null held"
        ∷ "16 2.4 ok 1"
        ∷ "17 1.14 ok"
        ∷ []) }
{}

/// Nothing is created while another session's transaction is open, though it holds nothing; nor inside one's own.
pub fn create_waits_for_no_one()
    ensures { told_behind (after messages) (
        session 2 (begin ∷ [])
        ++ session 3 (begin ∷ [])
        ++ session 1 (create "z" (id ∷ []) ∷ create_view "v" (counted "sender" "msgs") ∷ [])
        ++ session 2 (create "z" (id ∷ []) ∷ commit ∷ [])
        ++ session 1 (create "z" (id ∷ []) ∷ [])
        ++ session 3 (rollback ∷ [])
        ++ session 1 (create "z" (id ∷ []) ∷ commit ∷ []))
        ≡ lines (
        "4 2.1 ok"
        ∷ "5 3.1 ok"
        ∷ "6 1.5 refused busy 2"
        ∷ "7 1.6 refused busy 2"
        ∷ "8 2.2 refused inside"
        ∷ "9 2.3 ok"
        ∷ "10 1.7 refused busy 3"
        ∷ "11 3.2 ok"
        ∷ "12 1.8 ok"
        ∷ "13 1.9 refused outside"
        ∷ []) }
{}

/// The lowest session that holds an overlapping row is named, with the first item of the call's own that overlaps.
pub fn conflict_names_the_lowest_session()
    ensures { told_behind (after messages) (
        session 3 (begin ∷ insert "users" ((int 5 ∷ null ∷ []) ∷ []) ∷ [])
        ++ session 2 (begin ∷ insert "users" ((int 7 ∷ null ∷ []) ∷ []) ∷ [])
        ++ session 1 (
        insert "users" ((int 5 ∷ null ∷ []) ∷ (int 7 ∷ null ∷ []) ∷ [])
        ∷ delete_all "users"
        ∷ delete_all "msgs"
        ∷ []))
        ≡ lines (
        "4 3.1 ok"
        ∷ "5 3.2 refused duplicate users 5"
        ∷ "6 2.1 ok"
        ∷ "7 2.2 refused duplicate users 7"
        ∷ "8 1.5 refused conflict 2 users 7"
        ∷ "9 1.6 refused conflict 2 users *"
        ∷ "10 1.7 ok 1"
        ∷ []) }
{}

/// Inside a transaction these calls are refused before anything else is asked of them.
pub fn some_calls_stand_outside_alone()
    ensures { told_behind (after messages) (session 1 (
        begin
        ∷ begin
        ∷ get "nobody" 5
        ∷ forget "users" 5
        ∷ create "users" []
        ∷ Checkpoint
        ∷ Explain
        ∷ select_all "nobody"
        ∷ rollback
        ∷ rollback
        ∷ []))
        ≡ lines (
        "4 1.5 ok"
        ∷ "5 1.6 refused inside"
        ∷ "6 1.7 refused inside"
        ∷ "7 1.8 refused inside"
        ∷ "8 1.9 refused inside"
        ∷ "9 1.10 refused inside"
        ∷ "10 1.11 refused inside"
        ∷ "11 1.12 refused table nobody"
        ∷ "12 1.13 ok"
        ∷ "13 1.14 refused outside"
        ∷ []) }
{}

/// A text that is no statement leaves its transaction open. The end of a session ends it without effect.
pub fn end_of_a_session_ends_its_transaction()
    ensures { told_behind (after messages) (
        session 1 (begin ∷ insert "users" ((int 8 ∷ text "Cy" ∷ []) ∷ []) ∷ [])
        ++ request 1 (Syntax 3)
        ++ session 2 (insert "users" ((int 8 ∷ text "Di" ∷ []) ∷ []) ∷ [])
        ++ request 1 End
        ++ session 2 (insert "users" ((int 8 ∷ text "Di" ∷ []) ∷ []) ∷ []))
        ≡ lines (
        "4 1.5 ok"
        ∷ "5 1.6 ok 1"
        ∷ "6 1.7 refused syntax 3"
        ∷ "7 2.1 refused conflict 1 users 8"
        ∷ "8 1.8 end"
        ∷ "9 2.2 ok 1"
        ∷ []) }
{}

/// A view is read with its tables whole: those of comments, then those of posts and users.
pub fn view_holds_its_tables()
    ensures { told_behind (after social) (
        session 1 (begin ∷ select_all "per_post" ∷ [])
        ++ session 2 (
        insert "comments" ((int 3 ∷ int 1 ∷ int 3 ∷ text "x" ∷ []) ∷ [])
        ∷ insert "posts" ((int 2 ∷ int 1 ∷ null ∷ text "y" ∷ []) ∷ [])
        ∷ [])
        ++ session 1 (select_all "shown" ∷ [])
        ++ session 2 (
        insert "posts" ((int 3 ∷ int 1 ∷ null ∷ text "z" ∷ []) ∷ [])
        ∷ insert "likes" ((int 2 ∷ int 1 ∷ int 2 ∷ []) ∷ [])
        ∷ []))
        ≡ lines (
        "18 1.19 ok"
        ∷ "19 1.20 rows 1"
        ∷ "  1|2"
        ∷ "20 2.1 refused conflict 1 comments 3"
        ∷ "21 2.2 ok 1"
        ∷ "22 1.21 rows 2"
        ∷ "  1|'Ada'"
        ∷ "  2|'Ada'"
        ∷ "23 2.3 refused conflict 1 posts 3"
        ∷ "24 2.4 ok 1"
        ∷ []) }
{}
