//! Transactions that read one row by its key. A condition is a value that computes by lemmas alone, so these cases are proved step
//! by step.
#![tactic(auto)]

ghost use Rattle.std.specs.Prelude.{◌≡◌, [], ◌∷◌, ◌++◌};
ghost use Rattle.history_tests.specs.Stores.{after, messages, social};
ghost use Rattle.history_tests.specs.Told.{lines, session, texts, told, told_behind};
ghost use Rattle.history_tests.specs.Written.{begin, commit, constant, create, forget, get, id, insert, int, int_column, select_all, select_key, update};

/// What is asked of one row.
pub fn calls_by_key_are_these_texts()
    ensures select { texts (select_key "users" 5 ∷ []) ≡ lines ("SELECT * FROM users WHERE id = 5" ∷ []) }
    ensures update { texts (update "comments" "author" (constant (int 2)) 2 ∷ []) ≡ lines ("UPDATE comments SET author = 2 WHERE id = 2" ∷ []) }
{}

/// Two sessions read a key under which nothing stands. While the first still holds it, the second doesn't write there, nor
/// create a table; then it does.
pub fn key_that_is_not_there_is_held()
    ensures { told (
        session 1 (create "acc" (id ∷ int_column "n" [] ∷ []) ∷ begin ∷ select_key "acc" 7 ∷ [])
        ++ session 2 (begin ∷ select_key "acc" 7 ∷ commit ∷ insert "acc" ((int 7 ∷ int 1 ∷ []) ∷ []) ∷ create "z" (id ∷ []) ∷ [])
        ++ session 1 (commit ∷ [])
        ++ session 2 (insert "acc" ((int 7 ∷ int 1 ∷ []) ∷ []) ∷ []))
        ≡ lines (
        "0 1.1 ok"
        ∷ "1 1.2 ok"
        ∷ "2 1.3 rows 0"
        ∷ "3 2.1 ok"
        ∷ "4 2.2 rows 0"
        ∷ "5 2.3 ok"
        ∷ "6 2.4 refused conflict 1 acc 7"
        ∷ "7 2.5 refused busy 1"
        ∷ "8 1.4 ok"
        ∷ "9 2.6 ok 1"
        ∷ []) }
{}

/// A transaction has read the user who is forgotten. It ends without effect, and is told so once.
pub fn forget_dooms_a_reader_of_a_key_that_it_removes()
    ensures { told_behind (after messages) (
        session 1 (begin ∷ select_key "users" 5 ∷ [])
        ++ session 2 (forget "users" 5 ∷ [])
        ++ session 1 (commit ∷ select_all "users" ∷ []))
        ≡ lines (
        "4 1.5 ok"
        ∷ "5 1.6 rows 1"
        ∷ "  5|'Ann'"
        ∷ "6 2.1 forgot 1 removed 1 changed"
        ∷ "7 1.7 refused doomed 6"
        ∷ "8 1.8 rows 1"
        ∷ "  7|'Bob'"
        ∷ []) }
{}

/// A transaction that has read another user goes on.
pub fn forget_leaves_a_reader_of_another_key()
    ensures { told_behind (after messages) (
        session 1 (begin ∷ select_key "users" 7 ∷ [])
        ++ session 2 (forget "users" 5 ∷ [])
        ++ session 1 (commit ∷ []))
        ≡ lines (
        "4 1.5 ok"
        ∷ "5 1.6 rows 1"
        ∷ "  7|'Bob'"
        ∷ "6 2.1 forgot 1 removed 1 changed"
        ∷ "7 1.7 ok"
        ∷ []) }
{}

/// A comment is given another author: who wrote it reaches it no more; who saw it by the circle owns it now.
pub fn comment_goes_to_another_author()
    ensures { told_behind (after social) (session 1 (
        get "users" 3
        ∷ update "comments" "author" (constant (int 2)) 2
        ∷ get "users" 3
        ∷ get "users" 2
        ∷ []))
        ≡ lines (
        "18 1.19 got 2"
        ∷ "  users|3|'Cy'|NULL"
        ∷ "  comments|2|1|3|'late'"
        ∷ "19 1.20 ok 1"
        ∷ "20 1.21 got 1"
        ∷ "  users|3|'Cy'|NULL"
        ∷ "21 1.22 got 7"
        ∷ "  users|2|'Ben'|'b@x'"
        ∷ "  circles|1|'chess'"
        ∷ "  members|2|2|1"
        ∷ "  posts|1|1|1|'first'"
        ∷ "  comments|1|1|2|'nice'"
        ∷ "  comments|2|1|2|'late'"
        ∷ "  likes|1|1|2"
        ∷ []) }
{}
