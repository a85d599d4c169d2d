//! Which texts the statements of the cases are.
#![tactic(auto, unfolding(crate::proofs::Computing::history))]

ghost use Rattle.std.specs.Prelude.{◌≡◌, [], ◌∷◌, ◌++◌};
ghost use Rattle.own_model.specs.declared.statement.Statement.TheVariants.{Checkpoint, Explain};
ghost use Rattle.history_tests.specs.Stores.{messages, pages, social};
ghost use Rattle.history_tests.specs.Told.{lines, texts};
ghost use Rattle.history_tests.specs.Written.{begin, commit, constant, delete_all, forget, get, int, other, plus, rollback, select_all, select_ids, update_all};

/// Users and their messages.
pub fn messages_are_these_texts()
    ensures { texts messages ≡ lines (
        "CREATE DATA_SUBJECT TABLE users ( id INT PRIMARY KEY , name TEXT )"
        ∷ "CREATE TABLE msgs ( id INT PRIMARY KEY , sender INT OWNED_BY users ( id ) , receiver INT OWNED_BY users ( id ) , body TEXT , note TEXT , ON GET receiver ANON ( note ) , ON DEL sender ANON ( note ) )"
        ∷ "INSERT INTO users VALUES ( 5 , 'Ann' ) , ( 7 , 'Bob' )"
        ∷ "INSERT INTO msgs VALUES ( 9 , 5 , 7 , 'hi' , 'draft' )"
        ∷ []) }
{}

/// Pages of documents and in folders.
pub fn pages_are_these_texts()
    ensures { texts pages ≡ lines (
        "CREATE DATA_SUBJECT TABLE users ( id INT PRIMARY KEY )"
        ∷ "CREATE TABLE folders ( id INT PRIMARY KEY , who INT OWNED_BY users ( id ) )"
        ∷ "CREATE TABLE docs ( id INT PRIMARY KEY , a INT OWNED_BY users ( id ) , b INT OWNED_BY users ( id ) , ON DEL a DELETE_ROW , ON DEL b DELETE_ROW )"
        ∷ "CREATE TABLE pages ( id INT PRIMARY KEY , doc INT OWNED_BY docs ( id ) , folder INT OWNED_BY folders ( id ) )"
        ∷ "INSERT INTO users VALUES ( 5 ) , ( 7 )"
        ∷ "INSERT INTO folders VALUES ( 1 , 7 )"
        ∷ "INSERT INTO docs VALUES ( 2 , 5 , 7 )"
        ∷ "INSERT INTO pages VALUES ( 3 , 2 , NULL ) , ( 4 , 2 , 1 )"
        ∷ []) }
{}

/// A small social application.
pub fn social_application_is_these_texts()
    ensures { texts social ≡ lines (
        "CREATE DATA_SUBJECT TABLE users ( id INT PRIMARY KEY , name TEXT NOT NULL , mail TEXT UNIQUE )"
        ∷ "CREATE TABLE profiles ( id INT PRIMARY KEY , who INT NOT NULL OWNED_BY users ( id ) , bio TEXT )"
        ∷ "CREATE TABLE circles ( id INT PRIMARY KEY , title TEXT )"
        ∷ "CREATE TABLE members ( id INT PRIMARY KEY , who INT OWNED_BY users ( id ) , circle INT OWNS circles ( id ) )"
        ∷ "CREATE TABLE posts ( id INT PRIMARY KEY , author INT OWNED_BY users ( id ) , circle INT ACCESSED_BY circles ( id ) , body TEXT )"
        ∷ "CREATE TABLE comments ( id INT PRIMARY KEY , post INT ACCESSED_BY posts ( id ) , author INT OWNED_BY users ( id ) , body TEXT )"
        ∷ "CREATE TABLE likes ( id INT PRIMARY KEY , post INT REFERENCES posts ( id ) , who INT OWNED_BY users ( id ) )"
        ∷ "INSERT INTO users VALUES ( 1 , 'Ada' , 'a@x' ) , ( 2 , 'Ben' , 'b@x' ) , ( 3 , 'Cy' , NULL )"
        ∷ "INSERT INTO profiles VALUES ( 1 , 1 , 'hello' )"
        ∷ "BEGIN"
        ∷ "INSERT INTO circles VALUES ( 1 , 'chess' )"
        ∷ "INSERT INTO members VALUES ( 1 , 1 , 1 ) , ( 2 , 2 , 1 )"
        ∷ "COMMIT"
        ∷ "INSERT INTO posts VALUES ( 1 , 1 , 1 , 'first' )"
        ∷ "INSERT INTO comments VALUES ( 1 , 1 , 2 , 'nice' ) , ( 2 , 1 , 3 , 'late' )"
        ∷ "INSERT INTO likes VALUES ( 1 , 1 , 2 )"
        ∷ "CREATE VIEW per_post AS SELECT post , COUNT ( * ) FROM comments GROUP BY post"
        ∷ "CREATE VIEW shown AS SELECT posts . id , users . name FROM posts JOIN users ON posts . author = users . id"
        ∷ []) }
{}

/// What is asked of the stores in the cases.
pub fn calls_are_these_texts()
    ensures { texts (
        select_all "users"
        ∷ select_ids "msgs"
        ∷ update_all "accounts" "held" (plus "owed" 1)
        ∷ update_all "comments" "author" (constant (int 2))
        ∷ update_all "users" "name" (other "name")
        ∷ delete_all "msgs"
        ∷ get "users" 7
        ∷ forget "users" 5
        ∷ begin
        ∷ commit
        ∷ rollback
        ∷ Explain
        ∷ Checkpoint
        ∷ [])
        ≡ lines (
        "SELECT * FROM users"
        ∷ "SELECT id FROM msgs"
        ∷ "UPDATE accounts SET held = owed + 1"
        ∷ "UPDATE comments SET author = 2"
        ∷ "UPDATE users SET name = name"
        ∷ "DELETE FROM msgs"
        ∷ "GDPR GET users 7"
        ∷ "GDPR FORGET users 5"
        ∷ "BEGIN"
        ∷ "COMMIT"
        ∷ "ROLLBACK"
        ∷ "EXPLAIN COMPLIANCE"
        ∷ "CHECKPOINT"
        ∷ []) }
{}
