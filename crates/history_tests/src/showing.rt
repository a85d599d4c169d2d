//! What a GDPR GET and an EXPLAIN COMPLIANCE show.
#![tactic(auto, unfolding(crate::proofs::Computing::history))]

ghost use Rattle.std.specs.Prelude.{◌≡◌, [], ◌∷◌, ◌++◌};
ghost use Rattle.own_model.specs.declared.statement.Statement.TheVariants.{Explain};
ghost use Rattle.history_tests.specs.Stores.{after, messages, social};
ghost use Rattle.history_tests.specs.Told.{lines, session, told, told_behind};
ghost use Rattle.history_tests.specs.Written.{constant, get, insert, int, text, update_all};

/// The store of messages is made.
pub fn messages_are_put()
    ensures { told (after messages) ≡ lines ("0 1.1 ok" ∷ "1 1.2 ok" ∷ "2 1.3 ok 2" ∷ "3 1.4 ok 1" ∷ []) }
{}

/// The receiver reaches the message by the edge that hides the note, and by no other; the sender by one that hides nothing.
/// Nobody is user 6.
pub fn get_hides_a_column_that_every_edge_hides()
    ensures { told_behind (after messages) (session 1 (get "users" 7 ∷ get "users" 5 ∷ get "users" 6 ∷ [])) ≡ lines (
        "4 1.5 got 2"
        ∷ "  users|7|'Bob'"
        ∷ "  msgs|9|5|7|'hi'|HIDDEN"
        ∷ "5 1.6 got 2"
        ∷ "  users|5|'Ann'"
        ∷ "  msgs|9|5|7|'hi'|'draft'"
        ∷ "6 1.7 refused absent users 6"
        ∷ []) }
{}

/// A message to oneself is reached by both edges, of which one hides nothing.
pub fn get_shows_a_column_that_one_edge_leaves()
    ensures { told_behind (after messages) (session 1 (
        insert "msgs" ((int 10 ∷ int 5 ∷ int 5 ∷ text "self" ∷ text "n" ∷ []) ∷ [])
        ∷ get "users" 5
        ∷ []))
        ≡ lines (
        "4 1.5 ok 1"
        ∷ "5 1.6 got 3"
        ∷ "  users|5|'Ann'"
        ∷ "  msgs|9|5|7|'hi'|'draft'"
        ∷ "  msgs|10|5|5|'self'|'n'"
        ∷ []) }
{}

/// The posts and comments of others are reached by the circle that sees them, which the user doesn't own alone.
pub fn get_follows_access_paths()
    ensures { told_behind (after social) (session 1 (get "users" 2 ∷ [])) ≡ lines (
        "18 1.19 got 7"
        ∷ "  users|2|'Ben'|'b@x'"
        ∷ "  circles|1|'chess'"
        ∷ "  members|2|2|1"
        ∷ "  posts|1|1|1|'first'"
        ∷ "  comments|1|1|2|'nice'"
        ∷ "  comments|2|1|3|'late'"
        ∷ "  likes|1|1|2"
        ∷ []) }
{}

/// The comments are given one author: who wrote one of them reaches it no more; who saw it by the circle owns it now.
pub fn comments_go_to_another_author()
    ensures { told_behind (after social) (session 1 (
        get "users" 3
        ∷ update_all "comments" "author" (constant (int 2))
        ∷ get "users" 3
        ∷ get "users" 2
        ∷ []))
        ≡ lines (
        "18 1.19 got 2"
        ∷ "  users|3|'Cy'|NULL"
        ∷ "  comments|2|1|3|'late'"
        ∷ "19 1.20 ok 2"
        ∷ "20 1.21 got 1"
        ∷ "  users|3|'Cy'|NULL"
        ∷ "21 1.22 got 7"
        ∷ "  users|2|'Ben'|'b@x'"
        ∷ "  circles|1|'chess'"
        ∷ "  members|2|2|1"
        ∷ "  posts|1|1|1|'first'"
        ∷ "  comments|1|1|2|'nice'"
        ∷ "  comments|2|1|2|'late'"
        ∷ "  likes|1|1|2"
        ∷ []) }
{}

/// Who owns what, with the rules of each edge.
pub fn explain_shows_tables_and_edges()
    ensures { told_behind (after messages) (session 1 (Explain ∷ [])) ≡ lines (
        "4 1.5 graph 4"
        ∷ "  users subject"
        ∷ "  msgs private"
        ∷ "  msgs.sender OWNED_BY users DEL (note)"
        ∷ "  msgs.receiver OWNED_BY users GET (note)"
        ∷ []) }
{}
