//! What databases weigh, what differs between two of them, and how many bytes that takes on the disk.
#![tactic(auto, unfolding(crate::proofs::Computing::history))]

ghost use Rattle.std.specs.Prelude.{◌≡◌, [], ◌∷◌, ◌++◌};
ghost use Rattle.state_model.specs.Net.{net};
ghost use Rattle.state_model.specs.Payload.{payload_bytes};
ghost use Rattle.state_model.specs.Weight.{weight};
ghost use Rattle.history_tests.specs.Stores.{accounts, after, messages, social};
ghost use Rattle.history_tests.specs.Told.{left_by, names_in, named, session};
ghost use Rattle.history_tests.specs.Written.{constant, forget, insert, int, null, text, update_all};

/// Two users of 131 each, and a message of 231, once for each of its two owners.
pub fn message_weighs_once_for_each_owner()
    ensures { weight (left_by (after messages)) ≡ 724 }
{}

/// A post of 197 is seen by one who doesn't own it, and a comment of 196 by two: 64 for each. A view that counts weighs 128
/// for each row of its table, and one over a join nothing.
pub fn those_who_see_a_row_and_a_view_add_to_its_weight()
    ensures { weight (left_by (after social)) ≡ 2506 }
{}

/// Nobody owns the row of a public table, which weighs once: 64, and 32 for each of three numbers.
pub fn row_that_nobody_owns_weighs_once()
    ensures { weight (left_by (after accounts)) ≡ 320 }
{}

/// The INSERT of a user: a byte for the kind, four for how many rows, then the table, the key, a byte, and the row, whose name has
/// three letters.
pub fn insert_of_a_user_takes_forty_bytes()
    ensures { payload_bytes (net (left_by (after messages)) (left_by (after messages ++ session 1 (insert "users" ((int 8 ∷ text "Eve" ∷ []) ∷ []) ∷ []))))
        ≡ 40 }
{}

/// The sender's row goes, and the message stays with two values less: 14 bytes, and 45, behind five.
pub fn erasure_differs_in_what_it_removes_and_changes()
    ensures rows { names_in (net (left_by (after messages)) (left_by (after messages ++ session 1 (forget "users" 5 ∷ []))))
        ≡ named 0 5 ∷ named 1 9 ∷ [] }
    ensures bytes { payload_bytes (net (left_by (after messages)) (left_by (after messages ++ session 1 (forget "users" 5 ∷ [])))) ≡ 64 }
{}

/// A row that is set to what it was doesn't differ.
pub fn row_that_ends_as_it_began_is_in_no_net()
    ensures { names_in (net (left_by (after messages)) (left_by (after messages ++ session 1 (
        update_all "msgs" "note" (constant null)
        ∷ update_all "msgs" "note" (constant (text "draft"))
        ∷ [])))) ≡ [] }
{}
