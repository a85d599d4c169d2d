//! Laws of payloads: each function does nothing, and what it ensures holds of all bytes.
ghost use Rattle.std.specs.Prelude.{◌≡◌, ◌++◌, ℕ, List, [], ◌∷◌, length};
ghost use Rattle.disk_model.specs.declared.commit.Commit.{Commit};
ghost use Rattle.rec_codec.specs.Encodable.{IsEncodable};
ghost use Rattle.disk_model.specs.Number.{IsNumber};
ghost use Rattle.disk_model.specs.Payload.{IsPayload};
ghost use Rattle.rec_codec.specs.Framed.{IsFramed, payload_length};

/// Bytes are the payload of one commit at most.
pub fn payload_is_of_one_commit()
    ensures { (payload : List ℕ) (one other : Commit) → IsPayload one payload → IsPayload other payload → one ≡ other }
{}

/// A commit that was decoded can be encoded. Its length is that of the bytes it was decoded from, and where they aren't
/// too many, what is encoded has them between their length and the closed gate.
pub fn decoded_commit_encodes_to_the_same_bytes()
    ensures encodable { (commit : Commit) (payload : List ℕ) → IsPayload commit payload → IsEncodable commit }
    ensures length { (commit : Commit) (payload : List ℕ) → IsPayload commit payload → payload_length commit ≡ length payload }
    ensures bytes { (commit : Commit) (payload framed : List ℕ) → IsPayload commit payload → IsFramed commit framed
        → IsNumber 4 (length payload) framed (payload ++ 0 ∷ []) }
{}
