//! Laws of the definitions in `specs/`: each function does nothing, and what it ensures holds of all bytes.
ghost use Rattle.std.specs.Prelude.{◌≡◌, ◌↔◌, ℕ, List, length};
ghost use Rattle.own_base.specs.declared.change.Change.{Change};
ghost use Rattle.own_model.specs.Db.{Db};
ghost use Rattle.state_model.specs.Payload.{payload_bytes};
ghost use Rattle.state_model.specs.Sound.{Sound};
ghost use Rattle.disk_model.specs.declared.commit.Commit.{Commit};
ghost use Rattle.disk_model.specs.declared.commit.Commit.TheVariants.{Changes};
ghost use Rattle.disk_model.specs.declared.image.Image.{Image};
ghost use Rattle.disk_model.specs.Area.{Represent, RepresentNothing, Stored};
ghost use Rattle.disk_model.specs.Bounds.{IsBounded, IsBoundedImage, IsTyped, IsTypedImage};
ghost use Rattle.disk_model.specs.Follows.{Follows};
ghost use Rattle.disk_model.specs.Image.{IsImage};
ghost use Rattle.disk_model.specs.Judged.{IsDatabaseOf, IsJudged};
ghost use Rattle.disk_model.specs.JudgedArea.{Judged, Nothing, Store};
ghost use Rattle.disk_model.specs.Payload.{IsPayload};
ghost use Rattle.disk_model.specs.PutOf.{puts_of};
ghost use Rattle.disk_model.specs.StoreOf.{AreFollowed, IsStoreOf, IsStoredAs};
ghost use Rattle.disk_model.specs.Spelling.{image_spelling, payload_spelling};

/// A commit has one payload, its spelling, and has it exactly where it is bounded and typed.
pub fn commit_has_one_payload()
    ensures spelled { (commit : Commit) (bytes : List ℕ) → IsPayload commit bytes → bytes ≡ payload_spelling commit }
    ensures bounded { (commit : Commit) (bytes : List ℕ) → IsPayload commit bytes → IsBounded commit × IsTyped commit }
    ensures written { (commit : Commit) → IsBounded commit → IsTyped commit → IsPayload commit (payload_spelling commit) }
{}

/// An image has one list of bytes, its spelling, and has it exactly where it is bounded and typed.
pub fn image_has_one_spelling()
    ensures spelled { (image : Image) (bytes : List ℕ) → IsImage image bytes → bytes ≡ image_spelling image }
    ensures bounded { (image : Image) (bytes : List ℕ) → IsImage image bytes → IsBoundedImage image × IsTypedImage image }
    ensures written { (image : Image) → IsBoundedImage image → IsTypedImage image → IsImage image (image_spelling image) }
{}

/// The payload of changes is as long as is counted of them.
pub fn payload_is_as_long_as_counted()
    ensures { (changes : List Change) (payload : List ℕ) → IsPayload (Changes (puts_of changes)) payload → length payload ≡ payload_bytes changes }
{}

/// A lawful commit leaves a sound database sound, and so do commits one after another. So what an image and commits
/// represent is sound.
pub fn lawful_commits_leave_a_sound_database()
    ensures one { (db : Db) (commit : Commit) (after : Db) → Sound db → Follows db commit after → Sound after }
    ensures several { (db : Db) (commits : List Commit) (after : Db) → Sound db → AreFollowed db commits after → Sound after }
    ensures store { (image : Image) (commits : List Commit) (db : Db) (number : ℕ) → IsStoreOf image commits db number → Sound db }
{}

/// The bytes of two areas are judged in one way, and what they are judged to be tells of one database and one number of
/// commits.
pub fn areas_are_judged_in_one_way()
    ensures judged { (a b : List ℕ) (one other : Judged) → IsJudged a b one → IsJudged a b other → one ≡ other }
    ensures database { (judged : Judged) (one other : Db) (n m : ℕ) → IsDatabaseOf judged one n → IsDatabaseOf judged other m → (one ≡ other) × (n ≡ m) }
{}

/// Two areas are judged no store exactly where they represent nothing, and a store exactly where they represent it and it is
/// lawful.
pub fn areas_are_judged_as_they_represent()
    ensures nothing { (a b : List ℕ) → IsJudged a b Nothing ↔ RepresentNothing a b }
    ensures store { (a b : List ℕ) (stored : Stored) (image : Image) (commits : List Commit) (db : Db) (number : ℕ)
        → Represent a b stored → IsStoredAs stored image commits → IsStoreOf image commits db number → IsJudged a b (Store image commits) }
    ensures stored { (a b : List ℕ) (image : Image) (commits : List Commit) → IsJudged a b (Store image commits)
        → (stored : Stored) × (db : Db) × (number : ℕ) × Represent a b stored × IsStoredAs stored image commits × IsStoreOf image commits db number }
{}
