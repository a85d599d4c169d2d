//! Laws of images: each function does nothing, and what it ensures holds of all bytes.
ghost use Rattle.std.specs.Prelude.{◌≡◌, ◌++◌, ℕ, List, [], ◌∷◌};
ghost use Rattle.own_model.specs.Db.{Db};
ghost use Rattle.disk_model.specs.declared.image.Image.{Image};
ghost use Rattle.disk_model.specs.Image.{IsImage};
ghost use Rattle.disk_model.specs.Lawful.{IsLawfulImage};
ghost use Rattle.check_image.specs.Gated.{IsGatedImage};

/// Bytes are one image at most.
pub fn bytes_are_one_image()
    ensures { (bytes : List ℕ) (one other : Image) → IsImage one bytes → IsImage other bytes → one ≡ other }
{}

/// A lawful image that was decoded is encoded to the same bytes, from the database that it is of and its own number of
/// commits.
pub fn decoded_image_encodes_to_the_same_bytes()
    ensures { (image : Image) (db : Db) (bytes gated : List ℕ) → IsImage image bytes → IsLawfulImage image db → IsGatedImage db image.commits gated
        → gated ≡ bytes ++ 0 ∷ [] }
{}
