//! Laws of the definitions in `specs/`: each function does nothing, and what it ensures holds of every database.
ghost use Rattle.std.specs.Prelude.{◌≡◌, List, Contains, IsFalse};
ghost use Rattle.own_base.specs.declared.change.Change.{Change};
ghost use Rattle.own_base.specs.declared.row_name.RowName.{RowName};
ghost use Rattle.own_model.specs.declared.schema.Edge.{Edge};
ghost use Rattle.own_model.specs.Db.{Db, IsOrdered};
ghost use Rattle.owner_model.specs.Joins.{Joins};
ghost use Rattle.schema_model.specs.OwnerSchema.{IsOwnerSchema};
ghost use Rattle.subject_model.specs.Owners.{owners, reach};
ghost use Rattle.subject_model.specs.Paths.{is_subject_row};
ghost use Rattle.state_model.specs.LeadTo.{LeadTo};
ghost use Rattle.move_model.specs.declared.owner_move.OwnerMove.{OwnerMove as Move};
ghost use Rattle.move_model.specs.KeepsEdges.{KeepsEdges};
ghost use Rattle.move_model.specs.Moves.{AreMovesOf};
ghost use Rattle.move_model.specs.Touches.{Touches};

/// A row that no change touches is the same, and the same edges lead up from it.
pub fn untouched_rows_keep_their_edges()
    ensures { (before after : Db) (changes : List Change) (name : RowName) → after.schema ≡ before.schema → LeadTo before after changes
        → ((change : Change) → Contains changes change → ¬ (Touches after change name)) → KeepsEdges before after name }
{}

/// A row from which the same edges lead up has the same owners where the upper rows that are no subject rows have, and it has
/// the same reach where those have.
pub fn rows_keep_whose_they_are()
    ensures owners { (before after : Db) (name : RowName) → IsOrdered before → IsOrdered after → IsOwnerSchema after.schema → after.schema ≡ before.schema → KeepsEdges before after name
        → ((edge : Edge) (upper : RowName) → Joins after name edge upper → IsFalse (is_subject_row after upper) → owners before upper ≡ owners after upper)
        → owners before name ≡ owners after name }
    ensures reach { (before after : Db) (name : RowName) → IsOrdered before → IsOrdered after → IsOwnerSchema after.schema → after.schema ≡ before.schema → KeepsEdges before after name
        → ((edge : Edge) (upper : RowName) → Joins after name edge upper → IsFalse (is_subject_row after upper) → reach before upper ≡ reach after upper)
        → reach before name ≡ reach after name }
{}

/// The moves of two databases are one list.
pub fn moves_are_determined()
    ensures { (before after : Db) (one other : List Move) → AreMovesOf before after one → AreMovesOf before after other → one ≡ other }
{}
