//! Laws of the definitions in `specs/`: each function does nothing, and what it ensures holds of every database.
ghost use Rattle.std.specs.Prelude.{◌≡◌, ◌↔◌, Contains, IsTrue, map};
ghost use Rattle.std.specs.List.Sorted.{IsStrictlySortedBy};
ghost use Rattle.own_base.specs.declared.row_name.RowName.{RowName};
ghost use Rattle.own_model.specs.Db.{Db, IsOrdered};
ghost use Rattle.schema_model.specs.OwnerSchema.{IsOwnerSchema};
ghost use Rattle.subject_model.specs.NameOrder.{name_cmp};
ghost use Rattle.subject_model.specs.Owners.{Owns, Reaches};
ghost use Rattle.shelf_model.specs.declared.shelved.Shelved.{Shelved as Copy};
ghost use Rattle.shelf_model.specs.IsCopy.{IsCopyOf};
ghost use Rattle.shelf_model.specs.Seen.{seen};
ghost use Rattle.shelf_model.specs.Shelf.{shelf};

/// On a subject's shelf stand copies of exactly the rows that it owns, by table, then by key, each once.
pub fn shelf_has_a_copy_of_each_row_owned()
    ensures members { (db : Db) (subject : RowName) (copy : Copy) → IsOrdered db → IsOwnerSchema db.schema
        → (Contains (shelf db subject) copy) ↔ (Owns db subject copy.name × IsCopyOf db subject copy) }
    ensures in_order { (db : Db) (subject : RowName) → IsOrdered db → IsStrictlySortedBy name_cmp (map (λ copy. copy.name) (shelf db subject)) }
{}

/// It sees exactly the rows that it reaches and doesn't own, by table, then by key, each once.
pub fn seen_has_each_row_reached_and_not_owned()
    ensures members { (db : Db) (subject name : RowName) → IsOrdered db → IsOwnerSchema db.schema
        → (Contains (seen db subject) name) ↔ (Reaches db subject name × (¬ (Owns db subject name))) }
    ensures in_order { (db : Db) (subject : RowName) → IsOrdered db → IsStrictlySortedBy name_cmp (seen db subject) }
{}
