//! Laws of what an index stands for: each function does nothing, and what it ensures holds of every database.
ghost use Rattle.std.specs.Prelude.{◌≡◌, List, [], IsTrue, None};
ghost use Rattle.own_base.specs.declared.change.Change.{Change};
ghost use Rattle.own_base.specs.declared.row_name.RowName.{RowName};
ghost use Rattle.own_model.specs.declared.create.CreateTable.{CreateTable};
ghost use Rattle.own_model.specs.declared.create.CreateView.{CreateView};
ghost use Rattle.own_model.specs.Db.{Db, IsOrdered};
ghost use Rattle.move_model.specs.Moves.{AreMovesOf};
ghost use Rattle.owner_index.specs.Entry.{Entry as Held};
ghost use Rattle.owner_index.specs.Held.{StandsFor};
ghost use Rattle.owner_model.specs.Joins.{row_of};
ghost use Rattle.schema_model.specs.Lone.{are_lone};
ghost use Rattle.schema_model.specs.OwnerSchema.{IsOwnerSchema};
ghost use Rattle.state_model.specs.Create.{create, create_view};
ghost use Rattle.state_model.specs.LeadTo.{LeadTo};

/// An index without entries, as `OwnerIndex::new` gives, stands for a database without rows.
pub fn no_entry_stands_for_no_rows()
    ensures { (db : Db) → IsOrdered db → IsOwnerSchema db.schema → ((name : RowName) → row_of db name ≡ None) → StandsFor db [] }
{}

/// An index stands for a database with one table more, which has no rows yet, and so joins none.
pub fn index_stands_with_one_table_more()
    ensures { (db : Db) (table : CreateTable) (entries : List Held) → IsOrdered db → IsOwnerSchema db.schema → IsOwnerSchema (create db table).schema
        → StandsFor db entries → StandsFor (create db table) entries }
{}

/// An index stands for a database with one view more.
pub fn index_stands_with_one_view_more()
    ensures { (db : Db) (view : CreateView) (entries : List Held) → IsOrdered db → IsOwnerSchema db.schema
        → StandsFor db entries → StandsFor (create_view db view) entries }
{}

/// What an index stands for stays where changes are of lone tables, and there are no moves.
pub fn lone_changes_move_nothing()
    ensures stands { (before after : Db) (changes : List Change) (entries : List Held) → IsOrdered before → IsOrdered after → IsOwnerSchema before.schema → after.schema ≡ before.schema
        → LeadTo before after changes → IsTrue (are_lone before.schema changes) → StandsFor before entries → StandsFor after entries }
    ensures moves { (before after : Db) (changes : List Change) → IsOrdered before → IsOrdered after → IsOwnerSchema before.schema → after.schema ≡ before.schema
        → LeadTo before after changes → IsTrue (are_lone before.schema changes) → AreMovesOf before after [] }
{}
