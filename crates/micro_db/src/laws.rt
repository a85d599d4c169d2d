//! Laws of what micro-databases stand for: each function does nothing, and what it ensures holds of every database.
ghost use Rattle.std.specs.Prelude.{◌≡◌, List, [], IsTrue, None};
ghost use Rattle.own_base.specs.declared.change.Change.{Change};
ghost use Rattle.own_base.specs.declared.row_name.RowName.{RowName};
ghost use Rattle.own_model.specs.declared.create.CreateTable.{CreateTable};
ghost use Rattle.own_model.specs.declared.create.CreateView.{CreateView};
ghost use Rattle.own_model.specs.Db.{Db, IsOrdered};
ghost use Rattle.owner_model.specs.Joins.{row_of};
ghost use Rattle.schema_model.specs.Lone.{are_lone};
ghost use Rattle.schema_model.specs.OwnerSchema.{IsOwnerSchema};
ghost use Rattle.state_model.specs.Create.{create, create_view};
ghost use Rattle.state_model.specs.LeadTo.{LeadTo};
ghost use Rattle.micro_db.specs.declared.micro.MicroDb.{MicroDb as Micro};
ghost use Rattle.micro_db.specs.Kept.{StandsFor};

/// Where nothing is kept, as of `MicroDb::new`, that stands for a database without rows.
pub fn nothing_stands_for_no_rows()
    ensures { (db : Db) (micro : Micro) → micro.shelves ≡ [] → micro.seen ≡ [] → ((name : RowName) → row_of db name ≡ None) → StandsFor db micro }
{}

/// What stands for a database stands for it with one table more, which has no rows yet, and so joins none.
pub fn it_stands_with_one_table_more()
    ensures { (db : Db) (table : CreateTable) (micro : Micro) → IsOrdered db → IsOwnerSchema db.schema → IsOwnerSchema (create db table).schema
        → StandsFor db micro → StandsFor (create db table) micro }
{}

/// And for it with one view more.
pub fn it_stands_with_one_view_more()
    ensures { (db : Db) (view : CreateView) (micro : Micro) → IsOrdered db → IsOwnerSchema db.schema
        → StandsFor db micro → StandsFor (create_view db view) micro }
{}

/// What stands for a database stands for each that has the same tables, edges and rows: views and texts don't matter.
pub fn it_stands_for_the_same_rows()
    ensures { (one other : Db) (micro : Micro) → one.schema.tables ≡ other.schema.tables → one.schema.edges ≡ other.schema.edges → one.rows ≡ other.rows
        → StandsFor one micro → StandsFor other micro }
{}

/// And it stands still after changes of lone tables: nobody reaches a row of these, and no edge leads to one.
pub fn lone_changes_leave_it()
    ensures { (before after : Db) (changes : List Change) (micro : Micro) → IsOrdered before → IsOrdered after → IsOwnerSchema before.schema → after.schema ≡ before.schema
        → LeadTo before after changes → IsTrue (are_lone before.schema changes) → StandsFor before micro → StandsFor after micro }
{}
