//! Laws of the definitions in `specs/`: each function does nothing, and what it ensures holds of every database and
//! statement.
ghost use Rattle.std.specs.Prelude.{◌≡◌, false};
ghost use Rattle.std.specs.List.{list_any};
ghost use Rattle.own_model.specs.declared.footprint.FootItem.{FootItem};
ghost use Rattle.own_model.specs.declared.refusal.Refusal.{Refusal};
ghost use Rattle.own_model.specs.declared.reply.Reply.TheVariants.{Refused};
ghost use Rattle.own_model.specs.declared.request.Request.TheVariants.{Run};
ghost use Rattle.own_model.specs.declared.statement.Statement.{Statement};
ghost use Rattle.own_model.specs.Db.{Db};
ghost use Rattle.grammar_model.specs.Readable.{IsReadable};
ghost use Rattle.state_model.specs.Sound.{IsWellFormed};
ghost use Rattle.run_model.specs.Agree.{Agree, AgreeOn, overlaps};
ghost use Rattle.run_model.specs.Items.{TakesRows, items_of};
ghost use Rattle.run_model.specs.Run.{run};

/// A statement that a text can give leaves a database of the schema that its creates give, with rows in key order that may
/// stand in their tables, if it was one.
pub fn readable_statement_keeps_a_database()
    ensures { (db : Db) (statement : Statement) → IsWellFormed db → IsReadable (Run statement) → IsWellFormed (run db statement).db }
{}

/// A statement that is refused leaves the database as it was.
pub fn refused_statement_changes_nothing()
    ensures { (db : Db) (statement : Statement) (why : Refusal) → (run db statement).reply ≡ Refused why → (run db statement).db ≡ db }
{}

/// A SELECT, an INSERT, an UPDATE or a DELETE answers and writes by the rows that its items name: on databases that agree on
/// these it gives one reply, and they agree behind it on every item on which they did before.
pub fn statement_depends_on_its_items_alone()
    ensures reply { (db other : Db) (statement : Statement) → IsWellFormed db → IsWellFormed other → TakesRows statement → Agree (items_of db.schema statement) db other
        → (run db statement).reply ≡ (run other statement).reply }
    ensures left { (db other : Db) (statement : Statement) → IsWellFormed db → IsWellFormed other → TakesRows statement → Agree (items_of db.schema statement) db other
        → (item : FootItem) → AgreeOn db other item → AgreeOn (run db statement).db (run other statement).db item }
{}

/// An item that none of a statement's items overlaps is as it was behind it: a SELECT writes nothing, and the others write
/// rows of their items alone.
pub fn statement_writes_on_its_items_alone()
    ensures { (db : Db) (statement : Statement) → IsWellFormed db → TakesRows statement
        → (item : FootItem) → list_any (λ own. overlaps own item) (items_of db.schema statement) ≡ false → AgreeOn db (run db statement).db item }
{}
