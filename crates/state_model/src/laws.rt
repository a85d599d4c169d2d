//! Laws of the definitions in `specs/`: each function does nothing, and what it ensures holds of every database.
ghost use Rattle.std.specs.Prelude.{◌≡◌, ◌↔◌, ◌≤◌, ◌+◌, ◌*◌, ℕ, Contains, IsTrue, List, length, None, Some, map, nat_lt, if◌then◌else◌};
ghost use Rattle.std.specs.List.Sorted.{IsStrictlySortedBy};
ghost use Rattle.own_base.specs.declared.change.Change.{Change};
ghost use Rattle.own_base.specs.declared.row_name.RowName.{RowName};
ghost use Rattle.own_model.specs.declared.create.CreateTable.{CreateTable as TableCreate};
ghost use Rattle.own_model.specs.declared.create.CreateView.{CreateView as ViewCreate};
ghost use Rattle.own_model.specs.declared.limit.LimitName.TheVariants as limit;
ghost use Rattle.own_model.specs.declared.limit.TheConstants.{STORE_WEIGHT};
ghost use Rattle.own_model.specs.declared.refusal.Refusal.TheVariants.{Limit};
ghost use Rattle.own_model.specs.declared.request.Request.TheVariants.{Run};
ghost use Rattle.own_model.specs.declared.statement.Statement.TheVariants.{CreateTable};
ghost use Rattle.own_model.specs.Db.{Db, IsOrdered, empty};
ghost use Rattle.own_model.specs.Stored.{holds_rows};
ghost use Rattle.schema_model.specs.OwnerSchema.{IsOwnerSchema};
ghost use Rattle.schema_model.specs.Refusal.{refusal_of};
ghost use Rattle.schema_model.specs.Tables.{is_subject};
ghost use Rattle.schema_model.specs.WithinLimits.{IsWithinLimits};
ghost use Rattle.query_model.specs.BoundView.{new_view};
ghost use Rattle.query_model.specs.WithinLimits.{AreViewsWithin};
ghost use Rattle.grammar_model.specs.Readable.{IsReadable, IsWritten};
ghost use Rattle.subject_model.specs.Forget.{forget};
ghost use Rattle.subject_model.specs.NameOrder.{name_cmp};
ghost use Rattle.state_model.specs.ChangeOf.{IsChangeOf};
ghost use Rattle.state_model.specs.Consistent.{IsConsistent};
ghost use Rattle.state_model.specs.Create.{create, create_view};
ghost use Rattle.state_model.specs.Created.{Create, IsCreated, statement_of, text_of};
ghost use Rattle.state_model.specs.Fault.{fault};
ghost use Rattle.state_model.specs.LeadTo.{LeadTo};
ghost use Rattle.state_model.specs.MayBePut.{MayBePut};
ghost use Rattle.state_model.specs.Net.{net};
ghost use Rattle.state_model.specs.Put.{put};
ghost use Rattle.state_model.specs.Sound.{IsWellFormed, Sound};
ghost use Rattle.state_model.specs.Weight.{row_count, view_weight, weight};

/// The edges of the schema that admitted creates give are an ownership graph, and it is within the limits, with its views.
pub fn created_schema_is_an_owner_schema()
    ensures owner { (db : Db) → IsCreated db → IsOwnerSchema db.schema }
    ensures within { (db : Db) → IsCreated db → IsWithinLimits db.schema }
    ensures views { (db : Db) → IsCreated db → AreViewsWithin db.schema }
{}

/// The empty database has the schema that its creates give, and is one that a store may represent.
pub fn empty_database_is_sound()
    ensures created { IsCreated empty }
    ensures sound { Sound empty }
{}

/// What a GDPR FORGET of a row of a table of data subjects leaves of a database that a store may represent is one again: no
/// reference dangles, each row of a private table that stays has an owner, and no limit is passed.
pub fn sound_stays_sound_after_forget()
    ensures { (db : Db) (subject : RowName) → IsTrue (is_subject db.schema subject.table.0) → Sound db → Sound (forget db subject) }
{}

/// In a database that a store may represent each row of a private table is owned, each reference has its row, no two rows
/// share a value that is to be unique, and the limits are kept.
pub fn sound_database_is_consistent()
    ensures { (db : Db) → Sound db → IsConsistent db }
{}

/// And whatever database statements leave, where that holds of it, a store may represent it.
pub fn consistent_database_is_sound()
    ensures { (db : Db) → IsWellFormed db → (Sound db) ↔ (IsConsistent db) }
{}

/// The net of two databases of one schema has a change for each name whose rows differ, which tells both rows, and no other.
pub fn net_tells_the_rows_that_differ()
    ensures { (before after : Db) (change : Change) → IsOrdered before → IsOrdered after → after.schema ≡ before.schema
        → (Contains (net before after) change) ↔ (IsChangeOf before after change) }
{}

/// Changes that lead from one database to another of its schema give the other's rows where they are put into the one.
pub fn changes_give_the_rows_to_which_they_lead()
    ensures { (before after : Db) (changes : List Change) → IsOrdered before → IsOrdered after → after.schema ≡ before.schema → LeadTo before after changes
        → (put before changes).rows ≡ after.rows }
{}

/// The net of two databases of one schema leads from the one to the other. It may be put into the one, and gives the other's rows.
pub fn net_leads_from_the_one_to_the_other()
    ensures leads { (before after : Db) → IsOrdered before → IsOrdered after → after.schema ≡ before.schema → LeadTo before after (net before after) }
    ensures may { (before after : Db) → IsOrdered before → IsOrdered after → after.schema ≡ before.schema → MayBePut before.schema.tables (net before after) }
    ensures gives { (before after : Db) → IsOrdered before → IsOrdered after → after.schema ≡ before.schema → (put before (net before after)).rows ≡ after.rows }
{}

/// A GDPR FORGET of a row of a table of data subjects raises neither the number of rows nor the weight.
pub fn forget_raises_neither_rows_nor_weight()
    ensures rows { (db : Db) (subject : RowName) → row_count (forget db subject) ≤ row_count db }
    ensures weight { (db : Db) (subject : RowName) → IsTrue (is_subject db.schema subject.table.0) → IsWellFormed db
        → weight (forget db subject) ≤ weight db }
{}

/// The changes of a net stand by table, then by key, each name once.
pub fn names_of_a_net_rise()
    ensures { (before after : Db) → IsStrictlySortedBy name_cmp (map (λ change. change.name) (net before after)) }
{}

/// A CREATE TABLE that is admitted leaves a database that a store may represent one, and of the same weight: the new table
/// has no rows, and no row of another loses its owner or its reference by it.
pub fn table_that_comes_breaks_nothing()
    ensures sound { (db : Db) (table : TableCreate) → Sound db → IsReadable (Run (CreateTable table)) → refusal_of db.schema (holds_rows db.rows) table ≡ None
        → Sound (create db table) }
    ensures weight { (db : Db) (table : TableCreate) → IsWellFormed db → refusal_of db.schema (holds_rows db.rows) table ≡ None → weight (create db table) ≡ weight db }
{}

/// A CREATE VIEW adds to the weight what the view weighs. That the sum is too great is all that can be wrong with what it
/// leaves of a database that a store may represent.
pub fn view_that_comes_adds_its_weight()
    ensures fault { (db : Db) (view : ViewCreate) → Sound db → fault (create_view db view) ≡
        (if nat_lt STORE_WEIGHT (weight db + view_weight db (new_view db.schema view)) then Some (Limit limit.Weight) else None) }
    ensures weight { (db : Db) (view : ViewCreate) → IsWellFormed db → weight (create_view db view) ≡ weight db + view_weight db (new_view db.schema view) }
{}

/// The canonical text of a CREATE has at most twice as many bytes as any text by which the grammar gives it. So the text by
/// which a CREATE of a call is kept has a length of 32 bits.
pub fn canonical_text_of_a_create_is_at_most_twice_as_long()
    ensures { (create : Create) (most : ℕ) → IsWritten most (statement_of create) → length (text_of create).text ≤ 2 * most }
{}
