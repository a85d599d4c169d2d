//! Laws of the definitions in `specs/`: each function does nothing, and what it ensures holds of every database. Where a
//! law asks for it, the keys of each table rise strictly, and the schema's edges are an ownership graph.
ghost use Rattle.std.specs.Prelude.{◌≡◌, ◌↔◌, Bool, List, [], ◌∷◌, ◌++◌, Contains, IsTrue, Some, map};
ghost use Rattle.std.specs.List.Sorted.{IsStrictlySortedBy};
ghost use Rattle.own_base.specs.declared.row_name.RowName.{RowName};
ghost use Rattle.own_model.specs.declared.schema.Edge.{Edge};
ghost use Rattle.own_model.specs.Db.{Db, IsOrdered};
ghost use Rattle.owner_model.specs.Joins.{Joins, row_of};
ghost use Rattle.schema_model.specs.OwnerSchema.{IsOwnerSchema};
ghost use Rattle.subject_model.specs.Erased.{IsAltered, IsErased};
ghost use Rattle.subject_model.specs.FirstSubject.{EndsAtFirstSubject};
ghost use Rattle.subject_model.specs.Forget.{changed, forget, removed};
ghost use Rattle.subject_model.specs.LocalEquation.{MeetsLocalEquation, counts_for_owners, counts_for_reach};
ghost use Rattle.subject_model.specs.NameOrder.{name_cmp};
ghost use Rattle.subject_model.specs.Named.{NamedRow, is_there, named_rows};
ghost use Rattle.subject_model.specs.Owners.{By, Owns, Reaches, by, has_owner, owners, owns, reach, reaches};
ghost use Rattle.subject_model.specs.Paths.{IsPath, Path, Step, end_of, is_subject_row, paths, steps_of};
ghost use Rattle.subject_model.specs.Staying.{Stays, Struck};
ghost use Rattle.subject_model.specs.Stays.{stays, struck};

/// The named rows of a database are exactly those that their names find, and they stand by table, then by key.
pub fn named_rows_are_those_that_names_find()
    ensures found { (db : Db) (named : NamedRow) → IsOrdered db → (Contains (named_rows db) named) ↔ (row_of db named.name ≡ Some named.row) }
    ensures in_order { (db : Db) → IsOrdered db → IsStrictlySortedBy name_cmp (map (λ named. named.name) (named_rows db)) }
{}

/// The steps out of a row are exactly those whose edge joins it to the row that they enter.
pub fn steps_are_what_edges_join()
    ensures { (db : Db) (lower : RowName) (step : Step) → IsOrdered db
        → (Contains (steps_of db lower) step) ↔ (Joins db lower step.edge step.upper) }
{}

/// The list of paths from a row has each path from it, to whichever subject, and no other.
pub fn paths_are_all_the_paths()
    ensures each { (db : Db) (from : RowName) (path : Path) (subject : RowName) → IsOrdered db → IsOwnerSchema db.schema
        → IsPath db from path subject → Contains (paths db from) path }
    ensures no_other { (db : Db) (from : RowName) (path : Path) → Contains (paths db from) path → IsPath db from path (end_of from path) }
    ensures one_end { (db : Db) (from : RowName) (path : Path) (subject : RowName) → IsPath db from path subject → end_of from path ≡ subject }
{}

/// A path of a step or more joins neighbours, enters no subject row before the last row, and ends there, at the subject.
/// Whatever does so is a path.
pub fn path_ends_at_the_first_subject_row()
    ensures { (db : Db) (from : RowName) (front : Path) (last : Step) (subject : RowName)
        → (IsPath db from (front ++ last ∷ []) subject) ↔ (EndsAtFirstSubject db from front last subject) }
{}

/// A subject row owns itself and reaches itself.
pub fn subject_row_owns_itself()
    ensures owns { (db : Db) (name : RowName) → IsTrue (is_subject_row db name) → Owns db name name }
    ensures reaches { (db : Db) (name : RowName) → IsTrue (is_subject_row db name) → Reaches db name name }
{}

/// The tests say whether a subject owns a row, whether it reaches it, and whether it reaches it by an edge.
pub fn tests_say_what_they_test()
    ensures owns { (db : Db) (subject name : RowName) → IsOrdered db → IsOwnerSchema db.schema → (IsTrue (owns db subject name)) ↔ (Owns db subject name) }
    ensures reaches { (db : Db) (subject name : RowName) → IsOrdered db → IsOwnerSchema db.schema → (IsTrue (reaches db subject name)) ↔ (Reaches db subject name) }
    ensures by { (db : Db) (subject name : RowName) (edge : Edge) → IsOrdered db → IsOwnerSchema db.schema → Contains db.schema.edges edge
        → (Contains (by db subject name) edge.number) ↔ (By db subject name edge) }
{}

/// A row has an owner exactly where some subject owns it.
pub fn has_owner_says_whether_a_row_is_owned()
    ensures { (db : Db) (name : RowName) → IsOrdered db → IsOwnerSchema db.schema
        → (IsTrue (has_owner db name)) ↔ ((subject : RowName) × Owns db subject name) }
{}

/// They say whether a row is struck for a subject, and whether it stays when the subject is forgotten.
pub fn tests_say_what_stays()
    ensures struck { (db : Db) (subject name : RowName) → IsOrdered db → IsOwnerSchema db.schema → (IsTrue (struck db subject name)) ↔ (Struck db subject name) }
    ensures stays { (db : Db) (subject name : RowName) → IsOrdered db → IsOwnerSchema db.schema → (IsTrue (stays db subject name)) ↔ (Stays db subject name) }
{}

/// A name is there after a FORGET exactly where it was and stays. The names removed are exactly those whose row is gone then,
/// and the names changed those whose row is another; both stand by table, then by key, each once.
pub fn forget_removes_and_changes_what_it_names()
    ensures there { (db : Db) (subject name : RowName) → IsOrdered db → IsOwnerSchema db.schema
        → (IsTrue (is_there (forget db subject) name)) ↔ (IsTrue (is_there db name) × Stays db subject name) }
    ensures removed { (db : Db) (subject name : RowName) → IsOrdered db → IsOwnerSchema db.schema
        → (Contains (removed db subject) name) ↔ (IsErased db (forget db subject) name) }
    ensures changed { (db : Db) (subject name : RowName) → IsOrdered db → IsOwnerSchema db.schema
        → (Contains (changed db subject) name) ↔ (IsAltered db (forget db subject) name) }
    ensures in_order { (db : Db) (subject : RowName) → IsOrdered db
        → IsStrictlySortedBy name_cmp (removed db subject) × IsStrictlySortedBy name_cmp (changed db subject) }
{}

/// Owning meets the local equation over the owner edges, and reaching the one over all edges.
pub fn owners_meet_the_local_equation()
    ensures owns { (db : Db) → MeetsLocalEquation db counts_for_owners (Owns db) }
    ensures reaches { (db : Db) → MeetsLocalEquation db counts_for_reach (Reaches db) }
{}

/// Nothing else does: a test that meets the local equation says of each row that is there whether a subject owns it, or
/// reaches it.
pub fn local_equation_has_one_solution()
    ensures owns { (db : Db) (has : RowName → RowName → Bool) → IsOwnerSchema db.schema
        → MeetsLocalEquation db counts_for_owners (λ subject name. IsTrue (has subject name))
        → (subject name : RowName) → IsTrue (is_there db name) → (IsTrue (has subject name)) ↔ (Owns db subject name) }
    ensures reaches { (db : Db) (has : RowName → RowName → Bool) → IsOwnerSchema db.schema
        → MeetsLocalEquation db counts_for_reach (λ subject name. IsTrue (has subject name))
        → (subject name : RowName) → IsTrue (is_there db name) → (IsTrue (has subject name)) ↔ (Reaches db subject name) }
{}

/// So rising lists, one for each row, whose members meet the local equation are the rows' owners, or their reach.
pub fn rising_lists_that_meet_it_are_the_owners()
    ensures owners { (db : Db) (given : RowName → List RowName) → IsOrdered db → IsOwnerSchema db.schema
        → MeetsLocalEquation db counts_for_owners (λ subject name. Contains (given name) subject)
        → (name : RowName) → IsTrue (is_there db name) → IsStrictlySortedBy name_cmp (given name) → given name ≡ owners db name }
    ensures reach { (db : Db) (given : RowName → List RowName) → IsOrdered db → IsOwnerSchema db.schema
        → MeetsLocalEquation db counts_for_reach (λ subject name. Contains (given name) subject)
        → (name : RowName) → IsTrue (is_there db name) → IsStrictlySortedBy name_cmp (given name) → given name ≡ reach db name }
{}

/// The owners of a row are exactly those that own it, and they stand by table, then by key, each once.
pub fn owners_are_those_that_own()
    ensures members { (db : Db) (name subject : RowName) → IsOrdered db → IsOwnerSchema db.schema → (Contains (owners db name) subject) ↔ (Owns db subject name) }
    ensures in_order { (db : Db) (name : RowName) → IsOrdered db → IsStrictlySortedBy name_cmp (owners db name) }
{}

/// The reach of a row is exactly those that reach it, and they stand by table, then by key, each once.
pub fn reach_is_those_that_reach()
    ensures members { (db : Db) (name subject : RowName) → IsOrdered db → IsOwnerSchema db.schema → (Contains (reach db name) subject) ↔ (Reaches db subject name) }
    ensures in_order { (db : Db) (name : RowName) → IsOrdered db → IsStrictlySortedBy name_cmp (reach db name) }
{}
