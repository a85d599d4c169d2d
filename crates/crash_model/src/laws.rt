//! Laws of the definitions in `specs/`: each function does nothing, and what it ensures holds of all bytes and histories.
ghost use Rattle.std.specs.Prelude.{◌≡◌, ℕ, List, ◌++◌, length};
ghost use Rattle.own_model.specs.Db.{Db};
ghost use Rattle.state_model.specs.Sound.{Sound};
ghost use Rattle.history_model.specs.Commits.{after, commits};
ghost use Rattle.history_model.specs.History.{History, flat};
ghost use Rattle.history_model.specs.Serial.{IsHistory};
ghost use Rattle.own_base.specs.declared.number.Area.{Area};
ghost use Rattle.crash_model.specs.Alone.{IsAlone};
ghost use Rattle.crash_model.specs.LeftBy.{IsLeftBy, IsLeftOf};
ghost use Rattle.crash_model.specs.StoreIn.{IsStoreIn};

/// Two areas hold the store of one database and one number of commits at most.
pub fn areas_hold_one_store()
    ensures { (a b : List ℕ) (one other : Db) (n m : ℕ) → IsStoreIn a b one n → IsStoreIn a b other m → (one ≡ other) × (n ≡ m) }
{}

/// The database after all commits of a history is its flat one: an entry that is no commit leaves it as it was.
pub fn all_commits_leave_the_flat_database()
    ensures { (base : Db) (history : History) → Sound base → IsHistory history → after base history (length (commits base history)) ≡ flat base history }
{}

/// What a crash leaves now is left of the history, and stays so however the history goes on.
pub fn what_is_left_of_a_history_stays_so()
    ensures now { (base : Db) (number : ℕ) (a b : List ℕ) (history : History) → Sound base → IsHistory history
        → IsLeftBy base number history a b → IsLeftOf base number history a b }
    ensures later { (base : Db) (number : ℕ) (a b : List ℕ) (history more : History)
        → IsLeftOf base number history a b → IsLeftOf base number (history ++ more) a b }
{}

/// Two areas in which nothing but a database lies have the bytes that follow from it, from the number of its commits, from the
/// epoch and from the area. So two stores that agree on these have equal bytes, whatever was in them before.
pub fn areas_with_a_database_alone_are_equal()
    ensures { (db : Db) (number epoch : ℕ) (area : Area) (a b other_a other_b : List ℕ) → IsAlone db number epoch area a b → IsAlone db number epoch area other_a other_b
        → (a ≡ other_a) × (b ≡ other_b) }
{}
