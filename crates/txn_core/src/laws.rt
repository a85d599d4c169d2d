//! Laws of what open transactions changed: each function does nothing, and what it ensures holds of every history.
ghost use Rattle.std.specs.Prelude.{◌≡◌, ℕ, List, ◌++◌, [], ◌∷◌, Ok, true};
ghost use Rattle.own_base.specs.declared.change.Change.{Change};
ghost use Rattle.own_model.specs.declared.bound.Bound.{Bound};
ghost use Rattle.own_model.specs.declared.history.Entry.{Entry as Event};
ghost use Rattle.own_model.specs.declared.reply.Reply.{Reply};
ghost use Rattle.own_model.specs.Db.{Db};
ghost use Rattle.query_model.specs.BoundStatement.{bound_statement};
ghost use Rattle.state_model.specs.Net.{net};
ghost use Rattle.state_model.specs.Put.{put};
ghost use Rattle.state_model.specs.Rows.{AreRowsOf};
ghost use Rattle.state_model.specs.Sound.{Sound};
ghost use Rattle.run_model.specs.Agree.{Agree};
ghost use Rattle.run_model.specs.Items.{TakesRows};
ghost use Rattle.run_model.specs.Run.{run};
ghost use Rattle.history_model.specs.Held.{held, is_open};
ghost use Rattle.history_model.specs.History.{History, flat, standing, world};
ghost use Rattle.history_model.specs.Serial.{IsEntry, IsHistory};
ghost use Rattle.history_model.specs.World.{Block, Open, Stated, after_block};
ghost use Rattle.txn_space.specs.declared.entry.Entry.{Entry};
ghost use Rattle.txn_space.specs.Changed.{changed_db, changed_rows};
ghost use Rattle.txn_core.specs.Runs.{HasRun};
ghost use Rattle.txn_core.specs.RepresentsBlock.{RepresentsBlock};

/// Where changes represent an open transaction's statements, they represent them on each sound database that is the same on
/// the rows that the transaction holds.
pub fn changes_stand_where_the_held_rows_are_the_same()
    ensures { (base : Db) (history : History) (session begun : ℕ) (block : Block) (space : List (List Entry)) (other : Db) → Sound base → IsHistory history
        → standing base history session ≡ Open begun block → RepresentsBlock (flat base history) block space
        → Sound other → Agree (held (world base history) session) (flat base history) other → RepresentsBlock other block space }
{}

/// So they represent them while others commit: behind each entry that leaves the transaction open.
pub fn changes_stand_while_others_commit()
    ensures { (base : Db) (history : History) (event : Event) (session begun : ℕ) (block : Block) (space : List (List Entry)) → Sound base → IsHistory history
        → IsEntry event → standing base history session ≡ Open begun block → is_open (standing base (history ++ event ∷ []) session) ≡ true
        → RepresentsBlock (flat base history) block space → RepresentsBlock (flat base (history ++ event ∷ [])) block space }
{}

/// A statement that runs over what the changes show replies as it does behind the transaction's statements, and the changes
/// that it leaves represent these and it.
pub fn changes_represent_a_statement_more()
    ensures { (base : Db) (history : History) (session begun : ℕ) (block : Block) (space : List (List Entry)) (last : Stated) (bound : Bound) (reply : Reply) (after : List (List Entry))
        → Sound base → IsHistory history → standing base history session ≡ Open begun block → RepresentsBlock (flat base history) block space
        → TakesRows last.statement → bound_statement (flat base history).schema last.statement ≡ Ok bound
        → HasRun (flat base history) bound space reply after
        → ((run (after_block (flat base history) block) last.statement).reply ≡ reply) × RepresentsBlock (flat base history) (block ++ last ∷ []) after }
{}

/// The rows that such changes show may stand in their tables, as a statement in a transaction asks.
pub fn changes_show_rows_that_may_stand_there()
    ensures { (base : Db) (history : History) (session begun : ℕ) (block : Block) (space : List (List Entry)) → Sound base → IsHistory history
        → standing base history session ≡ Open begun block → RepresentsBlock (flat base history) block space
        → AreRowsOf (flat base history).schema.tables (changed_rows (flat base history).schema.tables (flat base history).rows space) }
{}

/// The net of such changes is that of the transaction's statements, and gives the rows that these leave.
pub fn net_of_changes_is_that_of_the_block()
    ensures { (base : Db) (history : History) (session begun : ℕ) (block : Block) (space : List (List Entry)) (changes : List Change) → Sound base → IsHistory history
        → standing base history session ≡ Open begun block → RepresentsBlock (flat base history) block space
        → changes ≡ net (flat base history) (changed_db (flat base history) space)
        → (changes ≡ net (flat base history) (after_block (flat base history) block))
        × ((put (flat base history) changes).rows ≡ (after_block (flat base history) block).rows) }
{}
