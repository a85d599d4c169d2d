//! Laws of the definitions in `specs/`: each function does nothing, and what it ensures holds of every database, history
//! and list of calls.
ghost use Rattle.std.specs.Prelude.{◌≡◌, ◌↔◌, ℕ, ◌+◌, ◌<◌, List, ◌++◌, length, map, filter, take, None, Some, Contains, slice_get, [], ◌∷◌, true, false};
ghost use Rattle.std.specs.List.{AllByRecursion};
ghost use Rattle.own_base.specs.declared.number.Place.{Place};
ghost use Rattle.own_model.specs.declared.footprint.FootItem.{FootItem};
ghost use Rattle.own_model.specs.declared.history.Entry.{Entry};
ghost use Rattle.own_model.specs.declared.history.Verdict.{Verdict};
ghost use Rattle.own_model.specs.declared.history.Verdict.TheVariants.{Took};
ghost use Rattle.own_model.specs.declared.refusal.Refusal.{Refusal};
ghost use Rattle.own_model.specs.declared.refusal.Refusal.TheVariants.{Disk, Down};
ghost use Rattle.own_model.specs.declared.refusal.Refusal.TheVariants as refusal;
ghost use Rattle.own_model.specs.declared.reply.Reply.TheVariants.{Refused};
ghost use Rattle.own_model.specs.Db.{Db};
ghost use Rattle.state_model.specs.Net.{net};
ghost use Rattle.state_model.specs.Sound.{IsWellFormed, Sound};
ghost use Rattle.run_model.specs.Agree.{Agree};
ghost use Rattle.history_model.specs.AsksDisk.{asks_disk, under};
ghost use Rattle.history_model.specs.Held.{Holding, held, holder, is_open, lowest_other};
ghost use Rattle.history_model.specs.History.{History, flat, happens, is_failure, reply, standing, world};
ghost use Rattle.history_model.specs.Made.{Called, made};
ghost use Rattle.history_model.specs.Named.{called_name, entry_name, was_made};
ghost use Rattle.history_model.specs.Reply.{answer, by_verdict, is_refusal};
ghost use Rattle.history_model.specs.Sentences.{IsHeldBy, IsHolder, IsOther, StandsInTheWay};
ghost use Rattle.history_model.specs.Serial.{AreGiven, IsEntry, IsHistory, Serial};
ghost use Rattle.history_model.specs.Since.{IsBegun, stated_since};
ghost use Rattle.history_model.specs.World.{Block, Open, Outside, Doomed, World, after_block};

/// Every history over a sound database is serial, of entries whose requests can be read and whose sessions are among those
/// that there are, in whatever order the sessions' calls come.
pub fn every_history_is_serial()
    ensures { (base : Db) (history : History) → Sound base → IsHistory history → Serial base history }
{}

/// What an open transaction was answered and what it writes hang on the rows that it holds alone: on any other database that
/// agrees on these its statements give the same replies, and its net is the same.
pub fn open_transaction_depends_on_the_rows_it_holds()
    ensures replies { (base : Db) (history : History) (session begun : ℕ) (block : Block) (other : Db) → Sound base → IsHistory history
        → standing base history session ≡ Open begun block → IsWellFormed other → Agree (held (world base history) session) (flat base history) other
        → AreGiven base history other block }
    ensures net { (base : Db) (history : History) (session begun : ℕ) (block : Block) (other : Db) → Sound base → IsHistory history
        → standing base history session ≡ Open begun block → IsWellFormed other → Agree (held (world base history) session) (flat base history) other
        → net (flat base history) (after_block (flat base history) block) ≡ net other (after_block other block) }
{}

/// The rows that a transaction holds are the same before and after each entry that leaves it open: other sessions' statements
/// are kept off them, and a FORGET that removes or changes one ends the transaction.
pub fn held_rows_stay_while_the_transaction_is_open()
    ensures { (base : Db) (history : History) (entry : Entry) (session : ℕ) → Sound base → IsHistory history → IsEntry entry
        → is_open (standing base (history ++ entry ∷ []) session) ≡ true
        → Agree (held (world base history) session) (flat base history) (flat base (history ++ entry ∷ [])) }
{}

/// Where the reply at a place is a refusal, the flat database after that place is the one before it.
pub fn refused_call_leaves_flat_database()
    ensures { (base : Db) (history : History) (place : ℕ) (why : Refusal) → reply base history place ≡ Some (Refused why)
        → flat base (take (place + 1) history) ≡ flat base (take place history) }
{}

/// What was answered at a place stays the answer there, whatever comes after.
pub fn reply_stays_when_history_grows()
    ensures { (base : Db) (history more : History) (place : ℕ) → place < length history
        → reply base (history ++ more) place ≡ reply base history place }
{}

/// The history that calls make has those that memory didn't refuse, each once and in their order.
pub fn each_call_made_comes_once_and_in_order()
    ensures { (calls : List Called) → map entry_name (made calls) ≡ map called_name (filter was_made calls) }
{}

/// The statements of an open transaction are the SELECT, INSERT, UPDATE and DELETE calls of its session since its BEGIN, but
/// for those that were answered with a conflict or for want of the disk.
pub fn block_is_the_statements_since_begin()
    ensures statements { (base : Db) (history : History) (session begun : ℕ) (block : Block)
        → standing base history session ≡ Open begun block → block ≡ stated_since base history session begun }
    ensures begins { (base : Db) (history : History) (session begun : ℕ) (block : Block)
        → standing base history session ≡ Open begun block → IsBegun base history session begun }
{}

/// A session holds the items of its transaction's statements, and nothing else; one that is outside, or doomed, holds
/// nothing.
pub fn held_items_are_those_of_the_block()
    ensures inside { (world : World) (session begun : ℕ) (block : Block) (item : FootItem) → world.standing session ≡ Open begun block
        → (Contains (held world session) item) ↔ (IsHeldBy world.flat.schema block item) }
    ensures outside { (world : World) (session : ℕ) → world.standing session ≡ Outside → held world session ≡ [] }
    ensures doomed { (world : World) (session place : ℕ) → world.standing session ≡ Doomed place → held world session ≡ [] }
{}

/// The holder is the lowest other session that stands in a footprint's way, with the first item in whose way it stands; there
/// is none where no other session does.
pub fn holder_is_the_lowest_with_its_first_item()
    ensures found { (world : World) (session : ℕ) (footprint : List FootItem) (holding : Holding)
        → holder world session footprint ≡ Some holding → IsHolder world session footprint holding }
    ensures none { (world : World) (session : ℕ) (footprint : List FootItem) → holder world session footprint ≡ None
        → (other : ℕ) → IsOther session other → (item : FootItem) → ¬ (StandsInTheWay world footprint other item) }
{}

/// A doomed session isn't open: no CREATE waits for it. It is told its doom at its next call, unless the disk has failed, and
/// stands outside from then on.
pub fn doomed_session_is_not_open()
    ensures busy { (world : World) (session other place : ℕ) → lowest_other world session ≡ Some other → ¬ (world.standing other ≡ Doomed place) }
    ensures told { (world : World) (entry : Entry) (place : ℕ) → world.standing entry.session.0 ≡ Doomed place → world.down ≡ None
        → answer world entry ≡ Refused (refusal.Doomed (record { 0 = place })) }
    ensures after { (world : World) (entry : Entry) (place : ℕ) → world.standing entry.session.0 ≡ Doomed place → world.down ≡ None
        → (happens world entry).standing entry.session.0 ≡ Outside }
{}

/// Nobody else is told a doom: where an answer tells one at a place, its session stood doomed by the FORGET there.
pub fn doom_is_told_to_the_doomed()
    ensures { (world : World) (entry : Entry) (place : ℕ) → answer world entry ≡ Refused (refusal.Doomed (record { 0 = place })) → world.standing entry.session.0 ≡ Doomed place }
{}

/// After a call that the disk failed every call is answered with the place of that one.
pub fn all_is_down_after_the_disk_failed()
    ensures { (base : Db) (history : History) (place later : ℕ) → reply base history place ≡ Some (Refused Disk) → place < later
        → later < length history → reply base history later ≡ Some (Refused (Down (record { 0 = place }))) }
{}

/// Where the disk takes what each entry writes, no answer is for want of it, and it never counts as failed.
pub fn disk_that_takes_all_never_fails()
    ensures answered { (world : World) (entry : Entry) → entry.verdict ≡ Took → world.down ≡ None → is_failure (answer world entry) ≡ false }
    ensures up { (base : Db) (history : History) → AllByRecursion (λ entry. entry.verdict ≡ Took) history → (world base history).down ≡ None }
{}

/// An answer that isn't the disk's to give is the same whatever the disk says; one that is, is accepted where the disk takes
/// what is written, and elsewhere it is what the disk says.
pub fn disk_decides_no_other_answer()
    ensures told { (world : World) (entry : Entry) (verdict : Verdict) → asks_disk world entry ≡ false
        → answer world (under verdict entry) ≡ answer world (under Took entry) }
    ensures decided { (world : World) (entry : Entry) (verdict : Verdict) → asks_disk world entry ≡ true
        → (answer world (under verdict entry) ≡ by_verdict verdict (answer world (under Took entry))) × (is_refusal (answer world (under Took entry)) ≡ false) }
{}
