//! The lines that the cases compute are those of the replies.
#![tactic(auto)]

ghost use Rattle.std.specs.Prelude.{◌≡◌, [], ◌∷◌, ◌++◌, Some, length};
ghost use Rattle.own_model.specs.declared.history.Entry.{Entry};
ghost use Rattle.own_model.specs.Db.{Db};
ghost use Rattle.text_model.specs.Lines.{reply_lines};
ghost use Rattle.history_model.specs.History.{History, reply, world};
ghost use Rattle.history_model.specs.Reply.{answer};
ghost use Rattle.history_tests.specs.Told.{told_from};

/// Behind a history an entry is told by the answer that it has there, and the rest behind both; and that answer is the reply at
/// the entry's place in the whole history.
pub fn told_lines_are_those_of_the_replies()
    ensures told { (base : Db) (before rest : History) (entry : Entry) → told_from (world base before) (entry ∷ rest)
        ≡ reply_lines (Some (world base before).place) entry.session.0 entry.call (answer (world base before) entry)
        ++ told_from (world base (before ++ entry ∷ [])) rest }
    ensures replied { (base : Db) (before rest : History) (entry : Entry) →
        reply base (before ++ entry ∷ rest) (length before) ≡ Some (answer (world base before) entry) }
{}
