//! Laws of the definitions in `specs/`: each function does nothing, and what it ensures holds of every world and entry.
ghost use Rattle.std.specs.Prelude.{◌≡◌, ◌++◌, ◌∷◌, [], Some, length};
ghost use Rattle.own_model.specs.declared.bound.Bound.{Bound};
ghost use Rattle.own_model.specs.declared.history.Entry.{Entry};
ghost use Rattle.own_model.specs.declared.history.Verdict.{Verdict};
ghost use Rattle.own_model.specs.Db.{Db};
ghost use Rattle.run_model.specs.Run.{run_bound};
ghost use Rattle.history_model.specs.AsksDisk.{under};
ghost use Rattle.history_model.specs.History.{History, flat, reply, world};
ghost use Rattle.history_model.specs.Reply.{answer};
ghost use Rattle.history_model.specs.World.{World};
ghost use Rattle.serve_model.specs.Look.{IsLook, look_of};

/// A look is answered as its bound statement is by the flat database, whatever the disk says, and so it is at its place in a
/// history; and what it reads may be asked of what shows that database.
pub fn look_is_answered_by_the_flat_database()
    ensures answered { (now : World) (entry : Entry) (bound : Bound) (verdict : Verdict) → look_of now entry ≡ Some bound
        → answer now (under verdict entry) ≡ (run_bound now.flat bound).reply }
    ensures replied { (base : Db) (before : History) (entry : Entry) (bound : Bound) → look_of (world base before) entry ≡ Some bound
        → reply base (before ++ entry ∷ []) (length before) ≡ Some (run_bound (flat base before) bound).reply }
    ensures asked { (now : World) (entry : Entry) (bound : Bound) → look_of now entry ≡ Some bound → IsLook now.flat.schema bound }
{}
