//! What is replied where the disk fails or is full.
#![tactic(auto, unfolding(crate::proofs::Computing::history))]

ghost use Rattle.std.specs.Prelude.{◌≡◌, [], ◌∷◌, ◌++◌};
ghost use Rattle.own_model.specs.declared.history.Verdict.TheVariants.{DiskFault, NoRoom};
ghost use Rattle.own_model.specs.declared.request.Request.TheVariants.{End};
ghost use Rattle.own_model.specs.declared.statement.Statement.TheVariants.{Checkpoint};
ghost use Rattle.history_tests.specs.Stores.{after, messages};
ghost use Rattle.history_tests.specs.Told.{lines, meeting, request, session, told_behind};
ghost use Rattle.history_tests.specs.Written.{begin, commit, delete_all, get, insert, int, other, select_ids, text, update_all};

/// A write fails on the disk. From then on every session is told the place of that, whatever it asks.
pub fn all_is_down_after_the_disk_failed()
    ensures { told_behind (after messages) (
        meeting DiskFault 1 (insert "users" ((int 8 ∷ text "Cy" ∷ []) ∷ []))
        ++ session 1 (select_ids "users" ∷ [])
        ++ session 2 (get "users" 5 ∷ insert "users" ((int 8 ∷ text "Cy" ∷ []) ∷ []) ∷ [])
        ++ request 1 End)
        ≡ lines (
        "4 1.5 disk"
        ∷ "5 1.6 down 4"
        ∷ "6 2.1 down 4"
        ∷ "7 2.2 down 4"
        ∷ "8 1.7 down 4"
        ∷ []) }
{}

/// A read needs no disk, nor does a write that changes nothing, or a COMMIT of changes that undo one another; so a disk that
/// fails then isn't met.
pub fn disk_is_needed_for_changes_alone()
    ensures { told_behind (after messages) (
        meeting DiskFault 1 (select_ids "users")
        ++ meeting DiskFault 1 (update_all "users" "name" (other "name"))
        ++ session 1 (begin ∷ delete_all "msgs" ∷ insert "msgs" ((int 9 ∷ int 5 ∷ int 7 ∷ text "hi" ∷ text "draft" ∷ []) ∷ []) ∷ [])
        ++ meeting DiskFault 1 commit
        ++ request 1 End)
        ≡ lines (
        "4 1.5 rows 2"
        ∷ "  5"
        ∷ "  7"
        ∷ "5 1.6 ok 2"
        ∷ "6 1.7 ok"
        ∷ "7 1.8 ok 1"
        ∷ "8 1.9 ok 1"
        ∷ "9 1.10 ok"
        ∷ "10 1.11 end"
        ∷ []) }
{}

/// Where there is no room a write changes nothing, and the store goes on; a COMMIT ends its transaction without effect.
pub fn write_without_room_changes_nothing()
    ensures { told_behind (after messages) (
        meeting NoRoom 1 (insert "users" ((int 8 ∷ text "Cy" ∷ []) ∷ []))
        ++ session 1 (select_ids "users" ∷ begin ∷ insert "users" ((int 8 ∷ text "Cy" ∷ []) ∷ []) ∷ [])
        ++ meeting NoRoom 1 commit
        ++ session 1 (commit ∷ insert "users" ((int 8 ∷ text "Cy" ∷ []) ∷ []) ∷ []))
        ≡ lines (
        "4 1.5 refused limit room 4611686018427387904"
        ∷ "5 1.6 rows 2"
        ∷ "  5"
        ∷ "  7"
        ∷ "6 1.7 ok"
        ∷ "7 1.8 ok 1"
        ∷ "8 1.9 refused limit room 4611686018427387904"
        ∷ "9 1.10 refused outside"
        ∷ "10 1.11 ok 1"
        ∷ []) }
{}

/// A CHECKPOINT asks for nothing but the disk, also while a transaction is open.
pub fn checkpoint_needs_the_disk()
    ensures { told_behind (after messages) (
        session 1 (begin ∷ insert "users" ((int 8 ∷ text "Cy" ∷ []) ∷ []) ∷ [])
        ++ session 2 (Checkpoint ∷ [])
        ++ meeting DiskFault 2 Checkpoint
        ++ session 1 (commit ∷ []))
        ≡ lines (
        "4 1.5 ok"
        ∷ "5 1.6 ok 1"
        ∷ "6 2.1 ok"
        ∷ "7 2.2 disk"
        ∷ "8 1.7 down 7"
        ∷ []) }
{}
