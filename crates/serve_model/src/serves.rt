ghost use Rattle.std.specs.Prelude.{◌≡◌, ◌≤◌, IfSome};
ghost use Rattle.own_model.specs.declared.limit.TheConstants.{SESSIONS};
ghost use Rattle.grammar_model.specs.Readable.{IsReadable};
ghost use Rattle.history_model.specs.Serial.{Serial};
ghost use Rattle.serve_model.specs.Ahead.{IsBoundAhead};
ghost use Rattle.serve_model.specs.Steps.{Steps, entry};

use crate::ahead::Ahead;
use crate::looks::Looks;
use crate::step::Step;
use own_base::SessionNo;
use own_model::Request;
use turn_model::Keeps;

/// What makes calls, one after another, over the database that its opening found.
pub trait Serves: Keeps {
    /// What shows the database that a call reads.
    type Snap: Looks;

    /// Makes a call of a session: its entry comes into the history. A call that reads alone, outside a transaction, isn't
    /// answered but comes with what shows the database that it reads, to be answered later. Where memory is refused the call
    /// isn't made. What its statement was bound to ahead spares binding it here.
    fn serve(
        &mut self,
        session: SessionNo,
        call: u32,
        request: Request,
        ahead: Option<Ahead>,
    ) -> Step<Self::Snap>
        requires first { 1 ≤ session.0 }
        requires last { session.0 ≤ SESSIONS }
        requires readable { IsReadable request }
        requires ahead { IfSome ahead (IsBoundAhead (Self.start self.old).base (Self.history self.old) request) }
        ensures steps { Steps Self.Snap.db (Self.start self.old).base (Self.history self.old) (Self.history self.new) (entry session call request) result }
        ensures serial { Serial (Self.start self.new).base (Self.history self.new) }
        ensures start { Self.start self.new ≡ Self.start self.old };
}
