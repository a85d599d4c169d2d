ghost use Rattle.std.specs.Prelude.{◌≡◌, IfOk, length};
ghost use Rattle.own_model.specs.Db.{Db};
ghost use Rattle.schema_model.specs.WithinLimits.{IsWithinLimits};
ghost use Rattle.query_model.specs.WithinLimits.{AreViewsWithin};
ghost use Rattle.run_model.specs.Run.{run_bound};
ghost use Rattle.serve_model.specs.Look.{IsLook};

use own_model::{Bound, Reply, Schema};
use std::alloc::AllocError;

/// What shows one database, whatever becomes of the store that it was taken from.
pub trait Looks {
    // The database that it shows.
    ghost db: { Self → Db };

    /// Lends the database's schema. Takes no memory.
    fn schema(&self) -> &Schema
        ensures same { result.now ≡ (db self.now).schema }
        ensures tables { IsWithinLimits result.now }
        ensures views { AreViewsWithin result.now };

    /// How many creates gave that schema. Takes no memory.
    fn creates(&self) -> usize
        ensures { result ≡ length (db self.now).creates };

    /// Answers a bound SELECT, GDPR GET or EXPLAIN by the database that it shows.
    fn look(&self, bound: &Bound) -> Result<Reply, AllocError>
        requires { IsLook (db self.now).schema bound.now }
        ensures { IfOk result (λ reply. reply ≡ (run_bound (db self.now) bound.now).reply) };
}
