//! Laws of the definitions in `specs/`: each function does nothing, and what it ensures holds of every schema and every
//! CREATE TABLE.
ghost use Rattle.std.specs.Prelude.{◌≡◌, ℕ, Bool, [], None};
ghost use Rattle.own_model.specs.declared.create.CreateTable.{CreateTable};
ghost use Rattle.own_model.specs.declared.schema.Schema.{Schema};
ghost use Rattle.schema_model.specs.OwnerSchema.{IsOwnerSchema};
ghost use Rattle.schema_model.specs.Refusal.{refusal_of};
ghost use Rattle.schema_model.specs.WithTable.{with_table};
ghost use Rattle.schema_model.specs.WithinLimits.{IsWithinLimits};

/// The edges of a schema without tables are an ownership graph.
pub fn schema_without_tables_is_an_owner_schema()
    ensures { IsOwnerSchema (record { tables = []; views = []; edges = [] }) }
{}

/// Where the edges of a schema are an ownership graph, so are those that a CREATE TABLE leaves that isn't refused, by
/// whichever tables hold rows.
pub fn admitted_schema_is_an_owner_schema()
    ensures { (schema : Schema) (holds_rows : ℕ → Bool) (create : CreateTable) → IsOwnerSchema schema
        → refusal_of schema holds_rows create ≡ None → IsOwnerSchema (with_table schema create) }
{}

/// A schema without tables is within the limits.
pub fn schema_without_tables_is_within_limits()
    ensures { IsWithinLimits (record { tables = []; views = []; edges = [] }) }
{}

/// Where a schema is within the limits, so is the one that a CREATE TABLE leaves that isn't refused.
pub fn admitted_schema_is_within_limits()
    ensures { (schema : Schema) (holds_rows : ℕ → Bool) (create : CreateTable) → IsWithinLimits schema
        → refusal_of schema holds_rows create ≡ None → IsWithinLimits (with_table schema create) }
{}
