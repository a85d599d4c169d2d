ghost use Rattle.schema_model.specs.Refusal.{past_limits};
ghost use Rattle.annot_schema.specs.Reported.{Tells};

use crate::fault::SchemaFault;
use own_model::{LimitName, Schema, TABLE_COLUMNS, TABLES};
use schema_draft::Draft;

/// Refuses a CREATE TABLE with more columns than a table may have, and a table more than a store may have.
pub fn check_limits(schema: &Schema, draft: &Draft<'_>) -> Result<(), SchemaFault>
    ensures { Tells (past_limits schema.now draft.now) result }
{
    if draft.columns().len() > TABLE_COLUMNS {
        Err(SchemaFault::Limit(LimitName::Columns))
    } else if schema.tables.items().len() >= TABLES {
        Err(SchemaFault::Limit(LimitName::Tables))
    } else {
        Ok(())
    }
}
