//! Laws of the definitions in `specs/`: each function does nothing, and what it ensures holds of all schemas.
ghost use Rattle.std.specs.Prelude.{IsTrue};
ghost use Rattle.std.specs.List.{AllByRecursion};
ghost use Rattle.own_model.specs.declared.schema.Schema.{Schema};
ghost use Rattle.schema_model.specs.OwnerSchema.{IsOwnerSchema};
ghost use Rattle.link_model.specs.Indexed.{is_indexed_at};

/// In a schema that admitted creates give, the column of each edge is indexed.
pub fn columns_of_edges_are_indexed()
    ensures { (schema : Schema) → IsOwnerSchema schema → AllByRecursion (λ edge. IsTrue (is_indexed_at schema edge.holder.0 edge.column.0)) schema.edges }
{}
