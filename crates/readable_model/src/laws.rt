//! Laws of statements: each function does nothing, and what it ensures holds of every schema and statement.
ghost use Rattle.std.specs.Prelude.{◌≡◌, List, None, Option, ℕ, ℤ};
ghost use Rattle.std.specs.List.{AllByRecursion};
ghost use Rattle.own_base.specs.declared.value.Value.{Value};
ghost use Rattle.own_base.specs.declared.value.Value.TheVariants.{Sum};
ghost use Rattle.own_model.specs.declared.create.CreateView.{CreateView};
ghost use Rattle.own_model.specs.declared.request.Request.TheVariants.{Run};
ghost use Rattle.own_model.specs.declared.schema.Schema.{Schema};
ghost use Rattle.own_model.specs.declared.select.Select.{Select};
ghost use Rattle.own_model.specs.declared.statement.Statement.{Statement as Statements};
ghost use Rattle.own_model.specs.declared.statement.Statement.TheVariants as Statement;
ghost use Rattle.grammar_model.specs.Readable.{IsReadable};
ghost use Rattle.query_model.specs.Refused.{lowest};
ghost use Rattle.query_model.specs.SelectFaults.{select_faults};
ghost use Rattle.query_model.specs.SelectMeaning.{bound_select};
ghost use Rattle.query_model.specs.WithinLimits.{IsSelectWithin, IsStatementWithin};
ghost use Rattle.readable_model.specs.Sources.{IsThere};

/// A statement that can stand in a history is within the limits that binding asks for; so is the select of a CREATE VIEW.
pub fn readable_statement_is_within_limits()
    ensures statement { (statement : Statements) → IsReadable (Run statement) → IsStatementWithin statement }
    ensures view { (view : CreateView) → IsReadable (Run (Statement.CreateView view)) → IsSelectWithin view.select }
{}

/// No value of an INSERT that can stand in a history is a sum, so that rows of tables hold none.
pub fn readable_insert_has_no_sums()
    ensures { (table : List ℕ) (columns : Option (List (List ℕ))) (rows : List (List Value)) → IsReadable (Run (Statement.Insert table columns rows))
        → AllByRecursion (AllByRecursion (λ value. (number : ℤ) → value ≡ Sum number → ⊥)) rows }
{}

/// Where a select has no fault, its source is there.
pub fn faultless_select_has_its_source()
    ensures { (schema : Schema) (select : Select) → lowest (select_faults schema select) ≡ None → IsThere schema (bound_select schema select) }
{}
