//! What follows from the definitions in `specs/`: the function does nothing, and what it ensures holds of every text, answer and statement.
ghost use Rattle.std.specs.Prelude.{◌≡◌, ◌≤◌, ℕ, IsUtf8, List, Option, length};
ghost use Rattle.std.specs.List.{AllByRecursion};
ghost use Rattle.own_base.specs.declared.value.Value.{Value};
ghost use Rattle.own_model.specs.declared.create.CreateTable.{CreateTable};
ghost use Rattle.own_model.specs.declared.create.CreateView.{CreateView};
ghost use Rattle.own_model.specs.declared.limit.TheConstants.{SELECT_ITEMS, STATEMENT_BYTES};
ghost use Rattle.own_model.specs.declared.request.Request.TheVariants.{Run};
ghost use Rattle.own_model.specs.declared.select.Item.{Item};
ghost use Rattle.own_model.specs.declared.select.Items.TheVariants.{Listed};
ghost use Rattle.own_model.specs.declared.select.Select.{Select};
ghost use Rattle.own_model.specs.declared.statement.Statement.TheVariants as Statement;
ghost use Rattle.own_model.specs.TextBytes.{asked_bytes};
ghost use Rattle.grammar_model.specs.Answer.{Answer, IsAnswer};
ghost use Rattle.grammar_model.specs.Readable.{IsReadable, request_of};

/// What a short text in UTF-8 is answered by can stand in a history: its statement, its byte or its limit.
pub fn answer_is_readable()
    ensures { (text : List ℕ) (answer : Answer) → length text ≤ STATEMENT_BYTES → IsUtf8 text → IsAnswer text answer → IsReadable (request_of answer) }
{}

/// The texts that the answer's statement puts into rows have no more bytes than the text that it answers.
pub fn answer_is_within_its_text()
    ensures { (text : List ℕ) (answer : Answer) → IsAnswer text answer → asked_bytes (request_of answer) ≤ length text }
{}

/// A CREATE TABLE that can stand in a history has no more parts than a statement may have bytes.
pub fn readable_create_has_few_parts()
    ensures { (create : CreateTable) → IsReadable (Run (Statement.CreateTable create)) → length create.parts ≤ STATEMENT_BYTES }
{}

/// A SELECT that can stand in a history lists no more items than a select may have; a star lists none.
pub fn readable_select_has_few_items()
    ensures { (select : Select) (items : List Item) → IsReadable (Run (Statement.Select select)) → select.items ≡ Listed items → length items ≤ SELECT_ITEMS }
{}

/// The select of a CREATE VIEW that can stand in a history lists no more items than a select may have.
pub fn readable_view_has_few_items()
    ensures { (view : CreateView) (items : List Item) → IsReadable (Run (Statement.CreateView view)) → view.select.items ≡ Listed items
        → length items ≤ SELECT_ITEMS }
{}

/// No tuple of an INSERT that can stand in a history has more values than a statement may have bytes.
pub fn readable_insert_has_few_values()
    ensures { (table : List ℕ) (columns : Option (List (List ℕ))) (rows : List (List Value)) → IsReadable (Run (Statement.Insert table columns rows))
        → AllByRecursion (λ tuple. length tuple ≤ STATEMENT_BYTES) rows }
{}
