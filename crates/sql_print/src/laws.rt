//! What follows from the definitions of canonical texts and of the grammar: the functions do nothing, and what they ensure
//! holds of every statement that a text of any length gives.
ghost use Rattle.std.specs.Prelude.{◌≡◌, ℕ};
ghost use Rattle.own_model.specs.declared.statement.Statement.{Statement};
ghost use Rattle.text_model.specs.Canonical.{canonical};
ghost use Rattle.grammar_model.specs.Answer.{IsAnswer, GivesStatement};
ghost use Rattle.grammar_model.specs.Readable.{IsWritten};

/// The canonical text of a statement reads back as that statement, however long it is.
pub fn canonical_text_reads_back()
    ensures { (most : ℕ) (statement : Statement) → IsWritten most statement → IsAnswer (canonical statement) (GivesStatement statement) }
{}

/// Two statements with one canonical text are one.
pub fn statements_with_one_canonical_text_are_one()
    ensures { (most : ℕ) (one other : Statement) → IsWritten most one → IsWritten most other → canonical one ≡ canonical other → one ≡ other }
{}
