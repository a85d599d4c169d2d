ghost use Rattle.std.specs.Prelude.{◌≡◌, ◌++◌, ◌∷◌, codes, OnOk};
ghost use Rattle.text_model.specs.Canonical.{attr_words, column_def_words, create_words, kind_word, part_words, ref_kind_word, refers_words, view_words};
ghost use Rattle.text_model.specs.Words.{bracketed, names_words, spaced, word};
ghost use Rattle.sql_print.specs.Parts.{subject_words};
ghost use Rattle.sql_print.specs.Spaces.{after_spaces};

use crate::select::push_select;
use crate::text_buffer::TextBuffer;
use crate::word::{Worded, push_all, push_bracketed};
use own_base::{List, Name};
use own_model::{Attr, ColumnDef, CreateTable, CreateView, Kind, Part, RefDef, RefKind};
use std::alloc::AllocError;

#[tactic(auto, unfolding(text_model::specs::Canonical::kind_word))]
fn kind_word(kind: Kind) -> &'static str
    ensures { result.now ≡ kind_word kind }
{
    match kind {
        Kind::Int => "INT",
        Kind::Text => "TEXT",
        Kind::Sum => "SUM",
    }
}

#[tactic(auto, unfolding(text_model::specs::Canonical::ref_kind_word))]
fn ref_kind_word(kind: RefKind) -> &'static str
    ensures { result.now ≡ ref_kind_word kind }
{
    match kind {
        RefKind::Plain => "REFERENCES",
        RefKind::OwnedBy => "OWNED_BY",
        RefKind::Owns => "OWNS",
        RefKind::AccessedBy => "ACCESSED_BY",
        RefKind::Accesses => "ACCESSES",
    }
}

/// Writes a column in brackets.
fn push_column(buffer: &mut TextBuffer, column: &Name) -> Result<(), AllocError>
    ensures { OnOk result (buffer.new ≡ buffer.old ++ after_spaces (bracketed (word column.now))) }
{
    buffer.push(" (")?;
    column.push_words(buffer)?;
    buffer.push(" )")?;
    Ok(())
}

impl Worded for RefDef {
    ghost words = { refers_words };

    #[tactic(auto, unfolding(text_model::specs::Canonical::refers_words))]
    fn push_words(&self, buffer: &mut TextBuffer) -> Result<(), AllocError> {
        buffer.push(" ")?;
        buffer.push(ref_kind_word(self.kind))?;
        self.table.push_words(buffer)?;
        push_column(buffer, &self.column)?;
        Ok(())
    }
}

impl Worded for Attr {
    ghost words = { attr_words };

    #[tactic(auto, unfolding(text_model::specs::Canonical::attr_words))]
    fn push_words(&self, buffer: &mut TextBuffer) -> Result<(), AllocError> {
        match self {
            Attr::Key => buffer.push(" PRIMARY KEY"),
            Attr::NotNull => buffer.push(" NOT NULL"),
            Attr::Unique => buffer.push(" UNIQUE"),
            Attr::Refers(refers) => refers.push_words(buffer),
        }
    }
}

impl Worded for ColumnDef {
    ghost words = { column_def_words };

    #[tactic(auto, unfolding(text_model::specs::Canonical::column_def_words))]
    fn push_words(&self, buffer: &mut TextBuffer) -> Result<(), AllocError> {
        self.name.push_words(buffer)?;
        buffer.push(" ")?;
        buffer.push(kind_word(self.kind))?;
        push_all(buffer, self.attrs.items())?;
        Ok(())
    }
}

/// Writes the rule of a column that lists others.
fn push_rule(
    buffer: &mut TextBuffer,
    event: &str,
    column: &Name,
    ruled: &List<Name>,
) -> Result<(), AllocError>
    ensures { OnOk result (buffer.new ≡ buffer.old ++ (event.now ++ after_spaces (column.now ∷ codes "ANON" ∷ bracketed (names_words ruled.now)))) }
{
    buffer.push(event)?;
    column.push_words(buffer)?;
    buffer.push(" ANON")?;
    push_bracketed(buffer, ruled.items())?;
    Ok(())
}

impl Worded for Part {
    ghost words = { part_words };

    #[tactic(auto, unfolding(text_model::specs::Canonical::part_words))]
    fn push_words(&self, buffer: &mut TextBuffer) -> Result<(), AllocError> {
        match self {
            Part::Column(column) => column.push_words(buffer),
            Part::Key(column) => {
                buffer.push(" PRIMARY KEY")?;
                push_column(buffer, column)?;
                Ok(())
            }
            Part::Unique(column) => {
                buffer.push(" UNIQUE")?;
                push_column(buffer, column)?;
                Ok(())
            }
            Part::Foreign(column, refers) => {
                buffer.push(" FOREIGN KEY")?;
                push_column(buffer, column)?;
                refers.push_words(buffer)?;
                Ok(())
            }
            Part::Get(column, hidden) => push_rule(buffer, " ON GET", column, hidden),
            Part::Del(column, ruled) => push_rule(buffer, " ON DEL", column, ruled),
            Part::DelRow(column) => {
                buffer.push(" ON DEL")?;
                column.push_words(buffer)?;
                buffer.push(" DELETE_ROW")?;
                Ok(())
            }
        }
    }
}

/// Writes the word for a table of data subjects.
fn push_subject(buffer: &mut TextBuffer, subject: bool) -> Result<(), AllocError>
    ensures { OnOk result (buffer.new ≡ buffer.old ++ after_spaces (subject_words subject)) }
{
    if subject {
        buffer.push(" DATA_SUBJECT")?;
    }
    Ok(())
}

/// Writes a CREATE TABLE, with no space before it.
#[tactic(auto, unfolding(text_model::specs::Canonical::create_words))]
pub fn push_create(buffer: &mut TextBuffer, create: &CreateTable) -> Result<(), AllocError>
    ensures { OnOk result (buffer.new ≡ buffer.old ++ spaced (create_words create.now)) }
{
    buffer.push("CREATE")?;
    push_subject(buffer, create.subject)?;
    buffer.push(" TABLE")?;
    create.name.push_words(buffer)?;
    push_bracketed(buffer, create.parts.items())?;
    Ok(())
}

/// Writes a CREATE VIEW, with no space before it.
#[tactic(auto, unfolding(text_model::specs::Canonical::view_words))]
pub fn push_view(buffer: &mut TextBuffer, view: &CreateView) -> Result<(), AllocError>
    ensures { OnOk result (buffer.new ≡ buffer.old ++ spaced (view_words view.now)) }
{
    buffer.push("CREATE VIEW")?;
    view.name.push_words(buffer)?;
    buffer.push(" AS ")?;
    push_select(buffer, &view.select)?;
    Ok(())
}
