ghost use Rattle.std.specs.Prelude.{◌≡◌, ◌++◌, ◌∷◌, OnOk};
ghost use Rattle.text_model.specs.Condition.{cmp_word, cond_words, operand_words, written};
ghost use Rattle.text_model.specs.Words.{column_words, separated};
ghost use Rattle.sql_print.specs.Parts.{null_test_words};
ghost use Rattle.sql_print.specs.Spaces.{after_spaces};
ghost use Rattle.sql_print.specs.Within.{has_brackets, part_words, separator_of};

use crate::text_buffer::TextBuffer;
use crate::word::Worded;
use own_model::{Cmp, ColRef, Cond, Operand};
use std::alloc::AllocError;

/// The sign of a comparison.
#[tactic(auto, unfolding(text_model::specs::Condition::cmp_word))]
fn sign_of(comparison: Cmp) -> &'static str
    ensures { result.now ≡ cmp_word comparison }
{
    match comparison {
        Cmp::Eq => "=",
        Cmp::Ne => "<>",
        Cmp::Lt => "<",
        Cmp::Le => "<=",
        Cmp::Gt => ">",
        Cmp::Ge => ">=",
    }
}

impl Worded for Operand {
    ghost words = { operand_words };

    #[tactic(auto, unfolding(text_model::specs::Condition::operand_words))]
    fn push_words(&self, buffer: &mut TextBuffer) -> Result<(), AllocError> {
        match self {
            Operand::Column(column) => column.push_words(buffer),
            Operand::Literal(value) => value.push_words(buffer),
        }
    }
}

/// Where a part of a condition stands: in an AND list or after NOT, or in an OR list.
#[derive(Clone, Copy)]
enum Within {
    And,
    Or,
}

impl Within {
    /// The word between two parts, after a space.
    fn separator(self) -> &'static str
        ensures { result.now ≡ 32 ∷ separator_of self }
    {
        match self {
            Within::And => " AND",
            Within::Or => " OR",
        }
    }

    /// Whether this part stands in brackets.
    #[tactic(auto, using(crate::proofs::Conditions::shapes))]
    fn has_brackets(self, part: &Cond) -> bool
        ensures { result ≡ has_brackets self (written part.now).shape }
    {
        match part {
            Cond::Every(_) => matches!(self, Within::And),
            Cond::Some1(_) => true,
            Cond::Not(_) | Cond::Compare(_, _, _) | Cond::IsNull(_, _) => false,
        }
    }
}

/// Writes a comparison.
fn push_comparison(
    buffer: &mut TextBuffer,
    left: &ColRef,
    comparison: Cmp,
    right: &Operand,
) -> Result<(), AllocError>
    ensures { OnOk result (buffer.new ≡ buffer.old ++ after_spaces (column_words left.now ++ cmp_word comparison ∷ operand_words right.now)) }
{
    left.push_words(buffer)?;
    buffer.push(" ")?;
    buffer.push(sign_of(comparison))?;
    right.push_words(buffer)?;
    Ok(())
}

/// Writes a test for NULL.
fn push_null_test(buffer: &mut TextBuffer, column: &ColRef, negated: bool) -> Result<(), AllocError>
    ensures { OnOk result (buffer.new ≡ buffer.old ++ after_spaces (null_test_words column.now negated)) }
{
    column.push_words(buffer)?;
    if negated {
        buffer.push(" IS NOT NULL")?;
    } else {
        buffer.push(" IS NULL")?;
    }
    Ok(())
}

/// Writes a part of a condition, in brackets where it has to stand in them.
#[cycle(condition)]
fn push_part(buffer: &mut TextBuffer, part: &Cond, within: Within) -> Result<(), AllocError>
    ensures { OnOk result (buffer.new ≡ buffer.old ++ after_spaces (part_words within (written part.now))) }
{
    if !within.has_brackets(part) {
        return push_condition(buffer, part);
    }
    buffer.push(" (")?;
    push_condition(buffer, part)?;
    buffer.push(" )")?;
    Ok(())
}

/// Writes parts, with AND or OR between.
#[cycle(condition)]
fn push_parts(buffer: &mut TextBuffer, parts: &[Cond], within: Within) -> Result<(), AllocError>
    ensures { OnOk result (buffer.new ≡ buffer.old ++ after_spaces (separated (separator_of within) (λ part. part_words within (written part)) parts.now)) }
{
    match parts {
        [] => Ok(()),
        [first, rest @ ..] => {
            push_part(buffer, first, within)?;
            for part in rest {
                buffer.push(within.separator())?;
                push_part(buffer, part, within)?;
            }
            Ok(())
        }
    }
}

/// Writes a condition.
#[cycle(condition)]
#[tactic(auto, using(crate::proofs::Conditions::words))]
pub fn push_condition(buffer: &mut TextBuffer, cond: &Cond) -> Result<(), AllocError>
    ensures { OnOk result (buffer.new ≡ buffer.old ++ after_spaces (cond_words cond.now)) }
{
    match cond {
        Cond::Every(parts) => push_parts(buffer, parts.items(), Within::And),
        Cond::Some1(parts) => push_parts(buffer, parts.items(), Within::Or),
        Cond::Not(part) => {
            buffer.push(" NOT")?;
            push_part(buffer, part.get(), Within::And)?;
            Ok(())
        }
        Cond::Compare(left, comparison, right) => {
            push_comparison(buffer, left, *comparison, right)
        }
        Cond::IsNull(column, negated) => push_null_test(buffer, column, *negated),
    }
}
