//! What calls were answered, added up.

ghost use Rattle.std.specs.Prelude.{◌≡◌, ◌<◌, ◌^◌, [], ◌∷◌, ◌++◌, List, codes, string_bytes, IfOk, OnOk};
ghost use Rattle.std.specs.Fmt.{decimal, signed_decimal};
ghost use Rattle.own_model.specs.declared.reply.Reply.{Reply};
ghost use Rattle.made_model.specs.Summary.{summary};
ghost use Rattle.made_model.specs.SummaryText.{counted_line, summary_text};

use crate::counts::{forgot_of, got_of, refused_of, rows_of, sum_of};
use own_base::Text;
use own_model::Reply;
use std::alloc::{AllocError, Global};
use std::fmt::Write;
use std::marker::Model;

/// The room for a summary, in bytes.
const SUMMARY_BYTES: usize = 160;

/// What calls were answered, added up, which contracts see as the summary of their replies.
#[derive(Debug, Drop)]
pub struct Tally {
    calls: u64,
    refused: u64,
    memory: u64,
    got: u128,
    removed: u64,
    changed: u64,
    held: usize,
    sum: i128,
}

impl Model for Tally {
    ghost use Rattle.made_model.specs.Summary.{Summary};

    ghost Value = { Summary };

    ghost use Rattle.made_script.specs.Tallied.{tallied, IsTally};

    ghost view = { tallied };

    ghost invariant = { IsTally };
}

/// Writes a word and a number on a line.
fn push_line(text: &mut String, word: &str, count: u128) -> Result<(), AllocError>
    ensures { OnOk result (string_bytes text.new ≡ string_bytes text.old ++ counted_line word.now count) }
{
    write!(text, "{word}{count}\n")
}

/// Writes how many rows erasures removed and changed on a line.
fn push_forgot(text: &mut String, removed: u64, changed: u64) -> Result<(), AllocError>
    ensures { OnOk result (string_bytes text.new ≡ string_bytes text.old ++ (codes "forgot " ++ decimal removed ++ codes " " ++ decimal changed ++ 10 ∷ [])) }
{
    write!(text, "forgot {removed} {changed}\n")
}

/// Writes a sum on a line.
fn push_sum(text: &mut String, sum: i128) -> Result<(), AllocError>
    ensures { OnOk result (string_bytes text.new ≡ string_bytes text.old ++ (codes "sum " ++ signed_decimal sum ++ 10 ∷ [])) }
{
    write!(text, "sum {sum}\n")
}

impl Tally {
    /// The summary of no calls.
    pub fn new() -> Tally
        ensures { result ≡ summary [] }
    {
        Tally {
            calls: 0,
            refused: 0,
            memory: 0,
            got: 0,
            removed: 0,
            changed: 0,
            held: 0,
            sum: 0,
        }
    }

    /// Adds what one more call was answered. Takes no memory.
    pub fn add(&mut self, reply: &Reply)
        requires { self.old.calls < 2 ^ 32 }
        ensures { (replies : List Reply) → self.old ≡ summary replies → self.new ≡ summary (replies ++ reply.now ∷ []) }
    {
        let (refused, memory) = refused_of(reply);
        let (removed, changed) = forgot_of(reply);
        let rows = rows_of(reply);
        self.calls += 1;
        self.refused += u64::from(refused);
        self.memory += u64::from(memory);
        self.got += got_of(reply) as u128;
        self.removed += u64::from(removed);
        self.changed += u64::from(changed);
        self.held = rows.len();
        self.sum = sum_of(rows);
    }

    /// Writes the summary at the end.
    fn push_to(&self, text: &mut String) -> Result<(), AllocError>
        ensures { OnOk result (string_bytes text.new ≡ string_bytes text.old ++ summary_text self.now) }
    {
        let done = self.calls - (self.refused + self.memory);
        push_line(text, "calls ", u128::from(self.calls))?;
        push_line(text, "done ", u128::from(done))?;
        push_line(text, "refused ", u128::from(self.refused))?;
        push_line(text, "memory ", u128::from(self.memory))?;
        push_line(text, "got ", self.got)?;
        push_forgot(text, self.removed, self.changed)?;
        push_line(text, "held ", self.held as u128)?;
        push_sum(text, self.sum)?;
        Ok(())
    }

    /// The summary on eight lines.
    pub fn told(&self, alloc: Global) -> Result<Text, AllocError>
        ensures { IfOk result (λ text. text ≡ summary_text self.now) }
    {
        let mut text = String::with_capacity(alloc, SUMMARY_BYTES)?;
        self.push_to(&mut text)?;
        Ok(Text::from_string(text)?)
    }
}
