ghost use Rattle.std.specs.Prelude.{◌≡◌, ◌<◌, length, map, Err, OnOk};
ghost use Rattle.grammar_model.specs.Limits.{store_limits};
ghost use Rattle.sql_reader.specs.reading.Whole.{ended};
ghost use Rattle.sql_reader.specs.reading.Reader.{Does, accept, next_is};
ghost use Rattle.sql_reader.specs.reading.Rules as rules;
ghost use Rattle.sql_reader.specs.reading.Judges.{is_name, is_quoted, slot_of};
ghost use Rattle.grammar_model.specs.Terminal as spec;

use crate::fault::RuleFault;
use crate::literal::{can_be_name, number_of, text_of};
use crate::names::Names;
use own_base::{Name, Text};
use own_model::LimitName;
use sql_lex::{Token, TokenKind};
use std::alloc::Global;
use std::marker::Model;

/// The tokens that are still to be read, and the names that were read before.
#[derive(Debug, Drop)]
pub struct Cursor<'a> {
    tokens: &'a [Token<'a>],
    names: Names,
}

impl<'a> Model for Cursor<'a> {
    ghost use Rattle.std.specs.Prelude.{List, map};
    ghost use Rattle.grammar_model.specs.Terminal.{Terminal, terminal_of};

    ghost Value = { List Terminal };

    ghost view = { λ cursor. map terminal_of cursor.tokens.now };
}

fn is_word(token: &Token, word: &[u8]) -> bool
    ensures { result ≡ spec.is_word word.now (spec.terminal_of token.now) }
{
    match token.kind {
        TokenKind::Keyword => token.text.as_bytes().eq_ignore_ascii_case(word),
        _ => false,
    }
}

fn is_mark(token: &Token, mark: &[u8]) -> bool
    ensures { result ≡ spec.is_mark mark.now (spec.terminal_of token.now) }
{
    match token.kind {
        TokenKind::Mark => token.text.as_bytes() == mark,
        _ => false,
    }
}

impl<'a> Cursor<'a> {
    /// At the first of the tokens.
    pub fn new(tokens: &'a [Token<'a>], names: Names) -> Cursor<'a>
        ensures { result ≡ map spec.terminal_of tokens.now }
    {
        Cursor { tokens, names }
    }

    /// The names that were read so far.
    pub fn into_names(self) -> Names {
        self.names
    }

    /// Whether this keyword comes next.
    pub fn next_is_word(&self, word: &[u8]) -> bool
        ensures { result ≡ next_is (spec.is_word word.now) self.now }
    {
        match self.tokens.first() {
            Some(token) => is_word(token, word),
            None => false,
        }
    }

    /// Whether this mark comes next.
    pub fn next_is_mark(&self, mark: &[u8]) -> bool
        ensures { result ≡ next_is (spec.is_mark mark.now) self.now }
    {
        match self.tokens.first() {
            Some(token) => is_mark(token, mark),
            None => false,
        }
    }

    /// Whether a name comes next.
    pub fn next_is_name(&self) -> bool
        ensures { result ≡ next_is is_name self.now }
    {
        match self.tokens.first() {
            Some(token) => matches!(token.kind, TokenKind::Name),
            None => false,
        }
    }

    /// Whether a text in quotes comes next.
    pub fn next_is_quoted(&self) -> bool
        ensures { result ≡ next_is is_quoted self.now }
    {
        match self.tokens.first() {
            Some(token) => matches!(token.kind, TokenKind::Quoted),
            None => false,
        }
    }

    /// Takes this keyword.
    pub fn word(&mut self, word: &[u8]) -> Result<(), RuleFault>
        ensures does { Does (rules.word word.now) self.old result self.new }
        ensures shorter { OnOk result (length self.new < length self.old) }
    {
        if self.next_is_word(word) {
            self.tokens = &self.tokens[1..];
            Ok(())
        } else {
            Err(RuleFault::Syntax)
        }
    }

    /// Takes this mark.
    pub fn mark(&mut self, mark: &[u8]) -> Result<(), RuleFault>
        ensures does { Does (rules.mark mark.now) self.old result self.new }
        ensures shorter { OnOk result (length self.new < length self.old) }
    {
        if self.next_is_mark(mark) {
            self.tokens = &self.tokens[1..];
            Ok(())
        } else {
            Err(RuleFault::Syntax)
        }
    }

    /// Takes a name.
    #[tactic(auto, unfolding(crate::specs::reading::Rules::name))]
    pub fn name(&mut self, alloc: Global) -> Result<Name, RuleFault>
        ensures { Does (rules.name store_limits) self.old result self.new }
    {
        match self.tokens.first() {
            Some(token) => {
                let name = self.names.read(alloc, token)?;
                self.tokens = &self.tokens[1..];
                Ok(name)
            }
            None => Err(RuleFault::Syntax),
        }
    }

    /// Takes a number, whose sign was taken.
    #[tactic(auto, unfolding(crate::specs::reading::Rules::number))]
    pub fn number(&mut self, negative: bool) -> Result<i64, RuleFault>
        ensures { Does (rules.number negative) self.old result self.new }
    {
        match self.tokens.first() {
            Some(token) => {
                let number = number_of(negative, token)?;
                self.tokens = &self.tokens[1..];
                Ok(number)
            }
            None => Err(RuleFault::Syntax),
        }
    }

    /// Takes a text in quotes.
    #[tactic(auto, unfolding(crate::specs::reading::Rules::text))]
    pub fn text(&mut self, alloc: Global) -> Result<Text, RuleFault>
        ensures { Does (rules.text store_limits) self.old result self.new }
    {
        match self.tokens.first() {
            Some(token) => {
                let text = text_of(alloc, token)?;
                self.tokens = &self.tokens[1..];
                Ok(text)
            }
            None => Err(RuleFault::Syntax),
        }
    }

    /// What is wrong where an item comes above the limit: the limit, if an item can begin there.
    pub fn no_item(&self) -> RuleFault
        ensures { accept slot_of self.now ≡ Err (result, self.now) }
    {
        match self.tokens.first() {
            Some(token) if can_be_name(token) => RuleFault::Limit(LimitName::Items),
            _ => RuleFault::Syntax,
        }
    }

    /// Nothing is to be read any more.
    pub fn ended(&mut self) -> Result<(), RuleFault>
        ensures { Does ended self.old result self.new }
    {
        if self.tokens.is_empty() {
            Ok(())
        } else {
            Err(RuleFault::Syntax)
        }
    }

    /// The byte at which the next token begins, or the text's length.
    pub fn place(&self, len: u32) -> u32
        ensures { result ≡ spec.byte_of len self.now }
    {
        match self.tokens.first() {
            Some(token) => token.start,
            None => len,
        }
    }
}
