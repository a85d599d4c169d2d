//! Names that many statements have, of which each is one in memory.

ghost use Rattle.std.specs.Prelude.{◌≡◌, ◌<◌, Ok, IfSome};
ghost use Rattle.own_base.specs.Name.{IsName};
ghost use Rattle.grammar_model.specs.Limits.{store_limits};
ghost use Rattle.grammar_model.specs.Terminal.{terminal_of};
ghost use Rattle.sql_reader.specs.reading.Judges.{name_of};
ghost use Rattle.sql_reader.specs.reading.Reader.{Judges};

use crate::fault::RuleFault;
use crate::literal::name_of;
use own_base::{MakeCopy, Name};
use sql_lex::{Token, TokenKind};
use std::alloc::Global;

/// How many names are held at most.
const NAMES: usize = 64;

/// Names that were read before. A statement that has one of them again shares its bytes. Of names that fall to one place, the one
/// that was read last is held.
#[derive(Debug, Drop)]
pub struct Names {
    held: Vec<Name>,
    /// The number of the name that is held at each place, or one past all numbers.
    places: [u8; NAMES],
}

/// The place of a name, by how many bytes it has, its first and its last.
fn place_of(name: &[u8]) -> usize
    ensures { result < NAMES }
{
    let first = usize::from(name.first().copied().unwrap_or(0));
    let last = usize::from(name.last().copied().unwrap_or(0));
    name.len().wrapping_add(5 * first).wrapping_add(11 * last) % NAMES
}

impl Names {
    /// No name. Takes no memory.
    pub fn new(alloc: Global) -> Names {
        Names {
            held: Vec::new(alloc),
            places: [u8::MAX; NAMES],
        }
    }

    /// The name that is spelled so, if it is held.
    fn find(&self, text: &str) -> Option<&Name>
        ensures same { IfSome result (λ name. name.now ≡ text.now) }
        ensures name { IfSome result (λ name. IsName name.now) }
    {
        let number = self.places[place_of(text.as_bytes())];
        let name = self.held.get(usize::from(number))?;
        if name.bytes() == text.as_bytes() {
            Some(name)
        } else {
            None
        }
    }

    /// Holds a name, if there is memory for it.
    fn hold(&mut self, alloc: Global, name: &Name) {
        let Ok(copy) = name.copy(alloc) else {
            return;
        };
        let place = place_of(name.bytes());
        let number = self.places[place];
        if usize::from(number) < self.held.len() {
            self.held[usize::from(number)] = copy;
            return;
        }
        let next = self.held.len();
        if next < NAMES && self.held.push(copy).is_ok() {
            self.places[place] = next as u8;
        }
    }

    /// The name that a token is, shared with the names that are held.
    fn shared(&self, alloc: Global, token: &Token) -> Option<Name>
        ensures { IfSome result (λ name. name_of store_limits (terminal_of token.now) ≡ Ok name) }
    {
        match token.kind {
            TokenKind::Name => {
                let name = self.find(token.text)?;
                let Ok(copy) = name.copy(alloc) else {
                    return None;
                };
                Some(copy)
            }
            _ => None,
        }
    }

    /// The name that a token is, which is held from then on.
    pub fn read(&mut self, alloc: Global, token: &Token) -> Result<Name, RuleFault>
        ensures { Judges (name_of store_limits (terminal_of token.now)) result }
    {
        if let Some(name) = self.shared(alloc, token) {
            return Ok(name);
        }
        let name = name_of(alloc, token)?;
        self.hold(alloc, &name);
        Ok(name)
    }
}
