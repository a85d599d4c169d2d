ghost use Rattle.std.specs.Prelude.{◌≡◌, ◌<◌, ◌^◌, length, map, IfOk};
ghost use Rattle.grammar_model.specs.Terminals.{IsCutInto, AreTerminals};
ghost use Rattle.grammar_model.specs.Terminal.{Terminals};
ghost use Rattle.grammar_model.specs.Terminal.{terminal_of};

use sql_lex::{Lexer, SyntaxAt, Token, TokenKind};
use std::alloc::{AllocError, Global};

/// The room for tokens that is taken at once, for as many as most statements have.
const TOKENS: usize = 16;

/// The tokens of a text, in order. Where no token begins at a byte, a mark without bytes stands last.
pub fn tokens(alloc: Global, text: &str) -> Result<Vec<Token<'_>>, AllocError>
    requires { length text.now < 2 ^ 32 }
    ensures cut { IfOk result (λ tokens. IsCutInto (record { text = text.now; at = 0 }) tokens.items) }
    // The text has no other tokens, as the grammar sees them.
    ensures only { IfOk result (λ tokens. (other : Terminals) → AreTerminals text.now other → other ≡ map terminal_of tokens.items) }
{
    let mut tokens = Vec::new(alloc);
    tokens.reserve_exact(TOKENS.min(text.len()))?;
    let mut lexer = Lexer::new(text);
    loop {
        match lexer.next() {
            Ok(Some(token)) => tokens.push(token)?,
            Ok(None) => return Ok(tokens),
            Err(SyntaxAt(at)) => {
                tokens.push(Token {
                    kind: TokenKind::Mark,
                    text: "",
                    start: at,
                    end: at,
                })?;
                return Ok(tokens);
            }
        }
    }
}
