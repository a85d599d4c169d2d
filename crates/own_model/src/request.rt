use crate::limit::LimitName;
use crate::statement::Statement;
use own_base::Boxed;

/// What a call asks for, as its text was read.
#[derive(Debug, Drop)]
pub enum Request {
    /// The text is this statement.
    Run(Boxed<Statement>),
    /// No statement continues at this byte of the text.
    Syntax(u32),
    /// The text passes this limit.
    Limit(LimitName),
    /// The session ends.
    End,
}
