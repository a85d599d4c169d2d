/// How replies are written.
#[derive(Clone, Copy, Debug, PartialEq, Eq)]
pub enum Form {
    /// The lines of a reply, as a script's replies are written.
    Lines,
    /// One line of JSON for each reply.
    Json,
}

/// How a shell answers.
#[derive(Clone, Copy, Debug, PartialEq, Eq)]
pub struct Manner {
    pub form: Form,
    /// Whether it ends at the first refusal.
    pub stops: bool,
    /// Whether somebody at a terminal is prompted, and shown where a text stops being a statement.
    pub prompts: bool,
}
