/// Where prompts go, and what else is told to somebody at a terminal. Whether it came there isn't known.
pub trait Notes {
    fn note(&mut self, text: &[u8]);
}

/// Nobody is told anything.
#[derive(Clone, Copy, Debug)]
pub struct NoNotes;

impl Notes for NoNotes {
    fn note(&mut self, _text: &[u8]) {}
}
