use shell_session::Notes;
use std::io::Write;

/// Notes that go to a writer, as standard error. Where that fails they are lost.
#[derive(Drop)]
pub(crate) struct ErrorNotes<W> {
    writer: W,
}

impl<W> ErrorNotes<W> {
    pub(crate) fn new(writer: W) -> ErrorNotes<W> {
        ErrorNotes { writer }
    }
}

impl<W: Write> Notes for ErrorNotes<W> {
    fn note(&mut self, text: &[u8]) {
        let _ = self.writer.write_all(text);
    }
}
