//! How far a stretch is gone over: what stands between two semicolons or session lines, at most one call.

ghost use Rattle.std.specs.Prelude.{◌≡◌, ◌<◌, ◌≤◌, ◌^◌, ◌+◌, ◌-◌, ◌&&◌, ℕ, List, true, false, All, length, drop, slice_index, codes, MatchOption};
ghost use Rattle.script_model.specs.Piece.{starts};
ghost use Rattle.sql_lex.specs.Bytes.{is_space as is_space_byte};
ghost use Rattle.call_stream.specs.Stretches.{IsLast, closes, has_begun, line_of, next_of, session_open};
ghost use Rattle.call_stream.specs.Scans.{IsScanned, IsMet, IsStep, passed, held, opened};

/// What the piece is that has begun and hasn't ended.
#[derive(Clone, Copy, Debug, PartialEq, Eq)]
pub enum Place {
    /// There is none.
    Between,
    /// One dash, of which the next byte tells what it begins.
    Dash,
    /// Two dashes and what follows on their line.
    Line,
    /// A quote and what follows it.
    Quote,
}

/// What closes a text.
#[derive(Clone, Copy, Debug, PartialEq, Eq)]
pub enum Closing {
    Semicolon,
    Session,
}

/// How many bytes come up to the last that is no white space.
fn trimmed_len(bytes: &[u8]) -> usize
    ensures within { result ≤ length bytes.now }
    ensures spaces { All (λ byte. is_space_byte byte ≡ true) (drop result bytes.now) }
    ensures last { 0 < result → is_space_byte (slice_index bytes.now (result - 1)) ≡ false }
{
    let last = bytes.iter().rposition(|byte| !is_space(*byte));
    match last {
        Some(at) => at + 1,
        None => 0,
    }
}

impl Closing {
    /// A semicolon closes the text.
    pub fn closes(&self) -> bool
        ensures { result ≡ closes self.now }
    {
        matches!(self, Closing::Semicolon)
    }
}

/// How many bytes `-- session ` has.
const SESSION_BYTES: usize = 11;

/// How far a stretch is gone over. Places count from its first byte.
#[derive(Clone, Copy, Debug)]
pub struct Scan {
    /// A line begins with the stretch's first byte.
    begins: bool,
    place: Place,
    /// A line begins with the open piece.
    line: bool,
    /// Where the open piece begins, or else the next one.
    piece: usize,
    at: usize,
    /// Where the text begins and ends so far; one place where there is none.
    start: usize,
    end: usize,
}

/// A space, a tab, or an end of line.
pub fn is_space(byte: u8) -> bool
    ensures { result ≡ is_space_byte byte }
{
    byte == b' ' || byte == b'\t' || byte == b'\n' || byte == b'\r'
}

impl Scan {
    /// Nothing is gone over yet.
    pub fn new(begins: bool) -> Scan
        ensures scanned { (bytes : List ℕ) → IsScanned bytes result }
        ensures begins { result.begins ≡ begins }
        ensures at { result.at ≡ 0 }
    {
        Scan {
            begins,
            place: Place::Between,
            line: begins,
            piece: 0,
            at: 0,
            start: 0,
            end: 0,
        }
    }

    /// The open piece ends before a byte, and is empty.
    fn pass(&mut self, to: usize, line: bool)
        ensures { self.new ≡ passed self.old to line }
    {
        self.place = Place::Between;
        self.line = line;
        self.piece = to;
        self.at = to;
    }

    /// The open piece ends before a byte, and is text.
    fn hold(&mut self, to: usize)
        ensures { self.new ≡ held self.old to }
    {
        if self.start == self.end {
            self.start = self.piece;
        }
        self.end = to;
        self.place = Place::Between;
        self.line = false;
        self.piece = to;
        self.at = to;
    }

    /// The next byte belongs to the piece at this place.
    fn keep(&mut self, place: Place)
        requires { self.old.at < usize.MAX }
        ensures { self.new ≡ opened self.old place }
    {
        self.place = place;
        self.at += 1;
    }

    /// Takes the next byte, where no piece is open.
    fn begin(&mut self, bytes: &[u8]) -> Option<Closing>
        requires scanned { IsScanned bytes.now self.old }
        requires between { self.old.place ≡ Place.Between }
        requires more { self.old.at < length bytes.now }
        ensures scanned { IsScanned bytes.now self.new }
        ensures begins { self.new.begins ≡ self.old.begins }
        ensures step { IsStep bytes.now self.old result self.new }
    {
        let byte = bytes[self.at];
        if byte == b';' {
            return Some(Closing::Semicolon);
        }
        if byte == b'\'' {
            self.keep(Place::Quote);
        } else if byte == b'-' {
            self.keep(Place::Dash);
        } else if is_space(byte) {
            self.pass(self.at + 1, byte == b'\n');
        } else {
            self.hold(self.at + 1);
        }
        None
    }

    /// Takes the next byte, after a dash.
    fn after_dash(&mut self, bytes: &[u8]) -> Option<Closing>
        requires scanned { IsScanned bytes.now self.old }
        requires dash { self.old.place ≡ Place.Dash }
        requires more { self.old.at < length bytes.now }
        ensures scanned { IsScanned bytes.now self.new }
        ensures begins { self.new.begins ≡ self.old.begins }
        ensures step { IsStep bytes.now self.old result self.new }
    {
        if bytes[self.at] == b'-' {
            self.keep(Place::Line);
            return None;
        }
        self.hold(self.at);
        self.begin(bytes)
    }

    /// The open piece is a session line, as far as it goes.
    fn is_session(&self, bytes: &[u8]) -> bool
        requires { self.now.piece ≤ length bytes.now }
        ensures { result ≡ (self.now.line && starts (drop self.now.piece bytes.now) (codes "-- session ")) }
    {
        self.line && bytes[self.piece..].starts_with(b"-- session ")
    }

    /// Takes the next byte, on a line that begins with two dashes.
    fn in_line(&mut self, bytes: &[u8]) -> Option<Closing>
        requires scanned { IsScanned bytes.now self.old }
        requires line { self.old.place ≡ Place.Line }
        requires more { self.old.at < length bytes.now }
        ensures scanned { IsScanned bytes.now self.new }
        ensures begins { self.new.begins ≡ self.old.begins }
        ensures step { IsStep bytes.now self.old result self.new }
    {
        if bytes[self.at] != b'\n' {
            self.keep(Place::Line);
            return None;
        }
        if self.is_session(bytes) {
            return Some(Closing::Session);
        }
        self.pass(self.at, false);
        self.begin(bytes)
    }

    /// Takes the next byte, in quotes.
    fn in_quote(&mut self, bytes: &[u8]) -> Option<Closing>
        requires scanned { IsScanned bytes.now self.old }
        requires quote { self.old.place ≡ Place.Quote }
        requires more { self.old.at < length bytes.now }
        ensures scanned { IsScanned bytes.now self.new }
        ensures begins { self.new.begins ≡ self.old.begins }
        ensures step { IsStep bytes.now self.old result self.new }
    {
        if bytes[self.at] == b'\'' {
            self.hold(self.at + 1);
        } else {
            self.keep(Place::Quote);
        }
        None
    }

    /// Takes the next byte.
    fn step(&mut self, bytes: &[u8]) -> Option<Closing>
        requires scanned { IsScanned bytes.now self.old }
        requires more { self.old.at < length bytes.now }
        ensures scanned { IsScanned bytes.now self.new }
        ensures begins { self.new.begins ≡ self.old.begins }
        ensures step { IsStep bytes.now self.old result self.new }
    {
        match self.place {
            Place::Between => self.begin(bytes),
            Place::Dash => self.after_dash(bytes),
            Place::Line => self.in_line(bytes),
            Place::Quote => self.in_quote(bytes),
        }
    }

    /// Goes on to what closes the text, or else to the last byte.
    pub fn go_on(&mut self, bytes: &[u8]) -> Option<Closing>
        requires { IsScanned bytes.now self.old }
        ensures scanned { IsScanned bytes.now self.new }
        ensures begins { self.new.begins ≡ self.old.begins }
        ensures met { MatchOption result (self.new.at ≡ length bytes.now) (λ closing. IsMet bytes.now self.new closing) }
    {
        while self.at < bytes.len() {
            if let Some(closing) = self.step(bytes) {
                return Some(closing);
            }
        }
        None
    }

    /// Where the open piece begins.
    pub fn piece(&self) -> usize
        ensures { result ≡ self.now.piece }
    {
        self.piece
    }

    /// Where the text begins.
    pub fn start(&self) -> usize
        ensures { result ≡ self.now.start }
    {
        self.start
    }

    /// Where the text ends.
    pub fn end(&self) -> usize
        ensures { result ≡ self.now.end }
    {
        self.end
    }

    /// The byte after what closes the text.
    pub fn next(&self, closing: Closing) -> usize
        requires { self.now.at < 2 ^ 62 }
        ensures { result ≡ next_of self.now closing }
    {
        match closing {
            Closing::Semicolon => self.at + 1,
            Closing::Session => self.at,
        }
    }

    /// What follows `-- session ` on the line that is open.
    pub fn line_of<'a>(&self, bytes: &'a [u8]) -> &'a [u8]
        requires long { self.now.piece + 11 ≤ self.now.at }
        requires within { self.now.at ≤ length bytes.now }
        ensures { result.now ≡ line_of bytes.now self.now }
    {
        &bytes[self.piece + SESSION_BYTES..self.at]
    }

    /// The bytes end in a session line.
    pub fn ends_in_session(&self, bytes: &[u8]) -> bool
        requires { self.now.piece ≤ length bytes.now }
        ensures { result ≡ session_open bytes.now self.now }
    {
        match self.place {
            Place::Line => self.is_session(bytes),
            Place::Between | Place::Dash | Place::Quote => false,
        }
    }

    /// The scan where the bytes end, and the input with them.
    pub fn last(&self, bytes: &[u8]) -> Scan
        requires scanned { IsScanned bytes.now self.now }
        requires end { self.now.at ≡ length bytes.now }
        ensures { IsLast bytes.now self.now result (session_open bytes.now self.now) }
    {
        match self.place {
            Place::Between => *self,
            Place::Line => *self,
            Place::Dash => {
                let mut last = *self;
                last.hold(self.at);
                last
            }
            Place::Quote => {
                let mut last = *self;
                let len = trimmed_len(&bytes[self.piece + 1..]);
                last.hold(self.piece + 1 + len);
                last
            }
        }
    }

    /// A text has begun: a byte of it has come.
    pub fn has_begun(&self) -> bool
        ensures { result ≡ has_begun self.now }
    {
        self.start != self.end || matches!(self.place, Place::Dash | Place::Quote)
    }
}
