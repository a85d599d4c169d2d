use own_model::Entry;
use std::collections::LinkedList;
use turn_model::Started;

/// How a session stands to a turn, as the lead knows it. No value of it is made.
pub enum Stage {
    /// No pass of it was split off.
    Fresh,
    /// A pass of it was split off and not joined.
    Out,
    /// Its pass was joined, which had these places.
    Joined(LinkedList<u64>),
}

/// What the holder of a pass knows. No value of it is made.
pub struct View {
    /// Whether the pass hasn't been joined to the lead.
    pub live: bool,
    /// Whether it is the lead.
    pub lead: bool,
    /// Whether it has the turn.
    pub holds: bool,
    /// Its session; the lead has none, and 0 stands there.
    pub session: u8,
    /// The history that it has seen.
    pub seen: LinkedList<Entry>,
    /// The places of its session's entries beyond those that the turn was made with.
    pub places: LinkedList<u64>,
    /// Of the lead, how each session stands, by its number.
    pub stages: LinkedList<Stage>,
    /// What the lead had seen when it last joined a pass, and what that had seen.
    pub was: LinkedList<Entry>,
    pub heard: LinkedList<Entry>,
    /// With how many entries the turn was made.
    pub base: u64,
    /// The start of the value that the turn was made with.
    pub start: Started,
}
