use commit_replay::Replayed;
use disk_model::{Commit, Image};
use own_base::{Area, List};

/// A commit as it lies in an area.
#[derive(Debug, Drop)]
pub struct LaidCommit {
    /// That of the payload of its record, in bytes from the beginning of the area.
    pub offset: u64,
    pub commit: Commit,
}

/// What the bytes of two areas are judged to be.
#[derive(Drop)]
pub enum Judged {
    /// No store yet: neither area is opened.
    Empty,
    /// A store, in this area.
    Whole {
        area: Area,
        epoch: u64,
        image: Image,
        commits: List<LaidCommit>,
        /// The offset of the closed gate behind the records.
        end: u64,
        /// The state that the image and the commits lead to.
        state: Replayed,
    },
    /// The first place that is unlawful.
    Damaged {
        area: Area,
        offset: u64,
    },
}
