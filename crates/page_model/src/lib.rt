//! What an ordered sequence is that lies in pages, and what changes make of it. The definitions stand in `specs/`.
#![tactic(auto)]

/// The most items of a page.
pub const PAGE_ITEMS: usize = 32;
