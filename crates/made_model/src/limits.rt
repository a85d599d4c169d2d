/// The most people of a large script.
pub const PEOPLE: u32 = 5_000;

/// The greatest seed; the least is 1.
pub const SEEDS: u32 = 2_147_483_646;
