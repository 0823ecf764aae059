// What a zone is made from, and what it is changed by.

// The least and the most that a level is at the start, at most 100,000.
#[derive(Clone, Copy, Debug, PartialEq, Eq)]
pub struct Range {
    pub least: u32,
    pub most: u32,
}

// How much a level can rise and fall in a step, at most 10,000 each.
#[derive(Clone, Copy, Debug, PartialEq, Eq)]
pub struct Rate {
    pub rise: u32,
    pub fall: u32,
}

// A gauge says that level `first` is above level `second` by at least `low` and at most `high`, each at most a million
// either way.
#[derive(Clone, Copy, Debug, PartialEq, Eq)]
pub struct Reading {
    pub first: u8,
    pub second: u8,
    pub low: i64,
    pub high: i64,
}
