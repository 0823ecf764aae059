// What has been said of a plant so far.
use plant::Gauge;
use zones::{Range, Rate};

// No plant has more basins.
pub const BASINS: usize = 8;

// One more than a plant can have gauges, so that too many are seen to be too many.
pub const PLACES: usize = 13;

// A value with the number of its line.
#[derive(Clone, Copy)]
pub struct Lined<T> {
    pub line: u64,
    pub value: T,
}

// The lines of a plant so far, each at its place. Numbers that fit no u32, or no u8 where a gauge hangs, are its largest:
// this is past every limit, so that the plant is refused for it as for the number itself. Arrays, since maps take memory, and
// a draft is begun and takes its lines without.
#[derive(Drop)]
pub struct Draft {
    pub basins: Option<u32>,
    pub gauges: Option<u32>,
    pub wrong: Option<u32>,
    // of basins from 1 on
    pub ranges: [Option<Lined<Range>>; BASINS],
    pub rates: [Option<Lined<Rate>>; BASINS],
    // of gauges from 0 on
    pub places: [Option<Gauge>; PLACES],
    // the smallest gauge that has no place there
    pub past: Option<u32>,
}
