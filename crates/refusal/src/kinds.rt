// A refusal of each kind, with its place where that is not fixed by the kind. Where several apply, the first of this order
// is given, and of one kind the one with the smallest place.
#[derive(Clone, Copy, PartialEq, Eq, Debug)]
pub enum Refusal {
    // 1: fewer than 1 basin, or more than 8
    Basins,
    // 2, place 0: fewer than 1 gauge, or more than 12
    Gauges,
    // 2, place 1: more gauges may be wrong than 2, or not fewer than there are
    Wrong,
    // 3: numbers of a zone, rates or ranges, of another length than the basins need: the length
    Length(u64),
    // 4: a rise or fall above 10,000: the basin, with the number of basins added for a fall
    Rate(u32),
    // 5: a number of a lent zone above 2,000,002: its index
    ZoneNumber(u64),
    // 6: a range that ends before it begins, or ends above 100,000: the basin
    Range(u32),
    // 7: a gauge at a basin past the plant, twice at one basin, or with the datum as its first: the gauge
    Placement(u32),
    // 8: a reading of no gauge of the plant: the gauge
    NoGauge(u32),
    // 9, place 0: a reading whose low is above its high
    LowAboveHigh,
    // 9, place 1: a reading past a million either way
    PastMillion,
    // 10, place 0: a request for no basin of the plant
    NoBasin,
    // 10, place 1: a request for two equal basins
    SameBasin,
    // 11: more than 1,000,000 steps: the step
    Steps(u32),
    // 12: a history of another length than its events need: the length
    HistoryLength(u64),
    // 13: more gauges blamed than may be wrong: their number
    TooManyBlamed(u32),
    // 13: a blamed gauge past the plant: the gauge
    BlamedPastPlant(u32),
}
