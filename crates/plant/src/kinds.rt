// Where gauges hang, and what comes in.
ghost use Rattle.std.specs.Prelude.{◌≡◌};
ghost use Rattle.plant.specs.Checks.{placed};

// A gauge of level `first` above level `second`; of one basin alone where the second is the datum, number 0.
#[derive(Clone, Copy, PartialEq, Eq, Debug)]
pub struct Gauge {
    pub first: u8,
    pub second: u8,
}

impl Gauge {
    // It hangs at one of so many basins, alone or above another: only the second may be the datum.
    pub(crate) fn is_placed(self, basins: usize) -> bool
        ensures { result ≡ placed basins self }
    {
        let first = usize::from(self.first);
        let second = usize::from(self.second);
        first >= 1 && first <= basins && second <= basins && first != second
    }
}

// A gauge says that what it hangs at is at least `low` and at most `high`, each at most a million either way.
#[derive(Clone, Copy, PartialEq, Eq, Debug)]
pub struct GaugeReading {
    pub gauge: u32,
    pub low: i64,
    pub high: i64,
}

#[derive(Clone, Copy, PartialEq, Eq, Debug)]
pub enum Event {
    // a step in time
    Step,
    Reading(GaugeReading),
}
