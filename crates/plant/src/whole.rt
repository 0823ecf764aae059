// What is known beforehand.
ghost use Rattle.std.specs.Prelude.{◌≡◌, ◌+◌, ◌*◌, false, is_some};
ghost use Rattle.plant.specs.Checks.{plant_refused};

use crate::kinds::Gauge;
use zones::{Range, Rate};

// The basins with their ranges at the start and their rates, the gauges, and how many gauges may be wrong. There is none
// past the limits: whoever writes a field owes this again. Ranges and rates are a list each, as they are handed in and refused by
// their length, and lent on to the zones.
#[derive(Drop)]
pub struct Plant {
    pub basins: usize,
    pub wrong: u32,
    pub ranges: Vec<Range>,
    pub rates: Vec<Rate>,
    pub gauges: Vec<Gauge>,
    ghost limits: { is_some (plant_refused basins wrong ranges.items rates.items gauges.items) ≡ false },
}

impl Plant {
    // How many numbers a zone of its basins has: a bound of each level, and of the datum, over each.
    pub fn zone_size(&self) -> usize
        ensures { result ≡ (self.now.basins + 1) * (self.now.basins + 1) }
    {
        let width = self.basins + 1;
        width * width
    }
}
