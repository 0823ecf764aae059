// A plant is made of plain numbers, all of which are checked.
ghost use Rattle.std.specs.Prelude.{◌≡◌, ◌<◌, length, MatchOption};
ghost use Rattle.refusal.specs.Order.{Found, first_bad};
ghost use Rattle.faults.specs.Limits.{refusal_of};
ghost use Rattle.plant.specs.Checks.{lengths_refused, placed};
ghost use Rattle.plant.specs.Says.{NewSays};

use crate::kinds::Gauge;
use crate::whole::Plant;
use refusal::Refusal;
use zones::{Range, Rate};

// So many gauges are taken, of which so many may be wrong.
fn check_count(gauges: usize, wrong: u32) -> Result<(), Refusal>
    ensures { Found result (refusal_of gauges wrong) }
{
    let gauges = u32::try_from(gauges).map_err(|_| Refusal::Gauges)?;
    faults::check_limits(gauges, wrong)
}

// There are rates and a range for each basin.
fn check_lengths(basins: usize, rates: usize, ranges: usize) -> Result<(), Refusal>
    ensures { Found result (lengths_refused basins rates ranges) }
{
    if rates != basins {
        return Err(Refusal::Length(rates as u64));
    }
    if ranges != basins {
        return Err(Refusal::Length(ranges as u64));
    }
    Ok(())
}

// The first gauge that hangs at no basin of the plant, at the datum alone, or twice at one.
fn bad_gauge(basins: usize, gauges: &[Gauge]) -> Option<usize>
    ensures first { result ≡ first_bad (placed basins) 0 gauges.now }
    ensures within { MatchOption result Unit (λ i. i < length gauges.now) }
{
    gauges.iter().position(|gauge| !gauge.is_placed(basins))
}

impl Plant {
    // The plant of these numbers, if no check refuses it: the first that does decides.
    pub fn new(
        basins: u32,
        wrong: u32,
        ranges: Vec<Range>,
        rates: Vec<Rate>,
        gauges: Vec<Gauge>,
    ) -> Result<Plant, Refusal>
        ensures { NewSays basins wrong ranges rates gauges result }
    {
        let basins = basins as usize;
        zones::check_basins(basins)?;
        check_count(gauges.len(), wrong)?;
        check_lengths(basins, rates.len(), ranges.len())?;
        zones::check_basin_rates(basins, &rates)?;
        zones::check_basin_ranges(basins, &ranges)?;
        if let Some(i) = bad_gauge(basins, &gauges) {
            return Err(Refusal::Placement(i as u32));
        }
        Ok(Plant {
            basins,
            wrong,
            ranges,
            rates,
            gauges,
        })
    }
}
