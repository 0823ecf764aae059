// The checks that come before a zone is touched, in the order of their numbers.
ghost use Rattle.std.specs.Prelude.{◌≡◌, ◌+◌, ◌*◌, ◌≤◌, length, None, MatchResult};
ghost use Rattle.refusal.specs.Order.{Found};
ghost use Rattle.zones.specs.Checks.{basins_refused, ends_refused, length_refused, range_ok, range_refused, rate_refused};
ghost use Rattle.zones.specs.Checks.{ranges_refused, rates_refused, reading_refused, size_refused};

use crate::kinds::{Range, Rate, Reading};
use refusal::Refusal;

const MAX_BASINS: usize = 8;

// No range at the start ends above it.
const MAX_START: u32 = 100_000;

// No level rises or falls by more in a step.
pub(crate) const MAX_RATE: u32 = 10_000;

// No reading is past it either way.
const MAX_READING: i64 = 1_000_000;

// So many basins are taken.
pub fn check_basins(basins: usize) -> Result<(), Refusal>
    ensures { Found result (basins_refused basins) }
{
    if basins < 1 || basins > MAX_BASINS {
        return Err(Refusal::Basins);
    }
    Ok(())
}

// There are as many as are needed.
pub(crate) fn check_length(needed: usize, length: usize) -> Result<(), Refusal>
    ensures { Found result (length_refused needed length) }
{
    if length != needed {
        return Err(Refusal::Length(length as u64));
    }
    Ok(())
}

// A zone of `basins` basins has `length` numbers.
pub(crate) fn check_size(basins: usize, length: usize) -> Result<(), Refusal>
    ensures found { Found result (size_refused basins length) }
    ensures fits { MatchResult result (λ _. (basins ≤ 8) × (length ≡ (basins + 1) * (basins + 1))) (λ _. Unit) }
{
    check_basins(basins)?;
    check_length((basins + 1) * (basins + 1), length)
}

impl Range {
    // It does not end before it begins, nor too high.
    fn is_ordered(&self) -> bool
        ensures { result ≡ range_ok self.now }
    {
        self.least <= self.most && self.most <= MAX_START
    }
}

// There is a range for each basin, and each is in order.
pub(crate) fn check_ranges(basins: usize, ranges: &[Range]) -> Result<(), Refusal>
    requires { basins ≤ 8 }
    ensures { Found result (range_refused basins ranges.now) }
{
    check_length(basins, ranges.len())?;
    if let Some(i) = ranges.iter().position(|range| !range.is_ordered()) {
        return Err(Refusal::Range(i as u32 + 1));
    }
    Ok(())
}

// There are rates for each basin, and none is too large.
pub(crate) fn check_rates(basins: usize, rates: &[Rate]) -> Result<(), Refusal>
    requires { basins ≤ 8 }
    ensures { Found result (rate_refused basins rates.now) }
{
    check_length(basins, rates.len())?;
    if let Some(i) = rates.iter().position(|rate| rate.rise > MAX_RATE) {
        return Err(Refusal::Rate(i as u32 + 1));
    }
    if let Some(i) = rates.iter().position(|rate| rate.fall > MAX_RATE) {
        return Err(Refusal::Rate((basins + (i + 1)) as u32));
    }
    Ok(())
}

// The ends of a reading are in order and within their limits.
pub fn check_ends(low: i64, high: i64) -> Result<(), Refusal>
    ensures { Found result (ends_refused low high) }
{
    if low > high {
        return Err(Refusal::LowAboveHigh);
    }
    if low < -MAX_READING || high > MAX_READING {
        return Err(Refusal::PastMillion);
    }
    Ok(())
}

// The ends of a reading are taken, and it is of two different numbers of the zone.
pub(crate) fn check_reading(basins: usize, reading: Reading) -> Result<(), Refusal>
    ensures { Found result (reading_refused basins reading) }
{
    check_ends(reading.low, reading.high)?;
    if usize::from(reading.first) > basins || usize::from(reading.second) > basins {
        return Err(Refusal::NoBasin);
    }
    if reading.first == reading.second {
        return Err(Refusal::SameBasin);
    }
    Ok(())
}

// There is a range for each basin, and each is in order. No zone is lent with them, so the number of basins is checked too.
pub fn check_basin_ranges(basins: usize, ranges: &[Range]) -> Result<(), Refusal>
    ensures { Found result (ranges_refused basins ranges.now) }
{
    check_basins(basins)?;
    check_ranges(basins, ranges)
}

// As for ranges.
pub fn check_basin_rates(basins: usize, rates: &[Rate]) -> Result<(), Refusal>
    ensures { Found result (rates_refused basins rates.now) }
{
    check_basins(basins)?;
    check_rates(basins, rates)
}
