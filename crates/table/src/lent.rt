// All zones of a table that is lent, one for each fault set. The plant, the sets and the numbers are lent one by one, by the
// rules, and go on so to the few functions below.
ghost use Rattle.std.specs.Prelude.{◌≡◌, ◌*◌, ◌<◌, length, Some, MatchResult};
ghost use Rattle.refusal.specs.Order.{Found};
ghost use Rattle.zones.specs.Checks.{meet_refused};
ghost use Rattle.plant.specs.Resolve.{placed_reading};
ghost use Rattle.table.specs.Parts.{AllChanged, Heeds, OneRefused, size, table_refused};
ghost use Rattle.table.specs.Says.{ReadSays, StartSays, StepSays};

use faults::FaultSet;
use plant::{Gauge, GaugeReading, Plant};
use refusal::Refusal;
use zones::Reading;

// A table has a zone of the plant for each set.
fn check_table(plant: &Plant, sets: &[FaultSet], table: &[i64]) -> Result<(), Refusal>
    ensures { Found result (table_refused plant.now.basins (length sets.now) (length table.now)) }
{
    if sets.len().checked_mul(plant.zone_size()) != Some(table.len()) {
        return Err(Refusal::Length(table.len() as u64));
    }
    Ok(())
}

// Changes the zone of every set: a part of the numbers, lent on to be written. The parts are ranges: after chunks_mut a proof
// knows the length of the numbers alone.
fn change_each<F: Fn(FaultSet, &mut [i64]) -> Result<(), Refusal>>(
    plant: &Plant,
    sets: &[FaultSet],
    table: &mut [i64],
    change: F,
) -> Result<(), Refusal>
    requires whole { length table.old ≡ length sets.now * size plant.now.basins }
    requires callable { F.IsAlwaysCallable change }
    ensures { MatchResult result
        (λ _. AllChanged plant.now.basins (F.post change) sets.now table.old table.new)
        (OneRefused plant.now.basins (F.post change)) }
{
    let size = plant.zone_size();
    for (place, set) in sets.iter().enumerate() {
        change(*set, &mut table[place * size..(place + 1) * size])?;
    }
    Ok(())
}

// A set that has the gauge is passed over: what it says counts for nothing there.
fn heed(
    basins: usize,
    gauge: u32,
    reading: Reading,
    set: FaultSet,
    zone: &mut [i64],
) -> Result<(), Refusal>
    ensures { MatchResult result (λ _. Heeds basins reading gauge set zone.old zone.new)
        (λ e. meet_refused basins (length zone.old) reading ≡ Some e) }
{
    if !set.contains(gauge) {
        zones::meet(basins, reading, zone)?;
    }
    Ok(())
}

// The reading with the numbers at which its gauge hangs.
fn place(gauges: &[Gauge], reading: GaugeReading) -> Reading
    requires { reading.gauge < length gauges.now }
    ensures { result ≡ placed_reading gauges.now reading }
{
    let gauge = gauges[reading.gauge as usize];
    Reading {
        first: gauge.first,
        second: gauge.second,
        low: reading.low,
        high: reading.high,
    }
}

// Makes every zone that of the levels at the start, whatever it was.
pub fn start_table(plant: &Plant, sets: &[FaultSet], table: &mut [i64]) -> Result<(), Refusal>
    ensures { StartSays plant.now sets.now table.old result table.new }
{
    check_table(plant, sets, table)?;
    change_each(plant, sets, table, |_, zone| {
        zones::set_first(plant.basins, &plant.ranges, zone)
    })
}

// A step in time of every zone.
pub fn step_table(plant: &Plant, sets: &[FaultSet], table: &mut [i64]) -> Result<(), Refusal>
    ensures { StepSays plant.now sets.now table.old result table.new }
{
    check_table(plant, sets, table)?;
    change_each(plant, sets, table, |_, zone| {
        zones::step(plant.basins, &plant.rates, zone)
    })
}

// A reading, in the zone of every set that does not have its gauge.
pub fn read_table(
    plant: &Plant,
    sets: &[FaultSet],
    reading: GaugeReading,
    table: &mut [i64],
) -> Result<(), Refusal>
    ensures { ReadSays plant.now sets.now reading table.old result table.new }
{
    check_table(plant, sets, table)?;
    plant::check_reading(plant.gauges.len() as u32, reading)?;
    let placed = place(&plant.gauges, reading);
    change_each(plant, sets, table, |set, zone| {
        heed(plant.basins, reading.gauge, placed, set, zone)
    })
}
