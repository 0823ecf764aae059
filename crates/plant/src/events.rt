// The checks of events, one by one and in a row.
ghost use Rattle.std.specs.Prelude.{◌≡◌, nat_lt, Option};
ghost use Rattle.refusal.specs.Order.{Found, first_of};
ghost use Rattle.refusal.specs.declared.kinds.Refusal.{Refusal};
ghost use Rattle.plant.specs.declared.kinds.GaugeReading.{GaugeReading};
ghost use Rattle.plant.specs.Events.{ends_refused, gauge_refused, of_reading, reading_refused, readings_refused};
ghost use Rattle.plant.specs.Events.{step_refused, steps_in, steps_refused, AnswersBy};

use crate::kinds::{Event, GaugeReading};
use refusal::Refusal;

// No more steps are taken.
pub const MAX_STEPS: u32 = 1_000_000;

// The reading is of one of the gauges in play.
fn check_gauge(gauges: u32, reading: GaugeReading) -> Result<(), Refusal>
    ensures { Found result (gauge_refused gauges reading) }
{
    if reading.gauge >= gauges {
        return Err(Refusal::NoGauge(reading.gauge));
    }
    Ok(())
}

// Its ends are in order and within their limits.
fn check_ends(reading: GaugeReading) -> Result<(), Refusal>
    ensures { Found result (ends_refused reading) }
{
    zones::check_ends(reading.low, reading.high)
}

// A reading is taken where so many gauges are in play.
pub fn check_reading(gauges: u32, reading: GaugeReading) -> Result<(), Refusal>
    ensures { Found result (reading_refused gauges reading) }
{
    check_gauge(gauges, reading)?;
    check_ends(reading)
}

// One more step is taken after so many.
pub fn check_step(steps: u32) -> Result<(), Refusal>
    ensures { Found result (step_refused steps) }
{
    if steps >= MAX_STEPS {
        return Err(Refusal::Steps(MAX_STEPS + 1));
    }
    Ok(())
}

// The first of the readings of a row that a check refuses decides.
fn check_each<F: Fn(GaugeReading) -> Result<(), Refusal>>(
    events: &[Event],
    check: F,
) -> Result<(), Refusal>
    requires { F.IsAlwaysCallable check }
    ensures { (refused : GaugeReading → Option Refusal) → AnswersBy (F.post check) refused →
        Found result (first_of (of_reading refused) events.now) }
{
    for event in events {
        if let Event::Reading(reading) = *event {
            check(reading)?;
        }
    }
    Ok(())
}

// The readings of a row are taken where so many gauges are in play.
pub fn check_readings(gauges: u32, events: &[Event]) -> Result<(), Refusal>
    ensures { Found result (readings_refused gauges events.now) }
{
    check_each(events, |reading| check_gauge(gauges, reading))?;
    check_each(events, check_ends)
}

// Whether more steps are in a row than are taken. No event after the first step too many is looked at.
fn has_untaken_step(events: &[Event]) -> bool
    ensures { result ≡ nat_lt 1000000 (steps_in events.now) }
{
    events
        .iter()
        .filter(|event| matches!(event, Event::Step))
        .nth(MAX_STEPS as usize)
        .is_some()
}

// A row has no more steps than are taken.
pub fn check_steps(events: &[Event]) -> Result<(), Refusal>
    ensures { Found result (steps_refused events.now) }
{
    if has_untaken_step(events) {
        return Err(Refusal::Steps(MAX_STEPS + 1));
    }
    Ok(())
}
