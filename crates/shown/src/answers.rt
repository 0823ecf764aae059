// The answers to requests: from an observer, and for a plant with a whole row of events.
ghost use Rattle.refusal.specs.Order.{Found};
ghost use Rattle.shown.specs.Says.{AlarmSays, BasinSays, DifferenceSays, NamesSay, ObservedSays, RowSays};
ghost use Rattle.shown.specs.Says.{basin_refused, pair_refused, request_refused};

use crate::kinds::{Alarm, Answer, Names, Request, Span};
use crate::spans::{alarm_of, span};
use crate::tops::{all_without, in_each};
use plant::{Event, Plant};
use refusal::{Failure, Refusal};
use std::alloc::Global;
use table::Observer;

// The datum is no basin.
fn check_basin(basins: usize, basin: u32) -> Result<(), Refusal>
    ensures { Found result (basin_refused basins basin) }
{
    if basin < 1 || basin as usize > basins {
        return Err(Refusal::NoBasin);
    }
    Ok(())
}

// Two different basins of the plant.
fn check_pair(basins: usize, first: u32, second: u32) -> Result<(), Refusal>
    ensures { Found result (pair_refused basins first second) }
{
    check_basin(basins, first)?;
    check_basin(basins, second)?;
    if first == second {
        return Err(Refusal::SameBasin);
    }
    Ok(())
}

// A request is of basins of the plant, and of two different ones.
fn check_request(basins: usize, request: Request) -> Result<(), Refusal>
    ensures { Found result (request_refused basins request) }
{
    match request {
        Request::Basin(basin) => check_basin(basins, basin),
        Request::Difference(first, second) => check_pair(basins, first, second),
        Request::Names => Ok(()),
        Request::Alarm(basin, _) => check_basin(basins, basin),
    }
}

// What the level of a basin can be.
pub fn basin_span(observer: &Observer, basin: u32) -> Result<Span, Refusal>
    ensures { BasinSays observer.now basin result }
{
    check_basin(observer.plant.basins, basin)?;
    Ok(span(observer, basin as usize, 0))
}

// What the level of the first basin less that of the second can be.
pub fn difference_span(observer: &Observer, first: u32, second: u32) -> Result<Span, Refusal>
    ensures { DifferenceSays observer.now first second result }
{
    check_pair(observer.plant.basins, first, second)?;
    Ok(span(observer, first as usize, second as usize))
}

// Whether the level of a basin is above a limit.
pub fn alarm(observer: &Observer, basin: u32, limit: i64) -> Result<Alarm, Refusal>
    ensures { AlarmSays observer.now basin limit result }
{
    check_basin(observer.plant.basins, basin)?;
    Ok(alarm_of(span(observer, basin as usize, 0), limit))
}

// The gauges that are wrong in all histories, and whether there is no history.
pub fn names(observer: &Observer) -> Names
    ensures { NamesSay observer.now result }
{
    Names {
        gauges: in_each(observer),
        none: all_without(observer),
    }
}

// What an observer shows.
pub fn answer(observer: &Observer, request: Request) -> Result<Answer, Refusal>
    ensures { ObservedSays observer.now request result }
{
    match request {
        Request::Basin(basin) => basin_span(observer, basin).map(Answer::Span),
        Request::Difference(first, second) => {
            difference_span(observer, first, second).map(Answer::Span)
        }
        Request::Names => Ok(Answer::Names(names(observer))),
        Request::Alarm(basin, limit) => alarm(observer, basin, limit).map(Answer::Alarm),
    }
}

// What is shown for a plant after a whole row of events. This is the promise of the whole: its contract speaks of the plant,
// the events, levels and wrong gauges alone.
pub fn answer_after(
    heap: Global,
    plant: Plant,
    events: &[Event],
    request: Request,
) -> Result<Answer, Failure>
    ensures { RowSays plant events.now request result }
{
    plant::check_readings(plant.gauges.len() as u32, events)?;
    check_request(plant.basins, request)?;
    let observer = Observer::after(heap, plant, events)?;
    Ok(answer(&observer, request)?)
}
