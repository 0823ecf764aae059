// An observer is made of a plant, before any event or after a whole row of them.
ghost use Rattle.table.specs.Says.{AfterSays, NewSays};

use crate::lent::start_table;
use crate::state::Observer;
use plant::{Event, Plant};
use refusal::Failure;
use std::alloc::Global;

impl Observer {
    // All levels within the plant's ranges are possible, whichever gauges are wrong.
    pub fn new(heap: Global, plant: Plant) -> Result<Observer, Failure>
        ensures { NewSays plant result }
    {
        let in_play = plant.gauges.len() as u32;
        let sets = faults::fault_sets(heap, in_play, plant.wrong)?;
        let length = sets
            .len()
            .checked_mul(plant.zone_size())
            .ok_or(Failure::NoMemory)?;
        let mut table = vec![in heap; 0; length]?;
        start_table(&plant, &sets, &mut table)?;
        Ok(Observer {
            plant,
            steps: 0,
            in_play,
            sets,
            table,
        })
    }

    // The observer of a plant after a whole row of events, if no check refuses the row.
    pub fn after(heap: Global, plant: Plant, events: &[Event]) -> Result<Observer, Failure>
        ensures { AfterSays plant events.now result }
    {
        plant::check_readings(plant.gauges.len() as u32, events)?;
        plant::check_steps(events)?;
        let mut observer = Observer::new(heap, plant)?;
        observer.take_all(events);
        Ok(observer)
    }
}
