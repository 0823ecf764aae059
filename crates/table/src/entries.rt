// What an observer takes, event by event. What is refused leaves it as it was.
ghost use Rattle.std.specs.Prelude.{◌≡◌};
ghost use Rattle.plant.specs.declared.kinds.Event.TheVariants as event;
ghost use Rattle.table.specs.Says.{TakeSays, TakesAll};

use crate::lent::{read_table, step_table};
use crate::state::Observer;
use plant::{Event, GaugeReading};
use refusal::Refusal;

impl Observer {
    // A step in time.
    pub fn step(&mut self) -> Result<(), Refusal>
        ensures { TakeSays event.Step self.old result self.new }
    {
        plant::check_step(self.steps)?;
        step_table(&self.plant, &self.sets, &mut self.table)?;
        self.steps += 1;
        Ok(())
    }

    // A reading of one of the gauges in play.
    pub fn read(&mut self, reading: GaugeReading) -> Result<(), Refusal>
        ensures { TakeSays (event.Reading reading) self.old result self.new }
    {
        plant::check_reading(self.in_play, reading)?;
        read_table(&self.plant, &self.sets, reading, &mut self.table)
    }

    pub fn take(&mut self, event: Event) -> Result<(), Refusal>
        ensures { TakeSays event self.old result self.new }
    {
        match event {
            Event::Step => self.step(),
            Event::Reading(reading) => self.read(reading),
        }
    }

    // Takes a whole list, event by event, and answers how many were taken.
    pub fn take_all(&mut self, events: &[Event]) -> usize
        ensures { TakesAll events.now self.old result self.new }
    {
        let mut count = 0;
        // a `filter` whose closure takes the events would be no plainer
        for event in events {
            if self.take(*event).is_ok() {
                count += 1;
            }
        }
        count
    }
}
