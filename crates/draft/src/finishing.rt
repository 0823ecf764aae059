// The plant that the lines make.
ghost use Rattle.std.specs.Prelude.{◌≡◌, ◌++◌, length, take, IfOk, OnOk};
ghost use Rattle.draft.specs.Finished.{PlantSays, hung, past, past_count, past_gauge, said};

use crate::errors::{Item, PlantError, Stray};
use crate::kinds::{BASINS, Draft, Lined};
use plant::{Gauge, Plant};
use refusal::Refusal;
use std::alloc::{AllocError, Global};

// Stands for a gauge without its line: at the datum twice, so that it is refused in its turn among the checks.
const NOWHERE: Gauge = Gauge {
    first: 0,
    second: 0,
};

// What is said of the first `count`, in order.
fn collect<T: Copy>(
    heap: Global,
    places: &[Option<Lined<T>>],
    count: u32,
) -> Result<Vec<T>, AllocError>
    ensures { IfOk result (λ v. v.items ≡ said (take count places.now)) }
{
    places
        .iter()
        .take(count as usize)
        .filter_map(|place| place.map(|lined| lined.value))
        .collect(heap)
}

// Where each of the first `count` gauges hangs.
fn hang(heap: Global, places: &[Option<Gauge>], count: u32) -> Result<Vec<Gauge>, AllocError>
    ensures { IfOk result (λ v. v.items ≡ hung (take count places.now)) }
{
    places
        .iter()
        .take(count as usize)
        .map(|place| place.unwrap_or(NOWHERE))
        .collect(heap)
}

// Adds the lines of the basins past `count`.
fn add_strays<T: Copy>(
    strays: &mut Vec<Stray>,
    places: &[Option<Lined<T>>],
    count: u32,
) -> Result<(), AllocError>
    requires { length places.now ≡ 8 }
    ensures { OnOk result
        (strays.new.items ≡ strays.old.items ++ past count places.now) }
{
    let past = (1..BASINS as u32 + 1)
        .zip(places.iter())
        .skip(count as usize)
        .filter_map(|(basin, place)| place.map(|lined| Stray {
            line: lined.line,
            basin,
        }));
    strays.extend(past)
}

impl Draft {
    // The smallest gauge of which anything is said, from `count` on.
    fn past_gauge(&self, count: u32) -> Option<u32>
        ensures { result ≡ past_gauge count self.now }
    {
        self.places
            .iter()
            .skip(count as usize)
            .position(|place| place.is_some())
            .map(|further| count + further as u32)
            .or(self.past)
    }

    // The lines of ranges and then of rates that count for nothing, since their basin is past the count.
    pub fn strays(&self, heap: Global) -> Result<Vec<Stray>, AllocError>
        ensures { IfOk result (λ v. v.items ≡ past_count self.now.basins self.now) }
    {
        let mut strays = Vec::new(heap);
        if let Some(basins) = self.basins {
            add_strays(&mut strays, &self.ranges, basins)?;
            add_strays(&mut strays, &self.rates, basins)?;
        }
        Ok(strays)
    }

    // The plant that the lines make, once they are complete.
    pub fn plant(&self, heap: Global) -> Result<Plant, PlantError>
        ensures { PlantSays self.now result }
    {
        let basins = self.basins.ok_or(PlantError::Missing(Item::Basins))?;
        let gauges = self.gauges.ok_or(PlantError::Missing(Item::Gauges))?;
        let wrong = self.wrong.ok_or(PlantError::Missing(Item::Wrong))?;
        let ranges = collect(heap, &self.ranges, basins)?;
        let rates = collect(heap, &self.rates, basins)?;
        let places = hang(heap, &self.places, gauges)?;
        let plant = Plant::new(basins, wrong, ranges, rates, places)?;
        match self.past_gauge(gauges) {
            Some(gauge) => Err(Refusal::Placement(gauge).into()),
            None => Ok(plant),
        }
    }
}
