// The observer's state.
ghost use Rattle.std.specs.Prelude.{◌≡◌, ◌+◌, ◌*◌, ◌≤◌, vec_len};

use faults::FaultSet;
use plant::Plant;

// A set-membership observer: the plant, how many steps it has taken and how many gauges are in play, and for each fault set
// of these gauges, in order, a zone in the table. It does not grow with the events. The zones lie one behind the other in one
// list, as a table is lent. `in_play` is the number of the plant's gauges as checks take it.
#[derive(Drop)]
pub struct Observer {
    pub plant: Plant,
    pub steps: u32,
    pub in_play: u32,
    pub sets: Vec<FaultSet>,
    pub table: Vec<i64>,
    ghost counted: { steps ≤ 1000000 },
    ghost known: { in_play ≡ vec_len plant.gauges },
    ghost whole: { vec_len table ≡ vec_len sets * ((plant.basins + 1) * (plant.basins + 1)) },
}
