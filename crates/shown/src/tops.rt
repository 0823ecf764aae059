// What the zones of an observer say together.
ghost use Rattle.std.specs.Prelude.{◌≡◌, ℕ, ◌≤◌};
ghost use Rattle.std.specs.Slice.Iter.{chunks_exact_rest, chunks_exact_size};
ghost use Rattle.faults.specs.Sets.{gauge_set};
ghost use Rattle.table.specs.Parts.{size};
ghost use Rattle.shown.specs.Computed.{in_each_of, lacks_levels, largest_of, none_has_levels};

use faults::FaultSet;
use std::slice::ChunksExact;
use table::Observer;

// The zones, one for each fault set, in the order of the sets.
fn zones(observer: &Observer) -> ChunksExact<'_, i64>
    ensures rest { chunks_exact_rest result ≡ observer.now.table.items }
    ensures size { chunks_exact_size result ≡ size observer.now.plant.basins }
{
    observer
        .table
        .as_slice()
        .chunks_exact(observer.plant.zone_size())
}

// Whether a zone has no levels: the datum would be below itself. As `zones::is_empty`, where the size is known and nothing is
// refused.
fn lacks_levels(zone: &[i64]) -> bool
    ensures { result ≡ lacks_levels zone.now }
{
    zone.first().is_some_and(|itself| *itself < 0)
}

// The largest number of `first` over `second` in the zones that have levels.
pub(crate) fn largest(observer: &Observer, first: usize, second: usize) -> Option<i64>
    requires { (first ≤ observer.now.plant.basins) × (second ≤ observer.now.plant.basins) }
    ensures { result ≡ largest_of observer.now first second }
{
    let at = first * (observer.plant.basins + 1) + second;
    zones(observer)
        .filter(|zone| !lacks_levels(zone))
        .map(|zone| zone[at])
        .reduce(|best, number| best.max(number))
}

// Whether no zone has levels.
pub(crate) fn all_without(observer: &Observer) -> bool
    ensures { result ≡ none_has_levels observer.now }
{
    zones(observer).all(lacks_levels)
}

// The gauges that are in every set whose zone has levels: all gauges, where none has.
pub(crate) fn in_each(observer: &Observer) -> FaultSet
    ensures { (a : ℕ) → gauge_set result a ≡ in_each_of observer.now a }
{
    observer
        .sets
        .iter()
        .zip(zones(observer))
        .filter(|(_, zone)| !lacks_levels(zone))
        .fold(FaultSet::all(observer.in_play), |common, (set, _)| {
            common.intersect(*set)
        })
}
