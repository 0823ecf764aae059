// One line after the other.
ghost use Rattle.std.specs.Prelude.{◌≡◌};
ghost use Rattle.draft.specs.Noted.{NoteSays, Turns, blank, kept, kept_basin, noted_gauge};

use crate::errors::{DraftError, Item};
use crate::kinds::{BASINS, Draft, Lined, PLACES};
use crate::numbers::{basin_index, clamp};
use plant::Gauge;
use text::Entry;
use zones::{Range, Rate};

// Keeps what is said for the first time.
fn keep<T: Copy>(place: &mut Option<T>, item: Item, value: T) -> Result<(), DraftError>
    ensures { Turns (kept item value place.old) place.old place.new result }
{
    match place {
        Some(_) => Err(DraftError::Twice(item)),
        None => {
            *place = Some(value);
            Ok(())
        }
    }
}

// The same for a basin.
fn keep_basin<T: Copy>(
    places: &mut [Option<Lined<T>>; BASINS],
    item: Item,
    basin: i64,
    said: Lined<T>,
) -> Result<(), DraftError>
    ensures { Turns (kept_basin item said basin places.old)
        places.old places.new result }
{
    let index = basin_index(basin).ok_or(DraftError::NoBasin(basin))?;
    keep(&mut places[index], item, said)
}

impl Draft {
    // Nothing is said so far.
    pub fn new() -> Draft
        ensures { result ≡ blank }
    {
        Draft {
            basins: None,
            gauges: None,
            wrong: None,
            ranges: [None; BASINS],
            rates: [None; BASINS],
            places: [None; PLACES],
            past: None,
        }
    }

    // Keeps where a gauge hangs, if it is said for the first time.
    fn note_gauge(&mut self, gauge: i64, place: Gauge) -> Result<(), DraftError>
        ensures { Turns (noted_gauge self.old gauge place) self.old self.new result }
    {
        let index = usize::try_from(gauge).map_err(|_| DraftError::NoGauge(gauge))?;
        if index < PLACES {
            return keep(&mut self.places[index], Item::Gauge(gauge), place);
        }
        let number = clamp(gauge, u32::MAX);
        let smallest = self.past.map_or(number, |past| past.min(number));
        self.past = Some(smallest);
        Ok(())
    }

    // Takes one line of the plant. One that cannot be taken changes nothing.
    pub fn note(&mut self, line: u64, entry: Entry) -> Result<(), DraftError>
        ensures { NoteSays line entry self.old self.new result }
    {
        match entry {
            Entry::Basins(count) => keep(&mut self.basins, Item::Basins, clamp(count, u32::MAX)),
            Entry::Gauges(count) => keep(&mut self.gauges, Item::Gauges, clamp(count, u32::MAX)),
            Entry::Wrong(count) => keep(&mut self.wrong, Item::Wrong, clamp(count, u32::MAX)),
            Entry::Range { basin, least, most } => {
                let value = Range {
                    least: clamp(least, u32::MAX),
                    most: clamp(most, u32::MAX),
                };
                let said = Lined { line, value };
                keep_basin(&mut self.ranges, Item::Range(basin), basin, said)
            }
            Entry::Rate { basin, rise, fall } => {
                let value = Rate {
                    rise: clamp(rise, u32::MAX),
                    fall: clamp(fall, u32::MAX),
                };
                let said = Lined { line, value };
                keep_basin(&mut self.rates, Item::Rate(basin), basin, said)
            }
            Entry::Gauge {
                gauge,
                first,
                second,
            } => {
                let first = clamp(first, u8::MAX);
                let second = clamp(second, u8::MAX);
                self.note_gauge(gauge, Gauge { first, second })
            }
            Entry::Step | Entry::Read { .. } | Entry::Show | Entry::Alarm { .. } => {
                Err(DraftError::NoItem)
            }
        }
    }
}
