// An entry from the words of a line.
ghost use Rattle.std.specs.Prelude.{MatchResult};
ghost use Rattle.text.specs.Lines.{Names, Refuses};

use crate::entry::{Entry, Format};
use crate::error::{Field, LineError};
use crate::words::Words;

// The entry whose name has just been read.
pub fn entry(words: Words<'_>, format: Format) -> Result<Entry, LineError<'_>>
    ensures { MatchResult result (Names format words.entry) (Refuses format words.entry) }
{
    match words.last {
        "basins" => words.count(Field::Basins).map(Entry::Basins),
        "gauges" => words.count(Field::Gauges).map(Entry::Gauges),
        "wrong" => words.count(Field::Wrong).map(Entry::Wrong),
        "range" => {
            let [basin, least, most] = words.numbers([Field::Basin, Field::Least, Field::Most])?;
            Ok(Entry::Range { basin, least, most })
        }
        "rate" => {
            let [basin, rise, fall] = words.numbers([Field::Basin, Field::Rise, Field::Fall])?;
            Ok(Entry::Rate { basin, rise, fall })
        }
        "gauge" => {
            let fields = [Field::Gauge, Field::First, Field::Second];
            let [gauge, first, second] = words.numbers(fields)?;
            Ok(Entry::Gauge {
                gauge,
                first,
                second,
            })
        }
        "step" => words.end().map(|()| Entry::Step),
        "read" => {
            let [gauge, low, high] = words.numbers([Field::Gauge, Field::Low, Field::High])?;
            Ok(Entry::Read { gauge, low, high })
        }
        "show" => words.end().map(|()| Entry::Show),
        "alarm" if format == Format::WithAlarms => {
            let [basin, limit] = words.numbers([Field::Basin, Field::Limit])?;
            Ok(Entry::Alarm { basin, limit })
        }
        word => Err(LineError::Unknown { word }),
    }
}
