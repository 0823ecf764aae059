// What one line says.
ghost use Rattle.std.specs.Prelude.{Some};
ghost use Rattle.text.specs.Spelling.{written};

use std::fmt;

// Which entries a line may be.
#[derive(Clone, Copy, PartialEq, Eq, Debug)]
pub enum Format {
    // all but alarms
    WithoutAlarms,
    // all
    WithAlarms,
}

#[derive(Clone, Copy, PartialEq, Eq, Debug)]
pub enum Entry {
    Basins(i64),
    Gauges(i64),
    Wrong(i64),
    Range { basin: i64, least: i64, most: i64 },
    Rate { basin: i64, rise: i64, fall: i64 },
    Gauge { gauge: i64, first: i64, second: i64 },
    Step,
    Read { gauge: i64, low: i64, high: i64 },
    Show,
    Alarm { basin: i64, limit: i64 },
}

impl fmt::Display for Entry {
    ghost output = { λ e. Some (written e) };

    fn fmt<W: fmt::Write>(&self, f: &mut fmt::Formatter<W>) -> fmt::Result {
        match *self {
            Entry::Basins(count) => write!(f, "basins {count}"),
            Entry::Gauges(count) => write!(f, "gauges {count}"),
            Entry::Wrong(count) => write!(f, "wrong {count}"),
            Entry::Range { basin, least, most } => write!(f, "range {basin} {least} {most}"),
            Entry::Rate { basin, rise, fall } => write!(f, "rate {basin} {rise} {fall}"),
            Entry::Gauge {
                gauge,
                first,
                second,
            } => write!(f, "gauge {gauge} {first} {second}"),
            Entry::Step => write!(f, "step"),
            Entry::Read { gauge, low, high } => write!(f, "read {gauge} {low} {high}"),
            Entry::Show => write!(f, "show"),
            Entry::Alarm { basin, limit } => write!(f, "alarm {basin} {limit}"),
        }
    }
}
