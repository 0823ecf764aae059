// Why a line cannot be read.
use std::fmt;

// What a number of a line stands for.
#[derive(Clone, Copy, Debug)]
pub enum Field {
    Basins,
    Gauges,
    Wrong,
    Basin,
    Least,
    Most,
    Rise,
    Fall,
    Gauge,
    First,
    Second,
    Low,
    High,
    Limit,
}

impl fmt::Display for Field {
    fn fmt<W: fmt::Write>(&self, f: &mut fmt::Formatter<W>) -> fmt::Result {
        let name = match *self {
            Field::Basins => "the number of basins",
            Field::Gauges => "the number of gauges",
            Field::Wrong => "the number of wrong gauges",
            Field::Basin => "the basin",
            Field::Least => "the least level",
            Field::Most => "the greatest level",
            Field::Rise => "the rise in a step",
            Field::Fall => "the fall in a step",
            Field::Gauge => "the gauge",
            Field::First => "the first basin",
            Field::Second => "the second basin",
            Field::Low => "the low value",
            Field::High => "the high value",
            Field::Limit => "the limit",
        };
        write!(f, "{name}")
    }
}

// The words are parts of the line.
#[derive(Clone, Copy, Debug)]
pub enum LineError<'a> {
    // a NUL, or bytes that are no UTF-8
    NotText,
    // the first word is the name of no entry
    Unknown { word: &'a str },
    // the line ends where a number is wanted
    Missing { field: Field, after: &'a str },
    // a word more than the entry takes
    Extra { word: &'a str },
    NotNumber { field: Field, word: &'a str },
    // a numeral whose number fits no i64
    TooLarge { field: Field, word: &'a str },
}

impl fmt::Display for LineError<'_> {
    fn fmt<W: fmt::Write>(&self, f: &mut fmt::Formatter<W>) -> fmt::Result {
        match *self {
            LineError::NotText => write!(f, "a byte that is no text"),
            LineError::Unknown { word } => write!(f, "'{word}' is no entry"),
            LineError::Missing { field, after } => write!(f, "{field} is missing after '{after}'"),
            LineError::Extra { word } => write!(f, "'{word}' is one word too many"),
            LineError::NotNumber { field, word } => write!(f, "{field} is no number: '{word}'"),
            LineError::TooLarge { field, word } => write!(
                f,
                "{field} does not fit 64 bits: '{word}'"
            ),
        }
    }
}
