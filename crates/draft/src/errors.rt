// What is wrong with a line of a plant, and why there is no plant.
ghost use Rattle.std.specs.Prelude.{◌≡◌};
ghost use Rattle.draft.specs.declared.errors.PlantError.TheVariants.{Failed};
ghost use Rattle.refusal.specs.declared.failure.Failure.TheVariants.{NoMemory, Refused};

use refusal::{Failure, Refusal};
use std::alloc::AllocError;
use std::fmt;

// What one line of a plant says, named by the words that it begins with.
#[derive(Clone, Copy, PartialEq, Eq, Debug)]
pub enum Item {
    Basins,
    Gauges,
    Wrong,
    Range(i64),
    Rate(i64),
    Gauge(i64),
}

impl fmt::Display for Item {
    fn fmt<W: fmt::Write>(&self, f: &mut fmt::Formatter<W>) -> fmt::Result {
        match *self {
            Item::Basins => write!(f, "basins"),
            Item::Gauges => write!(f, "gauges"),
            Item::Wrong => write!(f, "wrong"),
            Item::Range(basin) => write!(f, "range {basin}"),
            Item::Rate(basin) => write!(f, "rate {basin}"),
            Item::Gauge(gauge) => write!(f, "gauge {gauge}"),
        }
    }
}

#[derive(Clone, Copy, PartialEq, Eq, Debug)]
pub enum DraftError {
    // a second line for the same
    Twice(Item),
    // a range or rate of a basin that no plant has
    NoBasin(i64),
    // a gauge below 0
    NoGauge(i64),
    // an event or a request
    NoItem,
}

impl fmt::Display for DraftError {
    fn fmt<W: fmt::Write>(&self, f: &mut fmt::Formatter<W>) -> fmt::Result {
        match *self {
            DraftError::Twice(item) => write!(f, "a second '{item}'"),
            DraftError::NoBasin(basin) => write!(f, "no plant has a basin {basin}"),
            DraftError::NoGauge(gauge) => write!(f, "no plant has a gauge {gauge}"),
            DraftError::NoItem => write!(f, "this says nothing of a plant"),
        }
    }
}

// A range or rate of a basin past the count: the line counts for nothing.
#[derive(Clone, Copy, PartialEq, Eq, Debug)]
pub struct Stray {
    pub line: u64,
    pub basin: u32,
}

impl fmt::Display for Stray {
    fn fmt<W: fmt::Write>(&self, f: &mut fmt::Formatter<W>) -> fmt::Result {
        let basin = self.basin;
        write!(f, "the plant has no basin {basin}")
    }
}

// Why there is no plant.
#[derive(Clone, Copy, PartialEq, Eq, Debug)]
pub enum PlantError {
    // no line for `basins`, `gauges` or `wrong`
    Missing(Item),
    // a check turned it away, or want of memory
    Failed(Failure),
}

impl From<Failure> for PlantError {
    ghost from_gives = { λ e r. r ≡ Failed e };

    fn from(e: Failure) -> PlantError {
        PlantError::Failed(e)
    }
}

impl From<Refusal> for PlantError {
    ghost from_gives = { λ e r. r ≡ Failed (Refused e) };

    fn from(e: Refusal) -> PlantError {
        PlantError::Failed(e.into())
    }
}

impl From<AllocError> for PlantError {
    ghost from_gives = { λ _ r. r ≡ Failed NoMemory };

    fn from(e: AllocError) -> PlantError {
        PlantError::Failed(e.into())
    }
}

impl fmt::Display for PlantError {
    fn fmt<W: fmt::Write>(&self, f: &mut fmt::Formatter<W>) -> fmt::Result {
        match *self {
            PlantError::Missing(item) => write!(f, "no line for '{item}'"),
            PlantError::Failed(failure) => write!(f, "{failure}"),
        }
    }
}
