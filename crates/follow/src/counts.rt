// What has been read so far.
ghost use Rattle.std.specs.Prelude.{◌≡◌, Some};
ghost use Rattle.follow.specs.Counted.{none, noted, shown_line};

use std::fmt;
use text::{Entry, LineError};

#[derive(Clone, Copy, PartialEq, Eq, Debug)]
pub struct Counts {
    pub lines: u64,
    pub steps: u64,
    pub readings: u64,
    // lines that could not be read
    pub refused: u64,
}

impl Counts {
    pub fn new() -> Counts
        ensures { result ≡ none }
    {
        Counts {
            lines: 0,
            steps: 0,
            readings: 0,
            refused: 0,
        }
    }

    // Counts one line, as it was read.
    pub fn note(&mut self, reading: &Result<Option<Entry>, LineError<'_>>)
        ensures { self.new ≡ noted reading.now self.old }
    {
        self.lines = self.lines.saturating_add(1);
        match *reading {
            Ok(Some(Entry::Step)) => self.steps = self.steps.saturating_add(1),
            Ok(Some(Entry::Read { .. })) => self.readings = self.readings.saturating_add(1),
            Ok(_) => {}
            Err(_) => self.refused = self.refused.saturating_add(1),
        }
    }
}

// The answer to `show`.
impl fmt::Display for Counts {
    ghost output = { λ c. Some (shown_line c) };

    fn fmt<W: fmt::Write>(&self, f: &mut fmt::Formatter<W>) -> fmt::Result {
        let steps = self.steps;
        let readings = self.readings;
        write!(f, "events {steps} steps {readings} readings")
    }
}
