// What has been read so far.
ghost use Rattle.std.specs.Prelude.{◌≡◌};
ghost use Rattle.observe.specs.Counted.{failed, lined, none, noted, strayed};

use crate::kinds::Answer;

#[derive(Clone, Copy, PartialEq, Eq, Debug)]
pub struct Counts {
    pub lines: u64,
    // lines that could not be read, or said what cannot be said there
    pub errors: u64,
    // lines of the plant that were found to count for nothing when it ended
    pub strays: u64,
}

impl Counts {
    pub fn new() -> Counts
        ensures { result ≡ none }
    {
        Counts {
            lines: 0,
            errors: 0,
            strays: 0,
        }
    }

    // Counts a line, whatever it says.
    pub fn line(&mut self)
        ensures { self.new ≡ lined self.old }
    {
        self.lines = self.lines.saturating_add(1);
    }

    // Counts a line that is no entry.
    pub fn error(&mut self)
        ensures { self.new ≡ failed self.old }
    {
        self.errors = self.errors.saturating_add(1);
    }

    // Counts lines that were found to count for nothing.
    pub fn add_strays(&mut self, strays: u64)
        ensures { self.new ≡ strayed strays self.old }
    {
        self.strays = self.strays.saturating_add(strays);
    }

    // Counts an entry by what was answered.
    pub fn note(&mut self, answer: Answer)
        ensures { self.new ≡ noted answer self.old }
    {
        match answer {
            Answer::Unfit(_) | Answer::Late => self.errors = self.errors.saturating_add(1),
            Answer::Taken | Answer::Refused(_) | Answer::NoGauge(_) => {}
            Answer::Shown | Answer::Rings(_, _, _) => {}
        }
    }
}
