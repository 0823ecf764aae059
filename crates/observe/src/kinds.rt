// Where the program is, and what it answers to one entry.
use draft::{Draft, DraftError};
use refusal::Refusal;
use shown::Alarm;
use table::Observer;

// The plant ends with the first event or request, or with the input.
#[derive(Drop)]
pub enum Stage {
    // the plant's lines so far
    Drafting(Draft),
    Following(Observer),
}

#[derive(Clone, Copy)]
pub enum Answer {
    // nothing is printed
    Taken,
    // an event is refused
    Refused(Refusal),
    // a reading is refused, of a gauge that fits no u32
    NoGauge(i64),
    // what is known is shown
    Shown,
    // whether the level of a basin is above a limit
    Rings(i64, i64, Alarm),
    // a line of the plant cannot be taken
    Unfit(DraftError),
    // a line of the plant comes after its end
    Late,
}
