// What is asked, and what is shown.
use faults::FaultSet;

// An end of what a level or a difference can be. By the rules what is shown is an enum of its own and no Option; it also has
// words of its own, a Display.
#[derive(Clone, Copy, PartialEq, Eq, Debug)]
pub enum End {
    At(i64),
    // as far as you like
    Open,
}

// What a level or a difference can be: an enum of its own, as an end is.
#[derive(Clone, Copy, PartialEq, Eq, Debug)]
pub enum Span {
    // no levels are possible
    Nothing,
    // the smallest and the largest
    Ends(End, End),
}

// Whether a level is above a limit.
#[derive(Clone, Copy, PartialEq, Eq, Debug)]
pub enum Alarm {
    // no possible one is
    Off,
    // some possible ones are, and some are not
    On,
    // some are possible, and all of them are
    Sure,
}

// The gauges that are wrong in all histories, and whether there is no history: both are said in both cases, so that an enum
// would hold the gauges twice.
#[derive(Clone, Copy, PartialEq, Eq, Debug)]
pub struct Names {
    pub gauges: FaultSet,
    pub none: bool,
}

#[derive(Clone, Copy, Debug)]
pub enum Request {
    // the level of a basin
    Basin(u32),
    // the level of the first basin less that of the second
    Difference(u32, u32),
    Names,
    // whether the level of a basin is above a limit
    Alarm(u32, i64),
}

#[derive(Clone, Copy, PartialEq, Eq, Debug)]
pub enum Answer {
    Span(Span),
    Names(Names),
    Alarm(Alarm),
}
