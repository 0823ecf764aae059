// The theorems on zones and histories, each on the contract of a function: the crate is not proved without its proof.
// What each says stands in specs/, its proof in proofs/; the functions themselves do nothing.
#![tactic(auto)]

ghost use Rattle.theory.specs.Example.{WorkedExample};
ghost use Rattle.theory.specs.Law.{Closing, First, Meeting, MeetingReading, Reached};
ghost use Rattle.theory.specs.Law.{Relaxing, Unbounded, Unique, Widening};
ghost use Rattle.theory.specs.Promise.{AllShown, AlwaysKept, LessPossible, Naming, NoHistory};
ghost use Rattle.theory.specs.Promise.{OrderFree, Sharpest, StaysSo, WrongOrBlamed};

// Each bound of a canonical zone is reached by levels of the zone.
pub fn reached_stands()
    ensures { Reached }
{}

// Where a canonical zone has no bound, its levels are as far apart as you like.
pub fn unbounded_stands()
    ensures { Unbounded }
{}

// Canonical zones with the same levels have the same bounds.
pub fn unique_stands()
    ensures { Unique }
{}

// The first zone is canonical, and has just the levels within the ranges.
pub fn first_stands()
    ensures { First }
{}

// To meet a bound takes away just the levels at which it does not hold.
pub fn meeting_stands()
    ensures { Meeting }
{}

// To meet a reading takes away just the levels at which it is wrong.
pub fn meeting_reading_stands()
    ensures { MeetingReading }
{}

// To replace a bound by the sum through a third number keeps the levels.
pub fn relaxing_stands()
    ensures { Relaxing }
{}

// After the turns through all numbers a zone is closed, or a number is below itself and there are no levels.
pub fn closing_stands()
    ensures { Closing }
{}

// A step takes the levels of a zone to just those of the widened zone.
pub fn widening_stands()
    ensures { Widening }
{}

// For every list of events and every fault set the computed zone has just the ends of the histories.
pub fn always_kept_stands()
    ensures { AlwaysKept }
{}

// What is possible by wrong gauges is possible by fault sets, and the other way round.
pub fn wrong_or_blamed_stands()
    ensures { WrongOrBlamed }
{}

// What is computed over all fault sets is the upper end over all possible levels.
pub fn all_shown_stands()
    ensures { AllShown }
{}

// No bound that holds in all possible levels is smaller than their upper end.
pub fn sharpest_stands()
    ensures { Sharpest }
{}

// A gauge is named exactly if it is wrong in all histories.
pub fn naming_stands()
    ensures { Naming }
{}

// That there is no history is said exactly if there is none.
pub fn no_history_stands()
    ensures { NoHistory }
{}

// Where nothing is possible, nothing is after any further event.
pub fn stays_so_stands()
    ensures { StaysSo }
{}

// A further reading never makes anything possible.
pub fn less_possible_stands()
    ensures { LessPossible }
{}

// Between two steps the order of readings makes no difference.
pub fn order_free_stands()
    ensures { OrderFree }
{}

// The worked example: what is possible, and who is wrong, after its events.
pub fn worked_example_stands()
    ensures { WorkedExample }
{}
