// What is shown of two numbers, the datum among them: a basin is the difference to the datum.
ghost use Rattle.std.specs.Prelude.{◌≡◌, ◌≤◌};
ghost use Rattle.shown.specs.Computed.{above_end, alarm_of, below_end, largest_of, span_of};

use crate::kinds::{Alarm, End, Span};
use crate::tops::largest;
use table::Observer;

// A number as an upper end.
fn above_end(number: i64) -> End
    ensures { result ≡ above_end number }
{
    if number == bounds::NONE {
        End::Open
    } else {
        End::At(number)
    }
}

// At most so much the other way is at least this.
fn below_end(number: i64) -> End
    ensures { result ≡ below_end number }
{
    if number == bounds::NONE {
        End::Open
    } else {
        End::At(0i64.saturating_sub(number))
    }
}

// What level `first` less level `second` can be.
pub(crate) fn span(observer: &Observer, first: usize, second: usize) -> Span
    requires { (first ≤ observer.now.plant.basins) × (second ≤ observer.now.plant.basins) }
    ensures { result ≡ span_of (largest_of observer.now second first) (largest_of observer.now first second) }
{
    let low = largest(observer, second, first);
    let high = largest(observer, first, second);
    match (low, high) {
        (Some(low), Some(high)) => Span::Ends(below_end(low), above_end(high)),
        _ => Span::Nothing,
    }
}

// Whether all of a span is above a limit, or some of it. An open upper end is above every limit, an open lower one above none.
pub(crate) fn alarm_of(span: Span, limit: i64) -> Alarm
    ensures { result ≡ alarm_of span limit }
{
    match span {
        Span::Nothing => Alarm::Off,
        Span::Ends(End::At(low), _) if low > limit => Alarm::Sure,
        Span::Ends(_, End::At(high)) if high <= limit => Alarm::Off,
        Span::Ends(..) => Alarm::On,
    }
}
