// What is shown of the levels that are possible.
#![tactic(auto)]

mod answers;
mod kinds;
mod laws;
mod spans;
mod tops;
mod written;

pub use answers::{alarm, answer, answer_after, basin_span, difference_span, names};
pub use kinds::{Alarm, Answer, End, Names, Request, Span};
pub use laws::{none_sharper_stands, order_shows_same_stands, reading_only_sharpens_stands};

// Plants and events worked out by hand.
#[cfg(test)]
mod tests {
    use super::*;
    use faults::FaultSet;
    use plant::{Event, Gauge, GaugeReading, Plant};
    use refusal::Failure;
    use std::alloc::Global;
    use std::process::Abort;
    use std::test::Fail;
    use table::Observer;
    use zones::{Range, Rate};

    fn reading(gauge: u32, low: i64, high: i64) -> Event {
        Event::Reading(GaugeReading { gauge, low, high })
    }

    fn gauge(first: u8, second: u8) -> Gauge {
        Gauge { first, second }
    }

    // Basins with the same range and the same rates.
    fn plant(
        heap: Global,
        basins: u32,
        most: u32,
        rate: Rate,
        gauges: &[Gauge],
        wrong: u32,
    ) -> Result<Plant, Fail> {
        let ranges = vec![in heap; Range { least: 0, most }; basins as usize]?;
        let rates = vec![in heap; rate; basins as usize]?;
        let places = gauges.to_vec(heap)?;
        Ok(Plant::new(basins, wrong, ranges, rates, places)?)
    }

    // Two basins, 0 to 100, rise 3, fall 2; gauges at the first, at the second and at both; one may be wrong.
    fn two_basins(heap: Global) -> Result<Plant, Fail> {
        let gauges = [gauge(1, 0), gauge(2, 0), gauge(1, 2)];
        plant(heap, 2, 100, Rate { rise: 3, fall: 2 }, &gauges, 1)
    }

    // No plant has open ends.
    fn ends(low: i64, high: i64) -> Answer {
        Answer::Span(Span::Ends(End::At(low), End::At(high)))
    }

    fn check_span(
        rt: &impl Abort,
        observer: &Observer,
        request: Request,
        low: i64,
        high: i64,
    ) -> Result<(), Fail> {
        assert_eq!(rt; answer(observer, request)?, ends(low, high));
        Ok(())
    }

    fn check_names(
        rt: &impl Abort,
        observer: &Observer,
        bits: u16,
        none: bool,
    ) -> Result<(), Fail> {
        let gauges = FaultSet { bits };
        assert_eq!(rt;
            answer(observer, Request::Names)?,
            Answer::Names(Names { gauges, none })
        );
        Ok(())
    }

    fn check_alarm(
        rt: &impl Abort,
        observer: &Observer,
        basin: u32,
        limit: i64,
        wanted: Alarm,
    ) -> Result<(), Fail> {
        assert_eq!(rt;
            answer(observer, Request::Alarm(basin, limit))?,
            Answer::Alarm(wanted)
        );
        Ok(())
    }

    // The worked example, row by row: both basins, the first less the second, the named gauges.
    #[test]
    fn worked_example(rt: HostRuntime) -> Result<(), Fail> {
        let mut observer = Observer::new(rt.alloc(), two_basins(rt.alloc())?)?;
        let rows = [
            (reading(0, 48, 52), (0, 100), (0, 100), (-100, 100), 0),
            (reading(1, 38, 42), (0, 100), (0, 100), (-52, 62), 0),
            (reading(2, 8, 12), (46, 54), (36, 44), (6, 14), 0),
            (Event::Step, (44, 57), (34, 47), (1, 19), 0),
            (reading(0, 70, 74), (44, 57), (36, 45), (3, 17), 1),
            (reading(1, 39, 43), (44, 57), (39, 43), (3, 17), 1),
            (reading(2, 9, 13), (48, 56), (39, 43), (9, 13), 1),
            (Event::Step, (46, 59), (37, 46), (4, 18), 1),
            (reading(0, 20, 24), (46, 59), (37, 46), (4, 18), 1),
        ];
        for (event, one, two, difference, named) in rows {
            observer.take(event)?;
            check_span(&rt, &observer, Request::Basin(1), one.0, one.1)?;
            check_span(&rt, &observer, Request::Basin(2), two.0, two.1)?;
            check_span(
                &rt,
                &observer,
                Request::Difference(1, 2),
                difference.0,
                difference.1,
            )?;
            check_names(&rt, &observer, named, false)?;
        }
        observer.take(reading(1, 90, 94))?;
        for request in [
            Request::Basin(1),
            Request::Basin(2),
            Request::Difference(1, 2),
        ] {
            assert_eq!(rt; answer(&observer, request)?, Answer::Span(Span::Nothing));
        }
        check_names(&rt, &observer, 0b111, true)?;
        check_alarm(&rt, &observer, 1, -1, Alarm::Off)?;
        observer.take(Event::Step)?;
        check_names(&rt, &observer, 0b111, true)
    }

    // Two gauges of basin 1 froze at 50, and two may be wrong. A voter by basin believes them; but the gauge of basin 2 says 70,
    // and the one between both that the first is 20 above it, so that 90 is possible.
    #[test]
    fn frozen_gauges(rt: HostRuntime) -> Result<(), Fail> {
        let gauges = [gauge(1, 0), gauge(1, 0), gauge(2, 0), gauge(1, 2)];
        let rate = Rate { rise: 10, fall: 10 };
        let mut observer = Observer::new(rt.alloc(), plant(rt.alloc(), 2, 100, rate, &gauges, 2)?)?;
        let events = [
            reading(0, 50, 50),
            reading(1, 50, 50),
            reading(2, 70, 70),
            reading(3, 20, 20),
        ];
        assert_eq!(rt; observer.take_all(&events), 4);
        check_span(&rt, &observer, Request::Basin(1), 50, 90)?;
        check_names(&rt, &observer, 0, false)?;
        check_alarm(&rt, &observer, 1, 80, Alarm::On)?;
        check_alarm(&rt, &observer, 1, 90, Alarm::Off)
    }

    // 0 to 40, 41, and 41 to 100 of one basin, with one wrong gauge: the first is wrong, though the middle of the last is the
    // farthest from that of all three.
    #[test]
    fn the_farthest_is_not_named(rt: HostRuntime) -> Result<(), Fail> {
        let gauges = [gauge(1, 0); 3];
        let rate = Rate { rise: 0, fall: 0 };
        let mut observer = Observer::new(rt.alloc(), plant(rt.alloc(), 1, 100, rate, &gauges, 1)?)?;
        observer.take(reading(0, 0, 40))?;
        observer.take(reading(1, 41, 41))?;
        check_names(&rt, &observer, 0, false)?;
        observer.take(reading(2, 41, 100))?;
        check_names(&rt, &observer, 0b001, false)?;
        check_span(&rt, &observer, Request::Basin(1), 41, 41)
    }

    // A limit that is met is not passed.
    #[test]
    fn limits(rt: HostRuntime) -> Result<(), Fail> {
        let gauges = [gauge(1, 0)];
        let rate = Rate { rise: 1, fall: 1 };
        let mut observer = Observer::new(rt.alloc(), plant(rt.alloc(), 1, 100, rate, &gauges, 0)?)?;
        observer.take(reading(0, 40, 60))?;
        check_alarm(&rt, &observer, 1, 60, Alarm::Off)?;
        check_alarm(&rt, &observer, 1, 59, Alarm::On)?;
        check_alarm(&rt, &observer, 1, 40, Alarm::On)?;
        check_alarm(&rt, &observer, 1, 39, Alarm::Sure)?;
        check_alarm(&rt, &observer, 1, i64::MIN, Alarm::Sure)?;
        check_alarm(&rt, &observer, 1, i64::MAX, Alarm::Off)
    }

    // By its number and place.
    fn check_asked(
        rt: &impl Abort,
        heap: Global,
        events: &[Event],
        request: Request,
        by: (u8, u64),
    ) -> Result<(), Fail> {
        let plant = two_basins(heap)?;
        let Err(Failure::Refused(refusal)) = answer_after(heap, plant, events, request) else {
            return Err(Fail::new("not refused"));
        };
        assert_eq!(rt; (refusal.number(), refusal.place()), by);
        Ok(())
    }

    #[test]
    fn requests_are_refused(rt: HostRuntime) -> Result<(), Fail> {
        let heap = rt.alloc();
        let none: [Event; 0] = [];
        let requests = [
            (Request::Basin(0), 0),
            (Request::Basin(3), 0),
            (Request::Difference(1, 3), 0),
            (Request::Difference(0, 1), 0),
            (Request::Difference(0, 0), 0),
            (Request::Difference(2, 2), 1),
            (Request::Alarm(3, 5), 0),
        ];
        for (request, place) in requests {
            check_asked(&rt, heap, &none, request, (10, place))?;
        }
        Ok(())
    }

    // A row is refused by 8, then 9, then the request.
    #[test]
    fn rows_are_refused_first(rt: HostRuntime) -> Result<(), Fail> {
        let heap = rt.alloc();
        let events = [reading(0, 2, 1), Event::Step, reading(3, 0, 0)];
        check_asked(&rt, heap, &events, Request::Basin(0), (8, 3))?;
        check_asked(&rt, heap, &events[0..2], Request::Basin(0), (9, 0))?;
        check_asked(&rt, heap, &events[1..2], Request::Basin(0), (10, 0))?;
        let answer = answer_after(heap, two_basins(heap)?, &events[1..2], Request::Basin(1))?;
        assert_eq!(rt; answer, ends(0, 103));
        Ok(())
    }
}
