// The plant that is followed, and the events that come in.
#![tactic(auto)]

mod events;
mod kinds;
mod making;
mod whole;

pub use events::{MAX_STEPS, check_reading, check_readings, check_step, check_steps};
pub use kinds::{Event, Gauge, GaugeReading};
pub use whole::Plant;

// What is taken and what is refused, by hand.
#[cfg(test)]
mod tests {
    use super::*;
    use refusal::{Failure, Refusal};
    use std::alloc::Global;
    use std::test::Fail;
    use zones::{Range, Rate};

    // As far as the limits go.
    const HIGH: Range = Range {
        least: 100_000,
        most: 100_000,
    };

    const QUICK: Rate = Rate {
        rise: 10_000,
        fall: 10_000,
    };

    const STILL: Rate = Rate { rise: 0, fall: 0 };

    // At basin 1 alone.
    const LEVEL: Gauge = Gauge {
        first: 1,
        second: 0,
    };

    fn make(
        heap: Global,
        basins: u32,
        wrong: u32,
        ranges: &[Range],
        rates: &[Rate],
        gauges: &[Gauge],
    ) -> Result<Plant, Failure> {
        let ranges = ranges.to_vec(heap)?;
        let rates = rates.to_vec(heap)?;
        let gauges = gauges.to_vec(heap)?;
        Ok(Plant::new(basins, wrong, ranges, rates, gauges)?)
    }

    // Two basins, whose rates are tried.
    fn with_rates(heap: Global, rates: &[Rate]) -> Result<Plant, Failure> {
        make(heap, 2, 0, &[HIGH; 2], rates, &[LEVEL])
    }

    fn with_ranges(heap: Global, ranges: &[Range]) -> Result<Plant, Failure> {
        make(heap, 2, 0, ranges, &[STILL; 2], &[LEVEL])
    }

    // The last of three gauges, and the one before it, are tried.
    fn with_gauge(heap: Global, first: u8, second: u8) -> Result<Plant, Failure> {
        let tried = Gauge { first, second };
        make(heap, 2, 0, &[HIGH; 2], &[STILL; 2], &[LEVEL, tried, tried])
    }

    // The number and the place of a refusal. The tests of table have the same: what tests share would have to be public.
    fn told(refusal: Refusal) -> (u8, u64) {
        (refusal.number(), refusal.place())
    }

    // Those by which a plant is refused.
    fn refused(made: Result<Plant, Failure>) -> Option<(u8, u64)> {
        match made {
            Err(Failure::Refused(refusal)) => Some(told(refusal)),
            Ok(_) | Err(Failure::NoMemory) => None,
        }
    }

    #[test]
    fn the_limits_are_taken(rt: HostRuntime) -> Result<(), Fail> {
        let top = Gauge {
            first: 8,
            second: 7,
        };
        let large = make(rt.alloc(), 8, 2, &[HIGH; 8], &[QUICK; 8], &[top; 12])?;
        assert_eq!(rt; (large.basins, large.wrong), (8, 2));
        assert_eq!(rt;
            (large.ranges.len(), large.rates.len(), large.gauges.len()),
            (8, 8, 12)
        );
        let none = Range { least: 0, most: 0 };
        let small = make(rt.alloc(), 1, 0, &[none], &[STILL], &[LEVEL])?;
        assert_eq!(rt; (small.basins, small.wrong, small.gauges.len()), (1, 0, 1));
        Ok(())
    }

    #[test]
    fn numbers_of_basins_and_gauges(rt: HostRuntime) -> Result<(), Fail> {
        let heap = rt.alloc();
        assert_eq!(rt;
            refused(make(heap, 0, 0, &[HIGH; 0], &[STILL; 0], &[LEVEL])),
            Some((1, 0))
        );
        assert_eq!(rt;
            refused(make(heap, 9, 0, &[HIGH; 9], &[STILL; 9], &[LEVEL])),
            Some((1, 0))
        );
        assert_eq!(rt;
            refused(make(heap, 1, 0, &[HIGH], &[STILL], &[LEVEL; 0])),
            Some((2, 0))
        );
        assert_eq!(rt;
            refused(make(heap, 1, 0, &[HIGH], &[STILL], &[LEVEL; 13])),
            Some((2, 0))
        );
        assert_eq!(rt;
            refused(make(heap, 1, 3, &[HIGH], &[STILL], &[LEVEL; 12])),
            Some((2, 1))
        );
        assert_eq!(rt;
            refused(make(heap, 1, 2, &[HIGH], &[STILL], &[LEVEL; 2])),
            Some((2, 1))
        );
        Ok(())
    }

    // Of rates the rises come first, and then the falls, with the two basins added.
    #[test]
    fn rates_and_ranges(rt: HostRuntime) -> Result<(), Fail> {
        let heap = rt.alloc();
        let rises = Rate {
            rise: 10_001,
            fall: 0,
        };
        let falls = Rate {
            rise: 0,
            fall: 10_001,
        };
        assert_eq!(rt; refused(with_rates(heap, &[STILL; 1])), Some((3, 1)));
        assert_eq!(rt; refused(with_rates(heap, &[rises, rises])), Some((4, 1)));
        assert_eq!(rt; refused(with_rates(heap, &[falls, rises])), Some((4, 2)));
        assert_eq!(rt; refused(with_rates(heap, &[falls, falls])), Some((4, 3)));
        assert_eq!(rt; refused(with_rates(heap, &[QUICK, falls])), Some((4, 4)));
        let turned = Range { least: 2, most: 1 };
        let above = Range {
            least: 0,
            most: 100_001,
        };
        assert_eq!(rt; refused(with_ranges(heap, &[HIGH; 3])), Some((3, 3)));
        assert_eq!(rt; refused(with_ranges(heap, &[turned, above])), Some((6, 1)));
        assert_eq!(rt; refused(with_ranges(heap, &[HIGH, turned])), Some((6, 2)));
        assert_eq!(rt; refused(with_ranges(heap, &[HIGH, above])), Some((6, 2)));
        Ok(())
    }

    // Past the plant on either side, twice at one basin, first the datum.
    #[test]
    fn placements(rt: HostRuntime) -> Result<(), Fail> {
        let heap = rt.alloc();
        for (first, second) in [(3, 0), (1, 3), (255, 255), (2, 2), (0, 1), (0, 0)] {
            assert_eq!(rt; refused(with_gauge(heap, first, second)), Some((7, 1)));
        }
        for (first, second) in [(1, 2), (2, 1), (2, 0)] {
            assert!(rt; with_gauge(heap, first, second).is_ok());
        }
        Ok(())
    }

    // All is wrong, and then put right from the first check to the last.
    #[test]
    fn the_first_of_the_list_decides(rt: HostRuntime) -> Result<(), Fail> {
        let heap = rt.alloc();
        let ranges = [Range { least: 2, most: 1 }; 3];
        let rates = [Rate {
            rise: 10_001,
            fall: 10_001,
        }; 4];
        let gauges = [Gauge {
            first: 0,
            second: 0,
        }; 13];
        assert_eq!(rt;
            refused(make(heap, 9, 3, &ranges, &rates, &gauges)),
            Some((1, 0))
        );
        assert_eq!(rt;
            refused(make(heap, 2, 3, &ranges, &rates, &gauges)),
            Some((2, 0))
        );
        assert_eq!(rt;
            refused(make(heap, 2, 3, &ranges, &rates, &gauges[0..3])),
            Some((2, 1))
        );
        assert_eq!(rt;
            refused(make(heap, 2, 1, &ranges, &rates, &gauges[0..3])),
            Some((3, 4))
        );
        assert_eq!(rt;
            refused(make(heap, 2, 1, &ranges, &rates[0..2], &gauges[0..3])),
            Some((3, 3))
        );
        assert_eq!(rt;
            refused(make(heap, 2, 1, &ranges[0..2], &rates[0..2], &gauges[0..3])),
            Some((4, 1))
        );
        assert_eq!(rt;
            refused(make(heap, 2, 1, &ranges[0..2], &[QUICK; 2], &gauges[0..3])),
            Some((6, 1))
        );
        assert_eq!(rt;
            refused(make(heap, 2, 1, &[HIGH; 2], &[QUICK; 2], &gauges[0..3])),
            Some((7, 0))
        );
        assert!(rt; make(heap, 2, 1, &[HIGH; 2], &[QUICK; 2], &[LEVEL; 3]).is_ok());
        Ok(())
    }

    // Of three gauges.
    #[test]
    fn readings(rt: HostRuntime) -> Result<(), Fail> {
        let taken = [
            (0, -1_000_000, 1_000_000),
            (2, 1_000_000, 1_000_000),
            (1, -1_000_000, -1_000_000),
        ];
        for (gauge, low, high) in taken {
            assert!(rt; check_reading(3, GaugeReading { gauge, low, high }).is_ok());
        }
        let refused = [
            (3, 0, 1, 8, 3),
            (u32::MAX, 2_000_000, 1, 8, 4_294_967_295),
            (2, 1, 0, 9, 0),
            (2, 1_000_002, 1_000_001, 9, 0),
            (2, -1_000_001, 0, 9, 1),
            (2, 0, 1_000_001, 9, 1),
        ];
        for (gauge, low, high, number, place) in refused {
            assert_eq!(rt;
                check_reading(3, GaugeReading { gauge, low, high }).map_err(told),
                Err((number, place))
            );
        }
        Ok(())
    }

    fn reads(gauge: u32, low: i64, high: i64) -> Event {
        Event::Reading(GaugeReading { gauge, low, high })
    }

    // A gauge that is not there comes before ends that are not taken, wherever they stand; of one kind the first event.
    #[test]
    fn rows_of_readings(rt: HostRuntime) -> Result<(), Fail> {
        let turned = reads(0, 2, 1);
        let far = reads(1, 0, 1_000_001);
        let fine = reads(2, 0, 1);
        assert!(rt; check_readings(3, &[fine, Event::Step, fine]).is_ok());
        assert_eq!(rt;
            check_readings(
                3,
                &[turned, Event::Step, far, reads(4, 0, 1), reads(3, 2, 1)],
            )
            .map_err(told),
            Err((8, 4))
        );
        assert_eq!(rt;
            check_readings(3, &[fine, turned, Event::Step, far]).map_err(told),
            Err((9, 0))
        );
        assert_eq!(rt;
            check_readings(3, &[fine, far, Event::Step, turned]).map_err(told),
            Err((9, 1))
        );
        Ok(())
    }

    // The millionth is taken, the next is not.
    #[test]
    fn steps(rt: HostRuntime) -> Result<(), Fail> {
        assert!(rt; check_step(0).is_ok());
        assert!(rt; check_step(999_999).is_ok());
        assert_eq!(rt; check_step(1_000_000).map_err(told), Err((11, 1_000_001)));
        assert_eq!(rt; check_step(u32::MAX).map_err(told), Err((11, 1_000_001)));
        let mut row = vec![in rt.alloc(); Event::Step; 1_000_000]?;
        row.push(reads(9, 2, 1))?;
        assert!(rt; check_steps(row.as_slice()).is_ok());
        row.push(Event::Step)?;
        assert_eq!(rt;
            check_steps(row.as_slice()).map_err(told),
            Err((11, 1_000_001))
        );
        row.push(Event::Step)?;
        assert_eq!(rt;
            check_steps(row.as_slice()).map_err(told),
            Err((11, 1_000_001))
        );
        Ok(())
    }
}
