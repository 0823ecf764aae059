// The zone table, and the observer that keeps it.
#![tactic(auto)]

mod entries;
mod lent;
mod making;
mod state;

pub use lent::{read_table, start_table, step_table};
pub use state::Observer;

// Two basins and three gauges, of which one may be wrong. Values by hand; zones are written row by row: the datum, basin 1,
// basin 2.
#[cfg(test)]
mod tests {
    use super::*;
    use faults::FaultSet;
    use plant::{Event, Gauge, GaugeReading, Plant};
    use refusal::{Failure, Refusal};
    use std::alloc::Global;
    use std::process::Abort;
    use std::test::Fail;
    use zones::{Range, Rate};

    // Every set's zone before any event.
    const START: [i64; 9] = [0, 0, 0, 100, 0, 100, 100, 100, 0];

    // Gauge 0 has said 48 to 52 of basin 1.
    const ONE: [i64; 9] = [0, -48, 0, 52, 0, 52, 100, 52, 0];

    // The sets that blame no gauge, gauge 0, gauge 1 and gauge 2.
    const NONE: FaultSet = FaultSet { bits: 0b000 };

    const BLAMED: [FaultSet; 3] = [
        FaultSet { bits: 0b001 },
        FaultSet { bits: 0b010 },
        FaultSet { bits: 0b100 },
    ];

    fn example(heap: Global) -> Result<Plant, Failure> {
        let ranges = [Range {
            least: 0,
            most: 100,
        }; 2];
        let rates = [Rate { rise: 3, fall: 2 }; 2];
        let gauges = [
            Gauge {
                first: 1,
                second: 0,
            },
            Gauge {
                first: 2,
                second: 0,
            },
            Gauge {
                first: 1,
                second: 2,
            },
        ];
        let ranges = ranges.to_vec(heap)?;
        let rates = rates.to_vec(heap)?;
        let gauges = gauges.to_vec(heap)?;
        Ok(Plant::new(2, 1, ranges, rates, gauges)?)
    }

    // One basin, at 0 at the start, and one gauge.
    fn small(heap: Global) -> Result<Plant, Failure> {
        let ranges = vec![in heap; Range { least: 0, most: 0 }; 1]?;
        let rates = vec![in heap; Rate { rise: 2, fall: 1 }; 1]?;
        let gauges = vec![in heap; Gauge {
            first: 1,
            second: 0
        }; 1]?;
        Ok(Plant::new(1, 0, ranges, rates, gauges)?)
    }

    fn says(gauge: u32, low: i64, high: i64) -> GaugeReading {
        GaugeReading { gauge, low, high }
    }

    fn reads(gauge: u32, low: i64, high: i64) -> Event {
        Event::Reading(says(gauge, low, high))
    }

    // Two basins have zones of nine numbers.
    fn check_zones(rt: &impl Abort, table: &[i64], zones: &[[i64; 9]]) {
        assert_eq!(rt; table.len(), zones.len() * 9);
        for (zone, wanted) in table.chunks_exact(9).zip(zones) {
            assert_eq!(rt; zone, wanted.as_slice());
        }
    }

    // The zones of the four sets, and what else an observer of the example has.
    fn check_state(rt: &impl Abort, observer: &Observer, steps: u32, zones: &[[i64; 9]; 4]) {
        assert_eq!(rt; (observer.steps, observer.in_play), (steps, 3));
        assert_eq!(rt; observer.sets.len(), 4);
        for (set, bits) in observer.sets.iter().zip([0, 1, 2, 4]) {
            assert_eq!(rt; set.bits, bits);
        }
        check_zones(rt, &observer.table, zones);
    }

    // The number and the place of a refusal. The tests of plant have the same: what tests share would have to be public.
    fn told(refusal: Refusal) -> (u8, u64) {
        (refusal.number(), refusal.place())
    }

    // Those by which an observer is refused.
    fn refused(made: Result<Observer, Failure>) -> Option<(u8, u64)> {
        match made {
            Err(Failure::Refused(refusal)) => Some(told(refusal)),
            Ok(_) | Err(Failure::NoMemory) => None,
        }
    }

    // Each reading counts for nothing in the set that blames its gauge, from the first on, though it could be right.
    #[test]
    fn event_by_event(rt: HostRuntime) -> Result<(), Fail> {
        let mut observer = Observer::new(rt.alloc(), example(rt.alloc())?)?;
        check_state(&rt, &observer, 0, &[START; 4]);
        observer.read(says(0, 48, 52))?;
        check_state(&rt, &observer, 0, &[ONE, START, ONE, ONE]);
        // basin 2 is 38 to 42, and basin 1 above it by 6 to 14, unless one of the two gauges is blamed
        observer.read(says(1, 38, 42))?;
        let both = [0, -48, -38, 52, 0, 14, 42, -6, 0];
        check_state(
            &rt,
            &observer,
            0,
            &[both, [0, 0, -38, 100, 0, 62, 42, 42, 0], ONE, both],
        );
        observer.read(says(2, 8, 12))?;
        check_state(
            &rt,
            &observer,
            0,
            &[
                [0, -48, -38, 52, 0, 12, 42, -8, 0],
                [0, -46, -38, 54, 0, 12, 42, -8, 0],
                [0, -48, -36, 52, 0, 12, 44, -8, 0],
                both,
            ],
        );
        observer.step()?;
        let without = [0, -44, -36, 57, 0, 17, 45, -3, 0];
        check_state(
            &rt,
            &observer,
            1,
            &[
                [0, -46, -36, 55, 0, 17, 45, -3, 0],
                without,
                [0, -46, -34, 55, 0, 17, 47, -3, 0],
                [0, -46, -36, 55, 0, 19, 45, -1, 0],
            ],
        );
        // basin 1 at 70 is left by no set but the one that blames gauge 0
        observer.read(says(0, 70, 74))?;
        check_state(&rt, &observer, 1, &[[-1; 9], without, [-1; 9], [-1; 9]]);
        Ok(())
    }

    // Nothing of the observer changes: the next events leave what they would have left without the refused ones.
    #[test]
    fn what_is_refused_changes_nothing(rt: HostRuntime) -> Result<(), Fail> {
        let mut observer = Observer::new(rt.alloc(), example(rt.alloc())?)?;
        observer.read(says(0, 48, 52))?;
        assert_eq!(rt; observer.read(says(3, 0, 1)).map_err(told), Err((8, 3)));
        assert_eq!(rt; observer.read(says(1, 43, 42)).map_err(told), Err((9, 0)));
        assert_eq!(rt;
            observer.read(says(1, 43, 1_000_001)).map_err(told),
            Err((9, 1))
        );
        assert_eq!(rt; observer.take(reads(16, 2, 1)).map_err(told), Err((8, 16)));
        check_state(&rt, &observer, 0, &[ONE, START, ONE, ONE]);
        observer.take(Event::Step)?;
        let stepped = [0, -46, 0, 55, 0, 55, 103, 57, 0];
        let widened = [0, 0, 0, 103, 0, 103, 103, 103, 0];
        check_state(&rt, &observer, 1, &[stepped, widened, stepped, stepped]);
        Ok(())
    }

    // Four of the seven are taken.
    #[test]
    fn a_list_is_taken_without_the_refused(rt: HostRuntime) -> Result<(), Fail> {
        let mut observer = Observer::new(rt.alloc(), example(rt.alloc())?)?;
        let events = [
            reads(0, 48, 52),
            reads(3, 48, 52),
            reads(1, 38, 42),
            reads(1, 42, 38),
            reads(2, 8, 12),
            Event::Step,
            reads(0, 0, 1_000_001),
        ];
        assert_eq!(rt; observer.take_all(&events), 4);
        check_state(
            &rt,
            &observer,
            1,
            &[
                [0, -46, -36, 55, 0, 17, 45, -3, 0],
                [0, -44, -36, 57, 0, 17, 45, -3, 0],
                [0, -46, -34, 55, 0, 17, 47, -3, 0],
                [0, -46, -36, 55, 0, 19, 45, -1, 0],
            ],
        );
        assert_eq!(rt; observer.take_all(&events[0..0]), 0);
        Ok(())
    }

    // A row is refused as a whole: by a gauge first, then by the ends of a reading, then by its steps.
    #[test]
    fn rows(rt: HostRuntime) -> Result<(), Fail> {
        let heap = rt.alloc();
        let mut row = vec![in heap; Event::Step; 1_000_000]?;
        let mut observer = Observer::after(heap, small(heap)?, row.as_slice())?;
        assert_eq!(rt;
            (observer.steps, observer.in_play, observer.sets.len()),
            (1_000_000, 1, 1)
        );
        assert_eq!(rt; observer.table.as_slice(), [0, 0, 2_000_000, 0].as_slice());
        assert_eq!(rt; observer.step().map_err(told), Err((11, 1_000_001)));
        assert_eq!(rt; observer.take_all(&[Event::Step, reads(0, 5, 7)]), 1);
        assert_eq!(rt; observer.steps, 1_000_000);
        assert_eq!(rt; observer.table.as_slice(), [0, -5, 7, 0].as_slice());
        row.push(Event::Step)?;
        assert_eq!(rt;
            refused(Observer::after(heap, small(heap)?, row.as_slice())),
            Some((11, 1_000_001))
        );
        row.push(reads(0, 0, 1_000_001))?;
        assert_eq!(rt;
            refused(Observer::after(heap, small(heap)?, row.as_slice())),
            Some((9, 1))
        );
        row.push(reads(1, 0, 1))?;
        assert_eq!(rt;
            refused(Observer::after(heap, small(heap)?, row.as_slice())),
            Some((8, 1))
        );
        Ok(())
    }

    // Of four sets of two basins, 36 numbers: the length is looked at before the reading.
    #[test]
    fn tables_of_another_length(rt: HostRuntime) -> Result<(), Fail> {
        let plant = example(rt.alloc())?;
        let sets = [NONE, BLAMED[0], BLAMED[1], BLAMED[2]];
        let mut short = [7; 35];
        assert_eq!(rt;
            start_table(&plant, &sets, &mut short).map_err(told),
            Err((3, 35))
        );
        assert_eq!(rt;
            step_table(&plant, &sets, &mut short).map_err(told),
            Err((3, 35))
        );
        assert_eq!(rt;
            read_table(&plant, &sets, says(3, 2, 1), &mut short).map_err(told),
            Err((3, 35))
        );
        assert_eq!(rt; short, [7; 35]);
        let mut long = [7; 45];
        assert_eq!(rt;
            start_table(&plant, &sets, &mut long).map_err(told),
            Err((3, 45))
        );
        assert_eq!(rt; long, [7; 45]);
        assert_eq!(rt;
            start_table(&plant, &sets[0..0], &mut short[0..9]).map_err(told),
            Err((3, 9))
        );
        let mut table = [7; 36];
        assert_eq!(rt;
            read_table(&plant, &sets, says(3, 2, 1), &mut table).map_err(told),
            Err((8, 3))
        );
        assert_eq!(rt;
            read_table(&plant, &sets, says(2, 2, 1), &mut table).map_err(told),
            Err((9, 0))
        );
        assert_eq!(rt; table, [7; 36]);
        Ok(())
    }

    // Any sets, in any order: gauges 0 and 2 are blamed, then gauge 1, then none.
    #[test]
    fn a_lent_table(rt: HostRuntime) -> Result<(), Fail> {
        let plant = example(rt.alloc())?;
        let sets = [FaultSet { bits: 0b101 }, BLAMED[1], NONE];
        let mut table = [7; 27];
        start_table(&plant, &sets, &mut table)?;
        check_zones(&rt, &table, &[START; 3]);
        read_table(&plant, &sets, says(1, 0, 5), &mut table)?;
        let low = [0, 0, 0, 100, 0, 100, 5, 5, 0];
        check_zones(&rt, &table, &[low, START, low]);
        read_table(&plant, &sets, says(2, 0, 0), &mut table)?;
        check_zones(
            &rt,
            &table,
            &[
                low,
                [0, 0, 0, 100, 0, 0, 100, 0, 0],
                [0, 0, 0, 5, 0, 0, 5, 0, 0],
            ],
        );
        step_table(&plant, &sets, &mut table)?;
        check_zones(
            &rt,
            &table,
            &[
                [0, 0, 0, 103, 0, 103, 8, 8, 0],
                [0, 0, 0, 103, 0, 5, 103, 5, 0],
                [0, 0, 0, 8, 0, 5, 8, 5, 0],
            ],
        );
        Ok(())
    }
}
