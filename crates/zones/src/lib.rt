// Zones of levels: difference-bound matrices in lent numbers.
//
// A zone of n basins, 1 to 8, is (n + 1) × (n + 1) numbers, row by row. The number in row i and column j is the bound on how
// far level i is above level j; number 0 is the datum, whose level is 0. `bounds::NONE` stands for no bound. What no levels
// are in is written as one pattern: -1 everywhere, so that the datum would be below itself.
#![tactic(auto)]

mod checks;
mod first;
mod kinds;
mod lent;
mod numbers;
mod readings;
mod steps;
mod turns;
mod whole;
mod zone;

pub use checks::{check_basin_ranges, check_basin_rates, check_basins, check_ends};
pub use first::set_first;
pub use kinds::{Range, Rate, Reading};
pub use lent::widen_zone;
pub use readings::meet;
pub use steps::step;
pub use whole::{close, is_empty, sizes_stand};

// Values by hand. Zones of two basins are written row by row: the datum, basin 1, basin 2.
#[cfg(test)]
mod tests {
    use super::*;
    use refusal::Refusal;
    use std::process::Abort;
    use std::test::Fail;

    const RANGES: [Range; 2] = [
        Range {
            least: 0,
            most: 100,
        },
        Range {
            least: 0,
            most: 100,
        },
    ];

    const RATES: [Rate; 2] = [Rate { rise: 3, fall: 2 }, Rate { rise: 3, fall: 2 }];

    fn reading(first: u8, second: u8, low: i64, high: i64) -> Reading {
        Reading {
            first,
            second,
            low,
            high,
        }
    }

    // Refused by this number at this place, with the zone as it was.
    fn check_refused(
        rt: &impl Abort,
        answer: Result<(), Refusal>,
        zone: [i64; 9],
        told: (u8, u64),
    ) {
        let refused = answer.map_err(|refusal| (refusal.number(), refusal.place()));
        assert_eq!(rt; refused, Err(told));
        assert_eq!(rt; zone, [7; 9]);
    }

    // Basin 2 says 38 to 42, first less second 8 to 12: basin 1 is then 46 to 54, which no gauge of its own has said. A program that
    // closes only at the start leaves it at 100.
    #[test]
    fn a_reading_sharpens_through_a_third_number(rt: HostRuntime) -> Result<(), Fail> {
        let mut zone = [7; 9];
        set_first(2, &RANGES, &mut zone)?;
        assert_eq!(rt; zone, [0, 0, 0, 100, 0, 100, 100, 100, 0]);
        meet(2, reading(2, 0, 38, 42), &mut zone)?;
        meet(2, reading(1, 2, 8, 12), &mut zone)?;
        assert_eq!(rt; zone, [0, -46, -38, 54, 0, 12, 42, -8, 0]);
        Ok(())
    }

    // The step keeps what the gauges said of the difference: 3 to 17. A program that keeps only each basin's span would say -1 to 21.
    #[test]
    fn a_step_keeps_the_difference(rt: HostRuntime) -> Result<(), Fail> {
        let mut zone = [0, -46, -38, 54, 0, 12, 42, -8, 0];
        step(2, &RATES, &mut zone)?;
        assert_eq!(rt; zone, [0, -44, -36, 57, 0, 17, 45, -3, 0]);
        Ok(())
    }

    // Basin 2 is 3 above basin 1, which is 0 to 10: so it is 3 to 13, though its own bounds say 0 to 100, and a step leads to 1
    // to 16. A program that closes only after the step says 0 to 21.
    #[test]
    fn a_step_from_bounds_that_are_not_closed(rt: HostRuntime) -> Result<(), Fail> {
        let mut zone = [0, 0, 0, 10, 0, -3, 100, 3, 0];
        step(2, &RATES, &mut zone)?;
        assert_eq!(rt; zone, [0, 0, -1, 13, 0, 2, 16, 8, 0]);
        Ok(())
    }

    // Basin 2 is at most 3, and at least 10 above basin 1: there are no levels. A program that closes only after the step finds
    // some, as 0 and 5.
    #[test]
    fn a_step_from_bounds_without_levels(rt: HostRuntime) -> Result<(), Fail> {
        let mut zone = [0, 0, 0, 5, 0, -10, 3, bounds::NONE, 0];
        step(2, &RATES, &mut zone)?;
        assert_eq!(rt; zone, [-1; 9]);
        Ok(())
    }

    // Both basins are 0 to 5 and equal; they rise by 3 and fall by 10. With levels below 0 left in, the difference would be 13.
    #[test]
    fn no_level_is_below_the_datum(rt: HostRuntime) -> Result<(), Fail> {
        let rates = [Rate { rise: 3, fall: 10 }, Rate { rise: 3, fall: 10 }];
        let mut zone = [0, 0, 0, 5, 0, 0, 5, 0, 0];
        step(2, &rates, &mut zone)?;
        assert_eq!(rt; zone, [0, 0, 0, 8, 0, 8, 8, 8, 0]);
        Ok(())
    }

    // 10 to 20 and 30 to 40 of one basin: no levels, and none after any event.
    #[test]
    fn a_contradiction_leaves_the_empty_pattern(rt: HostRuntime) -> Result<(), Fail> {
        let mut zone = [7; 9];
        set_first(2, &RANGES, &mut zone)?;
        meet(2, reading(1, 0, 10, 20), &mut zone)?;
        assert!(rt; !is_empty(2, &zone)?);
        meet(2, reading(1, 0, 30, 40), &mut zone)?;
        assert!(rt; is_empty(2, &zone)?);
        assert_eq!(rt; zone, [-1; 9]);
        step(2, &RATES, &mut zone)?;
        assert_eq!(rt; zone, [-1; 9]);
        meet(2, reading(2, 0, 0, 100), &mut zone)?;
        assert_eq!(rt; zone, [-1; 9]);
        Ok(())
    }

    // A number above itself is made 0, a level has its floor, and an open end stays open.
    #[test]
    fn closing_settles(rt: HostRuntime) -> Result<(), Fail> {
        let open = bounds::NONE;
        let mut zone = [5, 4, open, open, 3, -6, 9, open, 0];
        close(2, &mut zone)?;
        assert_eq!(rt; zone, [0, 0, -6, 3, 0, -6, 9, 9, 0]);
        let mut below = [0, 0, 0, 1, -1, 0, 1, 0, 0];
        close(2, &mut below)?;
        assert_eq!(rt; below, [-1; 9]);
        Ok(())
    }

    #[test]
    fn sizes_are_refused(rt: HostRuntime) {
        let mut zone = [7; 9];
        check_refused(&rt, close(0, &mut zone), zone, (1, 0));
        check_refused(&rt, close(9, &mut zone), zone, (1, 0));
        check_refused(&rt, close(3, &mut zone), zone, (3, 9));
        check_refused(&rt, set_first(2, &RANGES[0..1], &mut zone), zone, (3, 1));
        check_refused(&rt, step(2, &RATES[0..1], &mut zone), zone, (3, 1));
    }

    #[test]
    fn rates_and_ranges_are_refused(rt: HostRuntime) {
        let mut zone = [7; 9];
        let still = Rate { rise: 0, fall: 0 };
        let steep = Rate {
            rise: 10_001,
            fall: 10_001,
        };
        let falling = Rate {
            rise: 10_000,
            fall: 10_001,
        };
        check_refused(&rt, step(2, &[still, steep], &mut zone), zone, (4, 2));
        check_refused(&rt, step(2, &[falling, still], &mut zone), zone, (4, 3));
        let fine = Range {
            least: 0,
            most: 100_000,
        };
        let high = Range {
            least: 0,
            most: 100_001,
        };
        let crossed = Range { least: 2, most: 1 };
        check_refused(&rt, set_first(2, &[fine, crossed], &mut zone), zone, (6, 2));
        check_refused(&rt, set_first(2, &[high, fine], &mut zone), zone, (6, 1));
    }

    #[test]
    fn readings_are_refused(rt: HostRuntime) {
        let mut zone = [7; 9];
        check_refused(&rt, meet(2, reading(1, 0, 2, 1), &mut zone), zone, (9, 0));
        check_refused(
            &rt,
            meet(2, reading(1, 0, -1_000_001, 0), &mut zone),
            zone,
            (9, 1),
        );
        check_refused(
            &rt,
            meet(2, reading(1, 0, 0, 1_000_001), &mut zone),
            zone,
            (9, 1),
        );
        check_refused(&rt, meet(2, reading(3, 0, 0, 1), &mut zone), zone, (10, 0));
        check_refused(&rt, meet(2, reading(1, 1, 0, 1), &mut zone), zone, (10, 1));
    }
}
