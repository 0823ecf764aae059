// A step in time of a zone that is lent by itself, in numbers without sign: a bound is written as the bound and 1,000,001,
// and no bound as 0.
ghost use Rattle.std.specs.Prelude.{◌≡◌, ◌≤◌, length, Some, None, MatchResult};
ghost use Rattle.refusal.specs.Order.{Found};
ghost use Rattle.zones.specs.Lent.{refused, AllWithin, grown_at, smaller, Grown, FlooredBasin, FlooredAll, WidenedLent};
ghost use Rattle.zones.specs.Loan.{SameLoan};

use crate::checks::{MAX_RATE, check_length, check_size};
use crate::numbers::of_number;
use crate::zone::Zone;
use refusal::Refusal;

// The number of the largest bound that may be lent.
const MAX_NUMBER: u64 = 2_000_002;

// The numbers of no bound and of the bound 0, as they are lent from outside: a u64 has no room for an Option.
const NO_BOUND: u64 = 0;

const ZERO_BOUND: u64 = 1_000_001;

// The basins, the lengths, the rates and the numbers of a zone, in this order.
fn check_lent(basins: usize, rise: &[u64], fall: &[u64], zone: &[u64]) -> Result<(), Refusal>
    ensures { Found result (refused basins rise.now fall.now zone.now) }
{
    check_size(basins, zone.len())?;
    check_length(basins, rise.len())?;
    check_length(basins, fall.len())?;
    if let Some(i) = rise.iter().position(|rate| *rate > u64::from(MAX_RATE)) {
        return Err(Refusal::Rate(i as u32 + 1));
    }
    if let Some(i) = fall.iter().position(|rate| *rate > u64::from(MAX_RATE)) {
        return Err(Refusal::Rate((basins + (i + 1)) as u32));
    }
    if let Some(i) = zone.iter().position(|number| *number > MAX_NUMBER) {
        return Err(Refusal::ZoneNumber(i as u64));
    }
    Ok(())
}

// What the bound of i over j becomes: between two different numbers it grows by the rise of the first and the fall of the
// second, if it is one. The datum does neither.
fn grown(rise: &[u64], fall: &[u64], i: usize, j: usize, bound: u64) -> u64
    requires first { i ≤ length rise.now }
    requires second { j ≤ length fall.now }
    requires rises { AllWithin 10000 rise.now }
    requires falls { AllWithin 10000 fall.now }
    requires within { bound ≤ 2000002 }
    ensures { result ≡ grown_at rise.now fall.now i j bound }
{
    if i == j || bound == NO_BOUND {
        bound
    } else {
        bound + (of_number(rise, i, 0) + of_number(fall, j, 0))
    }
}

// The smaller of two bounds. (`bounds` has the same of other numbers, with a contract of its own.)
fn smaller_of(a: u64, b: u64) -> u64
    ensures { result ≡ smaller a b }
{
    if a == NO_BOUND {
        b
    } else if b == NO_BOUND {
        a
    } else {
        a.min(b)
    }
}

impl Zone<'_, u64> {
    // Each bound becomes what the rises and falls can make of it.
    fn grow(&mut self, rise: &[u64], fall: &[u64])
        requires rises_long { length rise.now ≡ self.old.basins }
        requires falls_long { length fall.now ≡ self.old.basins }
        requires rises { AllWithin 10000 rise.now }
        requires falls { AllWithin 10000 fall.now }
        requires numbers { AllWithin 2000002 self.old.numbers.now }
        ensures lent { SameLoan self.old self.new }
        ensures grown { Grown self.old.basins rise.now fall.now self.old.numbers.now self.new.numbers.now }
    {
        self.map(|i, j, bound| grown(rise, fall, i, j, bound));
    }

    // Where basin j could be below the datum: its lowest level is 0, and no level is above it by more than above the datum. A
    // column: its numbers do not lie side by side.
    fn floor_basin(&mut self, j: usize)
        requires some { 1 ≤ j }
        requires basin { j ≤ self.old.basins }
        ensures lent { SameLoan self.old self.new }
        ensures floored { FlooredBasin self.old.basins j self.old.numbers.now self.new.numbers.now }
    {
        let lowest = self.at(0, j);
        if lowest != NO_BOUND && lowest <= ZERO_BOUND {
            return;
        }
        for i in 1..self.basins + 1 {
            if i != j {
                let bound = smaller_of(self.at(i, j), self.at(i, 0));
                self.put(i, j, bound);
            }
        }
        self.put(0, j, ZERO_BOUND);
    }

    // Takes away the levels below the datum. A basin's column needs no other's, and the bounds on the datum stay.
    fn floor(&mut self)
        ensures lent { SameLoan self.old self.new }
        ensures floored { FlooredAll self.old.basins self.old.numbers.now self.new.numbers.now }
    {
        for j in 1..self.basins + 1 {
            self.floor_basin(j);
        }
    }
}

// A step in time: the level of each of n basins rises and falls by no more than it can, and none falls below the datum.
// What is refused leaves the zone as it was. A bound that passes 1,000,001 is written all the same, and refused if it is
// lent again. The entry is lent its numbers from outside in this form: rises and falls in a list each, and so they go on to what
// it calls.
pub fn widen_zone(n: u64, rise: &[u64], fall: &[u64], zone: &mut [u64]) -> Result<(), Refusal>
    ensures { MatchResult result
        (λ _. (refused n rise.now fall.now zone.old ≡ None)
        × WidenedLent n rise.now fall.now zone.old zone.new)
        (λ e. (refused n rise.now fall.now zone.old ≡ Some e)
        × (zone.new ≡ zone.old)) }
{
    let basins = n as usize;
    check_lent(basins, rise, fall, zone)?;
    let mut zone = Zone {
        basins,
        numbers: zone,
    };
    zone.grow(rise, fall);
    zone.floor();
    Ok(())
}

// Steps and refusals worked out by hand.
#[cfg(test)]
mod tests {
    use super::widen_zone;
    use std::test::Fail;

    // The number of the bound 0, and of none.
    const Z: u64 = 1_000_001;

    const NONE: u64 = 0;

    // The number and the place of what was refused.
    fn refused(n: u64, rise: &[u64], fall: &[u64], zone: &mut [u64]) -> Option<(u8, u64)> {
        match widen_zone(n, rise, fall, zone) {
            Ok(()) => None,
            Err(refusal) => Some((refusal.number(), refusal.place())),
        }
    }

    // 46 to 54 and 36 to 44, the first above the second by 6 to 14.
    #[test]
    fn each_bound_grows(rt: HostRuntime) -> Result<(), Fail> {
        const LENT: [u64; 9] = [Z, Z - 46, Z - 36, Z + 54, Z, Z + 14, Z + 44, Z - 6, Z];
        const LEFT: [u64; 9] = [Z, Z - 44, Z - 35, Z + 57, Z, Z + 18, Z + 48, Z, Z];
        let mut zone = LENT;
        widen_zone(2, &[3, 4], &[2, 1], &mut zone)?;
        assert_eq!(rt; zone, LEFT);
        Ok(())
    }

    // 1 to 5 and 3 to 9: the first falls to 0, so that the second is above it by no more than its own level.
    #[test]
    fn no_level_falls_below_the_datum(rt: HostRuntime) -> Result<(), Fail> {
        const LENT: [u64; 9] = [Z, Z - 1, Z - 3, Z + 5, Z, Z + 2, Z + 9, Z + 8, Z];
        const LEFT: [u64; 9] = [Z, Z, Z - 2, Z + 7, Z, Z + 5, Z + 10, Z + 10, Z];
        let mut zone = LENT;
        widen_zone(2, &[2, 1], &[4, 1], &mut zone)?;
        assert_eq!(rt; zone, LEFT);
        Ok(())
    }

    // 1 to 5, and 3 or more.
    #[test]
    fn no_bound_stays_none(rt: HostRuntime) -> Result<(), Fail> {
        const LENT: [u64; 9] = [Z, Z - 1, Z - 3, Z + 5, Z, Z + 2, NONE, NONE, Z];
        const LEFT: [u64; 9] = [Z, Z, Z - 2, Z + 7, Z, Z + 5, NONE, NONE, Z];
        let mut zone = LENT;
        widen_zone(2, &[2, 1], &[4, 1], &mut zone)?;
        assert_eq!(rt; zone, LEFT);
        Ok(())
    }

    // Not closed: the first just reaches 0, which changes no other bound; the second would fall below it.
    #[test]
    fn a_level_may_reach_the_datum(rt: HostRuntime) -> Result<(), Fail> {
        const LENT: [u64; 9] = [Z, Z - 4, Z - 1, Z + 20, Z, Z + 30, Z + 20, Z + 30, Z];
        const LEFT: [u64; 9] = [Z, Z, Z, Z + 20, Z, Z + 20, Z + 20, Z + 34, Z];
        let mut zone = LENT;
        widen_zone(2, &[0, 0], &[4, 2], &mut zone)?;
        assert_eq!(rt; zone, LEFT);
        Ok(())
    }

    // Whatever stands on the diagonal.
    #[test]
    fn a_number_on_itself_stays(rt: HostRuntime) -> Result<(), Fail> {
        let mut zone = [NONE, NONE, 7, 2_000_002];
        widen_zone(1, &[3], &[10], &mut zone)?;
        assert_eq!(rt; zone, [NONE, Z, 10, 2_000_002]);
        Ok(())
    }

    // The largest bound and the largest rates, and what comes of them lent again.
    #[test]
    fn a_bound_may_pass_the_largest(rt: HostRuntime) -> Result<(), Fail> {
        let mut zone = [Z, Z, 2_000_002, Z];
        widen_zone(1, &[10_000], &[10_000], &mut zone)?;
        assert_eq!(rt; zone, [Z, Z, 2_010_002, Z]);
        assert_eq!(rt; refused(1, &[0], &[0], &mut zone), Some((5, 2)));
        assert_eq!(rt; zone, [Z, Z, 2_010_002, Z]);
        Ok(())
    }

    #[test]
    fn basins_come_before_lengths(rt: HostRuntime) {
        let mut zone = [9_000_000; 5];
        assert_eq!(rt; refused(0, &[], &[], &mut zone), Some((1, 0)));
        assert_eq!(rt; refused(9, &[], &[], &mut zone), Some((1, 0)));
        assert_eq!(rt; refused(1, &[], &[0, 0], &mut zone), Some((3, 5)));
        assert_eq!(rt; zone, [9_000_000; 5]);
    }

    #[test]
    fn lengths_come_before_rates(rt: HostRuntime) {
        let mut zone = [9_000_000; 4];
        assert_eq!(rt; refused(1, &[], &[0, 0], &mut zone), Some((3, 0)));
        assert_eq!(rt; refused(1, &[10_001], &[0, 0], &mut zone), Some((3, 2)));
        assert_eq!(rt; zone, [9_000_000; 4]);
    }

    #[test]
    fn rates_come_before_numbers(rt: HostRuntime) {
        const LENT: [u64; 9] = [Z, Z, Z, 2_000_003, Z, Z, Z, 2_000_003, Z];
        let cases = [
            ([10_000, 10_001], [10_001, 0], (4, 2)),
            ([0, 0], [10_001, 10_001], (4, 3)),
            ([0, 0], [10_000, 10_001], (4, 4)),
            ([0, 0], [0, 0], (5, 3)),
        ];
        for (rise, fall, by) in cases {
            let mut zone = LENT;
            assert_eq!(rt; refused(2, &rise, &fall, &mut zone), Some(by));
            assert_eq!(rt; zone, LENT);
        }
    }
}
