// The closing of a zone: the same levels, in the one form in which zones are kept.
ghost use Rattle.zones.specs.Loan.{SameLoan};
ghost use Rattle.zones.specs.Numbers.{Closes, ClosesFar, Settles, Turns, TurnsFar, ZeroDiagonal};

use crate::zone::Zone;

// Every number of a zone without levels: each number is below itself. Lent numbers have no room for another sign of it.
const BELOW_ITSELF: i64 = -1;

impl Zone<'_, i64> {
    // No number is above itself, and no level below the datum. False, and left at once, where a number is below itself. Of each
    // number the bound of the datum and the one on itself, which lie in no row or part of their own.
    fn settle(&mut self) -> bool
        ensures lent { SameLoan self.old self.new }
        ensures settled { Settles self.old.basins self.old.numbers.now result self.new.numbers.now }
    {
        for j in 0..self.basins + 1 {
            self.meet_bound(0, j, 0);
            if self.at(j, j) < 0 {
                return false;
            }
            self.meet_bound(j, j, 0);
        }
        true
    }

    // One turn through each number: no bound stays larger than the sum of two through it. False, and left at once, where a
    // number turns out to be below itself. Three nested loops over indices, left by a label: the project's form of the closing.
    fn turn_all(&mut self) -> bool
        requires { ZeroDiagonal self.old.basins self.old.numbers.now }
        ensures lent { SameLoan self.old self.new }
        ensures turned { Turns self.old.basins self.old.numbers.now result self.new.numbers.now }
        ensures far { TurnsFar self.old.basins self.old.numbers.now result self.new.numbers.now }
    {
        let width = self.basins + 1;
        let zone = &mut *self.numbers;
        'turns: {
            for k in 0..width {
                for i in 0..width {
                    let to_k = zone[i * width + k];
                    for j in 0..width {
                        let from_k = zone[k * width + j];
                        let at = i * width + j;
                        let own = zone[at];
                        let through = bounds::sum(to_k, from_k);
                        if bounds::is_sharper(through, own) {
                            zone[at] = through;
                            if i == j {
                                break 'turns false;
                            }
                        }
                    }
                }
            }
            true
        }
    }

    // In line at its few callers: as a call of its own it took longer in the benchmark, whose number of basins is known.
    #[inline(always)]
    pub(crate) fn close(&mut self)
        ensures lent { SameLoan self.old self.new }
        ensures closed { Closes self.old.basins self.old.numbers.now self.new.numbers.now }
        ensures far { ClosesFar self.old.basins self.old.numbers.now self.new.numbers.now }
    {
        if !self.settle() || !self.turn_all() {
            self.numbers.fill(BELOW_ITSELF);
        }
    }
}
