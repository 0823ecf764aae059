// A step in time: each level may have risen and fallen by its rates.
ghost use Rattle.std.specs.Prelude.{◌≡◌, ◌+◌, ◌≤◌, ◌==◌, cond, length, pos, None};
ghost use Rattle.bounds.specs.Meaning.{total_sum};
ghost use Rattle.zones.specs.Change.{fall_of, rise_of, StepsFar};
ghost use Rattle.zones.specs.Checks.{rate_refused};
ghost use Rattle.zones.specs.Loan.{SameLoan};
ghost use Rattle.zones.specs.Numbers.{Widens};
ghost use Rattle.zones.specs.Says.{StepSays, StepSaysFar};

use crate::checks::{check_rates, check_size};
use crate::kinds::Rate;
use crate::numbers::of_number;
use crate::zone::Zone;
use refusal::Refusal;

// The datum stays where it is.
const DATUM: Rate = Rate { rise: 0, fall: 0 };

// What the bound of i over j becomes: between two different numbers it grows by the rise of the first and the fall of the
// second.
fn widened(rates: &[Rate], i: usize, j: usize, bound: i64) -> i64
    requires first { i ≤ length rates.now }
    requires second { j ≤ length rates.now }
    ensures { result ≡ cond (i == j) bound (total_sum bound (pos (rise_of rates.now i + fall_of rates.now j))) }
{
    if i == j {
        return bound;
    }
    let rise = of_number(rates, i, DATUM).rise;
    let fall = of_number(rates, j, DATUM).fall;
    // a sum tests its first bound, and this one is never none or below 0
    bounds::sum(i64::from(rise) + i64::from(fall), bound)
}

impl Zone<'_, i64> {
    // Each bound becomes what a step can make of it.
    fn widen(&mut self, rates: &[Rate])
        requires { length rates.now ≡ self.old.basins }
        ensures lent { SameLoan self.old self.new }
        ensures widened { Widens self.old.basins (λ i j. rise_of rates.now i + fall_of rates.now j)
            self.old.numbers.now self.new.numbers.now }
    {
        self.map(|i, j, bound| widened(rates, i, j, bound));
    }

    // Widens a zone by what each level can do, takes away the levels below 0, and closes it anew. It is closed before too: only
    // between closed bounds does a widened zone hold no more than a step can lead to.
    fn step(&mut self, rates: &[Rate])
        requires { rate_refused self.old.basins rates.now ≡ None }
        ensures lent { SameLoan self.old self.new }
        ensures far { StepsFar self.old.basins rates.now self.old.numbers.now self.new.numbers.now }
    {
        self.close();
        self.widen(rates);
        self.close();
    }
}

// Leaves the levels to which a step can lead from those of a zone.
pub fn step(basins: usize, rates: &[Rate], zone: &mut [i64]) -> Result<(), Refusal>
    ensures said { StepSays basins rates.now zone.old result zone.new }
    ensures far { StepSaysFar basins rates.now zone.old result zone.new }
{
    check_size(basins, zone.len())?;
    check_rates(basins, rates)?;
    let mut zone = Zone {
        basins,
        numbers: zone,
    };
    zone.step(rates);
    Ok(())
}
