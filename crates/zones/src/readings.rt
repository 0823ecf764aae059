// A reading takes away the levels at which it would be wrong.
ghost use Rattle.std.specs.Prelude.{◌≡◌, ◌+◌, ◌*◌, ◌≤◌, None, slice_set};
ghost use Rattle.std.specs.Int.{int_min};
ghost use Rattle.zones.specs.Change.{ReadsFar};
ghost use Rattle.zones.specs.Checks.{reading_refused};
ghost use Rattle.zones.specs.Loan.{SameLoan};
ghost use Rattle.zones.specs.Numbers.{cell};
ghost use Rattle.zones.specs.Says.{MeetSays, MeetSaysFar};

use crate::checks::{check_reading, check_size};
use crate::kinds::Reading;
use crate::zone::Zone;
use refusal::Refusal;

impl Zone<'_, i64> {
    // One more bound, on how far level i is above level j.
    pub(crate) fn meet_bound(&mut self, i: usize, j: usize, bound: i64)
        requires first { i ≤ self.old.basins }
        requires second { j ≤ self.old.basins }
        ensures lent { SameLoan self.old self.new }
        ensures met { self.new.numbers.now ≡ slice_set self.old.numbers.now (i * (self.old.basins + 1) + j)
            (int_min (cell self.old.basins self.old.numbers.now i j) bound) }
    {
        let own = self.at(i, j);
        self.put(i, j, bounds::sharper(own, bound));
    }

    // Meets both bounds of a reading, at least `low` one way being at most its opposite the other way, and closes the zone anew.
    fn meet(&mut self, reading: Reading)
        requires { reading_refused self.old.basins reading ≡ None }
        ensures lent { SameLoan self.old self.new }
        ensures far { ReadsFar self.old.basins reading self.old.numbers.now self.new.numbers.now }
    {
        let first = usize::from(reading.first);
        let second = usize::from(reading.second);
        self.meet_bound(first, second, reading.high);
        self.meet_bound(second, first, -reading.low);
        self.close();
    }
}

// Leaves the levels of a zone at which a reading is right.
pub fn meet(basins: usize, reading: Reading, zone: &mut [i64]) -> Result<(), Refusal>
    ensures said { MeetSays basins reading zone.old result zone.new }
    ensures far { MeetSaysFar basins reading zone.old result zone.new }
{
    check_size(basins, zone.len())?;
    check_reading(basins, reading)?;
    let mut zone = Zone {
        basins,
        numbers: zone,
    };
    zone.meet(reading);
    Ok(())
}
