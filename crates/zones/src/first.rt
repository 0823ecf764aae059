// The zone of the levels at the start.
ghost use Rattle.std.specs.Prelude.{◌≡◌, ◌≤◌, length};
ghost use Rattle.zones.specs.Change.{first_number};
ghost use Rattle.zones.specs.Says.{FirstSays};

use crate::checks::{check_ranges, check_size};
use crate::kinds::Range;
use crate::numbers::of_number;
use crate::zone::Zone;
use refusal::Refusal;

// The datum's level is 0.
const DATUM: Range = Range { least: 0, most: 0 };

// The most that level i is above level j at the start.
fn farthest(ranges: &[Range], i: usize, j: usize) -> i64
    requires first { i ≤ length ranges.now }
    requires second { j ≤ length ranges.now }
    ensures { result ≡ first_number ranges.now i j }
{
    if i == j {
        return 0;
    }
    let most = of_number(ranges, i, DATUM).most;
    let least = of_number(ranges, j, DATUM).least;
    i64::from(most) - i64::from(least)
}

// Makes a zone that of the levels within the ranges, whatever it was.
pub fn set_first(basins: usize, ranges: &[Range], zone: &mut [i64]) -> Result<(), Refusal>
    ensures { FirstSays basins ranges.now zone.old result zone.new }
{
    check_size(basins, zone.len())?;
    check_ranges(basins, ranges)?;
    let mut zone = Zone {
        basins,
        numbers: zone,
    };
    zone.map(|i, j, _| farthest(ranges, i, j));
    Ok(())
}
