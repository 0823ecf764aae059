// A zone by itself: its closing, and whether it has levels.
ghost use Rattle.zones.specs.Run.{SizesHold};
ghost use Rattle.zones.specs.Says.{CloseSays, CloseSaysFar, EmptySays};

use crate::checks::check_size;
use crate::zone::Zone;
use refusal::Refusal;

// Brings a zone into the one form in which zones are kept, with the same levels.
pub fn close(basins: usize, zone: &mut [i64]) -> Result<(), Refusal>
    ensures said { CloseSays basins zone.old result zone.new }
    ensures far { CloseSaysFar basins zone.old result zone.new }
{
    check_size(basins, zone.len())?;
    let mut zone = Zone {
        basins,
        numbers: zone,
    };
    zone.close();
    Ok(())
}

// Whether a zone that is kept has no levels: the datum would be below itself.
pub fn is_empty(basins: usize, zone: &[i64]) -> Result<bool, Refusal>
    ensures { EmptySays basins zone.now result }
{
    check_size(basins, zone.len())?;
    let itself = zone[0];
    Ok(itself < 0)
}

// Over a million steps and any readings no number of a zone becomes so large that a step or a reading is not exact.
pub fn sizes_stand()
    ensures { SizesHold }
{}
