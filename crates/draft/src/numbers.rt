// Numbers of a line as a plant has them.
ghost use Rattle.std.specs.Prelude.{◌≡◌, ◌<◌, MatchOption, Result};
ghost use Rattle.draft.specs.Numbers.{basin_index};
ghost use Rattle.std.specs.Result.{result_unwrap_or};

use crate::kinds::BASINS;

// The number itself, or the largest where it fits none.
pub(crate) fn clamp<T: TryFrom<i64> + Drop>(number: i64, largest: T) -> T
where
    T::Error: Drop,
    ensures { (r : Result T T.Error) × T.try_from_gives number r × (result ≡ result_unwrap_or r largest) }
{
    T::try_from(number).unwrap_or(largest)
}

// The index of a basin that a plant can have.
pub(crate) fn basin_index(basin: i64) -> Option<usize>
    ensures value { result ≡ basin_index basin }
    ensures below { MatchOption result Unit (λ i. i < 8) }
{
    let index = usize::try_from(basin).ok()?.checked_sub(1)?;
    (index < BASINS).then_some(index)
}
