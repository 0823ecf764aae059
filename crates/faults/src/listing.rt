// The fault sets in order: by how many gauges they have, and then by value.
ghost use Rattle.std.specs.Prelude.{◌≡◌, ◌<◌, ◌≤◌, length, IfOk, MatchOption};
ghost use Rattle.std.specs.List.{HoldsAt};
ghost use Rattle.refusal.specs.Order.{Answers, Found, Makes};
ghost use Rattle.faults.specs.Limits.{refusal_of};
ghost use Rattle.faults.specs.Sets.{Common, Lists, NumberOf};
ghost use Rattle.faults.specs.Represents.{Represents};

use crate::set::FaultSet;
use refusal::{Failure, Refusal};
use std::alloc::{AllocError, Global};

// The most gauges, and the most of them that may be wrong. The listing itself is proved for 16 and 3. Both numbers are handed in
// as they come, and refused.
pub const MAX_GAUGES: u32 = 12;

pub const MAX_WRONG: u32 = 2;

// Whether so many gauges, and so many wrong ones among them, are taken.
pub fn check_limits(gauges: u32, wrong: u32) -> Result<(), Refusal>
    ensures { Found result (refusal_of gauges wrong) }
{
    if gauges < 1 || gauges > MAX_GAUGES {
        return Err(Refusal::Gauges);
    }
    if wrong > MAX_WRONG || wrong >= gauges {
        return Err(Refusal::Wrong);
    }
    Ok(())
}

// The sets of at most `wrong` of the gauges, smaller ones first, and of one size by value.
fn list(heap: Global, gauges: u32, wrong: u32) -> Result<Vec<FaultSet>, AllocError>
    requires { (gauges ≤ 16) × (wrong ≤ 3) }
    ensures { IfOk result (λ v. Lists wrong gauges v.items) }
{
    let mut sets = Vec::new(heap);
    for size in 0..wrong + 1 {
        let of_size = (0..1u32 << gauges)
            .map(|bits| FaultSet { bits: bits as u16 })
            .filter(|set| set.len() == size);
        sets.extend(of_size)?;
    }
    Ok(sets)
}

// Every set of at most `wrong` of the gauges, once, in order.
pub fn fault_sets(heap: Global, gauges: u32, wrong: u32) -> Result<Vec<FaultSet>, Failure>
    ensures listed { Makes result (refusal_of gauges wrong) (λ v. Lists wrong gauges v.items) }
    ensures represents { IfOk result (λ v. Represents wrong gauges v.items) }
{
    check_limits(gauges, wrong)?;
    Ok(list(heap, gauges, wrong)?)
}

// How many of the sets of the gauges have at most `wrong`.
fn count_sets(gauges: u32, wrong: u32) -> usize
    requires { gauges ≤ 16 }
    ensures { NumberOf wrong gauges result }
{
    (0..1u32 << gauges)
        .filter(|bits| bits.count_ones() <= wrong)
        .count()
}

// How many sets of at most `wrong` of the gauges there are.
pub fn how_many(gauges: u32, wrong: u32) -> Result<usize, Refusal>
    ensures { Answers result (refusal_of gauges wrong) (NumberOf wrong gauges) Unit }
{
    check_limits(gauges, wrong)?;
    Ok(count_sets(gauges, wrong))
}

// The set at a place of a list, if the list is so long.
pub fn set_at(sets: &[FaultSet], place: usize) -> Option<FaultSet>
    ensures { MatchOption result (length sets.now ≤ place)
        (λ s. (place < length sets.now) × HoldsAt (λ t. t ≡ s) sets.now place) }
{
    sets.get(place).copied()
}

// The gauges below `gauges` that are in all of the sets: all of them, where there is no set.
pub fn in_all(sets: &[FaultSet], gauges: u32) -> FaultSet
    ensures { Common gauges sets.now result }
{
    sets.iter().fold(FaultSet::all(gauges), |common, set| common.intersect(*set))
}

#[cfg(test)]
mod tests {
    use super::*;
    use std::test::Fail;

    // None, each alone, each two: written out by hand.
    #[test]
    fn two_of_three(rt: HostRuntime) -> Result<(), Fail> {
        let sets = fault_sets(rt.alloc(), 3, 2)?;
        let bits = [0b000, 0b001, 0b010, 0b100, 0b011, 0b101, 0b110];
        assert_eq!(rt; sets.len(), 7);
        for (set, wanted) in sets.iter().zip(bits) {
            assert_eq!(rt; set.bits, wanted);
        }
        assert_eq!(rt; set_at(sets.as_slice(), 4), Some(FaultSet { bits: 0b011 }));
        assert_eq!(rt; set_at(sets.as_slice(), 7), None);
        Ok(())
    }

    // 1 + 12 + 66, and 1 + 16 + 120 + 560, past what is taken.
    #[test]
    fn numbers_of_sets(rt: HostRuntime) -> Result<(), Fail> {
        assert_eq!(rt; fault_sets(rt.alloc(), 12, 2)?.len(), 79);
        assert_eq!(rt; how_many(12, 2).ok(), Some(79));
        assert_eq!(rt; list(rt.alloc(), 16, 3)?.len(), 697);
        assert_eq!(rt; count_sets(16, 3), 697);
        Ok(())
    }

    #[test]
    fn none_wrong(rt: HostRuntime) -> Result<(), Fail> {
        let sets = fault_sets(rt.alloc(), 12, 0)?;
        assert!(rt; sets.len() == 1);
        assert_eq!(rt; sets[0].bits, 0);
        assert_eq!(rt; how_many(1, 0).ok(), Some(1));
        Ok(())
    }

    #[test]
    fn limits(rt: HostRuntime) -> Result<(), Fail> {
        let refused = [
            (0, 0, 0),
            (13, 2, 0),
            (13, 3, 0),
            (12, 3, 1),
            (2, 2, 1),
            (1, 1, 1),
        ];
        for (gauges, wrong, place) in refused {
            let answer = how_many(gauges, wrong).map_err(|e| (e.number(), e.place()));
            assert_eq!(rt; answer, Err((2, place)));
        }
        for (gauges, wrong) in [(1, 0), (3, 2), (12, 2)] {
            assert!(rt; check_limits(gauges, wrong).is_ok());
        }
        Ok(())
    }

    #[test]
    fn gauges_of_sets(rt: HostRuntime) {
        let ends = FaultSet {
            bits: 0b1000_0000_0000_0101,
        };
        assert_eq!(rt; ends.len(), 3);
        for gauge in [0, 2, 15] {
            assert!(rt; ends.contains(gauge));
        }
        for gauge in [1, 14, 16, 32] {
            assert!(rt; !ends.contains(gauge));
        }
    }

    #[test]
    fn common_gauges(rt: HostRuntime) {
        assert_eq!(rt; FaultSet::all(3).bits, 0b111);
        assert_eq!(rt; FaultSet::all(16), FaultSet::all(17));
        let sets = [FaultSet { bits: 0b1110 }, FaultSet { bits: 0b0111 }];
        assert_eq!(rt; in_all(&sets, 12).bits, 0b0110);
        assert_eq!(rt; in_all(&sets, 2).bits, 0b0010);
        assert_eq!(rt; in_all(&sets[0..0], 12).bits, 0b1111_1111_1111);
    }
}
