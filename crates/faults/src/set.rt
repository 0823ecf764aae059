// A set of gauges that a history may take to be wrong.
ghost use Rattle.std.specs.Prelude.{◌≡◌, ℕ, ◌&&◌, count_ones, nat_lt};
ghost use Rattle.theory.specs.History.{count};
ghost use Rattle.faults.specs.Sets.{gauge_set};

// Bit a says whether gauge a is in the set: every number is a set. A set is the bits of a u16 by the rules, and takes no memory.
#[derive(Clone, Copy, PartialEq, Eq, Debug)]
pub struct FaultSet {
    pub bits: u16,
}

impl FaultSet {
    // The gauges below `gauges`, of the 16 that there can be.
    pub fn all(gauges: u32) -> FaultSet
        ensures { (a : ℕ) → gauge_set result a ≡ (nat_lt a gauges && nat_lt a 16) }
    {
        if gauges < u16::BITS {
            FaultSet {
                bits: (1 << gauges) - 1,
            }
        } else {
            FaultSet { bits: u16::MAX }
        }
    }

    // How many gauges are in it.
    pub fn len(self) -> u32
        ensures value { result ≡ count_ones self.bits }
        ensures gauges { result ≡ count 16 (gauge_set self) }
    {
        self.bits.count_ones()
    }

    // Whether the gauge is in it.
    pub fn contains(self, gauge: u32) -> bool
        ensures { result ≡ gauge_set self gauge }
    {
        gauge < u16::BITS && self.bits >> gauge & 1 == 1
    }

    // The gauges that are in both.
    pub fn intersect(self, other: FaultSet) -> FaultSet
        ensures { (a : ℕ) → gauge_set result a ≡ (gauge_set self a && gauge_set other a) }
    {
        FaultSet {
            bits: self.bits & other.bits,
        }
    }
}
