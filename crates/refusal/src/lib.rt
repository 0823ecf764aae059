// What is turned away: one enum for the whole repository. What is refused changes nothing.
#![tactic(auto)]

ghost use Rattle.std.specs.Prelude.{◌≡◌, Some};
ghost use Rattle.refusal.specs.Number.{number_of, place_of};
ghost use Rattle.refusal.specs.Written.{written_refusal};

mod failure;
mod kinds;

pub use failure::Failure;
pub use kinds::Refusal;
use std::fmt;

impl Refusal {
    // The number by which a refusal is known to users.
    pub fn number(self) -> u8
        ensures { result ≡ number_of self }
    {
        match self {
            Refusal::Basins => 1,
            Refusal::Gauges | Refusal::Wrong => 2,
            Refusal::Length(_) => 3,
            Refusal::Rate(_) => 4,
            Refusal::ZoneNumber(_) => 5,
            Refusal::Range(_) => 6,
            Refusal::Placement(_) => 7,
            Refusal::NoGauge(_) => 8,
            Refusal::LowAboveHigh | Refusal::PastMillion => 9,
            Refusal::NoBasin | Refusal::SameBasin => 10,
            Refusal::Steps(_) => 11,
            Refusal::HistoryLength(_) => 12,
            Refusal::TooManyBlamed(_) | Refusal::BlamedPastPlant(_) => 13,
        }
    }

    // Where it was found: a length, an index, a basin, a gauge, a step or a number of gauges; else which of the two
    // conditions under the number failed.
    pub fn place(self) -> u64
        ensures { result ≡ place_of self }
    {
        match self {
            Refusal::Basins | Refusal::Gauges | Refusal::LowAboveHigh | Refusal::NoBasin => 0,
            Refusal::Wrong | Refusal::PastMillion | Refusal::SameBasin => 1,
            Refusal::Length(at) | Refusal::ZoneNumber(at) | Refusal::HistoryLength(at) => at,
            Refusal::Rate(at) | Refusal::Range(at) | Refusal::Placement(at) => u64::from(at),
            Refusal::NoGauge(at) | Refusal::Steps(at) => u64::from(at),
            Refusal::TooManyBlamed(at) | Refusal::BlamedPastPlant(at) => u64::from(at),
        }
    }
}

// As users see it.
impl fmt::Display for Refusal {
    ghost output = { λ e. Some (written_refusal e) };

    fn fmt<W: fmt::Write>(&self, f: &mut fmt::Formatter<W>) -> fmt::Result {
        write!(f, "refused {} {}", self.number(), self.place())
    }
}

#[cfg(test)]
mod tests {
    use super::*;
    use std::test::Fail;

    #[test]
    fn numbers_and_places(rt: HostRuntime) {
        let cases = [
            (Refusal::Basins, 1, 0),
            (Refusal::Gauges, 2, 0),
            (Refusal::Wrong, 2, 1),
            (Refusal::Length(5), 3, 5),
            (Refusal::Rate(12), 4, 12),
            (Refusal::ZoneNumber(80), 5, 80),
            (Refusal::Range(8), 6, 8),
            (Refusal::Placement(11), 7, 11),
            (Refusal::NoGauge(200), 8, 200),
            (Refusal::LowAboveHigh, 9, 0),
            (Refusal::PastMillion, 9, 1),
            (Refusal::NoBasin, 10, 0),
            (Refusal::SameBasin, 10, 1),
            (Refusal::Steps(1_000_001), 11, 1_000_001),
            (Refusal::HistoryLength(7), 12, 7),
            (Refusal::TooManyBlamed(3), 13, 3),
            (Refusal::BlamedPastPlant(15), 13, 15),
        ];
        for (refusal, number, place) in cases {
            assert_eq!(rt; refusal.number(), number);
            assert_eq!(rt; refusal.place(), place);
        }
    }

    #[test]
    fn words(rt: HostRuntime) -> Result<(), Fail> {
        let heap = rt.alloc();
        assert_eq!(rt; Refusal::Length(5).to_string(heap)?.as_str(), "refused 3 5");
        assert_eq!(rt;
            Failure::Refused(Refusal::Wrong).to_string(heap)?.as_str(),
            "refused 2 1"
        );
        assert_eq!(rt; Failure::NoMemory.to_string(heap)?.as_str(), "no memory");
        Ok(())
    }
}
