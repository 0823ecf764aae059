// Why nothing was made.
ghost use Rattle.std.specs.Prelude.{◌≡◌, Some};
ghost use Rattle.refusal.specs.declared.failure.Failure.TheVariants.{NoMemory, Refused};
ghost use Rattle.refusal.specs.Written.{written_failure};

use crate::kinds::Refusal;
use std::alloc::AllocError;
use std::fmt;

#[derive(Clone, Copy, PartialEq, Eq, Debug)]
pub enum Failure {
    // turned away by a check
    Refused(Refusal),
    // want of memory
    NoMemory,
}

impl fmt::Display for Failure {
    ghost output = { λ e. Some (written_failure e) };

    fn fmt<W: fmt::Write>(&self, f: &mut fmt::Formatter<W>) -> fmt::Result {
        match *self {
            Failure::Refused(refusal) => write!(f, "{refusal}"),
            Failure::NoMemory => write!(f, "no memory"),
        }
    }
}

impl From<Refusal> for Failure {
    ghost from_gives = { λ e r. r ≡ Refused e };

    fn from(e: Refusal) -> Failure {
        Failure::Refused(e)
    }
}

impl From<AllocError> for Failure {
    ghost from_gives = { λ _ r. r ≡ NoMemory };

    fn from(_e: AllocError) -> Failure {
        Failure::NoMemory
    }
}
