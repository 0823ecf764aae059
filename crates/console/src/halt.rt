// Why following ended before the input did.
ghost use Rattle.std.specs.Prelude.{◌≡◌};
ghost use Rattle.console.specs.declared.halt.Halt.TheVariants.{Writing};

use std::{fmt, io};

#[derive(Drop)]
pub enum Halt {
    Reading(io::Error),
    Writing(io::Error),
}

impl fmt::Display for Halt {
    fn fmt<W: fmt::Write>(&self, f: &mut fmt::Formatter<W>) -> fmt::Result {
        match self {
            Halt::Reading(error) => write!(f, "cannot read: {error}"),
            Halt::Writing(error) => write!(f, "cannot write: {error}"),
        }
    }
}

// Errors of reading are told by `map_err`.
impl From<io::Error> for Halt {
    ghost from_gives = { λ e r. r ≡ Writing e };

    fn from(e: io::Error) -> Halt {
        Halt::Writing(e)
    }
}
