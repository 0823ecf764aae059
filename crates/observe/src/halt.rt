// Why following ended before the input did.
use draft::PlantError;
use std::alloc::AllocError;
use std::{fmt, io};

#[derive(Drop)]
pub enum Halt {
    Console(console::Halt),
    // the plant is refused, as has been told on standard output
    Refused,
    // there is no plant
    Plant(PlantError),
}

impl fmt::Display for Halt {
    fn fmt<W: fmt::Write>(&self, f: &mut fmt::Formatter<W>) -> fmt::Result {
        match self {
            Halt::Console(e) => write!(f, "{e}"),
            Halt::Refused => write!(f, "the plant is refused"),
            Halt::Plant(e) => write!(f, "{e}"),
        }
    }
}

impl From<console::Halt> for Halt {
    fn from(e: console::Halt) -> Halt {
        Halt::Console(e)
    }
}

impl From<io::Error> for Halt {
    fn from(e: io::Error) -> Halt {
        Halt::Console(e.into())
    }
}

impl From<PlantError> for Halt {
    fn from(e: PlantError) -> Halt {
        Halt::Plant(e)
    }
}

impl From<AllocError> for Halt {
    fn from(e: AllocError) -> Halt {
        Halt::Plant(e.into())
    }
}
