// The lines of an input, one by one.
ghost use Rattle.std.specs.Prelude.{ℕ, OnOk};
ghost use Rattle.console.specs.Lines.{Next};

use crate::halt::Halt;
use std::alloc::Global;
use std::io::{BufRead, BufReader, Read};

// Takes lines one by one.
pub trait TakeLines {
    // Why it takes no more.
    type Halt: From<Halt>;

    // Holds after so many lines.
    ghost after: { ℕ → Self → Type 0 };

    fn take(&mut self, line: &[u8]) -> Result<(), Self::Halt>
        ensures { OnOk result (Next after self.old self.new) };
}

// Takes the lines of an input, each with its end, until it ends.
pub fn take_lines<R: Read + Drop, T: TakeLines>(
    heap: Global,
    from: R,
    taker: &mut T,
) -> Result<(), T::Halt>
    ensures { OnOk result (T.after 0 taker.old → (n : ℕ) × T.after n taker.new) }
{
    let mut input = BufReader::new(heap, from).map_err(Halt::Reading)?;
    let mut line = Vec::new(heap);
    // no input has more lines: every loop has an end
    for _turn in 0..u64::MAX {
        line.clear();
        if input.read_until(b'\n', &mut line).map_err(Halt::Reading)? == 0 {
            break;
        }
        taker.take(line.as_slice())?;
    }
    Ok(())
}
