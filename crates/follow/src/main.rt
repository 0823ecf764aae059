// follow [FILE]: reads the plant, the steps and the readings line by line, and answers each `show`.
#![tactic(auto)]

ghost use Rattle.std.specs.Prelude.{◌≡◌, IfOk};
ghost use Rattle.follow.specs.Counted.{Once};

mod counts;
mod lines;

use console::{Console, Halt, Program};
use counts::Counts;
use std::alloc::Global;
use std::io::{Read, Write};
use std::process::ExitCode;

const USAGE: &str = "usage: follow [FILE]\n       follow --help";

const HELP: &str = "\
usage: follow [FILE]

Reads a plant, steps and readings from FILE, or from standard input, and answers
each `show` on standard output with a line as

    events 1 steps 3 readings

One entry a line; words are parted by spaces or tabs; `#` begins a comment.

    basins N                number of basins
    gauges N                number of gauges
    wrong N                 gauges that may be wrong
    range BASIN LEAST MOST  level of a basin at the start
    rate BASIN RISE FALL    most that a level rises and falls in a step
    gauge GAUGE FIRST SECOND
                            a gauge of the level of FIRST above that of SECOND,
                            or of the level of FIRST alone where SECOND is 0
    step                    a step of time
    read GAUGE LOW HIGH     a gauge says LOW to HIGH
    show                    answer now

A line that cannot be read goes to standard error as `line N: MESSAGE`, and the
next line is read. Status: 0, or 1 if a line could not be read or the program
had to stop.";

struct Follow;

impl Program for Follow {
    const NAME: &'static str = "follow";

    const USAGE: &'static str = USAGE;

    const HELP: &'static str = HELP;

    type Counts = Counts;

    type Halt = Halt;

    ghost clean = { λ c. c.refused ≡ 0 };

    fn is_clean(counts: &Counts) -> bool {
        counts.refused == 0
    }

    fn is_told(_halt: &Halt) -> bool {
        false
    }

    fn follow<R: Read + Drop, O: Write + Drop, E: Write + Drop>(
        heap: Global,
        from: R,
        console: Console<O, E>,
    ) -> Result<Counts, Halt>
        ensures { IfOk result Once }
    {
        lines::follow(heap, from, console)
    }
}

fn main(rt: HostRuntime) -> ExitCode {
    console::status(console::start::<Follow>(&rt))
}
