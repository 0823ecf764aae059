// observe [FILE]: reads the plant, the steps and the readings line by line, and answers each request.
#![tactic(auto)]

ghost use Rattle.std.specs.Prelude.{◌≡◌, IfOk};
ghost use Rattle.observe.specs.Counted.{Once};

mod counts;
mod follower;
mod halt;
mod kinds;
mod lines;

use console::{Console, Program};
use counts::Counts;
use halt::Halt;
use std::alloc::Global;
use std::io::{Read, Write};
use std::process::ExitCode;

const USAGE: &str = "usage: observe [FILE]\n       observe --help";

const HELP: &str = "\
usage: observe [FILE]

Reads a plant, steps and readings from FILE, or from standard input, and answers
each request on standard output. `show` answers with what each level can be, then
with what the first less the second of each two basins can be, then with the
gauges that are surely wrong:

    basin 1 44 57
    basin 2 34 47
    difference 1 2 1 19
    named none

Where nothing is possible it answers `none` for all, names all gauges and adds
`no history`. `alarm` answers `off` if no possible level is above the limit, `on`
if some are, `sure` if all are.

One entry a line; words are parted by spaces or tabs; `#` begins a comment.

    basins N                number of basins
    gauges N                number of gauges
    wrong N                 gauges that may be wrong
    range BASIN LEAST MOST  level of a basin at the start
    rate BASIN RISE FALL    most that a level rises and falls in a step
    gauge GAUGE FIRST SECOND
                            a gauge of the level of FIRST above that of SECOND,
                            or of the level of FIRST alone where SECOND is 0
    step                    a step of time
    read GAUGE LOW HIGH     a gauge says LOW to HIGH
    show                    what is known now
    alarm BASIN LIMIT       whether a level is above LIMIT

The lines of the plant come once each, in any order, before the first step, read,
show or alarm. With that the plant ends, and is checked. Its basins have the numbers
from 1 on, its gauges from 0 on.

What is refused prints `refused NUMBER PLACE` on standard output. An event that
is refused changes nothing, and the next line is read; a plant that is refused
stops the program. A line that cannot be read, that comes twice or too late, or
that is of a basin past the plant goes to standard error as `line N: MESSAGE`
and changes nothing, and the next line is read. Status: 0, or 1 if there was
such a line or the program had to stop.";

struct Observe;

impl Program for Observe {
    const NAME: &'static str = "observe";

    const USAGE: &'static str = USAGE;

    const HELP: &'static str = HELP;

    type Counts = Counts;

    type Halt = Halt;

    ghost clean = { λ c. (c.errors ≡ 0) × (c.strays ≡ 0) };

    fn is_clean(counts: &Counts) -> bool {
        counts.errors == 0 && counts.strays == 0
    }

    // on standard output
    fn is_told(halt: &Halt) -> bool {
        matches!(halt, Halt::Refused)
    }

    fn follow<R: Read + Drop, O: Write + Drop, E: Write + Drop>(
        heap: Global,
        from: R,
        console: Console<O, E>,
    ) -> Result<Counts, Halt>
        ensures { IfOk result Once }
    {
        lines::follow(heap, from, console)
    }
}

fn main(rt: HostRuntime) -> ExitCode {
    console::status(console::start::<Observe>(&rt))
}
