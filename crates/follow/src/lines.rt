// Lines from any input, read and answered one by one.
ghost use Rattle.std.specs.Prelude.{◌≡◌, IfOk, OnOk};
ghost use Rattle.follow.specs.Counted.{After, Noted, Once};
ghost use Rattle.console.specs.Lines.{Next};

use crate::counts::Counts;
use console::{Console, Halt, TakeLines};
use std::alloc::Global;
use std::io::{Read, Write};
use text::{Entry, Format};

// The program's state, and where it answers.
#[derive(Drop)]
struct Follower<O, E> {
    counts: Counts,
    console: Console<O, E>,
}

impl<O: Write, E: Write> TakeLines for Follower<O, E> {
    type Halt = Halt;

    ghost after = { λ n f. After n f.counts };

    // Counts one line, and prints its answer or what is wrong with it.
    fn take(&mut self, line: &[u8]) -> Result<(), Halt>
        ensures noted { Noted line.now self.old.counts self.new.counts }
        ensures next { OnOk result (Next (λ n f. After n f.counts) self.old self.new) }
    {
        let reading = text::parse_bytes(line, Format::WithoutAlarms);
        self.counts.note(&reading);
        match reading {
            Ok(Some(Entry::Show)) => {
                let answer = self.counts;
                writeln!(self.console.out, "{answer}")?;
            }
            Ok(_) => return Ok(()),
            Err(fault) => self.console.complain(self.counts.lines, fault)?,
        }
        self.console.flush()?;
        Ok(())
    }
}

// Follows the input to its end, and answers what was read: no line counts twice.
pub fn follow<R: Read + Drop, O: Write + Drop, E: Write + Drop>(
    heap: Global,
    from: R,
    console: Console<O, E>,
) -> Result<Counts, Halt>
    ensures { IfOk result Once }
{
    let mut follower = Follower {
        counts: Counts::new(),
        console,
    };
    console::take_lines(heap, from, &mut follower)?;
    Ok(follower.counts)
}

#[cfg(test)]
mod tests {
    use super::*;
    use std::process::Abort;
    use std::test::Fail;

    fn check_follow(
        rt: &(impl Abort + AllocGlobal),
        input: &[u8],
        answers: &[u8],
        faults: &[u8],
    ) -> Result<(), Fail> {
        let mut out = Vec::new(rt.alloc());
        let mut err = Vec::new(rt.alloc());
        let console = Console {
            out: &mut out,
            err: &mut err,
        };
        if follow(rt.alloc(), input, console).is_err() {
            return Err(Fail::new("halted"));
        }
        assert!(rt; out.as_slice() == answers);
        assert!(rt; err.as_slice() == faults);
        Ok(())
    }

    #[test]
    fn goes_on_after_lines_that_cannot_be_read(rt: HostRuntime) -> Result<(), Fail> {
        let input = b"step\nstepp\n\xff\nread 0 4 5\nread 0\nsh\0ow\nshow\nstep 1";
        let faults = b"line 2: 'stepp' is no entry\nline 3: a byte that is no text\n\
            line 5: the low value is missing after '0'\nline 6: a byte that is no text\n\
            line 8: '1' is one word too many\n";
        check_follow(&rt, input, b"events 1 steps 1 readings\n", faults)
    }

    #[test]
    fn takes_either_line_end(rt: HostRuntime) -> Result<(), Fail> {
        let input = b"\r\nstep # one\r\n\nshow\r\nread 3 -1 0\nstep\nshow";
        check_follow(
            &rt,
            input,
            b"events 1 steps 0 readings\nevents 2 steps 1 readings\n",
            b"",
        )
    }
}
