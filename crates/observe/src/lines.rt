// Lines from any input, read and answered one by one.
ghost use Rattle.std.specs.Prelude.{◌≡◌, true, IfOk, OnOk};
ghost use Rattle.observe.specs.Counted.{After, Once};
ghost use Rattle.console.specs.Lines.{Next};
ghost use Rattle.observe.specs.Followed.{Entered, LineSays, Ready};

use crate::counts::Counts;
use crate::follower::{Follower, ends_plant};
use crate::halt::Halt;
use crate::kinds::{Answer, Stage};
use console::{Console, TakeLines};
use draft::{PlantError, Stray};
use refusal::{Failure, Refusal};
use shown::Span;
use std::alloc::Global;
use std::io::{Read, Write};
use std::{fmt, io};
use table::Observer;
use text::{Entry, Format};

// What a basin or a difference can be.
fn tell_span<O: Write, D: fmt::Display + Drop>(
    of: D,
    span: Result<Span, Refusal>,
    out: &mut O,
) -> io::Result<()> {
    match span {
        Ok(span) => writeln!(out, "{of} {span}"),
        Err(refusal) => writeln!(out, "{refusal}"),
    }
}

// The answer to `show`: every basin, every two, the gauges that are surely wrong.
fn show<O: Write>(observer: &Observer, out: &mut O) -> io::Result<()> {
    let end = observer.plant.basins as u32 + 1;
    for basin in 1..end {
        let span = shown::basin_span(observer, basin);
        tell_span(format_args!("basin {basin}"), span, out)?;
    }
    for first in 1..end {
        for second in first + 1..end {
            let span = shown::difference_span(observer, first, second);
            tell_span(format_args!("difference {first} {second}"), span, out)?;
        }
    }
    let names = shown::names(observer);
    writeln!(out, "named {names}")?;
    if names.none {
        writeln!(out, "no history")?;
    }
    Ok(())
}

// Lines of the plant that count for nothing.
fn tell_strays<O: Write, E: Write>(
    strays: &[Stray],
    console: &mut Console<O, E>,
) -> io::Result<()> {
    for stray in strays {
        console.complain(stray.line, *stray)?;
    }
    console.flush()
}

// The program's state, and where it answers: refusals and what is shown on `out`, what is wrong with a line on `err`.
#[derive(Drop)]
struct Session<O, E> {
    follower: Follower,
    heap: Global,
    console: Console<O, E>,
}

impl<O: Write, E: Write> Session<O, E> {
    // The answer to an entry.
    fn tell(&mut self, answer: Answer) -> io::Result<()>
        ensures { self.new.follower ≡ self.old.follower }
    {
        let line = self.follower.counts.lines;
        let out = &mut self.console.out;
        match answer {
            Answer::Taken => return Ok(()),
            Answer::Refused(refusal) => writeln!(out, "{refusal}")?,
            // as Refusal::NoGauge, whose place is a u32
            Answer::NoGauge(gauge) => writeln!(out, "refused 8 {gauge}")?,
            Answer::Shown => {
                // the plant has always ended then
                if let Stage::Following(observer) = &self.follower.stage {
                    show(observer, out)?;
                }
            }
            Answer::Rings(basin, limit, alarm) => writeln!(out, "alarm {basin} {limit} {alarm}")?,
            Answer::Unfit(error) => self.console.complain(line, error)?,
            Answer::Late => self.console.complain(line, "the plant has ended")?,
        }
        self.console.flush()
    }

    // Ends the plant, if it has not ended, and tells what is wrong with it.
    fn begin(&mut self) -> Result<(), Halt>
        ensures { OnOk result (Ready true self.old.follower self.new.follower) }
    {
        let strays = self.follower.strays(self.heap)?;
        tell_strays(&strays, &mut self.console)?;
        self.follower.counts.add_strays(strays.len() as u64);
        match self.follower.begin(self.heap) {
            Err(PlantError::Failed(Failure::Refused(refusal))) => {
                writeln!(self.console.out, "{refusal}")?;
                self.console.flush()?;
                Err(Halt::Refused)
            }
            begun => Ok(begun?),
        }
    }

    // Takes one entry, and prints its answer.
    fn enter(&mut self, entry: Entry) -> Result<(), Halt>
        ensures { OnOk result (Entered entry self.old.follower self.new.follower) }
    {
        if ends_plant(entry) {
            self.begin()?;
        }
        let answer = self.follower.enter(entry);
        self.tell(answer)?;
        Ok(())
    }
}

impl<O: Write, E: Write> TakeLines for Session<O, E> {
    type Halt = Halt;

    ghost after = { λ n s. After n s.follower.counts };

    // Takes one line, and prints its answer or what is wrong with it.
    fn take(&mut self, line: &[u8]) -> Result<(), Halt>
        ensures says { OnOk result (LineSays line.now self.old.follower self.new.follower) }
        ensures next { OnOk result (Next (λ n s. After n s.follower.counts) self.old self.new) }
    {
        self.follower.counts.line();
        match text::parse_bytes(line, Format::WithAlarms) {
            Ok(Some(entry)) => self.enter(entry)?,
            Ok(None) => {}
            Err(fault) => {
                self.follower.counts.error();
                self.console.complain(self.follower.counts.lines, fault)?;
                self.console.flush()?;
            }
        }
        Ok(())
    }
}

// Follows the input to its end, and answers what was read: no line counts twice.
pub fn follow<R: Read + Drop, O: Write + Drop, E: Write + Drop>(
    heap: Global,
    from: R,
    console: Console<O, E>,
) -> Result<Counts, Halt>
    ensures { IfOk result Once }
{
    let mut session = Session {
        follower: Follower::new(),
        heap,
        console,
    };
    console::take_lines(heap, from, &mut session)?;
    // the plant ends with the input, if it has not ended
    session.begin()?;
    Ok(session.follower.counts)
}

#[cfg(test)]
mod tests {
    use super::*;
    use std::process::Abort;
    use std::test::Fail;

    // Six lines.
    const PLANT: &[u8] = b"basins 1\ngauges 1\nwrong 0\nrange 1 0 9\nrate 1 1 1\ngauge 0 1 0\n";

    // Follows the plant and then `input`, or `input` alone, and checks what is printed, and what stops it, if anything does.
    fn check_follow(
        rt: &(impl Abort + AllocGlobal),
        plant: &[u8],
        input: &[u8],
        answers: &[u8],
        errors: &[u8],
        halt: &str,
    ) -> Result<(), Fail> {
        let mut whole = Vec::from_slice(rt.alloc(), plant)?;
        whole.extend_from_slice(input)?;
        let mut out = Vec::new(rt.alloc());
        let mut err = Vec::new(rt.alloc());
        let console = Console {
            out: &mut out,
            err: &mut err,
        };
        match follow(rt.alloc(), whole.as_slice(), console) {
            Ok(_) => assert_eq!(rt; "", halt),
            Err(e) => assert_eq!(rt; e.to_string(rt.alloc())?.as_str(), halt),
        }
        assert!(rt; out.as_slice() == answers);
        assert!(rt; err.as_slice() == errors);
        Ok(())
    }

    #[test]
    fn goes_on_after_lines_that_cannot_be_read(rt: HostRuntime) -> Result<(), Fail> {
        let input = b"step\nstepp\n\xff\nread 0 4 5\nread 0\nsh\0ow\nshow\nstep 1";
        let errors = b"line 8: 'stepp' is no entry\nline 9: a byte that is no text\n\
            line 11: the low value is missing after '0'\nline 12: a byte that is no text\n\
            line 14: '1' is one word too many\n";
        check_follow(&rt, PLANT, input, b"basin 1 4 5\nnamed none\n", errors, "")
    }

    #[test]
    fn takes_either_line_end(rt: HostRuntime) -> Result<(), Fail> {
        let input = b"\r\nstep # one\r\n\nshow\r\nread 0 -1 0\nstep\nshow";
        let answers = b"basin 1 0 10\nnamed none\nbasin 1 0 1\nnamed none\n";
        check_follow(&rt, PLANT, input, answers, b"", "")
    }

    #[test]
    fn goes_on_after_refused_events(rt: HostRuntime) -> Result<(), Fail> {
        let input =
            b"read 1 0 5\nread -1 0 5\nread 4294967296 5 0\nread 0 5 0\nread 0 0 1000001\nstep\nshow\n";
        let answers = b"refused 8 1\nrefused 8 -1\nrefused 8 4294967296\nrefused 9 0\nrefused 9 1\n\
            basin 1 0 10\nnamed none\n";
        check_follow(&rt, PLANT, input, answers, b"", "")
    }

    #[test]
    fn goes_on_after_lines_of_the_plant_that_cannot_be_taken(rt: HostRuntime) -> Result<(), Fail> {
        let input = b"rate 1 2 2\nrange 2 0 1\nrange 9 0 1\nread 0 1 1\nwrong 0\nrange 2 0 1\nshow";
        let errors =
            b"line 7: a second 'rate 1'\nline 9: no plant has a basin 9\nline 8: the plant has no basin 2\n\
            line 11: the plant has ended\nline 12: the plant has ended\n";
        check_follow(&rt, PLANT, input, b"basin 1 1 1\nnamed none\n", errors, "")
    }

    // With no wrong gauge, 4 to 6 and then 9 leave nothing.
    #[test]
    fn answers_alarms(rt: HostRuntime) -> Result<(), Fail> {
        let input = b"read 0 4 6\nalarm 1 6\nalarm 1 5\nalarm 1 3\nalarm 2 5\nalarm -1 5\n\
            read 0 9 9\nshow\nalarm 1 0\n";
        let answers = b"alarm 1 6 off\nalarm 1 5 on\nalarm 1 3 sure\nrefused 10 0\nrefused 10 0\n\
            basin 1 none\nnamed 0\nno history\nalarm 1 0 off\n";
        check_follow(&rt, PLANT, input, answers, b"", "")
    }

    #[test]
    fn stops_where_there_is_no_plant(rt: HostRuntime) -> Result<(), Fail> {
        check_follow(&rt, b"", b"", b"", b"", "no line for 'basins'")?;
        check_follow(
            &rt,
            b"",
            b"basins 1\ngauges 1\nstep\nshow\n",
            b"",
            b"",
            "no line for 'wrong'",
        )?;
        let input = b"basins 1\ngauges 1\nwrong 1\nrate 2 1 1\nshow\nshow\n";
        let error = b"line 4: the plant has no basin 2\n";
        check_follow(
            &rt,
            b"",
            input,
            b"refused 2 1\n",
            error,
            "the plant is refused",
        )?;
        check_follow(
            &rt,
            PLANT,
            b"gauge 1 1 0",
            b"refused 7 1\n",
            b"",
            "the plant is refused",
        )
    }
}
