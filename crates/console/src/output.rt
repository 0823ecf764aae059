// Where answers go, and what is wrong with a line.
ghost use Rattle.std.specs.Prelude.{◌≡◌, IfSome, OnOk};
ghost use Rattle.std.specs.Io.KnownBytes.{Appends, Keeps};
ghost use Rattle.console.specs.Lines.{complaint};

use std::io::Write;
use std::{fmt, io};

#[derive(Drop)]
pub struct Console<O, E> {
    pub out: O,
    pub err: E,
}

impl<O: Write, E: Write> Console<O, E> {
    // Tells what is wrong with a line.
    pub fn complain<D: fmt::Display + Drop>(&mut self, line: u64, what: D) -> io::Result<()>
        ensures out { self.new.out ≡ self.old.out }
        ensures err { OnOk result (IfSome (D.output what)
            (λ said. Appends (E.contents self.old.err) (E.contents self.new.err) (complaint line said))) }
    {
        writeln!(self.err, "line {line}: {what}")
    }

    // Lets go out what has been written.
    pub fn flush(&mut self) -> io::Result<()>
        ensures out { Keeps (O.contents self.old.out) (O.contents self.new.out) }
        ensures err { Keeps (E.contents self.old.err) (E.contents self.new.err) }
    {
        self.out.flush()?;
        self.err.flush()
    }
}
