// A program that follows a file or standard input.
ghost use Rattle.std.specs.Prelude.{◌≡◌, true, IfOk, IfSome, MatchResult};
ghost use Rattle.std.specs.Process.{exit_status};

use crate::call::{Call, choose};
use crate::output::Console;
use std::alloc::Global;
use std::fs::File;
use std::io::{BufWriter, Read, Write};
use std::process::ExitCode;
use std::{env, fmt, io};

// What differs from program to program.
pub trait Program {
    const NAME: &'static str;

    const USAGE: &'static str;

    const HELP: &'static str;

    // What is known of an input that was followed to its end.
    type Counts: Drop;

    // Why it was not.
    type Halt: From<io::Error> + fmt::Display + Drop;

    // Every line could be taken.
    ghost clean: { Self.Counts → Type 0 };

    fn is_clean(counts: &Self::Counts) -> bool
        ensures { result ≡ true → clean counts.now };

    // It has been told why.
    fn is_told(halt: &Self::Halt) -> bool;

    // Follows an input that could be opened, and answers.
    fn follow<R: Read + Drop, O: Write + Drop, E: Write + Drop>(
        heap: Global,
        from: R,
        console: Console<O, E>,
    ) -> Result<Self::Counts, Self::Halt>;
}

// The process is to end with status 1; what went wrong has been printed.
#[derive(Drop)]
pub struct Failed;

// Tells what went wrong. That it cannot be told is told by the status.
fn fail<D: fmt::Display + Drop>(rt: &HostRuntime, what: D) -> Failed {
    let _ = eprintln!(rt; "{what}");
    Failed
}

// Follows an input, and answers on standard output.
fn answer<P: Program, R: Read + Drop>(rt: &HostRuntime, from: R) -> Result<P::Counts, P::Halt> {
    let out = BufWriter::new(rt.alloc(), rt.stdout())?;
    let err = BufWriter::new(rt.alloc(), rt.stderr())?;
    P::follow(rt.alloc(), from, Console { out, err })
}

// Follows one input. It is done well only if every line could be taken.
fn run<P: Program, R: Read + Drop>(
    rt: &HostRuntime,
    name: &str,
    input: io::Result<R>,
) -> Result<P::Counts, Failed>
    ensures { IfOk result P.clean }
{
    let program = P::NAME;
    let from = input.map_err(|e| fail(rt, format_args!("{program}: {name}: cannot open: {e}")))?;
    match answer::<P, _>(rt, from) {
        Ok(counts) if P::is_clean(&counts) => Ok(counts),
        Ok(_) => Err(Failed),
        Err(halt) if P::is_told(&halt) => Err(Failed),
        Err(halt) => Err(fail(rt, format_args!("{program}: {name}: {halt}"))),
    }
}

// Does what the command line asks for, and answers what is known of the input that was followed, if one was. That the right lines
// are read and printed no contract can state: the gate runs the programs.
pub fn start<P: Program>(rt: &HostRuntime) -> Result<Option<P::Counts>, Failed>
    ensures { IfOk result (λ counts. IfSome counts P.clean) }
{
    let program = P::NAME;
    let mut args = env::args(rt).map_err(|e| fail(rt, format_args!("{program}: arguments: {e}")))?;
    let _ = args.next();
    let first = args.next();
    match choose(first, args.next()) {
        Call::Help => {
            let help = P::HELP;
            let _ = println!(rt; "{help}");
            Ok(None)
        }
        Call::Input => run::<P, _>(rt, "standard input", Ok(rt.stdin())).map(Some),
        Call::File(path) => {
            run::<P, _>(rt, path.as_str(), File::open(rt, path.as_str())).map(Some)
        }
        Call::Misused => Err(fail(rt, P::USAGE)),
    }
}

// With what status the process ends.
pub fn status<T: Drop>(done: Result<T, Failed>) -> ExitCode
    ensures { MatchResult done (λ _. exit_status result ≡ 0) (λ _. exit_status result ≡ 1) }
{
    match done {
        Ok(_) => ExitCode::SUCCESS,
        Err(Failed) => ExitCode::FAILURE,
    }
}
