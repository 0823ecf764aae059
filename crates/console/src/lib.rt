// What programs have in common that follow an input: the command line, the lines of the input, and where answers go.
#![tactic(auto)]

mod call;
mod halt;
mod lines;
mod output;
mod program;

pub use call::{Call, choose};
pub use halt::Halt;
pub use lines::{TakeLines, take_lines};
pub use output::Console;
pub use program::{Failed, Program, start, status};

#[cfg(test)]
mod tests {
    use super::*;
    use std::io;
    use std::io::{Read, Write};
    use std::test::Fail;

    // Keeps the lines between bars.
    #[derive(Drop)]
    struct Keeper {
        bytes: Vec<u8>,
    }

    impl TakeLines for Keeper {
        type Halt = Halt;

        ghost after = { λ _ _. Unit };

        fn take(&mut self, line: &[u8]) -> Result<(), Halt> {
            self.bytes.write_all(line)?;
            self.bytes.write_all(b"|")?;
            Ok(())
        }
    }

    #[test]
    fn takes_each_line_with_its_end(rt: HostRuntime) -> Result<(), Fail> {
        let cases = [
            (b"".as_slice(), b"".as_slice()),
            (b"one", b"one|"),
            (b"one\n\ntwo", b"one\n|\n|two|"),
            (b"one\r\n", b"one\r\n|"),
        ];
        for (input, lines) in cases {
            let mut keeper = Keeper {
                bytes: Vec::new(rt.alloc()),
            };
            if take_lines(rt.alloc(), input, &mut keeper).is_err() {
                return Err(Fail::new("halted"));
            }
            assert!(rt; keeper.bytes.as_slice() == lines);
        }
        Ok(())
    }

    // Gives one line, and then an error.
    #[derive(Drop)]
    struct Broken {
        given: bool,
    }

    impl Read for Broken {
        fn read(&mut self, buf: &mut [u8]) -> io::Result<usize> {
            if self.given || buf.is_empty() {
                return Err(io::Error::from(io::ErrorKind::NotFound));
            }
            self.given = true;
            buf[0] = b'\n';
            Ok(1)
        }
    }

    #[test]
    fn halts_where_the_input_cannot_be_read(rt: HostRuntime) -> Result<(), Fail> {
        let mut keeper = Keeper {
            bytes: Vec::new(rt.alloc()),
        };
        match take_lines(rt.alloc(), Broken { given: false }, &mut keeper) {
            Ok(()) => return Err(Fail::new("read")),
            Err(halt) => {
                let message = halt.to_string(rt.alloc())?;
                assert!(rt; message.as_str().starts_with("cannot read: "));
            }
        }
        assert!(rt; keeper.bytes.as_slice() == b"\n|".as_slice());
        Ok(())
    }

    #[test]
    fn complains_beside_the_answers(rt: HostRuntime) -> Result<(), Fail> {
        let mut console = Console {
            out: Vec::new(rt.alloc()),
            err: Vec::new(rt.alloc()),
        };
        writeln!(console.out, "on")?;
        console.complain(7, "no entry")?;
        console.flush()?;
        assert!(rt; console.out.as_slice() == b"on\n".as_slice());
        assert!(rt; console.err.as_slice() == b"line 7: no entry\n".as_slice());
        Ok(())
    }
}
