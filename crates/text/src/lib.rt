// One line of the text format: read by `parse`, written by the `Display` of `Entry`.
#![tactic(auto)]

ghost use Rattle.std.specs.Prelude.{◌≡◌, Err, IsUtf8};
ghost use Rattle.text.specs.declared.error.LineError.TheVariants.{NotText};
ghost use Rattle.text.specs.Lines.{Parses};

mod entry;
mod error;
mod number;
mod reader;
mod words;

pub use entry::{Entry, Format};
pub use error::{Field, LineError};
use words::Words;

// Reads one line, with or without its end: an entry of the format, or nothing where the line has no words.
// It is no `FromStr`: the error borrows the line.
pub fn parse(line: &str, format: Format) -> Result<Option<Entry>, LineError<'_>>
    ensures { Parses format line.now result }
{
    if line.contains('\0') {
        return Err(LineError::NotText);
    }
    let mut words = Words::of(line);
    if words.next().is_none() {
        return Ok(None);
    }
    reader::entry(words, format).map(Some)
}

// The same of bytes: those that are no UTF-8 are no text.
pub fn parse_bytes(bytes: &[u8], format: Format) -> Result<Option<Entry>, LineError<'_>>
    ensures text { IsUtf8 bytes.now → Parses format bytes.now result }
    ensures other { (IsUtf8 bytes.now → ⊥) → result ≡ Err NotText }
{
    let line = std::str::from_utf8(bytes).map_err(|_| LineError::NotText)?;
    parse(line, format)
}

#[cfg(test)]
mod tests {
    use super::*;
    use std::process::Abort;
    use std::test::Fail;

    const FORMATS: [Format; 2] = [Format::WithoutAlarms, Format::WithAlarms];

    fn check_fault(
        rt: &(impl Abort + AllocGlobal),
        line: &str,
        format: Format,
        message: &str,
    ) -> Result<(), Fail> {
        match parse(line, format) {
            Ok(_) => Err(Fail::new(line)),
            Err(fault) => {
                assert_eq!(rt; fault.to_string(rt.alloc())?.as_str(), message);
                Ok(())
            }
        }
    }

    #[test]
    fn reads_each_entry(rt: HostRuntime) -> Result<(), Fail> {
        let table = [
            ("basins 2", Entry::Basins(2)),
            ("gauges 3", Entry::Gauges(3)),
            ("wrong 1", Entry::Wrong(1)),
            (
                "range 1 0 100",
                Entry::Range {
                    basin: 1,
                    least: 0,
                    most: 100,
                },
            ),
            (
                "rate 1 3 2",
                Entry::Rate {
                    basin: 1,
                    rise: 3,
                    fall: 2,
                },
            ),
            (
                "gauge 2 1 0",
                Entry::Gauge {
                    gauge: 2,
                    first: 1,
                    second: 0,
                },
            ),
            ("step", Entry::Step),
            (
                "read 0 -48 52",
                Entry::Read {
                    gauge: 0,
                    low: -48,
                    high: 52,
                },
            ),
            ("show", Entry::Show),
            // spaces, ends and comments
            (
                " \t read\t0   48 \t52  ",
                Entry::Read {
                    gauge: 0,
                    low: 48,
                    high: 52,
                },
            ),
            ("step\r\n", Entry::Step),
            ("step\n", Entry::Step),
            ("step# and more", Entry::Step),
            ("wrong 1 # at most\r\n", Entry::Wrong(1)),
            // numerals
            ("wrong -0", Entry::Wrong(0)),
            (
                "wrong 0000000000000000000000000000000000000007",
                Entry::Wrong(7),
            ),
            ("wrong 9223372036854775807", Entry::Wrong(i64::MAX)),
            ("wrong -9223372036854775808", Entry::Wrong(i64::MIN)),
        ];
        for (line, entry) in table {
            for format in FORMATS {
                assert_eq!(rt; parse(line, format)?, Some(entry), "{}", line);
            }
        }
        Ok(())
    }

    #[test]
    fn passes_lines_without_words(rt: HostRuntime) -> Result<(), Fail> {
        for line in ["", " \t ", "\r\n", "# step", "  # step\n", "#"] {
            for format in FORMATS {
                assert_eq!(rt; parse(line, format)?, None, "{}", line);
            }
        }
        Ok(())
    }

    #[test]
    fn says_what_is_wrong(rt: HostRuntime) -> Result<(), Fail> {
        let table = [
            ("stepp", "'stepp' is no entry"),
            ("Step", "'Step' is no entry"),
            ("step\rstep", "'step\rstep' is no entry"),
            ("read 0 48", "the high value is missing after '48'"),
            (
                "basins # two",
                "the number of basins is missing after 'basins'",
            ),
            ("step 1", "'1' is one word too many"),
            ("rate 1 3 2 x", "'x' is one word too many"),
            ("wrong +5", "the number of wrong gauges is no number: '+5'"),
            ("wrong -", "the number of wrong gauges is no number: '-'"),
            ("range 1 0 1e2", "the greatest level is no number: '1e2'"),
            ("gauge 1 2 1.5", "the second basin is no number: '1.5'"),
            (
                "wrong 9223372036854775808",
                "the number of wrong gauges does not fit 64 bits: '9223372036854775808'",
            ),
            (
                "wrong -9223372036854775809",
                "the number of wrong gauges does not fit 64 bits: '-9223372036854775809'",
            ),
            ("step # \0", "a byte that is no text"),
        ];
        for (line, message) in table {
            for format in FORMATS {
                check_fault(&rt, line, format, message)?;
            }
        }
        Ok(())
    }

    #[test]
    fn writes_the_one_form(rt: HostRuntime) -> Result<(), Fail> {
        let read = Entry::Read {
            gauge: 11,
            low: i64::MIN,
            high: -7,
        };
        assert_eq!(rt;
            read.to_string(rt.alloc())?.as_str(),
            "read 11 -9223372036854775808 -7"
        );
        assert_eq!(rt; Entry::Show.to_string(rt.alloc())?.as_str(), "show");
        Ok(())
    }

    #[test]
    fn reads_and_writes_an_alarm(rt: HostRuntime) -> Result<(), Fail> {
        let alarm = Entry::Alarm {
            basin: 2,
            limit: -250,
        };
        assert_eq!(rt; parse("alarm 2 -250", Format::WithAlarms)?, Some(alarm));
        assert_eq!(rt; alarm.to_string(rt.alloc())?.as_str(), "alarm 2 -250");
        let table = [
            ("alarm", "the basin is missing after 'alarm'"),
            ("alarm 1", "the limit is missing after '1'"),
            ("alarm 1 +5", "the limit is no number: '+5'"),
            ("alarm 1 50 2", "'2' is one word too many"),
        ];
        for (line, message) in table {
            check_fault(&rt, line, Format::WithAlarms, message)?;
        }
        Ok(())
    }

    #[test]
    fn knows_no_alarm_in_the_format_without(rt: HostRuntime) -> Result<(), Fail> {
        for line in ["alarm 2 -250", "alarm", "alarm 1 +5"] {
            check_fault(&rt, line, Format::WithoutAlarms, "'alarm' is no entry")?;
        }
        Ok(())
    }
}
