// What is shown, in the words of the text format.
ghost use Rattle.std.specs.Prelude.{Some};
ghost use Rattle.shown.specs.Written.{written_alarm, written_end, written_names, written_span};

use crate::kinds::{Alarm, End, Names, Span};
use std::fmt;

impl fmt::Display for End {
    ghost output = { λ e. Some (written_end e) };

    fn fmt<W: fmt::Write>(&self, f: &mut fmt::Formatter<W>) -> fmt::Result {
        match *self {
            End::At(number) => write!(f, "{number}"),
            End::Open => write!(f, "none"),
        }
    }
}

impl fmt::Display for Span {
    ghost output = { λ s. Some (written_span s) };

    fn fmt<W: fmt::Write>(&self, f: &mut fmt::Formatter<W>) -> fmt::Result {
        match *self {
            Span::Nothing => write!(f, "none"),
            Span::Ends(low, high) => write!(f, "{low} {high}"),
        }
    }
}

impl fmt::Display for Alarm {
    ghost output = { λ a. Some (written_alarm a) };

    fn fmt<W: fmt::Write>(&self, f: &mut fmt::Formatter<W>) -> fmt::Result {
        match *self {
            Alarm::Off => write!(f, "off"),
            Alarm::On => write!(f, "on"),
            Alarm::Sure => write!(f, "sure"),
        }
    }
}

// The gauges, parted by blanks, or `none`.
impl fmt::Display for Names {
    ghost output = { λ n. Some (written_names n) };

    fn fmt<W: fmt::Write>(&self, f: &mut fmt::Formatter<W>) -> fmt::Result {
        let Some(first) = (0..u16::BITS).find(|gauge| self.gauges.contains(*gauge)) else {
            return write!(f, "none");
        };
        write!(f, "{first}")?;
        for gauge in first + 1..u16::BITS {
            if self.gauges.contains(gauge) {
                write!(f, " {gauge}")?;
            }
        }
        Ok(())
    }
}
