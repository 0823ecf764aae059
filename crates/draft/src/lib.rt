// The lines of a plant as they come, and the plant that they make.
#![tactic(auto)]

mod errors;
mod finishing;
mod kinds;
mod noting;
mod numbers;

pub use errors::{DraftError, Item, PlantError, Stray};
pub use kinds::Draft;

#[cfg(test)]
mod tests {
    use super::*;
    use plant::Gauge;
    use std::process::Abort;
    use std::test::Fail;
    use text::Format;
    use zones::{Range, Rate};

    // Two basins and three gauges, of which one may be wrong.
    const LINES: [&str; 10] = [
        "basins 2",
        "gauges 3",
        "wrong 1",
        "range 1 0 100",
        "range 2 5 90",
        "rate 1 3 2",
        "rate 2 7 1",
        "gauge 0 1 0",
        "gauge 1 2 0",
        "gauge 2 1 2",
    ];

    // Takes a line, if it has words.
    fn note(draft: &mut Draft, number: u64, line: &str) -> Result<(), Fail> {
        if let Some(entry) = text::parse(line, Format::WithAlarms)? {
            draft.note(number, entry)?;
        }
        Ok(())
    }

    // The draft of the lines with another at one place, and one more.
    fn draft_with(at: usize, line: &str, more: &str) -> Result<Draft, Fail> {
        let mut draft = Draft::new();
        for (i, old) in LINES.iter().enumerate() {
            note(&mut draft, i as u64 + 1, if i == at { line } else { *old })?;
        }
        note(&mut draft, 11, more)?;
        Ok(draft)
    }

    fn check_fault(
        rt: &(impl Abort + AllocGlobal),
        draft: &mut Draft,
        line: &str,
        message: &str,
    ) -> Result<(), Fail> {
        let Some(entry) = text::parse(line, Format::WithAlarms)? else {
            return Err(Fail::new(line));
        };
        match draft.note(12, entry) {
            Ok(()) => Err(Fail::new(line)),
            Err(fault) => {
                assert_eq!(rt; fault.to_string(rt.alloc())?.as_str(), message, "at {line}");
                Ok(())
            }
        }
    }

    // Why there is no plant; `case` tells which line was another, should it not be so.
    fn check_plant_fault(
        rt: &(impl Abort + AllocGlobal),
        draft: &Draft,
        message: &str,
        case: &str,
    ) -> Result<(), Fail> {
        match draft.plant(rt.alloc()) {
            Ok(_) => Err(Fail::new(message)),
            Err(fault) => {
                assert_eq!(rt; fault.to_string(rt.alloc())?.as_str(), message, "at {case}");
                Ok(())
            }
        }
    }

    // The numbers of the last basin and the last gauge.
    fn check_last(
        rt: &impl Abort,
        ranges: &[Range],
        rates: &[Rate],
        gauges: &[Gauge],
    ) -> Result<(), Fail> {
        match (ranges.last(), rates.last(), gauges.last()) {
            (Some(range), Some(rate), Some(gauge)) => {
                assert!(rt; range.least == 5 && range.most == 90);
                assert!(rt; rate.rise == 7 && rate.fall == 1);
                assert!(rt; gauge.first == 1 && gauge.second == 2);
                Ok(())
            }
            _ => Err(Fail::new("nothing")),
        }
    }

    #[test]
    fn makes_the_plant_of_the_lines_in_any_order(rt: HostRuntime) -> Result<(), Fail> {
        let mut draft = Draft::new();
        for (i, line) in LINES.iter().rev().enumerate() {
            note(&mut draft, i as u64 + 1, *line)?;
        }
        let plant = draft.plant(rt.alloc())?;
        assert_eq!(rt; plant.basins, 2);
        assert_eq!(rt; plant.wrong, 1);
        assert_eq!(rt;
            plant.ranges.len() + plant.rates.len() + plant.gauges.len(),
            7
        );
        check_last(
            &rt,
            plant.ranges.as_slice(),
            plant.rates.as_slice(),
            plant.gauges.as_slice(),
        )
    }

    #[test]
    fn takes_each_line_once(rt: HostRuntime) -> Result<(), Fail> {
        let mut draft = draft_with(10, "", "")?;
        let table = [
            ("basins 8", "a second 'basins'"),
            ("gauges 3", "a second 'gauges'"),
            ("wrong 2", "a second 'wrong'"),
            ("range 2 5 6", "a second 'range 2'"),
            ("rate 2 0 0", "a second 'rate 2'"),
            ("gauge 2 2 0", "a second 'gauge 2'"),
            ("range 9 0 1", "no plant has a basin 9"),
            ("range 0 0 1", "no plant has a basin 0"),
            ("rate -1 0 1", "no plant has a basin -1"),
            ("gauge -1 1 0", "no plant has a gauge -1"),
            ("step", "this says nothing of a plant"),
        ];
        for (line, message) in table {
            check_fault(&rt, &mut draft, line, message)?;
        }
        let plant = draft.plant(rt.alloc())?;
        assert_eq!(rt; plant.basins, 2);
        check_last(
            &rt,
            plant.ranges.as_slice(),
            plant.rates.as_slice(),
            plant.gauges.as_slice(),
        )
    }

    #[test]
    fn says_which_count_is_missing(rt: HostRuntime) -> Result<(), Fail> {
        check_plant_fault(&rt, &Draft::new(), "no line for 'basins'", "")?;
        check_plant_fault(&rt, &draft_with(0, "", "")?, "no line for 'basins'", "")?;
        check_plant_fault(&rt, &draft_with(1, "", "")?, "no line for 'gauges'", "")?;
        check_plant_fault(&rt, &draft_with(2, "", "")?, "no line for 'wrong'", "")
    }

    // The line at an index is another; `refused NUMBER PLACE`.
    #[test]
    fn refuses_by_the_limit_that_is_broken(rt: HostRuntime) -> Result<(), Fail> {
        let table = [
            (0, "basins 0", "refused 1 0"),
            (0, "basins -1", "refused 1 0"),
            (0, "basins 4294967297", "refused 1 0"),
            (1, "gauges 0", "refused 2 0"),
            (1, "gauges 13", "refused 2 0"),
            (1, "gauges -1", "refused 2 0"),
            (2, "wrong -1", "refused 2 1"),
            (2, "wrong 3", "refused 2 1"),
            (0, "basins 3", "refused 3 2"),
            (3, "", "refused 3 1"),
            (6, "", "refused 3 1"),
            (5, "rate 1 -3 2", "refused 4 1"),
            (6, "rate 2 3 10001", "refused 4 4"),
            (3, "range 1 -5 100", "refused 6 1"),
            (4, "range 2 0 4294967296", "refused 6 2"),
            (4, "range 2 7 6", "refused 6 2"),
            (7, "gauge 0 300 0", "refused 7 0"),
            (7, "gauge 0 257 0", "refused 7 0"),
            (8, "gauge 1 2 -1", "refused 7 1"),
        ];
        for (at, line, message) in table {
            check_plant_fault(&rt, &draft_with(at, line, "")?, message, line)?;
        }
        Ok(())
    }

    #[test]
    fn refuses_gauges_without_a_line_or_past_the_count(rt: HostRuntime) -> Result<(), Fail> {
        let table = [
            (8, "", "", "refused 7 1"),
            (1, "gauges 4", "", "refused 7 3"),
            (1, "gauges 2", "", "refused 7 2"),
            (10, "", "gauge 11 1 0", "refused 7 11"),
            (10, "", "gauge 12 1 0", "refused 7 12"),
            (10, "", "gauge 200 1 0", "refused 7 200"),
            (10, "", "gauge 4294967296 1 0", "refused 7 4294967295"),
            (8, "gauge 50 1 0", "gauge 40 1 0", "refused 7 1"),
            (7, "gauge 0 1 1", "gauge 40 1 0", "refused 7 0"),
            (6, "rate 2 3 10001", "gauge 40 1 0", "refused 4 4"),
        ];
        for (at, line, more, message) in table {
            check_plant_fault(&rt, &draft_with(at, line, more)?, message, more)?;
        }
        let mut draft = draft_with(10, "", "gauge 50 1 0")?;
        note(&mut draft, 12, "gauge 40 1 0")?;
        note(&mut draft, 13, "gauge 60 1 0")?;
        check_plant_fault(&rt, &draft, "refused 7 40", "")
    }

    fn check_strays(
        rt: &(impl Abort + AllocGlobal),
        draft: &Draft,
        expected: &[(u64, &str)],
    ) -> Result<(), Fail> {
        let strays = draft.strays(rt.alloc())?;
        assert_eq!(rt; strays.len(), expected.len());
        for (stray, (line, message)) in strays.as_slice().iter().zip(expected) {
            assert_eq!(rt; stray.line, *line);
            assert_eq!(rt; stray.to_string(rt.alloc())?.as_str(), *message);
        }
        Ok(())
    }

    #[test]
    fn tells_lines_of_basins_past_the_count(rt: HostRuntime) -> Result<(), Fail> {
        let mut draft = draft_with(10, "", "rate 3 1 1")?;
        note(&mut draft, 12, "range 8 0 1")?;
        let expected = [
            (12, "the plant has no basin 8"),
            (11, "the plant has no basin 3"),
        ];
        check_strays(&rt, &draft, &expected)?;
        assert_eq!(rt; draft.plant(rt.alloc())?.ranges.len(), 2);
        check_strays(&rt, &draft_with(0, "", "rate 3 1 1")?, &[])
    }
}
