ghost use Rattle.std.specs.Prelude.{◌≡◌, take, IfOk, Some, string_bytes};
ghost use Rattle.reports.specs.Lines.{spaced, report_line as the_report_line};

use crate::report::Report;
use std::alloc::{AllocError, Global};
use std::fmt;
use text::stage::Verdict;

// Numbers parted by single spaces.
#[derive(Clone, Copy)]
struct Spaced<'a>(&'a [u16]);

impl fmt::Display for Spaced<'_> {
    ghost output = { λ s. Some (spaced s.0.now) };

    fn fmt<W: fmt::Write>(&self, f: &mut fmt::Formatter<W>) -> fmt::Result {
        if let [first, rest @ ..] = self.0 {
            write!(f, "{first}")?;
            for n in rest {
                write!(f, " {n}")?;
            }
        }
        Ok(())
    }
}

// The core of a contradiction: the first numbers of a row.
fn core_of(row: &[u16], count: u16) -> Spaced<'_>
    ensures { result.0.now ≡ take count row.now }
{
    Spaced(&row[..row.len().min(usize::from(count))])
}

// The one line that a program prints, without its end.
impl fmt::Display for Report<'_> {
    ghost output = { λ report. Some (the_report_line report) };

    fn fmt<W: fmt::Write>(&self, f: &mut fmt::Formatter<W>) -> fmt::Result {
        match *self {
            Report::Case(Verdict::Contradiction(line, count), row) => {
                let core = core_of(row, count);
                write!(f, "contradiction\t{line}\t{core}")
            }
            Report::Case(Verdict::Open(last), _) => write!(f, "open\t{last}"),
            Report::Kept { lead_in, turn } => write!(f, "kept\t{lead_in}\t{turn}"),
            Report::Refused(fault) => write!(
                f,
                "refused\t{}\t{}\t{}\t{}\t{}",
                fault.number(),
                fault.layer(),
                fault.line,
                fault.field,
                fault.detail
            ),
        }
    }
}

// The line of a report, as a text.
pub fn report_line(heap: Global, report: Report) -> Result<String, AllocError>
    ensures { IfOk result (λ s. string_bytes s ≡ the_report_line report.entry) }
{
    report.to_string(heap)
}

#[cfg(test)]
mod tests {
    use super::*;
    use std::test::Fail;

    #[test]
    fn a_core_is_parted_by_spaces(rt: HostRuntime) -> Result<(), Fail> {
        let row = [4u16, 7, 9];
        let report = Report::Case(Verdict::Contradiction(13, 2), &row);
        let line = report_line(rt.alloc(), report)?;
        assert_eq!(rt; line.as_str(), "contradiction\t13\t4 7");
        Ok(())
    }
}
