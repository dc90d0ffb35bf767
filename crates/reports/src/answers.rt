ghost use Rattle.std.specs.Prelude.{◌≡◌};
ghost use Rattle.reports.specs.Answers.{Tells, run_report};

use crate::report::Report;
use case::stage::Sealed;
use clause::refusal::Fault;
use text::stage::Verdict;

impl<'a> Report<'a> {
    // The report of a case text, from its answer and the row as it was left: two values, so no `From`.
    pub fn of_case(answer: Result<(Sealed, Verdict), Fault>, row: &'a [u16]) -> Report<'a>
        ensures { Tells answer row.now result }
    {
        match answer {
            Ok((_case, verdict)) => Report::Case(verdict, row),
            Err(fault) => Report::Refused(fault),
        }
    }
}

// The report of a run text, from its answer.
impl From<Result<(u16, u16), Fault>> for Report<'static> {
    ghost from_gives = { λ answer report. report ≡ run_report answer };

    fn from(answer: Result<(u16, u16), Fault>) -> Report<'static> {
        match answer {
            Ok((lead_in, turn)) => Report::Kept { lead_in, turn },
            Err(fault) => Report::Refused(fault),
        }
    }
}
