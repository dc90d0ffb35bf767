ghost use Rattle.std.specs.Prelude.{◌≡◌, IfOk, OnOk};
ghost use Rattle.case.specs.Verdict.{Shown};
ghost use Rattle.text.specs.declared.stage.Verdict.{Verdict as TheVerdict};
ghost use Rattle.text.specs.Reading.{lines};
ghost use Rattle.text.specs.Promise.{givens, NoRun};
ghost use Rattle.runtext.specs.Reading.{run_of, RunRead};
ghost use Rattle.runtext.specs.Judging.{ShownText, KeptBy, BothRead, NotContradiction};

use crate::runtexts::read_run;
use crate::stage::TextRun;
use case::stage::Sealed;
use clause::refusal::Fault;
use lines::line::Line;
use text::cases::read_case;

// Shows a case the run of a text, whichever way it was told.
pub fn show_run(case: &Sealed, table: &[Line], run: TextRun) -> Result<(u16, u16), Fault>
    ensures { Shown (run_of run) result case.now table.now }
{
    // Each telling is a source already: two arms here, and two in each of three methods for a source of both.
    match run {
        TextRun::Worlds(w) => case.show(table, &w),
        TextRun::Times(t) => case.show(table, &t),
    }
}

// A run text, shown to a case.
pub fn show_text(case: &Sealed, table: &[Line], text: &[u8]) -> Result<(u16, u16), Fault>
    ensures { ShownText text.now case.now table.now result }
{
    let run = read_run(text)?;
    show_run(case, table, run)
}

// A case text, and then a run text: the lead-in and the loop of a run that keeps every clause given in the case text.
pub fn check_run(
    case_text: &[u8],
    run_text: &[u8],
    table: &mut [Line],
    row: &mut [u16],
) -> Result<(u16, u16), Fault>
    ensures exact { BothRead case_text.now run_text.now table.old row.old result table.new row.new }
    ensures kept { IfOk result (KeptBy (givens (lines case_text.now)) run_text.now) }
    ensures apart { (x : TheVerdict) → NoRun (givens (lines case_text.now)) x → OnOk result (NotContradiction x) }
{
    let (case, _verdict) = read_case(case_text, table, row)?;
    show_text(&case, table, run_text)
}
