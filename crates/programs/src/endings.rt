ghost use Rattle.std.specs.Prelude.{◌≡◌};
ghost use Rattle.programs.specs.declared.endings.Ended.TheVariants.{Failed};
ghost use Rattle.programs.specs.Endings.{Ends, ExitsWith};

use clause::refusal::Fault;
use reasons::sentences::sentence;
use reports::printed::report_line;
use reports::report::Report;
use std::io;
use std::process::ExitCode;

// Why a program ends with status 1.
#[derive(Drop)]
pub enum Ended {
    Refused(Fault),
    Failed(io::Error),
}

impl From<io::Error> for Ended {
    ghost from_gives = { λ e r. r ≡ Failed e };

    fn from(e: io::Error) -> Ended {
        Ended::Failed(e)
    }
}

// Prints the line of a report, and of a refusal one sentence on standard error. Each is made whole before it is printed: what
// displays itself and fails midway may have written anything, but a text that was made has its bytes by its clause.
fn print_report(rt: &HostRuntime, report: Report) -> io::Result<()> {
    let line = report_line(rt.alloc(), report)?;
    println!(rt; "{line}")?;
    if let Report::Refused(fault) = report {
        let why = sentence(rt.alloc(), fault)?;
        eprintln!(rt; "{why}")?;
    }
    Ok(())
}

// Prints a report, and fails where it is a refusal.
pub fn conclude(rt: &HostRuntime, report: Report) -> Result<(), Ended>
    ensures { Ends report.entry result }
{
    print_report(rt, report)?;
    match report {
        Report::Refused(fault) => Err(Ended::Refused(fault)),
        _ => Ok(()),
    }
}

// The status that `main` ends with: 0, or 1 where the report was a refusal; an error of reading or printing stays one.
pub fn exit_code(ended: Result<(), Ended>) -> io::Result<ExitCode>
    ensures { ExitsWith Failed ended result }
{
    match ended {
        Ok(()) => Ok(ExitCode::SUCCESS),
        Err(Ended::Refused(_)) => Ok(ExitCode::FAILURE),
        Err(Ended::Failed(e)) => Err(e),
    }
}
