// Judges a run text against a case text: runcheck [CASE [RUN]], by default case.txt and run.txt.
#![tactic(auto)]

use lines::line::Line;
use programs::endings::{Ended, conclude, exit_code};
use programs::starts::asks_for_help;
use reports::files::read_text;
use reports::report::Report;
use runtext::checks::show_text;
use std::process::ExitCode;
use std::{env, io};
use text::cases::read_case;

const HELP: &str =
    "runcheck [CASE [RUN]]\n\nJudges the case text CASE (case.txt) and, once it is accepted, the run text RUN (run.txt).\nA file that cannot be opened is read as a text without bytes.\n\nPrints one line, its fields parted by tabs:\n  kept LEAD-IN LOOP                     the run breaks no given clause at any moment\n  refused NUMBER LAYER LINE FIELD DETAIL  and says why on standard error\n\nEnds with 0 if the run is kept, and with 1 if it is refused.";

fn judge(rt: &HostRuntime, case_path: &str, run_path: &str) -> Result<(), Ended> {
    let case_text = read_text(rt, case_path)?;
    let mut table = [Line::blank(); 1000];
    let mut row = [0u16; 200];
    let case = match read_case(&case_text, &mut table, &mut row) {
        Ok((case, _verdict)) => case,
        Err(fault) => return conclude(rt, Report::Refused(fault)),
    };
    let run_text = read_text(rt, run_path)?;
    conclude(rt, Report::from(show_text(&case, &table, &run_text)))
}

// Not shared by the programs: a function that calls its parameter asks something of its caller, and no public one does.
fn main(rt: HostRuntime) -> io::Result<ExitCode> {
    let mut paths = env::args(&rt)?.skip(1);
    let (case_path, run_path) = (paths.next(), paths.next());
    if asks_for_help(case_path.as_slice()) {
        println!(rt; "{HELP}")?;
        return Ok(ExitCode::SUCCESS);
    }
    let case_path = case_path.as_ref().map_or("case.txt", |path| path.as_str());
    let run_path = run_path.as_ref().map_or("run.txt", |path| path.as_str());
    exit_code(judge(&rt, case_path, run_path))
}
