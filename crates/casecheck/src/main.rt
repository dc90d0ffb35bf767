// Judges a case text: casecheck [CASE], by default case.txt.
#![tactic(auto)]

use lines::line::Line;
use programs::endings::{Ended, conclude, exit_code};
use programs::starts::asks_for_help;
use reports::files::read_text;
use reports::report::Report;
use std::process::ExitCode;
use std::{env, io};
use text::cases::read_case;

const HELP: &str =
    "casecheck [CASE]\n\nJudges the case text CASE (case.txt).\nA file that cannot be opened is read as a text without bytes.\n\nPrints one line, its fields parted by tabs:\n  contradiction LINE CORE               the line refuted last, and the given lines to blame\n  open LAST                             nothing refuted; the number of the last line\n  refused NUMBER LAYER LINE FIELD DETAIL  and says why on standard error\n\nEnds with 0, or with 1 if the text is refused.";

fn judge(rt: &HostRuntime, path: &str) -> Result<(), Ended> {
    let text = read_text(rt, path)?;
    let mut table = [Line::blank(); 1000];
    let mut row = [0u16; 200];
    let answer = read_case(&text, &mut table, &mut row);
    conclude(rt, Report::of_case(answer, &row))
}

// Not shared by the programs: a function that calls its parameter asks something of its caller, and no public one does.
fn main(rt: HostRuntime) -> io::Result<ExitCode> {
    let path = env::args(&rt)?.nth(1);
    if asks_for_help(path.as_slice()) {
        println!(rt; "{HELP}")?;
        return Ok(ExitCode::SUCCESS);
    }
    let path = path.as_ref().map_or("case.txt", |path| path.as_str());
    exit_code(judge(&rt, path))
}
