// Judges every stored case text and run text, and prints a line for each.
#![tactic(auto)]

use lines::line::Line;
use reports::files::read_text;
use reports::report::Report;
use runtext::checks::check_run;
use std::{fs, io};
use text::cases::read_case;

// What each text is judged in.
#[derive(Drop)]
struct Places {
    table: [Line; 1000],
    row: [u16; 200],
}

impl Places {
    fn judge_case(&mut self, text: &[u8]) -> Report<'_> {
        let answer = read_case(text, &mut self.table, &mut self.row);
        Report::of_case(answer, &self.row)
    }

    fn judge_run(&mut self, case_text: &[u8], run_text: &[u8]) -> Report<'static> {
        let answer = check_run(case_text, run_text, &mut self.table, &mut self.row);
        Report::from(answer)
    }
}

fn judge(rt: &HostRuntime, name: &str, places: &mut Places) -> io::Result<()> {
    let case_path = format!(in rt.alloc(); "{name}/case.txt")?;
    let run_path = format!(in rt.alloc(); "{name}/run.txt")?;
    let case_text = read_text(rt, case_path.as_str())?;
    let run_text = read_text(rt, run_path.as_str())?;
    println!(rt; "{name}\tcase\t{}", places.judge_case(&case_text))?;
    println!(rt; "{name}\trun\t{}", places.judge_run(&case_text, &run_text))
}

fn main(rt: HostRuntime) -> io::Result<()> {
    let mut places = Places {
        table: [Line::blank(); 1000],
        row: [0u16; 200],
    };
    let names = fs::read_to_string(&rt, "names.txt")?;
    for name in names.lines() {
        judge(&rt, name, &mut places)?;
    }
    Ok(())
}
