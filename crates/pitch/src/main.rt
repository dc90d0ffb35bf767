// Three tasks on a pitch processor: a timetable that needs eleven milliseconds of every ten, one that fits, and a derivation.
#![tactic(auto)]

use clause::refusal::Fault;
use derive::Contradiction;
use frame::{GIVEN, Span};
use lines::line::Line;
use std::io;
use task::{Slot, Task};

mod derive;
mod frame;
mod longest;
mod task;

fn print_clauses(rt: &impl Print) -> io::Result<()> {
    println!(rt; "Pitch processor: three tasks, one processor, frames of 10 ms.")?;
    println!(rt; "Given:")?;
    for (i, given) in GIVEN.iter().enumerate() {
        println!(rt; "  {}  {given}", i + 1)?;
    }
    Ok(())
}

fn print_verdict(rt: &impl Print, verdict: Result<Span, Fault>) -> io::Result<()> {
    match verdict {
        Ok(Span { lead_in, turn }) => {
            println!(rt; "  kept over endless time: lead-in {lead_in} ms, then a loop of {turn} ms")
        }
        Err(f) => {
            let number = f.number();
            match GIVEN.iter().zip(1..7u16).find(|p| p.1 == f.line) {
                Some((given, line)) => println!(rt;
                    "  refused ({number}): line {line} is broken at {} ms: {given}",
                    f.detail
                ),
                None => println!(rt; "  refused ({number})"),
            }
        }
    }
}

// The tasks follow one another: what a timetable of these lengths comes to.
fn print_frame(rt: &impl Print, table: &mut [Line], lengths: [u16; 3]) -> io::Result<()> {
    let [first, second, third] = lengths;
    let slots = [
        Slot {
            task: Task::InterruptEntry,
            offset: 0,
            length: first,
        },
        Slot {
            task: Task::ConverterRead,
            offset: 4,
            length: second,
        },
        Slot {
            task: Task::BusSend,
            offset: 8,
            length: third,
        },
    ];
    for slot in slots {
        println!(rt; "  {slot}")?;
    }
    print_verdict(rt, frame::judge(table, &slots))
}

fn print_core(
    rt: &impl Print,
    verdict: Result<Contradiction, Fault>,
    row: &[u16; 200],
) -> io::Result<()> {
    match verdict {
        Ok(Contradiction { line, count }) => {
            print!(rt; "  contradiction: line {line} is empty, its core is")?;
            for n in row.iter().take(count as usize) {
                print!(rt; " {n}")?;
            }
            println!(rt; "")
        }
        Err(f) => println!(rt; "  refused ({})", f.number()),
    }
}

// How far a timetable reaches.
fn print_longest(rt: &impl Print, offset: u16) -> io::Result<()> {
    print!(rt; "  periods of 63 and 64 ms, the second from {offset} ms on: ")?;
    match longest::longest(offset) {
        Ok(Span { lead_in, turn }) => println!(rt; "lead-in {lead_in} ms, loop {turn} ms"),
        Err(f) => println!(rt; "refused ({})", f.number()),
    }
}

fn main(rt: HostRuntime) -> io::Result<()> {
    let mut table = [Line::blank(); 1000];
    let mut row = [0u16; 200];
    print_clauses(&rt)?;
    println!(rt; "Eleven milliseconds of every ten:")?;
    print_frame(&rt, &mut table, [4, 4, 3])?;
    println!(rt; "Ten milliseconds of every ten:")?;
    print_frame(&rt, &mut table, [4, 4, 2])?;
    println!(rt; "A timetable's lead-in and loop span at most 4096 ms:")?;
    print_longest(&rt, 64)?;
    print_longest(&rt, 65)?;
    println!(rt; "A supplier's figures that contradict each other, by a derivation with a loop:")?;
    let verdict = derive::contradict(&mut table, &mut row);
    print_core(&rt, verdict, &row)
}
