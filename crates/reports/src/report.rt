use clause::refusal::Fault;
use text::stage::Verdict;

// What a program comes to.
#[derive(Clone, Copy)]
pub enum Report<'a> {
    // the verdict of a case text, and the row that has the core of a contradiction
    Case(Verdict, &'a [u16]),
    // the lead-in and the loop of a run that is kept
    Kept { lead_in: u16, turn: u16 },
    Refused(Fault),
}
