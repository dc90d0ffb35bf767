use crate::frame::Span;
use clause::refusal::Fault;
use runs::source::RunSource;
use runs::timetable::Timetable;

// Two tasks, one in 63 ms and one in 64 ms, the second from `offset` ms on: how far they reach.
pub(crate) fn longest(offset: u16) -> Result<Span, Fault> {
    let mut times = Timetable::new();
    times.assign(0, 0, 63, 1)?;
    times.assign(1, offset, 64, 1)?;
    Ok(Span {
        lead_in: times.lead_in(),
        turn: times.loop_length(),
    })
}
