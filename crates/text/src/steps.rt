ghost use Rattle.std.specs.Prelude.{List};
ghost use Rattle.text.specs.Calls.{view, Step, LeadsOn};

use crate::stage::Stage;
use clause::refusal::{Fault, Refusal};
use lines::line::Line;
use records::record::Record;
use rules::resolution::Resolution;
use rules::trial::{Claim, Trial};

// One record, as the call that it makes at this stage; a key that does not fit the stage makes none. By a rule of the project each pair has its arm.
pub(crate) fn step(
    stage: Stage,
    what: Record,
    table: &mut [Line; 1000],
    row: &mut [u16],
) -> (Stage, Result<u16, Fault>)
    ensures exact { Step (view stage table.old) what row.old result.1 (view result.0 table.new) row.new }
    ensures onward { LeadsOn (view stage table.old) table.old (view result.0 table.new) table.new }
{
    match (stage, what) {
        (Stage::Taking(mut i), Record::Give(c)) => {
            let answer = i.give(table, c);
            (Stage::Taking(i), answer)
        }
        (Stage::Taking(i), Record::Seal) => {
            let (s, last) = i.seal();
            (Stage::Working(s), Ok(last))
        }
        (Stage::Working(mut s), Record::WaitLine(n)) => {
            let answer = s.wait_line(table, n);
            (Stage::Working(s), answer)
        }
        (Stage::Working(mut s), Record::WaitLiteral(l)) => {
            let answer = s.wait_literal(table, l);
            (Stage::Working(s), answer)
        }
        (
            Stage::Working(mut s),
            Record::Resolve {
                first,
                second,
                letter,
            },
        ) => {
            let answer = s.infer(table, &Resolution, &[first, second], letter);
            (Stage::Working(s), answer)
        }
        (Stage::Working(mut s), Record::Trial(now, next, lines)) => {
            let answer = s.infer(table, &Trial, lines.as_slice(), Claim { now, next });
            (Stage::Working(s), answer)
        }
        (Stage::Working(s), Record::OpenLoop(l, guards)) => {
            match s.open(table, l, guards.as_slice()) {
                Ok((o, first)) => (Stage::Looping(o), Ok(first)),
                Err((s, f)) => (Stage::Working(s), Err(f)),
            }
        }
        (Stage::Working(mut s), Record::DrawFor { never, eventuality }) => {
            let answer = s.draw(table, never, eventuality);
            (Stage::Working(s), answer)
        }
        (Stage::Working(mut s), Record::Draw(never)) => {
            let answer = s.draw_alone(table, never);
            (Stage::Working(s), answer)
        }
        (Stage::Working(s), Record::Refute(n)) => {
            let answer = s.refute(table, n, row);
            (Stage::Working(s), answer)
        }
        (
            Stage::Looping(mut o),
            Record::Resolve {
                first,
                second,
                letter,
            },
        ) => {
            let answer = o.infer(table, &Resolution, &[first, second], letter);
            (Stage::Looping(o), answer)
        }
        (Stage::Looping(mut o), Record::Trial(now, next, lines)) => {
            let answer = o.infer(table, &Trial, lines.as_slice(), Claim { now, next });
            (Stage::Looping(o), answer)
        }
        (Stage::Looping(o), Record::CloseLoop(covers)) => match o.close(table, covers.as_slice()) {
            Ok((s, first)) => (Stage::Working(s), Ok(first)),
            Err((o, f)) => (Stage::Looping(o), Err(f)),
        },
        (Stage::Looping(o), Record::Abandon) => match o.abandon(table) {
            Ok((s, last)) => (Stage::Working(s), Ok(last)),
            Err((o, f)) => (Stage::Looping(o), Err(f)),
        },
        (stage, _) => (stage, Err(Fault::of(Refusal::WrongState))),
    }
}
