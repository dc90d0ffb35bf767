ghost use Rattle.std.specs.Prelude.{◌≡◌, IfOk, Some, string_bytes};
ghost use Rattle.reasons.specs.Sentences.{place_of, reason_of, sentence_of};

use clause::refusal::{Fault, Refusal};
use std::alloc::{AllocError, Global};
use std::fmt;

// What a refusal says, in words.
pub fn reason(refusal: Refusal) -> &'static str
    ensures { result.now ≡ reason_of refusal }
{
    match refusal {
        Refusal::WrongSize => "the table or the row has the wrong size",
        Refusal::TextTooLong => "the text is longer than 65536 bytes",
        Refusal::TextEmpty => "the text has no bytes",
        Refusal::UnknownKey => "the key is unknown",
        Refusal::FieldCount => "the number of fields is wrong",
        Refusal::FieldForm => "a field or the line end is not in its form",
        Refusal::WrongState => "the key does not fit here",
        Refusal::LetterRange => "a letter is too high",
        Refusal::WrongCount => "the number of guards, cited lines or covers is wrong",
        Refusal::NoSuchLine => "no line has this number",
        Refusal::NotInForce => "a named line is not in force",
        Refusal::WrongKind => "the kind of a named line does not suit",
        Refusal::InitialMeetsNext => "an initial line meets a global line with a next set",
        Refusal::LacksLiteral => "a cited line lacks its literal",
        Refusal::TooManyAtoms => "the trial has more than 10 atoms",
        Refusal::Counterexample => "a choice breaks the claim and no cited line",
        Refusal::RestingEverywhere => "a resting line would be used at every moment",
        Refusal::CoverMisfit => "a cover does not fit its guard",
        Refusal::LiteralsDiffer => "the two drawn lines differ in their literal",
        Refusal::NoRoom => "there is no room for more lines",
        Refusal::NotEmpty => "the refuted line has a literal",
        Refusal::OutOfRange => "a size or a task of the run is out of range",
        Refusal::RunBreaks => "the run breaks a given line",
    }
}

// Where a fault lies, as it stands before the reason.
#[derive(Clone, Copy)]
struct Place(Fault);

impl fmt::Display for Place {
    ghost output = { λ p. Some (place_of p.0) };

    fn fmt<W: fmt::Write>(&self, f: &mut fmt::Formatter<W>) -> fmt::Result {
        let fault = self.0;
        match fault.refusal {
            Refusal::RunBreaks => write!(f, "line {}, moment {}: ", fault.line, fault.detail),
            Refusal::CoverMisfit => write!(f, "line {}, guard {}: ", fault.line, fault.detail),
            _ if fault.line == 0 => Ok(()),
            _ if fault.field == 0 => write!(f, "line {}: ", fault.line),
            _ => write!(f, "line {}, field {}: ", fault.line, fault.field),
        }
    }
}

// One sentence about a fault.
#[derive(Clone, Copy)]
pub struct Explained(pub Fault);

impl fmt::Display for Explained {
    ghost output = { λ e. Some (sentence_of e.0) };

    fn fmt<W: fmt::Write>(&self, f: &mut fmt::Formatter<W>) -> fmt::Result {
        let place = Place(self.0);
        let why = reason(self.0.refusal);
        write!(f, "{place}{why}")
    }
}

// One sentence about a fault, as a text.
pub fn sentence(heap: Global, f: Fault) -> Result<String, AllocError>
    ensures { IfOk result (λ s. string_bytes s ≡ sentence_of f) }
{
    Explained(f).to_string(heap)
}

#[cfg(test)]
mod tests {
    use super::*;
    use std::test::Fail;

    #[test]
    fn a_broken_line_is_told_with_its_moment(rt: HostRuntime) -> Result<(), Fail> {
        let fault = Fault {
            refusal: Refusal::RunBreaks,
            line: 2,
            field: 0,
            detail: 10,
        };
        let why = sentence(rt.alloc(), fault)?;
        assert_eq!(rt;
            why.as_str(),
            "line 2, moment 10: the run breaks a given line"
        );
        Ok(())
    }
}
