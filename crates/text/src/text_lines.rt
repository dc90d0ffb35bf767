ghost use Rattle.std.specs.Prelude.{◌≡◌, length};
ghost use Rattle.text.specs.Texts.{LengthChecked};

use clause::refusal::{Fault, Refusal};
use forms::cuts::cut;
use records::text_line::TextLine;

// A line of a text, and its number.
#[derive(Clone, Copy)]
pub struct NumberedLine<'t> {
    pub number: u16,
    pub line: TextLine<'t>,
}

// The lines of a text that are still to come, and the number of the first of them.
#[derive(Clone, Copy)]
pub struct TextLines<'t> {
    rest: &'t [u8],
    pub number: u16,
}

impl<'t> TextLines<'t> {
    // The lines of a text, from line 1.
    pub fn of(text: &'t [u8]) -> TextLines<'t>
        ensures rest { result.rest.now ≡ text.now }
        ensures number { result.number ≡ 1 }
    {
        TextLines {
            rest: text,
            number: 1,
        }
    }
}

impl<'t> Iterator for TextLines<'t> {
    ghost use Rattle.std.specs.Prelude.{length};
    ghost use Rattle.std.specs.Iterator.{at_most};
    ghost use Rattle.text.specs.Texts.{NextLine};

    type Item = NumberedLine<'t>;

    ghost next_gives = { NextLine };

    ghost remaining = { λ s. at_most (length s.rest.now) };

    fn next(&mut self) -> Option<NumberedLine<'t>> {
        if self.rest.is_empty() {
            return None;
        }
        let number = self.number;
        self.number = number.saturating_add(1);
        let (text, after) = cut(self.rest, b'\n');
        self.rest = after.unwrap_or(&[]);
        let line = TextLine {
            text,
            ended: after.is_some(),
        };
        Some(NumberedLine { number, line })
    }
}

// A text that is too long or empty is refused before its lines.
pub fn check_length(text: &[u8]) -> Result<(), Fault>
    ensures { LengthChecked (length text.now) result }
{
    if text.len() > 65536 {
        return Err(Fault::of(Refusal::TextTooLong));
    }
    if text.is_empty() {
        return Err(Fault::of(Refusal::TextEmpty));
    }
    Ok(())
}
