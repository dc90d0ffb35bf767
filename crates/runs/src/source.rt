ghost use Rattle.std.specs.Prelude.{◌≡◌, ℕ, ◌+◌, ◌≤◌};
ghost use Rattle.runs.specs.Source.{Source};
ghost use Rattle.runs.specs.Letters.{letter_answer, Tested};

use clause::refusal::{Fault, Refusal};

// Refuses a letter above 19, and a moment from the end on.
pub(crate) fn tested(k: u8, i: u16, end: u16) -> Result<(), Fault>
    ensures { Tested k i end result }
{
    if k > 19 {
        return Err(Fault::of(Refusal::LetterRange));
    }
    if i >= end {
        return Err(Fault::of(Refusal::OutOfRange));
    }
    Ok(())
}

// Tells a run. Its meaning is a run, a lead-in and a loop, and it answers as these have it; a question changes nothing.
pub trait RunSource {
    ghost meaning: { Self → Source };

    fn lead_in(&self) -> u16
        ensures { result ≡ (meaning self.now).lead };

    fn loop_length(&self) -> u16
        ensures { result ≡ (meaning self.now).loop_length };

    // The letter k at moment i, below lead-in + loop.
    fn letter(&self, k: u8, i: u16) -> Result<bool, Fault>
        ensures { result ≡ letter_answer (meaning self.now) k i };

    ghost turns: { (s : Self) → 1 ≤ (meaning s).loop_length };

    ghost small: { (s : Self) → (meaning s).lead + (meaning s).loop_length ≤ 4096 };

    // From the lead-in on, moments i and i + loop agree.
    ghost agrees: { (s : Self) (i k : ℕ) → (meaning s).lead ≤ i → (meaning s).run (i + (meaning s).loop_length) k ≡ (meaning s).run i k };
}
