ghost use Rattle.std.specs.Prelude.{◌≡◌, ℕ, List, Option, length};
ghost use Rattle.forms.specs.Cuts.{split};
ghost use Rattle.forms.specs.Forms.{Leads, lead, sole as the_sole, through, rises as the_rises, number_of, literal_of};

use crate::literals::{Written, lead_literal};
use crate::numbers::lead_number;

// What a part of a field says; the parts of a field are parted by single spaces.
pub trait Part: Sized {
    ghost form: { List ℕ → Option Self };

    // What the part before the first space says, and what stands after that space.
    fn lead(text: &[u8]) -> Option<(Self, Option<&[u8]>)>
        ensures { Leads (λ s. s.now) (lead form (split 32 text.now)) (length text.now) result };
}

impl Part for u16 {
    ghost form = { number_of };

    fn lead(text: &[u8]) -> Option<(u16, Option<&[u8]>)> {
        lead_number(text)
    }
}

impl Part for Written {
    ghost form = { literal_of };

    fn lead(text: &[u8]) -> Option<(Written, Option<&[u8]>)> {
        lead_literal(text)
    }
}

// A field of one part.
pub(crate) fn sole<T: Part + Drop>(field: &[u8]) -> Option<T>
    ensures { result ≡ the_sole T.form (split 32 field.now) }
{
    let (part, after) = T::lead(field)?;
    after.is_none().then_some(part)
}

// A state taken through the parts of a field, one after another.
pub(crate) fn fold_parts<T: Part, S: Drop, F: Fn(S, T) -> Option<S> + Drop>(
    field: &[u8],
    start: S,
    step: F,
) -> Option<S>
    requires { F.IsAlwaysCallable step }
    ensures { (f : S → T → Option S) → ((s : S) (x : T) (r : Option S) → F.post step s x r → r ≡ f s x) → result ≡ through f T.form start (split 32 field.now) }
{
    // By hand: where a part ends is known once it is read, so what is left of the text comes out of each step.
    let mut so_far = start;
    let mut rest = field;
    loop {
        let (part, after) = T::lead(rest)?;
        so_far = step(so_far, part)?;
        let Some(next) = after else {
            return Some(so_far);
        };
        rest = next;
    }
}

// Is the rank above the one before, where there is one?
pub(crate) fn rises(before: Option<u32>, rank: u32) -> bool
    ensures { result ≡ the_rises before rank }
{
    before.is_none_or(|last| last < rank)
}
