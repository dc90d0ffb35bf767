ghost use Rattle.std.specs.Prelude.{◌≡◌, ℕ, ◌<◌, ◌≤◌, length};
ghost use Rattle.clause.specs.Meaning.{none};
ghost use Rattle.forms.specs.Cuts.{split};
ghost use Rattle.forms.specs.Forms.{Leads, lead, signed as the_signed, literal_of, literal_in, with_literal, kept as the_kept, rank as the_rank, rising, is_dot as the_dot, set_in};

use crate::numbers::lead_number;
use crate::parts::{fold_parts, rises, sole};
use clause::syntax::{LitSet, Literal};

// A literal as it is written: its letter may be one that a `Literal` has no room for, and sets rise by what is written.
#[derive(Clone, Copy)]
pub struct Written {
    pub letter: u16,
    pub positive: bool,
}

fn signed(positive: bool, text: &[u8]) -> Option<(Written, Option<&[u8]>)>
    ensures { Leads (λ s. s.now) (lead (the_signed positive) (split 32 text.now)) (length text.now) result }
{
    let (letter, rest) = lead_number(text)?;
    Some((Written { letter, positive }, rest))
}

// The literal before the first space, and what stands after that.
pub fn lead_literal(text: &[u8]) -> Option<(Written, Option<&[u8]>)>
    ensures { Leads (λ s. s.now) (lead literal_of (split 32 text.now)) (length text.now) result }
{
    match text {
        [b'+', rest @ ..] => signed(true, rest),
        [b'-', rest @ ..] => signed(false, rest),
        _ => None,
    }
}

impl Written {
    // A letter above 63, which no call takes, is kept as 63.
    pub fn kept(self) -> Literal
        ensures exact { result ≡ the_kept self }
        ensures small { result.letter < 64 }
    {
        Literal {
            letter: self.letter.min(63) as u8,
            positive: self.positive,
        }
    }

    // The order in a set: by letter, `+` before `-`.
    fn rank(self) -> u32
        ensures exact { result ≡ the_rank self }
        ensures small { result ≤ 131071 }
    {
        2 * u32::from(self.letter) + u32::from(!self.positive)
    }
}

// A field of one literal.
pub fn literal(field: &[u8]) -> Option<Written>
    ensures { result ≡ literal_in field.now }
{
    sole(field)
}

// The literals of a field, parted by single spaces, each above the one before.
fn literals(field: &[u8]) -> Option<LitSet>
    ensures { result ≡ rising the_rank with_literal literal_of none (split 32 field.now) }
{
    let found = fold_parts(
        field,
        (LitSet::NONE, None),
        |(so_far, before): (LitSet, Option<u32>), w: Written| {
            rises(before, w.rank()).then(|| (so_far.union(LitSet::of(w.kept())), Some(w.rank())))
        },
    );
    Some(found?.0)
}

// Is the field `.`, for none?
pub fn is_dot(field: &[u8]) -> bool
    ensures { result ≡ the_dot field.now }
{
    matches!(field, [b'.'])
}

// A field of a set of literals.
pub fn set(field: &[u8]) -> Option<LitSet>
    ensures { result ≡ set_in field.now }
{
    if is_dot(field) {
        Some(LitSet::NONE)
    } else {
        literals(field)
    }
}
