ghost use Rattle.std.specs.Prelude.{◌≡◌, ℕ, ◌≤◌, min, take};
ghost use Rattle.forms.specs.Cuts.{split};
ghost use Rattle.forms.specs.Forms.{rising, number_of};
ghost use Rattle.forms.specs.Lists.{numbers_in, nine_of, with_number, with_letter, no_letters, letters_in};

use crate::literals::is_dot;
use crate::parts::{fold_parts, rises};

// The first nine numbers of a list, zeros after the last: nine stand for nine or more.
// Nine places and a count, since the library allocates nothing, and a `Vec` would; `Guards` is like it, but no struct may stand over an array of its parameter.
#[derive(Clone, Copy)]
pub struct Numbers {
    pub at: [u16; 9],
    pub count: u8,
}

// The letters of a world, from 0 to 19, as a mask, and the first that is above.
#[derive(Clone, Copy)]
pub struct Letters {
    pub mask: u32,
    pub over: Option<u16>,
}

impl Numbers {
    const NONE: Numbers = Numbers {
        at: [0; 9],
        count: 0,
    };

    // One number more, where there is a place for it.
    fn with(self, n: u16) -> Numbers
        ensures { result ≡ with_number self n }
    {
        let mut numbers = self;
        if numbers.count < 9 {
            numbers.at[usize::from(numbers.count)] = n;
            numbers.count += 1;
        }
        numbers
    }

    // The numbers, without the places after them.
    pub fn as_slice(&self) -> &[u16]
        ensures { result.now ≡ take (min self.now.count 9) self.now.at }
    {
        &self.at[..usize::from(self.count.min(9))]
    }
}

impl Letters {
    const NONE: Letters = Letters {
        mask: 0,
        over: None,
    };

    // One letter more.
    fn with(self, n: u16) -> Letters
        ensures { result ≡ with_letter self n }
    {
        let Letters { mask, over } = self;
        if n < 20 {
            Letters {
                mask: mask | 1 << n,
                over,
            }
        } else {
            Letters {
                mask,
                over: over.or(Some(n)),
            }
        }
    }
}

// A field of numbers, parted by single spaces, or `.` for none.
pub fn number_list(field: &[u8]) -> Option<Numbers>
    ensures { result ≡ nine_of (numbers_in field.now) }
{
    if is_dot(field) {
        return Some(Numbers::NONE);
    }
    fold_parts(
        field,
        Numbers::NONE,
        |so_far: Numbers, n: u16| Some(so_far.with(n)),
    )
}

// The letters of a field, parted by single spaces, each above the one before.
fn rising_letters(field: &[u8]) -> Option<Letters>
    ensures { result ≡ rising (λ n. n) with_letter number_of no_letters (split 32 field.now) }
{
    let found = fold_parts(
        field,
        (Letters::NONE, None),
        |(so_far, before): (Letters, Option<u32>), n: u16| {
            let rank = u32::from(n);
            rises(before, rank).then(|| (so_far.with(n), Some(rank)))
        },
    );
    Some(found?.0)
}

// A field of letters without signs, each above the one before, or `.` for none.
pub fn letter_list(field: &[u8]) -> Option<Letters>
    ensures { result ≡ letters_in field.now }
{
    if is_dot(field) {
        return Some(Letters::NONE);
    }
    rising_letters(field)
}
