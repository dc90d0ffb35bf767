ghost use Rattle.std.specs.Prelude.{◌≡◌, ℕ, ◌<◌, length};
ghost use Rattle.forms.specs.Cuts.{split};
ghost use Rattle.forms.specs.Forms.{Leads, lead, alone as the_alone, digits_of, number_of, number_in};

use crate::parts::sole;

// The number n, where its part of the text ends here: what stands after the space, if there is one.
fn alone(n: u16, text: &[u8]) -> Option<(u16, Option<&[u8]>)>
    ensures { Leads (λ s. s.now) (lead (the_alone n) (split 32 text.now)) (length text.now) result }
{
    match text {
        [] => Some((n, None)),
        [b' ', rest @ ..] => Some((n, Some(rest))),
        _ => None,
    }
}

// The number that goes on from `before`, and what stands after its space.
fn digits(before: u16, text: &[u8]) -> Option<(u16, Option<&[u8]>)>
    requires { before < 10000 }
    ensures { Leads (λ s. s.now) (lead (digits_of before) (split 32 text.now)) (length text.now) result }
{
    match text {
        [d @ b'0'..=b'9', rest @ ..] if before < 1000 => digits(
            before * 10 + u16::from(*d - b'0'),
            rest,
        ),
        _ => alone(before, text),
    }
}

// The number before the first space, and what stands after that.
pub fn lead_number(text: &[u8]) -> Option<(u16, Option<&[u8]>)>
    ensures { Leads (λ s. s.now) (lead number_of (split 32 text.now)) (length text.now) result }
{
    match text {
        [b'0', rest @ ..] => alone(0, rest),
        [d @ b'1'..=b'9', rest @ ..] => digits(u16::from(*d - b'0'), rest),
        _ => None,
    }
}

// A field of one number.
pub fn number(field: &[u8]) -> Option<u16>
    ensures { result ≡ number_in field.now }
{
    sole(field)
}
