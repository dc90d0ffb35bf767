ghost use Rattle.std.specs.Prelude.{◌≡◌, ℕ, ◌+◌, [], ◌∷◌, length, MatchOption, position, ◌==◌};
ghost use Rattle.forms.specs.Cuts.{split};

// Where the first `b` stands.
fn find(text: &[u8], b: u8) -> Option<usize>
    ensures { result ≡ position (λ x. x == b) text.now }
{
    text.iter().position(|x| *x == b)
}

// What stands before the first `b`, and what stands after it, if it is there.
pub fn cut(text: &[u8], b: u8) -> (&[u8], Option<&[u8]>)
    ensures { MatchOption result.1 ((split b text.now ≡ result.0.now ∷ []) × (result.0.now ≡ text.now)) (λ s. (split b text.now ≡ result.0.now ∷ split b s.now) × (length result.0.now + 1 + length s.now ≡ length text.now)) }
{
    match find(text, b) {
        Some(end) => (&text[..end], Some(&text[end + 1..])),
        None => (text, None),
    }
}
