ghost use Rattle.std.specs.Prelude.{◌≡◌, ℕ, List, Option};
ghost use Rattle.forms.specs.Forms.{number_in, set_in};
ghost use Rattle.forms.specs.Lists.{letters_in};
ghost use Rattle.records.specs.Fields.{misread as the_misread, formed, literal_of, letter_of, numbers_of};

use clause::refusal::{Fault, Refusal};
use clause::syntax::{LitSet, Literal};
use forms::lists::{Letters, Numbers, letter_list, number_list};
use forms::literals::{literal, set};
use forms::numbers::number;

// A fault of a text's form, with its field.
pub fn misread(refusal: Refusal, field: u16) -> Fault
    ensures { result ≡ the_misread refusal field }
{
    Fault::of(refusal).placed(0, field)
}

// What a field says, where it is in its form.
pub trait Form: Sized {
    ghost form: { List ℕ → Option Self };

    fn read(text: &[u8]) -> Option<Self>
        ensures { result ≡ form text.now };
}

impl Form for LitSet {
    ghost form = { set_in };

    fn read(text: &[u8]) -> Option<LitSet> {
        set(text)
    }
}

impl Form for Literal {
    ghost form = { literal_of };

    fn read(text: &[u8]) -> Option<Literal> {
        literal(text).map(|w| w.kept())
    }
}

impl Form for u16 {
    ghost form = { number_in };

    fn read(text: &[u8]) -> Option<u16> {
        number(text)
    }
}

// A letter above 63, which no call takes, is kept as 63.
impl Form for u8 {
    ghost form = { letter_of };

    fn read(text: &[u8]) -> Option<u8> {
        Some(number(text)?.min(63) as u8)
    }
}

impl Form for Numbers {
    ghost form = { numbers_of };

    fn read(text: &[u8]) -> Option<Numbers> {
        number_list(text)
    }
}

impl Form for Letters {
    ghost form = { letters_in };

    fn read(text: &[u8]) -> Option<Letters> {
        letter_list(text)
    }
}

// The field k of a line, which has to be in its form.
pub fn field<T: Form>(text: &[u8], k: u16) -> Result<T, Fault>
    ensures { result ≡ formed k (T.form text.now) }
{
    T::read(text).ok_or(misread(Refusal::FieldForm, k))
}
