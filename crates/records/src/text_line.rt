ghost use Rattle.std.specs.Prelude.{◌≡◌};
ghost use Rattle.forms.specs.Cuts.{split};
ghost use Rattle.records.specs.Fields.{closed as the_closed, no_field, one_field, two_fields, three_fields, four_fields};

use crate::fields::{Form, field, misread};
use clause::refusal::{Fault, Refusal};
use forms::fields::Fields;

// A line of a text without its end, and whether the end is there.
#[derive(Clone, Copy)]
pub struct TextLine<'a> {
    pub text: &'a [u8],
    pub ended: bool,
}

impl<'a> TextLine<'a> {
    // What was read up to a field, which counts as misread where the line end is missing.
    pub fn closed<T: Drop>(self, k: u16, what: T) -> Result<T, Fault>
        ensures { result ≡ the_closed self.entry.ended k what }
    {
        if self.ended {
            Ok(what)
        } else {
            Err(misread(Refusal::FieldForm, k))
        }
    }

    // A function for each number of fields: their types differ from field to field, so no array has them all.
    // A line of its key alone.
    pub fn bare(self) -> Result<(), Fault>
        ensures { result ≡ no_field tt (split 9 self.entry.text.now) self.entry.ended }
    {
        let mut fields = Fields::of(self.text);
        let (Some(_), None) = (fields.next(), fields.next()) else {
            return Err(misread(Refusal::FieldCount, 0));
        };
        self.closed(2, ())
    }

    // A key, and one field after it.
    pub fn one<A: Form + Drop>(self) -> Result<A, Fault>
        ensures { result ≡ one_field A.form (λ a. a) (split 9 self.entry.text.now) self.entry.ended }
    {
        let mut fields = Fields::of(self.text);
        let (Some(_), Some(a), None) = (fields.next(), fields.next(), fields.next()) else {
            return Err(misread(Refusal::FieldCount, 0));
        };
        let a = field(a, 2)?;
        self.closed(3, a)
    }

    // A key, and two fields after it.
    pub fn two<A: Form + Drop, B: Form + Drop>(self) -> Result<(A, B), Fault>
        ensures { result ≡ two_fields A.form B.form (λ a b. (a, b)) (split 9 self.entry.text.now) self.entry.ended }
    {
        let mut fields = Fields::of(self.text);
        let (Some(_), Some(a), Some(b), None) = (
            fields.next(),
            fields.next(),
            fields.next(),
            fields.next(),
        ) else {
            return Err(misread(Refusal::FieldCount, 0));
        };
        let a = field(a, 2)?;
        let b = field(b, 3)?;
        self.closed(4, (a, b))
    }

    // A key, and three fields after it.
    pub fn three<A: Form + Drop, B: Form + Drop, C: Form + Drop>(self) -> Result<(A, B, C), Fault>
        ensures { result ≡ three_fields A.form B.form C.form (λ a b c. (a, b, c)) (split 9 self.entry.text.now) self.entry.ended }
    {
        let mut fields = Fields::of(self.text);
        let (Some(_), Some(a), Some(b), Some(c), None) = (
            fields.next(),
            fields.next(),
            fields.next(),
            fields.next(),
            fields.next(),
        ) else {
            return Err(misread(Refusal::FieldCount, 0));
        };
        let a = field(a, 2)?;
        let b = field(b, 3)?;
        let c = field(c, 4)?;
        self.closed(5, (a, b, c))
    }

    // A key, and four fields after it.
    pub fn four<A: Form + Drop, B: Form + Drop, C: Form + Drop, D: Form + Drop>(
        self,
    ) -> Result<(A, B, C, D), Fault>
        ensures { result ≡ four_fields A.form B.form C.form D.form (λ a b c d. (a, b, c, d)) (split 9 self.entry.text.now) self.entry.ended }
    {
        let mut fields = Fields::of(self.text);
        let (Some(_), Some(a), Some(b), Some(c), Some(d), None) = (
            fields.next(),
            fields.next(),
            fields.next(),
            fields.next(),
            fields.next(),
            fields.next(),
        ) else {
            return Err(misread(Refusal::FieldCount, 0));
        };
        let a = field(a, 2)?;
        let b = field(b, 3)?;
        let c = field(c, 4)?;
        let d = field(d, 5)?;
        self.closed(6, (a, b, c, d))
    }
}
