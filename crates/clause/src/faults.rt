ghost use Rattle.std.specs.Prelude.{◌≡◌};
ghost use Rattle.clause.specs.Refusals.{number_of, layer_of, layer_number, plain, fault_at, placed};

use crate::refusal::{Fault, Layer, Refusal};

impl Refusal {
    pub fn number(self) -> u8
        ensures { result ≡ number_of self }
    {
        self as u8
    }

    pub fn layer(self) -> Layer
        ensures { result ≡ layer_of self }
    {
        match self {
            Refusal::TextTooLong
            | Refusal::TextEmpty
            | Refusal::UnknownKey
            | Refusal::FieldCount
            | Refusal::FieldForm
            | Refusal::WrongState => Layer::Text,
            Refusal::LetterRange | Refusal::WrongCount => Layer::Clauses,
            Refusal::InitialMeetsNext
            | Refusal::LacksLiteral
            | Refusal::TooManyAtoms
            | Refusal::Counterexample => Layer::Book,
            Refusal::OutOfRange | Refusal::RunBreaks => Layer::Run,
            _ => Layer::Case,
        }
    }
}

impl Fault {
    // A fault that says no more than its cause.
    pub fn of(refusal: Refusal) -> Fault
        ensures { result ≡ plain refusal }
    {
        Fault::at(refusal, 0, 0)
    }

    pub fn at(refusal: Refusal, line: u16, detail: u16) -> Fault
        ensures { result ≡ fault_at refusal line detail }
    {
        Fault {
            refusal,
            line,
            field: 0,
            detail,
        }
    }

    // The fault with a line and a field of a text.
    pub fn placed(self, at: u16, field: u16) -> Fault
        ensures { result ≡ placed at field self }
    {
        Fault {
            line: at,
            field,
            ..self
        }
    }

    pub fn number(self) -> u8
        ensures { result ≡ number_of self.refusal }
    {
        self.refusal.number()
    }

    pub fn layer(self) -> u8
        ensures { result ≡ layer_number (layer_of self.refusal) }
    {
        self.refusal.layer().number()
    }
}
