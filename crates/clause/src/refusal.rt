ghost use Rattle.std.specs.Prelude.{◌≡◌};
ghost use Rattle.clause.specs.Refusals.{layer_number};

// Every cause of a refusal, numbered in checking order. `specs/Refusals.antt` gives each its number and its layer.
#[derive(Clone, Copy, PartialEq, Eq)]
pub enum Refusal {
    // the table is not 1,000 records, or a lent row not of its length
    WrongSize = 1,
    // a text exceeds 65,536 bytes
    TextTooLong,
    // a text has no bytes
    TextEmpty,
    // the key is unknown
    UnknownKey,
    // the number of fields is wrong
    FieldCount,
    // a field or a line end is not in its form
    FieldForm,
    // the key does not fit the state
    WrongState,
    // a letter is too high
    LetterRange,
    // the count of guards, cited lines or covers is wrong
    WrongCount,
    // a line number is 0 or beyond the last
    NoSuchLine,
    // a named line is not in force
    NotInForce,
    // a named line's kind does not suit the call or the book
    WrongKind,
    // an initial line meets a global line with next
    InitialMeetsNext,
    // a cited line lacks its literal in the set read
    LacksLiteral,
    // a trial has more than 10 atoms
    TooManyAtoms,
    // a choice breaks the claim and no cited line
    Counterexample,
    // a resting line is marked everywhere
    RestingEverywhere,
    // a cover has a next literal, or a literal outside its guard
    CoverMisfit,
    // the two drawn lines differ in their literal
    LiteralsDiffer,
    // lines would pass 1,000, or given ones 200
    NoRoom,
    // the refuted line has a literal
    NotEmpty,
    // a run's size, moment or task is out of range
    OutOfRange,
    // the run breaks a given line
    RunBreaks,
}

// Where a refusal arises, numbered as it is told.
#[derive(Clone, Copy, PartialEq, Eq)]
pub enum Layer {
    Text = 1,
    Clauses,
    Book,
    Run,
    Case,
}

impl Layer {
    pub fn number(self) -> u8
        ensures { result ≡ layer_number self }
    {
        self as u8
    }
}

// Why a call was refused, and where: the line, the field and the detail are 0 where they say nothing.
#[derive(Clone, Copy, PartialEq, Eq)]
pub struct Fault {
    pub refusal: Refusal,
    pub line: u16,
    pub field: u16,
    pub detail: u16,
}
