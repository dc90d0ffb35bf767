ghost use Rattle.std.specs.Prelude.{◌≡◌, ℕ, ◌+◌, ◌-◌, ◌≤◌, List, length};
ghost use Rattle.protocol.specs.Calls.{infer as the_infer, open_loop, close as the_close, abandon as the_abandon};
ghost use Rattle.protocol.specs.Causes.{SomeOver};
ghost use Rattle.case.specs.View.{view_loop, guards_in};
ghost use Rattle.case.specs.Calling.{Called, answer_of};
ghost use Rattle.case.specs.Looping.{LoopOf, Opened, OpenChecked, CloseChecked, Closed, Abandoned};

use crate::stage::{Body, OpenLoop, Sealed};
use clause::refusal::{Fault, Refusal};
use clause::syntax::{LitSet, Literal};
use drafts::infers::inferred;
use lines::covers::some_over;
use lines::line::Line;
use lines::named::Named;
use lines::places::first_8;
use lines::writes::{assume, blank_between, conclude};
use rules::book::RuleBook;

impl Body {
    // Tests an open but for the table's size.
    fn check_open(&self, l: Literal, guards: &[LitSet]) -> Result<(), Fault>
        ensures { OpenChecked self.now l guards.now result }
    {
        if l.letter > 19 || some_over(guards) {
            return Err(Fault::of(Refusal::LetterRange));
        }
        if !(1..=8).contains(&guards.len()) {
            return Err(Fault::of(Refusal::WrongCount));
        }
        if usize::from(self.last) + guards.len() > 1000 {
            return Err(Fault::of(Refusal::NoRoom));
        }
        Ok(())
    }

    // The body with some lines more.
    fn grown(self, count: u16) -> Body
        requires { self.last + count ≤ 1000 }
        ensures last { result.last ≡ self.last + count }
        ensures given { result.given ≡ self.given }
    {
        Body {
            last: self.last + count,
            given: self.given,
        }
    }
}

impl Sealed {
    fn opened(self, l: Literal, guards: &[LitSet]) -> OpenLoop
        requires few { length guards.now ≤ 8 }
        requires room { self.body.last + length guards.now ≤ 1000 }
        requires plain { l.letter ≤ 19 }
        requires narrow { SomeOver guards.now → ⊥ }
        ensures { LoopOf self l guards.now result }
    {
        let Sealed { body } = self;
        let first = body.last + 1;
        let body = body.grown(guards.len() as u16);
        OpenLoop {
            body,
            first,
            literal: l,
            guards: first_8(guards, LitSet::NONE),
            count: guards.len() as u8,
        }
    }

    // Opens a loop for a plain literal: adds an assumption for each of its 1 to 8 guards, and answers the number of the first.
    pub fn open(
        self,
        table: &mut [Line],
        l: Literal,
        guards: &[LitSet],
    ) -> Result<(OpenLoop, u16), (Sealed, Fault)>
        ensures { Opened (open_loop l guards.now) result self table.old table.new }
    {
        let Some(table) = table.as_mut_array::<1000>() else {
            return Err((self, Fault::of(Refusal::WrongSize)));
        };
        match self.body.check_open(l, guards) {
            Err(f) => Err((self, f)),
            Ok(()) => {
                assume(table, self.body.last, l, guards);
                let first = self.body.last + 1;
                let open = self.opened(l, guards);
                Ok((open, first))
            }
        }
    }
}

impl OpenLoop {
    fn guard_list(&self) -> &[LitSet]
        ensures exact { result.now ≡ guards_in self.now }
        ensures few { length result.now ≤ 8 }
    {
        &self.guards[..usize::from(self.count)]
    }

    // Adds the conclusion of a rule book.
    pub fn infer<B: RuleBook>(
        &mut self,
        table: &mut [Line],
        book: &B,
        cites: &[u16],
        evidence: B::Evidence,
    ) -> Result<u16, Fault>
        ensures { Called view_loop (the_infer (B.meaning book.now evidence) cites.now) (answer_of result) self.old table.old self.new table.new }
    {
        let first = Some(self.first);
        self.body.adding(table, |lines| inferred(lines, first, book, cites, evidence))
    }

    // Tests a close but for the table's size.
    fn check_close(&self, lines: &[Line], covers: &[u16]) -> Result<(), Fault>
        ensures { CloseChecked self.now lines.now covers.now result }
    {
        let guards = self.guard_list();
        if covers.len() != guards.len() {
            return Err(Fault::of(Refusal::WrongCount));
        }
        let named = Named {
            lines,
            numbers: covers,
        };
        named.check(Some(self.first))?;
        if named.some_not_global() {
            return Err(Fault::of(Refusal::WrongKind));
        }
        if let Some(place) = named.unfit(guards) {
            return Err(Fault::at(Refusal::CoverMisfit, 0, place));
        }
        if lines.len() + covers.len() > 1000 {
            return Err(Fault::of(Refusal::NoRoom));
        }
        Ok(())
    }

    fn closed(self, count: u16) -> Sealed
        requires { self.body.last + count ≤ 1000 }
        ensures last { result.body.last ≡ self.body.last + count }
        ensures given { result.body.given ≡ self.body.given }
    {
        // Each part is named: a loop that is not taken apart whole would be let go.
        let OpenLoop {
            body,
            first: _,
            literal: _,
            guards: _,
            count: _,
        } = self;
        let body = body.grown(count);
        Sealed { body }
    }

    // Ends the loop with one cover for each guard: adds a never line for each guard, and answers the number of the first.
    pub fn close(
        self,
        table: &mut [Line],
        covers: &[u16],
    ) -> Result<(Sealed, u16), (OpenLoop, Fault)>
        ensures { Closed (the_close covers.now) result self table.old table.new }
    {
        let Some(table) = table.as_mut_array::<1000>() else {
            return Err((self, Fault::of(Refusal::WrongSize)));
        };
        match self.check_close(self.body.lines(table), covers) {
            Err(f) => Err((self, f)),
            Ok(()) => {
                conclude(
                    table,
                    self.body.last,
                    self.literal,
                    covers,
                    self.guard_list(),
                );
                let first = self.body.last + 1;
                let sealed = self.closed(covers.len() as u16);
                Ok((sealed, first))
            }
        }
    }

    fn taken_back(self) -> Sealed
        ensures last { result.body.last ≡ self.first - 1 }
        ensures given { result.body.given ≡ self.body.given }
    {
        let OpenLoop {
            body,
            first,
            literal: _,
            guards: _,
            count: _,
        } = self;
        let body = Body {
            last: first - 1,
            given: body.given,
        };
        Sealed { body }
    }

    // Ends the loop without a result: removes every line since it was opened, and answers the last number.
    pub fn abandon(self, table: &mut [Line]) -> Result<(Sealed, u16), (OpenLoop, Fault)>
        ensures { Abandoned result self table.old table.new }
    {
        let Some(table) = table.as_mut_array::<1000>() else {
            return Err((self, Fault::of(Refusal::WrongSize)));
        };
        let last = self.first - 1;
        blank_between(table, last, self.body.last);
        let sealed = self.taken_back();
        Ok((sealed, last))
    }
}
