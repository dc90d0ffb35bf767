ghost use Rattle.std.specs.Prelude.{◌≡◌};
ghost use Rattle.protocol.specs.Calls.{infer as the_infer, wait_line as the_wait_line, wait_literal as the_wait_literal, draw as the_draw, draw_alone as the_draw_alone};
ghost use Rattle.case.specs.View.{view_sealed};
ghost use Rattle.case.specs.Calling.{Called, answer_of};

use crate::stage::Sealed;
use clause::refusal::Fault;
use clause::syntax::Literal;
use drafts::draws::{drawn, drawn_alone};
use drafts::infers::inferred;
use drafts::waits::{waited, waits};
use lines::line::Line;
use rules::book::RuleBook;

impl Sealed {
    // The number of the last line.
    pub fn last(&self) -> u16
        ensures { result ≡ self.now.body.last }
    {
        self.body.last
    }

    // Adds what an eventuality line becomes with the letter that waits for its literal.
    pub fn wait_line(&mut self, table: &mut [Line], n: u16) -> Result<u16, Fault>
        ensures { Called view_sealed (the_wait_line n) (answer_of result) self.old table.old self.new table.new }
    {
        self.body.adding(table, |lines| waited(lines, n))
    }

    // Adds that what waits for the literal now, waits for it next or has it next.
    pub fn wait_literal(&mut self, table: &mut [Line], l: Literal) -> Result<u16, Fault>
        ensures { Called view_sealed (the_wait_literal l) (answer_of result) self.old table.old self.new table.new }
    {
        self.body.adding(table, |_| waits(l))
    }

    // Adds what a never line and an eventuality line with its literal come to.
    pub fn draw(&mut self, table: &mut [Line], n: u16, m: u16) -> Result<u16, Fault>
        ensures { Called view_sealed (the_draw n m) (answer_of result) self.old table.old self.new table.new }
    {
        self.body.adding(table, |lines| drawn(lines, n, m))
    }

    // Adds what a never line comes to alone, with the letter that waits for its literal.
    pub fn draw_alone(&mut self, table: &mut [Line], n: u16) -> Result<u16, Fault>
        ensures { Called view_sealed (the_draw_alone n) (answer_of result) self.old table.old self.new table.new }
    {
        self.body.adding(table, |lines| drawn_alone(lines, n))
    }

    // Adds the conclusion of a rule book.
    pub fn infer<B: RuleBook>(
        &mut self,
        table: &mut [Line],
        book: &B,
        cites: &[u16],
        evidence: B::Evidence,
    ) -> Result<u16, Fault>
        ensures { Called view_sealed (the_infer (B.meaning book.now evidence) cites.now) (answer_of result) self.old table.old self.new table.new }
    {
        self.body.adding(table, |lines| inferred(lines, None, book, cites, evidence))
    }
}
