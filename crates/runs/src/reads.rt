ghost use Rattle.std.specs.Prelude.{◌≡◌, ℕ, ◌+◌, ◌<◌, ◌≤◌, slice_index};
ghost use Rattle.clause.specs.Bit.{In};
ghost use Rattle.clause.specs.Meaning.{waited as waited_for};
ghost use Rattle.clause.specs.Sets.{literal_of};
ghost use Rattle.runs.specs.Source.{Source, end_of};
ghost use Rattle.runs.specs.Moments.{Read, asks, noted, seen, comes_after as the_comes_after, Spans, Noted, NotedBelow};

use crate::horizon::true_in;
use crate::moments::{Masks, Moments};
use crate::source::RunSource;
use clause::sets::{bit_at, mask};
use clause::syntax::{Clause, Literal};

// The letters that a clause asks for.
pub fn asks(clause: Clause) -> u64
    ensures { (literal_of clause).letter < 64 → result ≡ asks clause }
{
    match clause {
        Clause::Initial(n) => n.letters(),
        Clause::Global(n, x) => n.letters() | x.letters(),
        Clause::Eventuality(n, l) | Clause::Never(n, l) => n.letters() | mask(l.letter),
        Clause::Assumption(x) => x.letters(),
    }
}

// The letter k at a moment of the lead-in or the loop.
fn truth<R: RunSource>(source: &R, k: u8, i: u16) -> bool
    requires plain { k < 20 }
    requires early { i < end_of (R.meaning source.now) }
    ensures { result ≡ (R.meaning source.now).run i k }
{
    source.letter(k, i).unwrap_or(false)
}

// The literal that a waiting letter waits for.
fn waited(k: u8) -> Literal
    requires low { 20 ≤ k }
    requires high { k < 60 }
    ensures exact { result ≡ waited_for k }
    ensures plain { result.letter < 20 }
{
    let positive = k < 40;
    let letter = if positive { k - 20 } else { k - 40 };
    Literal { letter, positive }
}

// Is a literal that is last true before h true at a later moment than i?
fn comes_after(h: Option<u16>, i: u16) -> bool
    requires { i < 4096 }
    ensures { result ≡ the_comes_after h i }
{
    h.is_none_or(|h| i + 1 < h)
}

impl Masks {
    // Notes the letter k at each moment below the end at which the test holds.
    fn note<F: Fn(u16, u64) -> bool>(&mut self, end: u16, k: u8, test: F)
        requires room { end ≤ 4096 }
        requires letter { k < 64 }
        requires each { (i world : ℕ) → i < end → F.pre test i world }
        ensures { Noted (F.post test) end k self.old.at self.new.at }
    {
        let m = mask(k);
        // By the moment and not by `iter_mut`: a source then tests no moment against its end once more, at each of them.
        for i in 0..end {
            if test(i, self.at[usize::from(i)]) {
                self.at[usize::from(i)] |= m;
            }
        }
    }
}

impl Moments {
    // Notes the plain letter k in each world where it is true.
    fn note_plain<R: RunSource>(&mut self, source: &R, k: u8)
        requires plain { k < 20 }
        requires spans { Spans (R.meaning source.now) self.old }
        ensures spans { Spans (R.meaning source.now) self.new }
        ensures noted { (i : ℕ) → i < self.old.end → slice_index self.new.worlds.at i ≡ noted ((R.meaning source.now).run i k) k (slice_index self.old.worlds.at i) }
    {
        let end = source.lead_in() + source.loop_length();
        self.worlds.note(end, k, |i, _| truth(source, k, i));
    }

    // The moments of a source, with the plain letters asked for.
    fn plain<R: RunSource>(source: &R, asked: u64) -> Moments
        ensures spans { Spans (R.meaning source.now) result }
        ensures seen { (i : ℕ) → i < end_of (R.meaning source.now) → slice_index result.worlds.at i ≡ seen (R.meaning source.now).run asked i 20 }
    {
        let lead = source.lead_in();
        let end = lead + source.loop_length();
        let mut moments = Moments {
            worlds: Masks { at: [0; 4096] },
            lead,
            end,
        };
        for k in 0..20u8 {
            if bit_at(asked, k) {
                moments.note_plain(source, k);
            }
        }
        moments
    }

    // Notes the waiting letter k in each world where it is true.
    fn note_waiting(&mut self, k: u8)
        requires low { 20 ≤ k }
        requires high { k < 60 }
        ensures { (x : Source) (asked : ℕ) → In k asked → NotedBelow x asked k self.old → NotedBelow x asked (k + 1) self.new }
    {
        let l = waited(k);
        let h = self.horizon(l);
        let waits = |i, world| !true_in(world, l) && comes_after(h, i);
        self.worlds.note(self.end, k, waits);
    }

    // Notes the waiting letters asked for.
    fn note_all_waiting(&mut self, asked: u64)
        ensures { (x : Source) → NotedBelow x asked 20 self.old → NotedBelow x asked 60 self.new }
    {
        for k in 20..60u8 {
            if bit_at(asked, k) {
                self.note_waiting(k);
            }
        }
    }

    // The worlds of a source, read for the letters asked for.
    pub fn read<R: RunSource>(source: &R, asked: u64) -> Moments
        ensures { Read (R.meaning source.now) asked result }
    {
        let mut moments = Moments::plain(source, asked | (asked >> 20 | asked >> 40));
        moments.note_all_waiting(asked);
        moments
    }
}
