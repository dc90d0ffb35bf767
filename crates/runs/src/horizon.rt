ghost use Rattle.std.specs.Prelude.{◌≡◌};
ghost use Rattle.runs.specs.Moments.{true_in as the_true_in, LastTrue, worlds_of};

use crate::moments::Moments;
use clause::sets::bit_at;
use clause::syntax::Literal;

// Is the literal true in the world?
pub(crate) fn true_in(world: u64, l: Literal) -> bool
    ensures { result ≡ the_true_in world l }
{
    bit_at(world, l.letter) == l.positive
}

impl Moments {
    // From which moment on the literal is untrue: none where it is true somewhere in the loop.
    pub(crate) fn horizon(&self, l: Literal) -> Option<u16>
        ensures { LastTrue (worlds_of self.now) self.now.lead l result }
    {
        let told = &self.worlds.at[..usize::from(self.end)];
        let Some(last) = told.iter().rposition(|world| true_in(*world, l)) else {
            return Some(0);
        };
        (last < usize::from(self.lead)).then_some(last as u16 + 1)
    }
}
