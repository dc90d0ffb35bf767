ghost use Rattle.std.specs.Prelude.{◌≡◌};
ghost use Rattle.records.specs.Guards.{no_guards, guards_from};

use crate::fields::field;
use crate::record::Guards;
use clause::refusal::Fault;
use forms::fields::Fields;

// The guards of the fields that are still to come, and the field after the last; past 65,535 fields are not told apart.
pub fn guards(fields: Fields) -> Result<(Guards, u16), Fault>
    ensures { result ≡ guards_from no_guards 3 fields.entry }
{
    let mut found = Guards::NONE;
    // Counted beside the loop: the field after the last is answered too, and the count stops at 65,535.
    let mut k: u16 = 3;
    for text in fields {
        found.add(k, field(text, k)?);
        k = k.saturating_add(1);
    }
    Ok((found, k))
}
