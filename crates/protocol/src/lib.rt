// The calls on a case, what each is answered, and what holds after every list of them.
#![tactic(auto)]

ghost use Rattle.protocol.specs.Promise.{Promise};

// What holds after every list of calls, for every rule book and every run source.
pub fn promise_stands() -> u8
    ensures { Promise }
{
    0
}
