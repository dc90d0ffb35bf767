// What the definitions come to on worked examples.
#![tactic(auto)]

ghost use Rattle.examples.specs.Examples.{Examples};

// Every worked example comes out as it is told.
pub fn examples_stand() -> u8
    ensures { Examples }
{
    0
}
