ghost use Rattle.std.specs.Prelude.{◌≡◌};

use crate::stage::OpenLoop;

impl OpenLoop {
    // The number of the last line.
    pub fn last(&self) -> u16
        ensures { result ≡ self.now.body.last }
    {
        self.body.last
    }

    // The number of the loop's first line.
    pub fn first(&self) -> u16
        ensures { result ≡ self.now.first }
    {
        self.first
    }
}
