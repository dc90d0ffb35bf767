// The letters of one moment: bit k is 1 where letter k is true.
#[derive(Clone, Copy)]
pub struct World {
    pub(crate) letters: u32,
}

// The worlds of a table.
// They stand in a plain struct, so that one of them can be lent and changed in place.
#[derive(Clone, Copy)]
pub struct Worlds {
    pub(crate) at: [World; 64],
}
