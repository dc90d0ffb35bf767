ghost use Rattle.std.specs.Prelude.{◌<◌, ◌≤◌};

// A mask of letters for each moment, waiting letters among them.
// The library allocates nothing, so the masks stand in an array with room for the longest run.
#[derive(Drop)]
pub struct Masks {
    pub(crate) at: [u64; 4096],
}

// The worlds of a run's lead-in and loop.
#[derive(Drop)]
pub struct Moments {
    pub(crate) worlds: Masks,
    pub(crate) lead: u16,
    pub(crate) end: u16,
    ghost fits: { end ≤ 4096 },
    ghost inside: { lead < end },
}
