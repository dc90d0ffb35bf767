ghost use Rattle.std.specs.Prelude.{◌≤◌, IfOk, vec_len};

use std::io::Read;
use std::{fs, io};

// The most bytes that are read of a file: one more than a text may have.
const MOST: usize = 65537;

// The first 65,537 bytes of a file, or as many as it has; none where it cannot be opened or read.
pub fn read_text(rt: &HostRuntime, path: &str) -> io::Result<Vec<u8>>
    ensures { IfOk result (λ v. vec_len v ≤ 65537) }
{
    // one place more than is read: the end of the file then needs no further memory to be found
    let mut bytes = Vec::with_capacity(rt.alloc(), MOST + 1)?;
    let read = fs::open(rt, path).and_then(|file| file.take(MOST as u64).read_to_end(&mut bytes));
    bytes.truncate(read.map_or(0, |_| MOST));
    Ok(bytes)
}
