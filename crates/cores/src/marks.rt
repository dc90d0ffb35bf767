ghost use Rattle.std.specs.Prelude.{◌≡◌, ◌≤◌, length};
ghost use Rattle.protocol.specs.Cores.{padded};
ghost use Rattle.cores.specs.Marks.{MarkedToo, marked_to};

// Marks the numbers of `cites` that are below `k`.
pub(crate) fn mark_below(marks: &mut [bool], cites: &[u16], k: u16)
    requires { k ≤ length marks.old }
    ensures { MarkedToo cites.now k marks.old marks.new }
{
    for c in cites {
        if *c < k {
            marks[*c as usize] = true;
        }
    }
}

// Writes the marked numbers from 1 to `given` into the row, and zeros after them.
pub(crate) fn write_marked(marks: &[bool; 1001], given: u16, row: &mut [u16]) -> u16
    requires few { given ≤ 200 }
    requires long { length row.old ≡ 200 }
    ensures count { result ≡ length (marked_to marks.now given) }
    ensures row { row.new ≡ padded (marked_to marks.now given) }
{
    // Counted by hand: after `iter_mut().zip(..)` a proof knows nothing of what was written, and the end of `1..=given` stays open.
    let mut count = 0;
    for m in 1..given + 1 {
        if marks[m as usize] {
            row[count as usize] = m;
            count += 1;
        }
    }
    row[count as usize..].fill(0);
    count
}
