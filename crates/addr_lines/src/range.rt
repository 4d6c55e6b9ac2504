// Which address lines are in use: as many, from the first, as the index of the largest table has.
ghost use Rattle.std.specs.Prelude.{◌≡◌, ◌≤◌};
ghost use Rattle.addr_lines.specs.Range.{most_entries, reach, in_range};

use crate::num_lines;
use lists::array::one_if;
use slot::description::Description;

// The entries of the largest table.
fn most_entries(d: Description) -> u32
    ensures { result ≡ most_entries d }
{
    if d.word_bytes == 2 {
        d.max_image_size / 2
    } else {
        d.max_image_size
    }
}

// How many lines the index of the largest table has: the whole part of log2(L / w).
fn reach(d: Description) -> u8
    ensures value { result ≡ reach d }
    ensures upper_bound { result ≤ 20 }
{
    let limit = most_entries(d);
    let mut entries: u32 = 1;
    let mut lines: u8 = 0;
    for k in 0u8..20 {
        entries = entries * 2;
        lines += one_if(entries <= limit);
    }
    lines
}

// Lines in use: those that a table has an index for.
pub fn in_range(d: Description) -> u8
    ensures { result ≡ in_range d }
{
    let all = num_lines(d);
    let most = reach(d);
    if all < most { all } else { most }
}
