// What the bits of a number at the positions of all maps come to.
ghost use Rattle.std.specs.Prelude.{◌≡◌, ◌+◌, ◌*◌, ◌≤◌, ◌<◌, ◌^◌, length};
ghost use Rattle.entry_words.specs.Design.Reading.{MapIn, MapsIn, gathered, part_by};
ghost use Rattle.entry_rows.specs.Design.Rows.{byte_tables, high_of};
ghost use Rattle.entry_walk.specs.Design.Tables.{Put};

use bits::gather;
use entry_words::{Map, byte_table};

// What a map says of a number.
fn gathered(map: Map, i: u32) -> u32
    requires { map.lines ≤ 32 }
    ensures { result ≡ gathered map i }
{
    let positions = map.positions;
    gather(&positions, map.lines as usize, i)
}

// What map k says of it.
fn part_of(maps: [Map; 5], k: usize, i: u32) -> u32
    requires { MapIn maps k }
    ensures { result ≡ part_by maps k i }
{
    gathered(maps[k], i)
}

// A table of 256 entries from a place on.
fn put_table(out: &mut [u32], at: usize, table: &[u32])
    requires { (at + 256 ≤ length out.old) × (length table.now ≡ 256) }
    ensures { Put at table.now out.old out.new }
{
    out[at..at + 256].copy_from_slice(table);
}

// What each map says of each byte, where it stands so many bits up: the 256 of map k from 256 k on.
pub fn parts(maps: [Map; 5], up: u32) -> [u32; 1280]
    requires { MapsIn maps × (up ≤ 8) }
    ensures { result ≡ byte_tables maps (2 ^ up) }
{
    let mut out = [0u32; 1280];
    for k in 0..5 {
        let table = byte_table(maps[k], up);
        put_table(&mut out, k * 256, &table);
    }
    out
}

// What each map says of a number.
pub fn parts_of(maps: [Map; 5], i: u32) -> [u32; 5]
    requires { MapsIn maps }
    ensures { result ≡ high_of maps i }
{
    let mut out = [0u32; 5];
    for k in 0..5 {
        out[k] = part_of(maps, k, i);
    }
    out
}
