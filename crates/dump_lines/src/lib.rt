// The order of a dump's bytes as an order of data lines: a word of two bytes whose high byte comes first is the word of the same lines with
// those of its two bytes exchanged, low byte first. So the order is looked at once a ROM, and no word costs more for it.
#![tactic(auto)]

ghost use Rattle.std.specs.Prelude.{◌≡◌, ◌<◌};
ghost use Rattle.words.specs.declared.ByteOrder.TheVariants.{HighFirst};
ghost use Rattle.dump_lines.specs.Design.Lines.{other_byte, turned_map, ordered_map};

use entry_words::Map;

// The line of the other byte that carries the same bit of it.
fn other_byte(k: usize) -> usize
    requires { k < 32 }
    ensures value { result ≡ other_byte k }
    ensures upper_bound { result < 32 }
{
    if k < 8 {
        return k + 8;
    }
    k - 8
}

// The lines of the two bytes of a word, exchanged.
fn turned(map: Map) -> Map
    ensures { result ≡ turned_map map }
{
    let positions = map.positions;
    let mut out = [0u8; 32];
    for k in 0..32 {
        out[k] = positions[other_byte(k)];
    }
    Map {
        positions: out,
        lines: map.lines,
    }
}

// The data lines of a dump that has the high byte first. Only a word of two bytes has two orders.
pub fn high_first(map: Map) -> Map
    ensures { result ≡ ordered_map HighFirst map }
{
    if map.lines == 16 {
        return turned(map);
    }
    map
}
