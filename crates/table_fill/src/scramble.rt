// A word's bits at the data lines' positions, by tables of what its bytes come to.
ghost use Rattle.std.specs.Prelude.{◌≡◌, ◌*◌, ◌^◌, ◌≤◌};
ghost use Rattle.lists.specs.Tab.{tab};
ghost use Rattle.table_fill.specs.Design.Entries.{WiringIn, scrambled_by};

use crate::wiring::Wiring;
use byte_tables::scatter_table;

// What each value of a byte comes to that stands so many bits up in the word.
pub fn scrambles(w: Wiring, up: u32) -> [u32; 256]
    requires { WiringIn w × (up ≤ 8) }
    ensures { result ≡ tab 256 (λ v. scrambled_by w (v * 2 ^ up)) }
{
    let lines = w.data_lines;
    scatter_table(&lines, w.num_data as usize, 8 * w.word_bytes as u32, up)
}
