// Where a text's first line ends, and where the next begins.
ghost use Rattle.std.specs.Prelude.{◌≡◌, ◌≤◌, ◌<◌, length};
ghost use Rattle.hex_read.specs.Design.Places.{bare_end, index_of, FirstLine};

// A text's first line: where it ends, without its line end, and where the next one begins.
#[derive(Clone, Copy)]
pub struct Line {
    pub end: usize,
    pub next: usize,
}

// Where a byte first stands in a text; the text's length where it stands nowhere.
fn find(text: &[u8], b: u8) -> usize
    ensures value { result ≡ index_of b text.now }
    ensures upper_bound { result ≤ length text.now }
{
    for (i, x) in text.iter().enumerate() {
        if *x == b {
            return i;
        }
    }
    text.len()
}

// Where a line ends whose LF stands at a place: ahead of a CR that is part of the line end.
fn bare_end(text: &[u8], at: usize) -> usize
    requires { at ≤ length text.now }
    ensures value { result ≡ bare_end text.now at }
    ensures upper_bound { result ≤ at }
{
    if 0 < at {
        if text[at - 1] == 13 {
            return at - 1;
        }
    }
    at
}

// Finds the first line of a text that has one.
pub fn first_line(text: &[u8]) -> Line
    requires { 0 < length text.now }
    ensures { FirstLine text.now result.end result.next }
{
    let at = find(text, 10);
    if at == text.len() {
        return Line { end: at, next: at };
    }
    Line {
        end: bare_end(text, at),
        next: at + 1,
    }
}
