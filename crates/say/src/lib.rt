// What the programs write to standard output. A refusal's line is made in a buffer first, under a contract; that bytes handed to
// `write_all` are written no contract can say, so that what a program writes is compared with its file `stdout`.
#![tactic(auto)]

ghost use Rattle.std.specs.Prelude.{◌≡◌, ◌++◌, ◌+◌, ◌≤◌, length, take};
ghost use Rattle.refusal.specs.Refusal.{number_of, place_of};
ghost use Rattle.io.specs.Counts.{IsPrefixLen};
ghost use Rattle.say.specs.Line.{RefusalLine};
ghost use Rattle.say.specs.Design.Grown.{Grown};

use io::decimal;
use refusal::Refusal;
use std::io::Error;

pub fn say(rt: &impl Print, text: &[u8]) -> Result<(), Error> {
    rt.write_all(text)
}

// A number in decimal.
pub fn say_number(rt: &impl Print, n: u64) -> Result<(), Error> {
    rt.print(n)
}

// A refusal's number and place, as a line.
pub fn say_refusal(rt: &impl Print, r: Refusal) -> Result<(), Error> {
    let mut line = [0u8; 64];
    let n = refusal_line(r, &mut line);
    say(rt, &line[..n])
}

// Makes that line at the front of a buffer, and answers how long it is.
pub fn refusal_line(r: Refusal, line: &mut [u8; 64]) -> usize
    ensures prefix_len { IsPrefixLen result line.new }
    ensures refusal_line { RefusalLine (number_of r) (place_of r) (take result line.new) }
{
    let a = put(line, 0, b"number ");
    let b = put_decimal(line, a, r.number() as u64);
    let c = put(line, b, b", place ");
    let d = put_decimal(line, c, r.place());
    put(line, d, b"\n")
}

// Puts a text behind the first `at` bytes, and answers where it ends.
fn put(line: &mut [u8], at: usize, text: &[u8]) -> usize
    requires { at + length text.now ≤ length line.old }
    ensures value { result ≡ at + length text.now }
    ensures line_len_unchanged { length line.new ≡ length line.old }
    ensures line_after { take result line.new ≡ take at line.old ++ text.now }
{
    for k in 0..text.len() {
        line[at + k] = text[k];
    }
    at + text.len()
}

// The same of a number's digits.
fn put_decimal(line: &mut [u8], at: usize, n: u64) -> usize
    requires { at + 20 ≤ length line.old }
    ensures line_len_unchanged { length line.new ≡ length line.old }
    ensures grown { Grown at result n line.old line.new }
{
    let mut digits = [0u8; 20];
    let k = decimal(n, &mut digits);
    put(line, at, &digits[..k])
}
