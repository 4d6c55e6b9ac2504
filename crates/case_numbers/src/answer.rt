// The numbers of an answer. Each kind writes ours to a lent buffer, and one comparison serves them all.
ghost use Rattle.std.specs.Prelude.{◌≡◌, cond, ◌/◌, ◌%◌, ◌^◌, length};
ghost use Rattle.refusal.specs.Refusal.{number_of, place_of};
ghost use Rattle.case_numbers.specs.Answer.{written, put_to, put_all, head_of, same_as};

use crate::case::number_at;
use refusal::Refusal;

// Writes a number at a place and answers the place after it. What does not fit is left out, so that such an answer is
// shorter than the list's and differs.
pub fn put(ours: &mut [u64], at: usize, x: u64) -> usize
    ensures { written ours.new result ≡ put_to (written ours.old at) x }
{
    if at < ours.len() {
        ours[at] = x;
        return at + 1;
    }
    at
}

pub fn bit(b: bool) -> u64
    ensures { result ≡ cond b 1 0 }
{
    if b { 1 } else { 0 }
}

fn wide(x: u8) -> u64
    ensures { result ≡ x }
{
    x as u64
}

pub fn put_bytes(ours: &mut [u64], at: usize, bytes: &[u8]) -> usize
    ensures { written ours.new result
        ≡ put_all (length bytes.now) (written ours.old at) bytes.now }
{
    let mut end = at;
    for k in 0..bytes.len() {
        end = put(ours, end, wide(bytes[k]));
    }
    end
}

fn head(case: &[u64], ours: &mut [u64], number: u64, place: u64) -> usize
    ensures { written ours.new result ≡ head_of case.now ours.old number place }
{
    let kind = put(ours, 0, number_at(case, 0));
    let numbered = put(ours, kind, number);
    put(ours, numbered, place)
}

// What every success begins with: the kind, number 0 and place 0.
pub fn success(case: &[u64], ours: &mut [u64]) -> usize
    ensures { written ours.new result ≡ head_of case.now ours.old 0 0 }
{
    head(case, ours, 0, 0)
}

// A refusal, whole.
pub fn refused(case: &[u64], ours: &mut [u64], why: Refusal) -> usize
    ensures { written ours.new result ≡ head_of case.now ours.old (number_of why) (place_of why) }
{
    head(case, ours, why.number() as u64, why.place())
}

// What a call of the C interface returned: number above place, 0 on success.
pub fn returned(case: &[u64], ours: &mut [u64], res: u64) -> usize
    ensures { written ours.new result
        ≡ head_of case.now ours.old (res / 2 ^ 48) (res % 2 ^ 48) }
{
    head(
        case,
        ours,
        res / 0x1_0000_0000_0000,
        res % 0x1_0000_0000_0000,
    )
}

// Whether the list's answer is the first n numbers of ours.
pub fn same(theirs: &[u64], ours: &[u64], n: usize) -> bool
    ensures { result ≡ same_as theirs.now ours.now n }
{
    let mut ok = theirs.len() == n;
    for k in 0..n {
        ok = ok & (number_at(theirs, k) == number_at(ours, k));
    }
    ok
}
