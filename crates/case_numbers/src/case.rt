// The numbers of a case. A place past the end reads 0.
ghost use Rattle.std.specs.Prelude.{◌≡◌, get_or};
ghost use Rattle.case_numbers.specs.Case.{byte_at, has_bytes, bytes_from};

pub fn number_at(case: &[u64], at: usize) -> u64
    ensures { result ≡ get_or case.now at 0 }
{
    if at < case.len() {
        return case[at];
    }
    0
}

pub fn byte_at(case: &[u64], at: usize) -> u8
    ensures { result ≡ byte_at case.now at }
{
    (number_at(case, at) % 256) as u8
}

// Whether a case has n numbers, each of which is a byte.
pub fn has_bytes(case: &[u64], n: usize) -> bool
    ensures { result ≡ has_bytes case.now n }
{
    let mut ok = case.len() == n;
    for k in 0..n {
        ok = ok & (number_at(case, k) < 256);
    }
    ok
}

// The description record, whose first byte stands at a place of the case.
pub fn record_bytes(case: &[u64], at: u8) -> [u8; 424]
    ensures { result ≡ bytes_from case.now at 424 }
{
    let mut out = [0u8; 424];
    for k in 0..424 {
        out[k] = byte_at(case, at as usize + k);
    }
    out
}
