// Arrays with a count beside them: an entry, which answers past the end too, a test of the entries up to the count, and one that is
// counted.
ghost use Rattle.std.specs.Prelude.{◌≡◌, cond, ◌≤◌, get_or};
ghost use Rattle.lists.specs.Each.{each, between};

// An entry; 0 past the list's end, so that no caller has to know a length.
pub fn entry(list: &[u8], k: usize) -> u8
    ensures { result ≡ get_or list.now k 0 }
{
    if k < list.len() {
        return list[k];
    }
    0
}

// 1 where a test passes, else 0: added up, how many pass.
pub fn one_if(b: bool) -> u8
    ensures value { result ≡ cond b 1 0 }
    ensures upper_bound { result ≤ 1 }
{
    if b { 1 } else { 0 }
}

// Whether each of the first `count` entries is at least `low` and at most `high`.
pub fn all_between(list: &[u8], count: u8, low: u8, high: u8) -> bool
    ensures { result ≡ each count (λ k. between low high (get_or list.now k 0)) }
{
    let n = count as usize;
    let mut ok = true;
    for k in 0..n {
        let x = entry(list, k);
        ok = ok & ((low <= x) & (x <= high));
    }
    ok
}
