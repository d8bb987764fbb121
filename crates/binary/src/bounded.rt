// Tests, sums, masks and rows over the numbers below a bound, of what a closure answers for each.
ghost use Rattle.std.specs.Prelude.{◌≡◌, ℕ, Bool, ◌*◌, ◌^◌, ◌<◌, ◌≤◌, ◌++◌, drop, length, slice_index_or};
ghost use Rattle.binary.specs.Bounded.{all_to, any_to, sum_to, mask_to};
ghost use Rattle.binary.specs.Lists.{list_to};
ghost use Rattle.binary.specs.StageClosures.{CallableTo, Computes, StaysWithin};

use crate::numbers::choose;

// Whether every number below n passes. Each is asked, so that no branch hangs on one, where `(0..n).all(test)` ends at the first that fails.
pub fn all_to<F: Fn(usize) -> bool>(n: usize, test: F) -> bool
    requires { CallableTo n (F.pre test) }
    ensures { (p : ℕ → Bool) → Computes n (F.post test) p → result ≡ all_to n p }
{
    let mut all = true;
    for i in 0..n {
        all = all & test(i);
    }
    all
}

// Whether some number below n passes. Each is asked, as above, where `(0..n).any(test)` ends at the first that passes.
pub fn any_to<F: Fn(usize) -> bool>(n: usize, test: F) -> bool
    requires { CallableTo n (F.pre test) }
    ensures { (p : ℕ → Bool) → Computes n (F.post test) p → result ≡ any_to n p }
{
    let mut any = false;
    for i in 0..n {
        any = any | test(i);
    }
    any
}

// The terms of the numbers below n, added: each is at most `most`, so that the sum fits.
pub fn sum_to<F: Fn(usize) -> u64>(n: usize, term: F) -> u64
    requires callable { CallableTo n (F.pre term) }
    requires fits { (most : ℕ) × StaysWithin n (F.post term) most × (n * most < 2 ^ 64) }
    ensures value { (f : ℕ → ℕ) → Computes n (F.post term) f → result ≡ sum_to n f }
    ensures within { (most : ℕ) → StaysWithin n (F.post term) most → result ≤ n * most }
{
    let mut sum: u64 = 0;
    for i in 0..n {
        sum += term(i);
    }
    sum
}

// The mask of the numbers below n that pass: a bit for each.
pub fn mask_to<F: Fn(usize) -> bool>(n: usize, test: F) -> u32
    requires callable { CallableTo n (F.pre test) }
    requires fits { n ≤ 31 }
    ensures value { (p : ℕ → Bool) → Computes n (F.post test) p → result ≡ mask_to n p }
    ensures below { result < 2 ^ n }
{
    let mut mask: u32 = 0;
    let mut weight: u32 = 1;
    for i in 0..n {
        mask += choose(test(i), weight, 0);
        weight *= 2;
    }
    mask
}

// The first n places filled, each with its value.
fn fill_to<T: Copy, F: Fn(usize) -> T>(list: &mut [T], n: usize, value: F)
    requires callable { CallableTo n (F.pre value) }
    requires in_range { n ≤ length list.old }
    ensures value { (f : ℕ → T) → Computes n (F.post value) f → list.new ≡ list_to n f ++ drop n list.old }
    ensures each { (i : ℕ) (d : T) → i < n → F.post value i (slice_index_or list.new i d) }
{
    for i in 0..n {
        list[i] = value(i);
    }
}

// The values at the numbers below N, in a row.
pub fn list_to<T: Copy + Default, const N: usize, F: Fn(usize) -> T>(value: F) -> [T; N]
    requires { CallableTo N (F.pre value) }
    ensures value { (f : ℕ → T) → Computes N (F.post value) f → result ≡ list_to N f }
    ensures each { (i : ℕ) (d : T) → i < N → F.post value i (slice_index_or result i d) }
{
    let mut list = [T::default(); N];
    fill_to(&mut list, N, value);
    list
}
