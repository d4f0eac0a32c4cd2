// Fractions: two are compared by cross products, the gap and the sum of two bounds, and what stands for a gap below 0.
#![tactic(auto)]

ghost use Rattle.std.specs.Prelude.{◌≡◌, ◌+◌, ◌*◌, ◌^◌, ◌<◌, ◌≤◌, ltb, pos, nat_abs, ◌*ℤ◌};
ghost use Rattle.fractions.specs.Ranges.{Bound};
ghost use Rattle.calls.specs.Fractions.{fraction, is_less, gap_of, is_negative, unless_negative, none};
ghost use Rattle.calls.specs.AddedBounds.{sum_of};

use calls::Fraction;

// A numerator times another fraction's denominator, for two bounds: below 2^47.
fn cross(n: i64, d: u64) -> i64
    requires { (nat_abs n ≤ 2 ^ 31) × (d < 2 ^ 16) }
    ensures { (result ≡ n *ℤ pos d) × (nat_abs result ≤ 2 ^ 47) }
{
    n * (d as i64)
}

// 0 over 1. A gap below it is no distance.
pub const ZERO: Fraction = Fraction { num: 0, den: 1 };

// 0 over 0, which stands in the place of a fraction with a refusal, and of a gap that is below 0.
pub const NONE: Fraction = Fraction { num: 0, den: 0 };

// The bound p/q that a certificate states.
pub fn bound(p: i32, q: u16) -> Fraction
    ensures { (result ≡ fraction p q) × Bound result }
{
    Fraction {
        num: i64::from(p),
        den: u64::from(q),
    }
}

// The absolute value. The least number has no opposite in 64 bits.
pub fn magnitude(n: i64) -> u64
    ensures { result ≡ nat_abs n }
{
    n.unsigned_abs()
}

// Half a word: numbers are multiplied by their halves, so that no sum leaves a word. Not in 128 bits, nor by a method of std
// that is: for those the WebAssembly module of tools/wasm would have to import `__multi3`, and it imports nothing.
const HALF: u64 = 1 << 32;

// A product in two words: high * 2^64 + low. The order that is derived compares the high words first.
#[derive(Clone, Copy, Debug, PartialEq, Eq, PartialOrd, Ord)]
struct Words {
    high: u64,
    low: u64,
}

// The product of any two numbers. A product of two halves, with a half added, fits a word.
fn product(n: u64, d: u64) -> Words
    ensures { result.high * 2 ^ 64 + result.low ≡ n * d }
{
    let n1 = n / HALF;
    let n0 = n % HALF;
    let d1 = d / HALF;
    let d0 = d % HALF;
    let lowest = n0 * d0;
    let middle = n1 * d0 + lowest / HALF;
    let other = n0 * d1 + middle % HALF;
    Words {
        high: n1 * d1 + middle / HALF + other / HALF,
        low: other % HALF * HALF + lowest % HALF,
    }
}

// Whether the product of n and d is less than that of m and e, whatever they are.
fn less_products(n: u64, d: u64, m: u64, e: u64) -> bool
    ensures { result ≡ ltb (n * d) (m * e) }
{
    product(n, d) < product(m, e)
}

// Whether the first is less than the other, by cross products: for bounds, gaps and any other fractions. A product's
// sign is that of its numerator, or it is 0. A function and no `PartialOrd`: 0/0 is neither less nor greater than any, so this
// is no order.
#[tactic(auto, using(crate::proofs::Order::both_below, crate::proofs::Order::across, crate::proofs::Order::from_zero, crate::proofs::Order::not_across, crate::proofs::Order::neither_below))]
pub fn less(first: Fraction, other: Fraction) -> bool
    ensures { result ≡ is_less first other }
{
    let n = first.num.unsigned_abs();
    let m = other.num.unsigned_abs();
    match (first.num < 0, other.num < 0) {
        (true, true) => less_products(m, first.den, n, other.den),
        (true, false) => 0 < other.den || less_products(0, 0, m, first.den),
        (false, true) => false,
        (false, false) => less_products(n, other.den, m, first.den),
    }
}

// The gap from a lower bound to an upper bound: (P × q − p × Q)/(Q × q), not reduced.
pub fn gap(lower: Fraction, upper: Fraction) -> Fraction
    requires { Bound lower × Bound upper }
    ensures { result ≡ gap_of lower upper }
{
    let a = cross(upper.num, lower.den);
    let b = cross(lower.num, upper.den);
    Fraction {
        num: a - b,
        den: upper.den * lower.den,
    }
}

// The sum of two bounds: (p × q' + p' × q)/(q × q'), not reduced. The numerator is below 2^48 in size and the
// denominator below 2^32.
pub fn sum(first: Fraction, other: Fraction) -> Fraction
    requires { Bound first × Bound other }
    ensures { result ≡ sum_of first other }
{
    let a = cross(first.num, other.den);
    let b = cross(other.num, first.den);
    Fraction {
        num: a + b,
        den: first.den * other.den,
    }
}

// Whether a gap is below 0. One of 0 is not.
#[tactic(auto, using(crate::proofs::Order::below_zero))]
pub fn is_negative(f: Fraction) -> bool
    ensures { result ≡ is_negative f }
{
    less(f, ZERO)
}

// A gap as it is, or 0 over 0 where it is below 0.
pub fn unless_negative(f: Fraction) -> Fraction
    ensures { result ≡ unless_negative f }
{
    if is_negative(f) { NONE } else { f }
}

// What a refusal returns in the place of a fraction.
pub fn no_fraction() -> Fraction
    ensures { result ≡ none }
{
    NONE
}
