// Exact sums in two lent tables: the number at a place is hi[at] * 2^27 + lo[at], both signed. A number is cut once, by
// floor division, for all that it is multiplied by, and the products of its halves are added each in its table. Nothing
// is carried before a sum is tested for 0 or divided.
//
// The halves meet at 2^27 because a number of at most 5 * 2^53 then has halves of at most 5 * 2^26, so that 800,000 of
// their products with numbers of 16 bits may be added. A sum of wider products is made part by part, each 2^16 times
// the one before: between the parts the sums are divided by 2^16, and so two tables are enough. What is said of one
// table (Room, addedAt, HasRoom, Near, Shrunk) is said of each.
#![tactic(auto)]

ghost use Rattle.std.specs.Prelude.{◌≡◌, ◌<◌, ◌*ℤ◌, length};
ghost use Rattle.wide_sums.specs.Sums.{carried, step, cut_at, halves_of, Room, added_at, ZeroAt, Divided};

const BASE: i64 = 1 << 27;

// What sums are divided by: a number of wider parts is summed part by part, each 2^16 times the one before.
const STEP: i64 = 1 << 16;

// As often the step goes into the base.
const RATIO: i64 = BASE / STEP;

// The halves of a number: high * 2^27 + low.
#[derive(Clone, Copy, Debug, PartialEq, Eq)]
pub struct Halves {
    pub high: i64,
    pub low: i64,
}

// A number cut at the base. `>>` on a signed number rounds down (floor division), so the low half is never negative:
// the halves of -1 are -1 and 2^27 - 1.
pub fn cut(x: i64) -> Halves
    ensures { result ≡ halves_of x }
{
    let high = x >> 27;
    let low = x - high * BASE;
    Halves { high, low }
}

// Adds a number, in its halves, c times to the sum at a place.
pub fn add(hi: &mut [i64], lo: &mut [i64], at: usize, x: Halves, c: i64)
    requires { Room hi.old at (x.high *ℤ c) × Room lo.old at (x.low *ℤ c) }
    ensures { (hi.new ≡ added_at hi.old at (x.high *ℤ c))
        × (lo.new ≡ added_at lo.old at (x.low *ℤ c)) }
{
    hi[at] += x.high * c;
    lo[at] += x.low * c;
}

// Whether the sum at a place is 0: the low half is cut, and what is above the base is carried.
pub fn is_zero(hi: &[i64], lo: &[i64], at: usize) -> bool
    requires { (at < length hi.now) × (at < length lo.now) }
    ensures { ZeroAt hi.now lo.now at result }
{
    let l = cut(lo[at]);
    l.low == 0 && hi[at] == -l.high
}

// A number cut at 2^16, rounding down.
fn cut_step(x: i64) -> Halves
    ensures { result ≡ cut_at step x }
{
    let high = x >> 16;
    let low = x - high * STEP;
    Halves { high, low }
}

// Divides the sum at a place by 2^16, rounding down; whether it was a multiple of it. What the low half has above the
// base is carried first, so that both halves are small after, and there is room again for as much as at the start.
pub fn divide(hi: &mut [i64], lo: &mut [i64], at: usize) -> bool
    requires { Room hi.old at carried × (at < length lo.old) }
    ensures { Divided at hi.old lo.old hi.new lo.new result }
{
    let l = cut(lo[at]);
    let h = cut_step(hi[at] + l.high);
    let r = cut_step(l.low);
    hi[at] = h.high;
    lo[at] = h.low * RATIO + r.high;
    r.low == 0
}
