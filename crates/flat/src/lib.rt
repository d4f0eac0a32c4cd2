// Where a problem stands in the three arrays that a call owns and lends to its steps. The places are in
// specs/Flat.antt, the laws of the parts in proofs/Flat.antt.
#![tactic(auto)]

ghost use Rattle.std.specs.Prelude.{◌≡◌, ◌+◌, ◌*◌, ◌≤◌, ◌<◌, length, get_or, take, drop};
ghost use Rattle.flat.specs.Flat.{basis_at, exponents_at, coefficients_at, count_at, kind_at, basis_in, equality_in};

// The keys of polynomial 0 begin here, behind those of the bases.
pub const TERMS: usize = 576;

// The objective is the polynomial behind the multipliers 0 to 8.
pub const OBJECTIVE: usize = 9;

// The number of conditions stands in sizes behind the numbers of terms.
pub const CONDITIONS: usize = 19;

// The kinds of the multipliers stand in sizes from here on: 1 for an equality, 0 for an inequality.
pub const KINDS: usize = 20;

// The joining rule stands behind them.
pub const RULE: usize = 29;

// The sparse order stands last: the most rounds, and 0 where the problem names no order.
pub const ORDER: usize = 30;

// The three arrays of a problem, as they are lent.
#[derive(Clone, Copy)]
pub struct Arrays<'a> {
    pub keys: &'a [u64],
    pub coefficients: &'a [i32],
    pub sizes: &'a [usize],
}

// The n numbers from a place on.
pub fn part(l: &[u64], from: usize, n: usize) -> &[u64]
    requires { from + n ≤ length l.now }
    ensures { result.now ≡ take n (drop from l.now) }
{
    &l[from..from + n]
}

// The monomials of basis j.
pub fn basis<'a, 'b>(keys: &'a [u64], sizes: &'b [usize], j: usize) -> &'a [u64]
    requires { (j < length sizes.now) × (basis_at j + get_or sizes.now j 0 ≤ length keys.now) }
    ensures { result.now ≡ basis_in keys.now sizes.now j }
{
    part(keys, 64 * j, sizes[j])
}

// The exponents of polynomial j.
pub fn exponents<'a, 'b>(keys: &'a [u64], sizes: &'b [usize], j: usize) -> &'a [u64]
    requires { (count_at j < length sizes.now) × (exponents_at j + get_or sizes.now (count_at j) 0 ≤ length keys.now) }
    ensures { result.now ≡ take (get_or sizes.now (count_at j) 0) (drop (exponents_at j) keys.now) }
{
    part(keys, TERMS + 32 * j, sizes[9 + j])
}

// The coefficients of polynomial j.
pub fn coefficients<'a, 'b>(coefficients: &'a [i32], sizes: &'b [usize], j: usize) -> &'a [i32]
    requires { (count_at j < length sizes.now)
        × (coefficients_at j + get_or sizes.now (count_at j) 0 ≤ length coefficients.now) }
    ensures { result.now ≡ take (get_or sizes.now (count_at j) 0) (drop (coefficients_at j) coefficients.now) }
{
    let from = 32 * j;
    let to = from + sizes[9 + j];
    &coefficients[from..to]
}

// Whether g_j is an equality.
pub fn is_equality(sizes: &[usize], j: usize) -> bool
    requires { kind_at j < length sizes.now }
    ensures { result ≡ equality_in sizes.now j }
{
    sizes[KINDS + j] == 1
}
