// The sums at the compared keys, in two lent tables: a product added at its key, a polynomial added so many times, and
// minus the claim.
//
// The two tables of sums stay two parameters: a struct with a `&mut` to each is no plainer, as each contract would have
// to say that both still lead to the same table.
#![tactic(auto)]

ghost use Rattle.std.specs.Prelude.{◌≡◌, ◌+◌, ◌*◌, ◌%◌, ◌≤◌, ◌<◌, nat_abs, neg_ℤ, ◌*ℤ◌, length, get_or};
ghost use Rattle.polynomial.specs.Algebra.{sum, match, coefficient};
ghost use Rattle.accepting.specs.Identity.{claim_of};
ghost use Rattle.flat.specs.Flat.{exponents_at, coefficients_at, count_at};
ghost use Rattle.key_set.specs.Table.{divisor_in, Divided};
ghost use Rattle.wide_sums.specs.Sums.{value_of};
ghost use Rattle.identity_sums.specs.Tables.{unit, claim_most, Scaled, Negates};
ghost use Rattle.identity_sums.specs.Bundles.{IsPolynomial, ReadyFor, Grown, held, AddableTerms, PlacedBy};

use flat::Arrays;
use format::certificate::Header;

// The compared keys: the first `count` numbers of a table, and their index.
#[derive(Clone, Copy)]
pub struct Compared<'a> {
    pub table: &'a [u64],
    pub count: usize,
    pub index: &'a [u16; 6144],
}

// A polynomial in two arrays: as many terms as exponents, each with the coefficient at the same place.
#[derive(Clone, Copy)]
pub struct Terms<'a> {
    pub exponents: &'a [u64],
    pub coefficients: &'a [i32],
}

// Polynomial j of a problem: a multiplier, or the objective.
pub fn polynomial(problem: Arrays, j: usize) -> Terms
    requires { (count_at j < length problem.sizes.now)
        × (exponents_at j + get_or problem.sizes.now (count_at j) 0 ≤ length problem.keys.now)
        × (coefficients_at j + get_or problem.sizes.now (count_at j) 0 ≤ length problem.coefficients.now) }
    ensures { IsPolynomial problem.entry j result }
{
    Terms {
        exponents: flat::exponents(problem.keys, problem.sizes, j),
        coefficients: flat::coefficients(problem.coefficients, problem.sizes, j),
    }
}

// Adds c times a number, in its halves, at the place of a key, where it has one.
fn add_term(
    keys: Compared,
    hi: &mut [i64],
    lo: &mut [i64],
    key: u64,
    at: usize,
    x: wide_sums::Halves,
    c: i32,
)
    requires { ReadyFor keys hi.old lo.old unit
        × Scaled x c
        × (at ≡ key % divisor_in keys.index.now) }
    ensures { Grown keys.entry hi.old lo.old
        (λ k. value_of x.high x.low *ℤ c *ℤ match k key) unit hi.new lo.new }
{
    let index = keys.index;
    match key_set::find_at(keys.table, index, keys.count, key, at) {
        Ok(p) => wide_sums::add(hi, lo, p, x, c as i64),
        Err(_) => {}
    }
}

// A polynomial, and the places of its exponents in the index of the compared keys. With them the place of a sum is found
// without a division.
#[derive(Clone, Copy)]
pub struct Placed<'a> {
    pub terms: Terms<'a>,
    pub slots: [usize; 32],
}

pub fn place<'a, 'b>(keys: Compared<'a>, terms: Terms<'b>) -> Placed<'b>
    requires { (length terms.exponents.now ≤ 32) × Divided keys.index.now }
    ensures { PlacedBy keys.entry result × (result.terms ≡ terms.entry) }
{
    let index = keys.index;
    let mut slots = [0; 32];
    for t in 0..terms.exponents.len() {
        slots[t] = key_set::slot(index, terms.exponents[t]);
    }
    Placed { terms, slots }
}

// Adds x times a polynomial, moved by a key. The number x is cut once for all terms.
pub fn add_terms(keys: Compared, hi: &mut [i64], lo: &mut [i64], placed: &Placed, key: u64, x: i64)
    requires ready { ReadyFor keys hi.old lo.old (length placed.now.terms.exponents.now * unit) }
    requires addable { AddableTerms placed.now.terms key x × PlacedBy keys placed.now }
    ensures { Grown keys.entry hi.old lo.old
        (λ k. x *ℤ sum (λ t. match k (key + t)) (held placed.now.terms))
        (length placed.now.terms.exponents.now * unit) hi.new lo.new }
{
    let Terms {
        exponents,
        coefficients,
    } = placed.terms;
    let index = keys.index;
    let h = wide_sums::cut(x);
    let d = key_set::divisor(index);
    let slot = key_set::slot(index, key);
    // By index: a term has its exponent, its coefficient and its place in the index at one place of three arrays.
    for t in 0..exponents.len() {
        let at = key_set::slot_of_sum(d, slot, placed.slots[t]);
        add_term(keys, hi, lo, key + exponents[t], at, h, coefficients[t]);
    }
}

// Adds a number at the place of a key, where it has one.
fn add_number(keys: Compared, hi: &mut [i64], lo: &mut [i64], key: u64, y: i64)
    requires { ReadyFor keys hi.old lo.old unit }
    ensures { Grown keys.entry hi.old lo.old (λ k. y *ℤ match k key) unit hi.new lo.new }
{
    let index = keys.index;
    let at = key_set::slot(index, key);
    add_term(keys, hi, lo, key, at, wide_sums::cut(y), 1);
}

// Adds x times the objective. Its coefficients have 32 bits, so each product is made first, and then cut.
fn add_objective(keys: Compared, hi: &mut [i64], lo: &mut [i64], terms: Terms, x: i64)
    requires { ReadyFor keys hi.old lo.old (length terms.exponents.now * unit)
        × (length terms.exponents.now ≤ length terms.coefficients.now)
        × (nat_abs x ≤ claim_most) }
    ensures { Grown keys.entry hi.old lo.old (λ k. x *ℤ sum (match k) (held terms.entry))
        (length terms.entry.exponents.now * unit) hi.new lo.new }
{
    let coefficients = terms.coefficients;
    for (&exponent, &coefficient) in terms.exponents.iter().zip(coefficients) {
        add_number(keys, hi, lo, exponent, x * (coefficient as i64));
    }
}

// The factors of the objective and of 1 in minus the claim.
#[derive(Clone, Copy)]
pub struct Negated {
    pub objective: i64,
    pub constant: i64,
}

// An upper bound's claim has both signs turned.
fn negate(side: usize, scale: u16, p: i32, q: u16) -> Negated
    ensures { Negates side scale p q result }
{
    let m = (scale as i64) * (q as i64);
    let c = (scale as i64) * (p as i64);
    if side == 0 {
        Negated {
            objective: -m,
            constant: c,
        }
    } else {
        Negated {
            objective: m,
            constant: -c,
        }
    }
}

// Takes the claim away: D * (q * objective - p), or with both signs turned.
pub fn add_claim(keys: Compared, hi: &mut [i64], lo: &mut [i64], objective: Terms, header: Header)
    requires { ReadyFor keys hi.old lo.old ((length objective.exponents.now + 1) * unit)
        × (length objective.exponents.now ≤ length objective.coefficients.now) }
    ensures { Grown keys.entry hi.old lo.old
        (λ k. neg_ℤ (coefficient k (claim_of (held objective.entry) header)))
        ((length objective.entry.exponents.now + 1) * unit) hi.new lo.new }
{
    let f = negate(header.side, header.scale, header.p, header.q);
    add_objective(keys, hi, lo, objective, f.objective);
    add_number(keys, hi, lo, 0, f.constant);
}
