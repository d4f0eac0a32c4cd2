// What one command leaves in the arrays of the crate flat: a monomial more, a term of the objective more, and a condition
// that is laid out whole.
#![tactic(auto)]

ghost use Rattle.std.specs.Prelude.{◌≡◌, ◌+◌, ◌^◌, ◌≤◌, ◌<◌, length, get_or, [], ◌∷◌, pos};
ghost use Rattle.std.proofs.Math.Seq.{paste};
ghost use Rattle.faults.specs.Numbers.{number_in};
ghost use Rattle.format.specs.ProblemLimits.{most_objective_terms};
ghost use Rattle.problem_commands.specs.Checks.{late_in};
ghost use Rattle.problem_storing.specs.Stores.{no_terms, terms, stored_if, term_stored_if};
ghost use Rattle.flat.specs.Flat.{objective_number, exponents_at, coefficients_at, count_at, kind_number, FlatLimits};
ghost use Rattle.flat.specs.TermArrays.{FilledTerms};
ghost use Rattle.polynomial.specs.Monomial.{among};
ghost use Rattle.polynomial.specs.Terms.{term};

use faults::Fault;
use flat::{OBJECTIVE, TERMS};
use format::problem::Kind;

// A polynomial of up to 32 terms, as a condition has: packed exponents (keys) and coefficients, place by place, and the
// number of terms.
#[derive(Drop)]
pub struct Polynomial {
    pub keys: [u64; 32],
    pub coefficients: [i32; 32],
    pub count: usize,
}

impl Polynomial {
    pub fn empty() -> Self
        ensures { result ≡ no_terms }
    {
        Polynomial {
            keys: [0; 32],
            coefficients: [0; 32],
            count: 0,
        }
    }

    // The number 1.
    pub fn one() -> Self
        ensures { FilledTerms 16 32 (2 ^ 15) result.keys result.coefficients result.count × (terms result ≡ term 0 (pos 1) ∷ []) }
    {
        let mut q = Polynomial::empty();
        q.coefficients[0] = 1;
        q.count = 1;
        q
    }

    // One term more, where the checks 5 and 6 let it in.
    pub fn put(&mut self, key: u64, c: i32) -> Result<(), Fault>
        requires { self.old.count ≤ 32 }
        ensures { (number_in result ≡ late_in self.old.keys 0 self.old.count key 32)
            × (self.new ≡ term_stored_if (number_in result) self.old key c) }
    {
        let n = self.count;
        check_room(&self.keys, 0, n, key, 32)?;
        self.keys[n] = key;
        self.coefficients[n] = c;
        self.count = n + 1;
        Ok(())
    }
}

// Whether a monomial stands in a list.
pub fn is_among(keys: &[u64], key: u64) -> bool
    ensures { result ≡ among key keys.now }
{
    keys.contains(&key)
}

// The number that stands for a kind in the arrays.
pub fn kind_in_arrays(kind: Kind) -> usize
    ensures { result ≡ kind_number kind }
{
    match kind {
        Kind::Inequality => 0,
        Kind::Equality => 1,
    }
}

// The checks 5 and 6 of one monomial more, for a list of at most `limit` that has `count`, from a place of the keys on.
#[tactic(auto, unfolding(format::specs::Commands::first_refusal))]
pub fn check_room(
    keys: &[u64],
    from: usize,
    count: usize,
    key: u64,
    limit: usize,
) -> Result<(), Fault>
    requires { from + count ≤ length keys.now }
    ensures { number_in result ≡ late_in keys.now from count key limit }
{
    if is_among(flat::part(keys, from, count), key) {
        return Err(Fault::Repeated);
    }
    if limit <= count {
        return Err(Fault::Excess);
    }
    Ok(())
}

// One monomial more, where the checks 5 and 6 let it in, for a list of at most `limit` from a place of the keys on. Its
// length is sizes[which].
pub fn put(
    keys: &mut [u64; 1120],
    sizes: &mut [usize; 31],
    which: usize,
    from: usize,
    key: u64,
    limit: usize,
) -> Result<(), Fault>
    requires { (which < 31) × (get_or sizes.old which 0 ≤ limit) × (from + limit ≤ 1120) }
    ensures { let n = get_or sizes.old which 0 in (number_in result ≡ late_in keys.old from n key limit)
        × (keys.new ≡ stored_if (number_in result) keys.old (from + n) key)
        × (sizes.new ≡ stored_if (number_in result) sizes.old which (n + 1)) }
{
    let n = sizes[which];
    check_room(keys, from, n, key, limit)?;
    keys[from + n] = key;
    sizes[which] = n + 1;
    Ok(())
}

// One term more for the objective, where the checks 5 and 6 let it in.
pub fn put_objective(
    keys: &mut [u64; 1120],
    coefficients: &mut [i32; 544],
    sizes: &mut [usize; 31],
    key: u64,
    c: i32,
) -> Result<(), Fault>
    requires { FlatLimits keys.old coefficients.old sizes.old }
    ensures { let j = objective_number in let n = get_or sizes.old (count_at j) 0 in (number_in result ≡ late_in keys.old (exponents_at j) n key most_objective_terms)
        × (keys.new ≡ stored_if (number_in result) keys.old (exponents_at j + n) key)
        × (coefficients.new ≡ stored_if (number_in result) coefficients.old (coefficients_at j + n) c)
        × (sizes.new ≡ stored_if (number_in result) sizes.old (count_at j) (n + 1)) }
{
    let n = sizes[9 + OBJECTIVE];
    put(keys, sizes, 9 + OBJECTIVE, TERMS + 32 * OBJECTIVE, key, 256)?;
    coefficients[32 * OBJECTIVE + n] = c;
    Ok(())
}

// The terms of a polynomial laid out as number j.
pub fn lay_out(keys: &mut [u64; 1120], coefficients: &mut [i32; 544], j: usize, q: &Polynomial)
    requires { (j < 9) × FilledTerms 16 32 (2 ^ 15) q.now.keys q.now.coefficients q.now.count }
    ensures { (keys.new ≡ paste keys.old (exponents_at j) q.now.keys q.now.count)
        × (coefficients.new ≡ paste coefficients.old (coefficients_at j) q.now.coefficients q.now.count) }
{
    let n = q.count;
    let at = 32 * j;
    keys[TERMS + at..TERMS + at + n].copy_from_slice(&q.keys[..n]);
    coefficients[at..at + n].copy_from_slice(&q.coefficients[..n]);
}
