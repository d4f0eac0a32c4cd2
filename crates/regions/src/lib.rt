// Whether two problems have one region: what refusal 15 compares. Both streams are read into arrays, and these are
// compared.
#![tactic(auto)]

ghost use Rattle.std.specs.Prelude.{◌≡◌, ◌≤◌, ◌<◌, length};
ghost use Rattle.format.specs.ProblemRules.{Problem, read_problem};
ghost use Rattle.flat.specs.TermArrays.{terms_in};
ghost use Rattle.flat.specs.Flat.{FlatLimits, FlatProblem};
ghost use Rattle.calls.specs.AddedBounds.{same_region_read};
ghost use Rattle.regions.specs.Compared.{Tells, SameCondition};

use flat::{Arrays, CONDITIONS, KINDS};

// Whether two lists of terms, each by its keys and its coefficients, are the same, term by term.
fn same_terms(k: &[u64], c: &[i32], l: &[u64], d: &[i32]) -> bool
    requires { (length k.now ≡ length c.now) × (length l.now ≡ length d.now) }
    ensures { let one = terms_in (length k.now) k.now c.now in
        let other = terms_in (length l.now) l.now d.now in
        Tells result (one ≡ other) }
{
    k == l && c == d
}

// Whether condition j of two problems in their arrays is the same: its kind and its terms.
fn same_condition(one: Arrays, other: Arrays, j: usize) -> bool
    requires { FlatLimits one.keys.now one.coefficients.now one.sizes.now
        × FlatLimits other.keys.now other.coefficients.now other.sizes.now
        × (j < 9) }
    ensures { (p q : Problem) → FlatProblem p one.entry.keys.now one.entry.coefficients.now one.entry.sizes.now
        → FlatProblem q other.entry.keys.now other.entry.coefficients.now other.entry.sizes.now
        → Tells result (SameCondition p q j) }
{
    if one.sizes[KINDS + j] != other.sizes[KINDS + j] {
        return false;
    }
    same_terms(
        flat::exponents(one.keys, one.sizes, j),
        flat::coefficients(one.coefficients, one.sizes, j),
        flat::exponents(other.keys, other.sizes, j),
        flat::coefficients(other.coefficients, other.sizes, j),
    )
}

// Whether two problems in their arrays have the same conditions, number by number.
fn same_conditions(one: Arrays, other: Arrays) -> bool
    requires { FlatLimits one.keys.now one.coefficients.now one.sizes.now
        × FlatLimits other.keys.now other.coefficients.now other.sizes.now }
    ensures { (p q : Problem) → FlatProblem p one.entry.keys.now one.entry.coefficients.now one.entry.sizes.now
        → FlatProblem q other.entry.keys.now other.entry.coefficients.now other.entry.sizes.now
        → Tells result (p.conditions ≡ q.conditions) }
{
    let n = one.sizes[CONDITIONS];
    if n != other.sizes[CONDITIONS] {
        return false;
    }
    for j in 1..=n {
        if !same_condition(one, other, j) {
            return false;
        }
    }
    true
}

// Whether two streams give problems over one region: the same number of variables, which is the second byte, and the
// same conditions.
pub fn is_same(problem1: &[u8], problem2: &[u8]) -> bool
    ensures { result ≡ same_region_read (read_problem problem1.now) (read_problem problem2.now) }
{
    let mut keys1 = [0u64; 1120];
    let mut coefficients1 = [0i32; 544];
    let mut sizes1 = [0usize; 31];
    let Ok(()) = problem_reader::read(problem1, &mut keys1, &mut coefficients1, &mut sizes1) else {
        return false;
    };
    let mut keys2 = [0u64; 1120];
    let mut coefficients2 = [0i32; 544];
    let mut sizes2 = [0usize; 31];
    let Ok(()) = problem_reader::read(problem2, &mut keys2, &mut coefficients2, &mut sizes2) else {
        return false;
    };
    if problem1[1] != problem2[1] {
        return false;
    }
    let one = Arrays {
        keys: &keys1,
        coefficients: &coefficients1,
        sizes: &sizes1,
    };
    let other = Arrays {
        keys: &keys2,
        coefficients: &coefficients2,
        sizes: &sizes2,
    };
    same_conditions(one, other)
}
